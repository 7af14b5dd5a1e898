//! Allocators that cut a region into buckets of one layout, and allocate one bucket for each
//! request.
ghost use Rattle.bb_memory_index_set.specs.IndexSets.{index_words, words_with_list};
ghost use Rattle.bb_memory_owned.specs.Pool.{FreesBucket, HoldsPlace, StandsFor, counted, fresh_pool};
ghost use Rattle.bb_memory_traits.specs.Chunk.{Chunk, first_place, region_at};
ghost use Rattle.bb_memory_traits.specs.Geometry.{MayBeCut};
ghost use Rattle.bb_memory_traits.specs.PoolObject.{IsCut, PoolGeometry};
ghost use Rattle.bb_memory_traits.specs.declared.allocator.AllocationError.{AllocationError};
ghost use Rattle.std.specs.Prelude.{IfErr, IfOk, IsTrue, List, Some, [], false, remove, slice_get, ℕ, ◌*◌, ◌/◌, ◌<◌, ◌^◌, ◌↔◌, ◌≡◌, ◌≢◌, ◌≤◌};

mod bucket_pool;
mod fixed_size;
mod laws;

use bb_memory_index_set::index_set::Counter;
use bb_memory_index_set::index_set::words::Words;
pub use bb_memory_traits::allocator::{
    AllocationError, AllocationGrowError, AllocationShrinkError, Allocator, BaseAllocator,
};
pub use bb_memory_traits::geometry;
use bb_memory_traits::geometry::{Geometry, stride};
pub use bb_memory_traits::layout::Layout;
use bb_memory_traits::layout::round_up;
use bucket_pool::BucketPool;
pub use fixed_size::FixedSizePoolAllocator;
pub use laws::{pool_count_law, pool_geometry_law, pool_held_law, pool_object_law};
use std::alloc::{Allocator as LanguageAllocator, Global};
use std::marker::Model;

/// A pool whose index words aren't allocated yet.
#[derive(Drop)]
pub struct UninitPoolAllocator {
    geometry: Geometry,
}

impl Model for UninitPoolAllocator {
    ghost use Rattle.bb_memory_owned.specs.Pool.{IsUninit};
    ghost use Rattle.bb_memory_traits.specs.PoolObject.{PoolGeometry};

    ghost Value = { PoolGeometry };

    ghost view = { λ a. a.geometry };

    ghost invariant = { λ a. IsUninit a.geometry };
}

impl UninitPoolAllocator {
    /// Allocates memory for the index words, and makes a pool with no bucket held. Fails only with
    /// `OutOfMemory`, if memory ran out, and then returns the uninitialized pool unchanged.
    pub fn init<A: LanguageAllocator>(
        self,
        alloc: A,
    ) -> Result<PoolAllocator<A>, (UninitPoolAllocator, AllocationError)>
        ensures value { IfOk result (λ pool. pool ≡ counted (fresh_pool self) 0 0) }
        ensures empty { IfOk result (λ pool. StandsFor pool.pool []) }
        ensures refused { IfErr result (λ refusal. refusal ≡ (self, AllocationError.OutOfMemory)) }
    {
        match Words::new(alloc, self.geometry.count()) {
            Ok(held) => Ok(BucketPool {
                geometry: self.geometry,
                held,
                last_search: Counter::new(),
            }),
            Err(_) => Err((self, AllocationError::OutOfMemory)),
        }
    }
}

/// Allocates buckets of one layout. Words of 64 bits record which buckets are held; memory for the
/// words is allocated once, in [`UninitPoolAllocator::init`].
///
/// Example: `comments::pool` of `crates/examples`.
pub type PoolAllocator<A> = BucketPool<Words<A>>;

// Functions that don't involve index words are defined for one allocator type only, so that callers
// needn't name one.
impl PoolAllocator<Global> {
    /// Makes a pool over the region of `size` bytes at `start`, cut into buckets of this layout,
    /// whose index words [`UninitPoolAllocator::init`] makes. The start and the bucket's size have
    /// to be greater than 0. The start plus the size, and the start rounded up to the bucket's
    /// alignment, have to be at most `usize::MAX`. There have to be fewer than `u32::MAX` buckets.
    /// [`PoolAllocator::can_make`] tests all of it.
    pub fn new_uninit(bucket_layout: Layout, start: usize, size: usize) -> UninitPoolAllocator
        requires { MayBeCut (region_at start size) bucket_layout }
        ensures { IsCut (region_at start size) bucket_layout result }
    {
        UninitPoolAllocator {
            geometry: Geometry::new(bucket_layout, start, size),
        }
    }

    /// Returns whether `new_uninit` may be called with these arguments.
    pub fn can_make(bucket_layout: Layout, start: usize, size: usize) -> bool
        ensures { IsTrue result ↔ MayBeCut (region_at start size) bucket_layout }
    {
        if start == 0 || bucket_layout.size() == 0 {
            return false;
        }
        let Some(end) = start.checked_add(size) else {
            return false;
        };
        let Some(first) = round_up(start, bucket_layout.align()) else {
            return false;
        };
        end.saturating_sub(first) / stride(bucket_layout) < u32::MAX as usize
    }

    /// Returns a number of bytes that is enough for the index words, and for their list, of a pool
    /// over a region of `size` bytes that starts anywhere: eight times the quotient of `size` and
    /// the bucket's size, rounded down. The bucket's size has to be greater than 0, and the
    /// quotient at most `u32::MAX`.
    pub fn memory_size(bucket_layout: Layout, size: usize) -> usize
        requires filled { 0 < bucket_layout.size }
        requires quotient { size / bucket_layout.size < 2 ^ 32 }
        ensures value { result ≡ 8 * (size / bucket_layout.size) }
        ensures enough { (start : ℕ) (geometry : PoolGeometry)
            → IsCut (region_at start size) bucket_layout geometry
            → 8 * words_with_list geometry.buckets ≤ result }
    {
        8 * (size / bucket_layout.size())
    }
}

impl<A: LanguageAllocator> PoolAllocator<A> {
    /// Returns the place of the first bucket: the region's start, rounded up to the bucket's
    /// alignment.
    #[inline]
    pub fn start_address(&self) -> usize
        ensures { result ≡ first_place self.now.pool.geometry.region self.now.pool.geometry.bucket }
    {
        self.geometry.first()
    }

    /// Returns how many index words the last `allocate` or `allocate_zeroed` read: one if it
    /// searched for a free bucket in a pool that has a bucket, and 0 if it was refused because of
    /// the size or the alignment. Before the first call the result is 0. The number is at most an
    /// eighth of [`PoolAllocator::memory_size`], and at most the number of buckets divided by 64,
    /// rounded up.
    #[inline]
    pub fn last_reads(&self) -> u32
        ensures value { result ≡ self.now.reads }
        ensures most { result ≤ index_words self.now.pool.geometry.buckets }
    {
        self.last_search.count()
    }

    /// Gives back the bucket at this place, which has to be held, as `deallocate` does.
    ///
    /// Example: `pools::counted_by_bucket` of `crates/examples`.
    #[inline(always)]
    pub fn deallocate_bucket(&mut self, place: usize)
        requires { HoldsPlace self.old.pool place }
        ensures value { FreesBucket self.old place self.new }
        ensures released { (live : List Chunk) (position : ℕ) (chunk : Chunk)
            → StandsFor self.old.pool live → slice_get live position ≡ Some chunk
            → chunk.place ≡ place → StandsFor self.new.pool (remove live position) }
        ensures geometry { self.new.pool.geometry ≡ self.old.pool.geometry }
        ensures reads { self.new.reads ≡ self.old.reads }
    {
        self.deallocate(place, Layout::empty());
    }
}
