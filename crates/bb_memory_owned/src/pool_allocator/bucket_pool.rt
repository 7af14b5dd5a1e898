//! Pools over a set of held buckets: what all pools of this crate have in common.
ghost use Rattle.bb_memory_index_set.specs.IndexSets.{Has, Lacks, member_count};
ghost use Rattle.bb_memory_owned.specs.Pool.{Allocates, FreesBucket, HoldsPlace, IsPool, StandsFor, Takes, TakesBucket, held_count, pool_of, reads_of};
ghost use Rattle.bb_memory_traits.specs.Chunk.{Chunk};
ghost use Rattle.bb_memory_traits.specs.Geometry.{TellsNumber, TellsPlace};
ghost use Rattle.bb_memory_traits.specs.PoolObject.{bucket_place};
ghost use Rattle.std.specs.Prelude.{IfErr, IfSome, IsSome, IsTrue, List, Some, false, length, max, remove, slice_get, true, ℕ, ◌↔◌, ◌≡◌, ◌≢◌, ◌≤◌};

use bb_memory_index_set::index_set::{Counter, IndexSet};
use bb_memory_traits::allocator::{
    AllocationError, AllocationGrowError, AllocationShrinkError, Allocator, BaseAllocator,
};
use bb_memory_traits::geometry::Geometry;
use bb_memory_traits::layout::{Chunk, Layout};
use std::alloc::AllocError;
use std::marker::Model;

/// The buckets of a region, the set of those that are held, and how many words the last search for
/// a free bucket read: 0 if the set counts no reads.
#[derive(Drop)]
pub struct BucketPool<S: IndexSet> {
    pub(super) geometry: Geometry,
    pub(super) held: S,
    pub(super) last_search: Counter,
}

impl<S: IndexSet> Model for BucketPool<S> {
    ghost use Rattle.bb_memory_owned.specs.Pool.{CountedPool, IsPool, counted, held_count, pool_of};
    ghost use Rattle.std.specs.Prelude.{◌≤◌};

    ghost Value = { CountedPool };

    ghost view = { λ a. counted (pool_of a.geometry (S.numbers a.held)) a.last_search (S.most a.held) };

    ghost invariant = { λ a. IsPool (pool_of a.geometry (S.numbers a.held))
        × (a.last_search ≤ S.words a.geometry.buckets)
        × (held_count (pool_of a.geometry (S.numbers a.held)) ≤ S.most a.held) };
}

impl<S: IndexSet> BucketPool<S> {
    /// Returns the number of buckets. The clause `is_pool` states what holds for every pool.
    #[inline]
    pub fn number_of_buckets(&self) -> u32
        ensures value { result ≡ self.now.pool.geometry.buckets }
        ensures is_pool { IsPool self.now.pool }
    {
        self.geometry.count()
    }

    /// Returns the layout of each bucket, as passed to the constructor.
    #[inline]
    pub fn bucket_layout(&self) -> Layout
        ensures { result ≡ self.now.pool.geometry.bucket }
    {
        self.geometry.bucket()
    }

    /// Returns the size of a bucket in bytes, as passed to the constructor. Two buckets begin at
    /// least that far apart.
    #[inline]
    pub fn bucket_size(&self) -> usize
        ensures { result ≡ self.now.pool.geometry.bucket.size }
    {
        self.geometry.bucket().size()
    }

    /// Returns the greatest alignment that a request may have. Each bucket's place is a multiple of
    /// it.
    #[inline]
    pub fn max_alignment(&self) -> usize
        ensures { result ≡ self.now.pool.geometry.bucket.align }
    {
        self.geometry.bucket().align()
    }

    /// Returns the size of the region in bytes, as passed to the constructor.
    #[inline]
    pub fn size(&self) -> usize
        ensures { result ≡ self.now.pool.geometry.region.size }
    {
        self.geometry.region_size()
    }

    /// Returns the place of the bucket of this number, held or not, or `None` if there is no bucket
    /// of this number.
    pub fn place_at(&self, number: u32) -> Option<usize>
        ensures { TellsPlace self.now.pool.geometry number result }
    {
        self.geometry.place_at(number)
    }

    /// Returns the number of the bucket that begins at this place, held or not, or `None` if none
    /// does.
    pub fn number_at(&self, place: usize) -> Option<u32>
        ensures { TellsNumber self.now.pool.geometry place result }
    {
        self.geometry.number_at(place)
    }

    /// Returns the number of held buckets: those that were allocated and not given back. The call
    /// looks at no bucket, and counts no read.
    #[inline]
    pub fn held_buckets(&self) -> u32
        ensures { result ≡ held_count self.now.pool }
    {
        self.held.len()
    }

    /// Returns the greatest number of buckets that were held at one time since the pool was made.
    /// Neither a refused request nor a return changes the number. The call looks at no bucket, and
    /// counts no read.
    ///
    /// Example: `pools::greatest_kept` of `crates/examples`.
    #[inline]
    pub fn greatest_held(&self) -> u32
        ensures value { result ≡ self.now.greatest }
        ensures at_least { held_count self.now.pool ≤ result }
        ensures at_most { result ≤ self.now.pool.geometry.buckets }
    {
        self.held.greatest_len()
    }

    /// Returns whether a bucket is free, so that a request whose size and alignment are at most a
    /// bucket's succeeds. The call doesn't search, and counts no read.
    ///
    /// Example: `pools::room_told` of `crates/examples`.
    #[inline(always)]
    pub fn has_room(&self) -> bool
        ensures { IsTrue result ↔ ((i : ℕ) × Lacks self.now.pool.held i) }
    {
        self.held.has_room()
    }

    /// Takes any whole bucket that isn't held, as `allocate` does for the bucket's own layout.
    /// Fails with `OutOfMemory` if every bucket is held.
    ///
    /// Example: `pools::taken_whole` of `crates/examples`.
    #[inline(always)]
    pub fn take(&mut self) -> Result<Chunk, AllocationError>
        ensures answer { Allocates self.old self.old.pool.geometry.bucket result self.new
            (S.words self.old.pool.geometry.buckets) }
        ensures refused { IfErr result (λ error. error ≡ AllocationError.OutOfMemory) }
    {
        let bucket = self.bucket_layout();
        self.allocate(bucket)
    }

    /// Returns whether a held bucket begins at this place: true exactly if `deallocate` may be
    /// called with the place. The call doesn't search, and counts no read.
    ///
    /// Example: `comments::pool_held` of `crates/examples`.
    #[inline(always)]
    pub fn holds(&self, place: usize) -> bool
        ensures value { IsTrue result ↔ HoldsPlace self.now.pool place }
        ensures may_release { IsTrue result
            ↔ ⟦<BucketPool<S> as BaseAllocator>⟧.may_release self.now place }
    {
        self.held_number(place).is_some()
    }

    /// Gives back the bucket at this place if a held bucket begins there, and returns whether one
    /// did. Otherwise nothing changes. The call is for places about which nothing is known, such as
    /// those from another process: `deallocate` requires that the bucket is held, and doesn't
    /// check.
    ///
    /// Example: `pools::back_if_held` of `crates/examples`.
    #[inline(always)]
    pub fn deallocate_if_held(&mut self, place: usize) -> bool
        ensures held { IsTrue result ↔ HoldsPlace self.old.pool place }
        ensures freed { result ≡ true
            → FreesBucket self.old place self.new }
        ensures released { (live : List Chunk) (position : ℕ) (chunk : Chunk)
            → StandsFor self.old.pool live → slice_get live position ≡ Some chunk
            → chunk.place ≡ place → StandsFor self.new.pool (remove live position) }
        ensures given_back { ¬ HoldsPlace self.new.pool place }
        ensures others_kept { (other : ℕ) → HoldsPlace self.old.pool other → other ≢ place
            → HoldsPlace self.new.pool other }
        ensures unchanged { result ≡ false → self.new ≡ self.old }
        ensures geometry { self.new.pool.geometry ≡ self.old.pool.geometry }
        ensures reads { self.new.reads ≡ self.old.reads }
        ensures greatest { self.new.greatest ≡ self.old.greatest }
    {
        let Some(number) = self.held_number(place) else {
            return false;
        };
        self.held.release(number);
        true
    }

    /// Returns the number of the held bucket at this place, or `None` if no held bucket begins
    /// there.
    #[inline(always)]
    fn held_number(&self, place: usize) -> Option<usize>
        ensures held { IsSome result ↔ HoldsPlace self.now.pool place }
        ensures has { IfSome result (Has self.now.pool.held) }
        ensures there { IfSome result
            (λ number. place ≡ bucket_place self.now.pool.geometry number) }
    {
        let number = self.geometry.number_at(place)? as usize;
        if !self.held.has(number) {
            return None;
        }
        Some(number)
    }
}

/// Takes a bucket that isn't held.
#[inline(always)]
fn take<S: IndexSet>(
    geometry: &Geometry,
    held: &mut S,
    layout: Layout,
    counter: &mut Counter,
) -> Result<Chunk, AllocationError>
    requires as_many { length (S.numbers held.old) ≡ geometry.now.buckets }
    requires uncounted { counter.old ≡ 0 }
    requires at_least { member_count (S.numbers held.old) ≤ S.most held.old }
    ensures taken { Takes (pool_of geometry.now (S.numbers held.old)) layout result
        (pool_of geometry.now (S.numbers held.new)) }
    ensures reads { counter.new
        ≡ reads_of geometry.now.bucket (S.words geometry.now.buckets) layout }
    ensures greatest { S.most held.new
        ≡ max (S.most held.old) (member_count (S.numbers held.new)) }
{
    geometry.admit(layout)?;
    let Some(i) = held.take(counter) else {
        return Err(AllocationError::OutOfMemory);
    };
    Ok(geometry.chunk(i, layout.size()))
}

impl<S: IndexSet> BaseAllocator for BucketPool<S> {
    ghost use Rattle.bb_memory_owned.specs.Pool.{FreesBucket, HoldsPlace, StandsFor, TakesBucket, held_place, reads_of};
    ghost use Rattle.bb_memory_traits.specs.PoolObject.{MayAllocate, PoolGeometry};
    ghost use Rattle.std.specs.Prelude.{false, ℕ};

    const RELEASE_EMPTIES: bool = false;

    ghost RELEASE_EMPTIES = { false };

    ghost Geometry = { PoolGeometry };

    ghost geometry = { λ pool. pool.pool.geometry };

    ghost region_of = { λ geometry. geometry.region };

    ghost may_allocate = { MayAllocate };

    ghost stands_for = { λ pool. StandsFor pool.pool };

    ghost may_release = { λ pool. HoldsPlace pool.pool };

    ghost Note = { ℕ };

    ghost note = { λ pool. pool.reads };

    ghost note_after = { λ geometry layout before.
        reads_of geometry.bucket (S.words geometry.buckets) layout };

    ghost takes = { λ old layout answer new.
        TakesBucket old layout answer new (S.words old.pool.geometry.buckets) };

    ghost frees = { λ old place _ new. FreesBucket old place new };

    /// Allocates a chunk of `layout.size()` bytes in any bucket that isn't held. Fails, in this
    /// order, with `SizeTooLarge` if the size is greater than the bucket's, with `AlignmentFailure`
    /// if the alignment is greater than the bucket's, and with `OutOfMemory` if every bucket is
    /// held. A refusal leaves the pool unchanged, except for the result of `last_reads`, if there
    /// is one.
    #[inline(always)]
    fn allocate(&mut self, layout: Layout) -> Result<Chunk, AllocationError> {
        let mut counter = Counter::new();
        let answer = take(&self.geometry, &mut self.held, layout, &mut counter);
        self.last_search = counter;
        answer
    }

    /// Gives back the bucket at this place, which has to be held. The layout is ignored.
    #[inline(always)]
    fn deallocate(&mut self, place: usize, _layout: Layout) {
        let number = self.geometry.whole_strides(place - self.geometry.first());
        self.held.release(number);
    }

    fn stands_for_some_list(&self) {
        // Proof hint, here and below: brings the type's invariant into scope.
        let _ = &self.geometry;
    }

    fn answers_fit(&self) {
        let _ = &self.geometry;
    }

    ghost releases = { λ pool. held_place pool.pool };

    ghost sound = { λ pool live stands. stands.sound };
}

impl<S: IndexSet> Allocator for BucketPool<S> {
    ghost use Rattle.bb_memory_owned.specs.Pool.{covered, held_is_live};
    ghost use Rattle.bb_memory_traits.specs.PoolObject.{MayGrow, MayShrink, PoolGeometry};
    ghost use Rattle.std.specs.Prelude.{refl};

    ghost ResizeKey = { PoolGeometry };

    ghost resize_key = { λ pool. pool.pool.geometry };

    ghost reserved_at = { λ geometry place. geometry.bucket.size };

    ghost may_grow = { λ geometry live. MayGrow geometry.bucket };

    ghost may_shrink = { λ geometry live. MayShrink geometry.bucket };

    ghost grows = { λ pool place old new answer _.
        MayGrow pool.pool.geometry.bucket place old new answer };

    ghost shrinks = { λ pool place old new answer _.
        MayShrink pool.pool.geometry.bucket place old new answer };

    /// Returns the number of bytes that are reserved for the chunk at this place: the bucket's
    /// size. The place has to be a held bucket's.
    #[inline]
    fn reserved(&self, _place: usize) -> usize {
        self.bucket_size()
    }

    /// Grows the chunk to exactly the new size, in its bucket. Fails with the first of these errors
    /// that applies:
    ///
    /// - `GrowWouldShrink` if the new size isn't greater than the old one.
    /// - `AlignmentFailure` if the new alignment is greater than the bucket's.
    /// - `OutOfMemory` if the new size is greater than the bucket's.
    ///
    /// The pool doesn't change. The place has to be a held bucket's and a multiple of the old
    /// alignment.
    #[inline]
    fn grow(
        &mut self,
        place: usize,
        old: Layout,
        new: Layout,
    ) -> Result<Chunk, AllocationGrowError> {
        self.geometry.grow(place, old, new)
    }

    /// Shrinks the chunk to exactly the new size. Fails, in this order, with `ShrinkWouldGrow` if
    /// the new size isn't smaller than the old one, and with `AlignmentFailure` if the new
    /// alignment is greater than the bucket's. The pool doesn't change. The place has to be a held
    /// bucket's and a multiple of the old alignment, and the old size at most the bucket's.
    #[inline]
    fn shrink(
        &mut self,
        place: usize,
        old: Layout,
        new: Layout,
    ) -> Result<Chunk, AllocationShrinkError> {
        self.geometry.shrink(place, old, new)
    }

    ghost fixed = { λ one other same. same };

    ghost closes_up = { refl };

    ghost distinct = { λ pool live stands. stands.differ };

    ghost covered = { λ pool. covered pool.pool };

    ghost only_live = { λ pool. held_is_live pool.pool };
}
