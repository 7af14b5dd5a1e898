//! A pool that records in an array of its own which of its buckets are held.
ghost use Rattle.bb_memory_owned.specs.Pool.{StandsFor, counted, fresh_pool};
ghost use Rattle.bb_memory_traits.specs.Chunk.{region_at};
ghost use Rattle.bb_memory_traits.specs.Geometry.{MayBeCut};
ghost use Rattle.bb_memory_traits.specs.PoolObject.{IsCut, PoolGeometry, at_most};
ghost use Rattle.std.specs.Prelude.{IsTrue, [], ◌-◌, ◌<◌, ◌^◌, ◌↔◌, ◌≡◌};

use crate::pool_allocator::PoolAllocator;
use crate::pool_allocator::bucket_pool::BucketPool;
use bb_memory_index_set::index_set::Counter;
use bb_memory_index_set::index_set::flags::Flags;
use bb_memory_traits::geometry::Geometry;
use bb_memory_traits::layout::Layout;
use std::fmt;

/// Allocates buckets of one layout, at most `MAX_NUMBER_OF_BUCKETS` of them. An array in the pool
/// records which buckets are held, so the pool itself never allocates memory.
///
/// Example: `comments::fixed_pool` of `crates/examples`.
pub type FixedSizePoolAllocator<const MAX_NUMBER_OF_BUCKETS: usize> = BucketPool<
    Flags<MAX_NUMBER_OF_BUCKETS>,
>;

impl<const MAX_NUMBER_OF_BUCKETS: usize> FixedSizePoolAllocator<MAX_NUMBER_OF_BUCKETS> {
    /// Makes a pool over the region of `size` bytes at `start`, cut into buckets of this layout,
    /// with no bucket held. The start and the bucket's size have to be greater than 0. The start
    /// plus the size, and the start rounded up to the bucket's alignment, have to be at most
    /// `usize::MAX`. The region has to have room for fewer than `u32::MAX` buckets, and
    /// `MAX_NUMBER_OF_BUCKETS` has to be less than that, too. [`FixedSizePoolAllocator::can_make`]
    /// tests all of it.
    pub fn new(bucket_layout: Layout, start: usize, size: usize) -> Self
        requires cut { MayBeCut (region_at start size) bucket_layout }
        requires most { MAX_NUMBER_OF_BUCKETS < 2 ^ 32 - 1 }
        ensures value { (whole : PoolGeometry) × IsCut (region_at start size) bucket_layout whole
            × (result ≡ counted (fresh_pool (at_most MAX_NUMBER_OF_BUCKETS whole)) 0 0) }
        ensures empty { StandsFor result.pool [] }
    {
        let most = MAX_NUMBER_OF_BUCKETS as u32;
        let geometry = Geometry::cut_at_most(bucket_layout, start, size, most);
        let held = Flags::new(geometry.count());
        BucketPool {
            geometry,
            held,
            last_search: Counter::new(),
        }
    }

    /// Returns whether `new` may be called with these arguments.
    pub fn can_make(bucket_layout: Layout, start: usize, size: usize) -> bool
        ensures { IsTrue result ↔ (MayBeCut (region_at start size) bucket_layout
            × (MAX_NUMBER_OF_BUCKETS < 2 ^ 32 - 1)) }
    {
        MAX_NUMBER_OF_BUCKETS < u32::MAX as usize
            && PoolAllocator::can_make(bucket_layout, start, size)
    }
}

impl<const MAX_NUMBER_OF_BUCKETS: usize> fmt::Debug
    for FixedSizePoolAllocator<MAX_NUMBER_OF_BUCKETS> {
    fn fmt<W: fmt::Write>(&self, f: &mut fmt::Formatter<W>) -> fmt::Result {
        f.debug_struct("FixedSizePoolAllocator")
            .field("geometry", &self.geometry)
            .field("held", &self.held)
            .finish()
    }
}
