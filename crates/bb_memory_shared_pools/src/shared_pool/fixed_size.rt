//! A shared pool with at most a constant number of buckets.
ghost use Rattle.bb_memory_shared_pools.specs.SharedPool.{AreFresh};
ghost use Rattle.bb_memory_traits.specs.Chunk.{region_at};
ghost use Rattle.bb_memory_traits.specs.Geometry.{IsCutAtMost, MayBeCut};
ghost use Rattle.std.specs.Prelude.{IfErr, IfOk, ◌-◌, ◌<◌, ◌^◌, ◌≡◌, ◌≤◌};

use super::buckets::SharedBucketPool;
use super::party::PoolParty;
use bb_memory_traits::allocator::AllocationError;
use bb_memory_traits::geometry::Geometry;
use bb_memory_traits::layout::Layout;
use std::alloc::Global;

/// Allocates buckets of one layout, at most `MAX_NUMBER_OF_BUCKETS` of them, for any number of
/// threads, as [`SharedPoolAllocator`](super::SharedPoolAllocator) does.
///
/// Example: `comments::shared_fixed_pool` of `crates/examples`.
pub type SharedFixedSizePoolAllocator<const MAX_NUMBER_OF_BUCKETS: usize> = SharedBucketPool<
    1,
    MAX_NUMBER_OF_BUCKETS,
>;

impl<const MAX_NUMBER_OF_BUCKETS: usize> SharedFixedSizePoolAllocator<MAX_NUMBER_OF_BUCKETS> {
    /// Makes a pool over the region of `size` bytes at `start`, cut into buckets of this layout. No bucket is held. Returns the
    /// pool and its parties, numbered from 0.
    ///
    /// The start and the bucket's size have to be greater than 0. The start plus the size, and the
    /// start rounded up to the bucket's alignment, have to be at most `usize::MAX`. The region has
    /// to have room for fewer than `u32::MAX` buckets, and `MAX_NUMBER_OF_BUCKETS` has to be less
    /// than that, too. There has to be at least one party. `FixedSizePoolAllocator::can_make` of
    /// `bb_memory_owned` tests all but the parties.
    ///
    /// Fails only with `OutOfMemory`, if memory for the pool or its parties can't be allocated.
    pub fn new(
        alloc: Global,
        bucket_layout: Layout,
        start: usize,
        size: usize,
        parties: u32,
    ) -> Result<(Self, Vec<PoolParty>), AllocationError>
        requires cut { MayBeCut (region_at start size) bucket_layout }
        requires most { MAX_NUMBER_OF_BUCKETS < 2 ^ 32 - 1 }
        requires parties { 1 ≤ parties }
        ensures geometry { IfOk result (λ made. IsCutAtMost MAX_NUMBER_OF_BUCKETS
            (region_at start size) bucket_layout made.0.scene.geometry) }
        ensures parties { IfOk result (λ made. AreFresh made.0 parties made.1.items) }
        ensures refused { IfErr result (λ error. error ≡ AllocationError.OutOfMemory) }
    {
        let most = MAX_NUMBER_OF_BUCKETS as u32;
        let geometry = Geometry::cut_at_most(bucket_layout, start, size, most);
        Self::make(alloc, geometry, parties)
    }
}
