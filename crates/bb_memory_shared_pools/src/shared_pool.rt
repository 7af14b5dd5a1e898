//! Pools that threads share: each call takes its pool by `&`, and makes atomic steps on flags, one flag for each bucket.
ghost use Rattle.bb_memory_pool_machine.specs.PoolLogs.{AreAsked, IsHeldAfter, IsPoolRun, PoolLog};
ghost use Rattle.bb_memory_shared_pools.specs.SharedPool.{AreFresh, HasFoundAllHeld, IsHistoryRun, IsParty, PoolParty, TakenBucket, chunk_of, refused_pass};
ghost use Rattle.bb_memory_shared_pools.specs.SharedPoolMeetings.{AreInterleaved};
ghost use Rattle.bb_memory_shared_pools.specs.SharedPoolNextFit.{HasMissedAll, refused_search};
ghost use Rattle.bb_memory_traits.specs.Chunk.{AreApart, Chunk, IsSound, first_place, region_at};
ghost use Rattle.bb_memory_traits.specs.Geometry.{AreAStrideApart, MayBeCut};
ghost use Rattle.bb_memory_traits.specs.PoolObject.{IsCut, IsHeld};
ghost use Rattle.bb_memory_traits.specs.declared.layout.Layout.{Layout};
ghost use Rattle.std.specs.Prelude.{IfErr, IfOk, List, ℕ, ◌++◌, ◌<◌, ◌≡◌, ◌≢◌, ◌≤◌, ◌⊎◌};

mod all_parties;
mod bucket;
mod buckets;
pub mod by_number;
mod caching;
mod detached;
mod fixed_size;
mod flags;
mod meeting;
mod next_fit;
mod party;
mod rule;
mod stand_in;

pub use all_parties::shared_pool_meeting_law;
pub use bb_memory_traits::allocator::{
    AllocationError, AllocationGrowError, AllocationShrinkError,
};
use bb_memory_traits::geometry::Geometry;
use bb_memory_traits::layout::Layout;
pub use bucket::Bucket;
use buckets::SharedBucketPool;
pub use caching::CachingParty;
pub use detached::DetachedBucket;
pub use fixed_size::SharedFixedSizePoolAllocator;
pub use party::PoolParty;
use std::alloc::Global;

/// Allocates buckets of one layout for any number of threads. The pool is made for a fixed number
/// of parties, and each thread that takes or gives back buckets has a party. No call waits for
/// another, and none allocates memory once the pool is made.
///
/// Prefer `allocate_next_fit` to `allocate`: its search begins at the party's hint, so it loses no
/// time at buckets that other parties hold elsewhere. `allocate` tries the buckets from bucket 0
/// each time.
///
/// The contract of each call is about the party's log: the list of the atomic steps that the party
/// made, each with what it found. At any time, some interleaving of the party's log with some logs
/// of the others is one that the pool machine allows. A user who has all parties gets more from
/// `meet_all`: one interleaving has their logs and no other steps, as [`shared_pool_meeting_law`]
/// states.
///
/// Example: `comments::shared_pool` of `crates/examples`.
pub type SharedPoolAllocator = SharedBucketPool<0, 0>;

impl SharedPoolAllocator {
    /// Makes a pool over the region of `size` bytes at `start`, cut into buckets of this layout. No bucket is held. Returns the
    /// pool and its parties, numbered from 0.
    ///
    /// The start and the bucket's size have to be greater than 0. The start plus the size, and the start rounded up to the
    /// bucket's alignment, have to be at most `usize::MAX`. There have to be fewer than `u32::MAX` buckets, and at least one
    /// party. `PoolAllocator::can_make` of `bb_memory_owned` tests all but the parties.
    ///
    /// Fails only with `OutOfMemory`, if memory for the pool or its parties can't be allocated.
    pub fn new(
        alloc: Global,
        bucket_layout: Layout,
        start: usize,
        size: usize,
        parties: u32,
    ) -> Result<(Self, Vec<PoolParty>), AllocationError>
        requires cut { MayBeCut (region_at start size) bucket_layout }
        requires parties { 1 ≤ parties }
        ensures geometry { IfOk result (λ made.
            IsCut (region_at start size) bucket_layout made.0.scene.geometry) }
        ensures parties { IfOk result (λ made. AreFresh made.0 parties made.1.items) }
        ensures refused { IfErr result (λ error. error ≡ AllocationError.OutOfMemory) }
    {
        let whole = Geometry::new(bucket_layout, start, size);
        Self::make(alloc, whole, parties)
    }

    /// Returns the place of the first bucket: the region's start, rounded up to the bucket's alignment.
    pub fn start_address(&self) -> usize
        ensures value { result
            ≡ first_place self.now.scene.geometry.region self.now.scene.geometry.bucket }
    {
        self.flags.geometry().first()
    }
}

/// States what holds for each party of a shared pool, and for two that met, whatever the threads did. The function does
/// nothing: its contract is the law.
///
/// A possible history of a party is an interleaving of its log, as in `IsParty`: a list of allowed steps from the opening, in
/// which the party's steps are exactly its log. The steps of the others explain the log, and need not be those that they made.
/// Two parties that met have one such list together: `AreInterleaved`.
pub fn shared_pool_law()
    // The takings and returns of a party's history are a run of the pool object from the empty
    // list, for any requested layouts that fit the bucket's size and alignment.
    ensures run { (party : PoolParty) (is : IsParty party) (layouts : List Layout)
        → AreAsked party.allocator.scene.geometry is.interleaved.steps layouts
        → (live : List Chunk) × IsHistoryRun party is layouts live }

    // A bucket that is held after the party's log is one of the pool's, and is in the list of
    // chunks that the run leaves.
    ensures held { (party : PoolParty) (is : IsParty party) (layouts : List Layout)
        (live : List Chunk) (bucket : ℕ) → IsHistoryRun party is layouts live
        → IsHeldAfter party.log bucket
        → (bucket < party.allocator.scene.geometry.buckets)
        × IsHeld party.allocator.scene.geometry live bucket }

    // The list that the run leaves is sound: its chunks are inside the region, and no two overlap.
    ensures sound { (party : PoolParty) (is : IsParty party) (layouts : List Layout)
        (live : List Chunk) → IsHistoryRun party is layouts live
        → IsSound party.allocator.scene.geometry.region live }

    // If the log has a pass that was refused, that pass found each bucket held in the run, each at
    // a step of its own.
    ensures refused { (party : PoolParty) (is : IsParty party) (before after : PoolLog)
        → let buckets = party.allocator.scene.geometry.buckets in
        let beginning = before ++ refused_pass buckets party.number in
        0 < buckets → party.log ≡ beginning ++ after → HasFoundAllHeld party is beginning }

    // If the log has a search that was refused, that search missed each bucket, which was held in
    // the run at that moment, each at a step of its own.
    ensures missed { (party : PoolParty) (is : IsParty party) (before after : PoolLog) (first : ℕ)
        → let buckets = party.allocator.scene.geometry.buckets in
        party.log ≡ (before ++ refused_search buckets party.number first) ++ after
        → HasMissedAll party is before first }

    // Two parties that met have one history together, whose takings and returns are also a run: one
    // run has those of both.
    ensures both_run { (a b : PoolParty) (met : AreInterleaved a b) (layouts : List Layout)
        → let scene = a.allocator.scene in
        IsParty a → AreAsked scene.geometry met.steps layouts
        → (live : List Chunk) × IsPoolRun scene met.steps layouts live }

    // A bucket that is held after the log of either is in the list of chunks that this run leaves.
    ensures both_held { (a b : PoolParty) (met : AreInterleaved a b) (layouts : List Layout)
        (live : List Chunk) (bucket : ℕ) → let scene = a.allocator.scene in
        IsParty a → IsPoolRun scene met.steps layouts live
        → IsHeldAfter a.log bucket ⊎ IsHeldAfter b.log bucket
        → IsHeld scene.geometry live bucket }

    // No bucket is held after both logs of two parties that met.
    ensures apart { (a b : PoolParty) (bucket : ℕ)
        → AreInterleaved a b → a.number ≢ b.number
        → IsHeldAfter a.log bucket → ¬ IsHeldAfter b.log bucket }

    // Chunks in two different buckets of a pool begin at least a stride apart. If neither is longer
    // than its bucket, they don't overlap.
    ensures a_stride_apart { (one other : TakenBucket)
        → one.allocator ≡ other.allocator → one.number ≢ other.number
        → AreAStrideApart one.allocator.scene.geometry.bucket
        (chunk_of one).place (chunk_of other).place }
    ensures no_overlap { (one other : TakenBucket)
        → one.allocator ≡ other.allocator → one.number ≢ other.number
        → one.len ≤ one.allocator.scene.geometry.bucket.size
        → other.len ≤ one.allocator.scene.geometry.bucket.size
        → AreApart (chunk_of one) (chunk_of other) }
{}
