//! Parties that cache the buckets that they gave back last: a layer over the shared pools.
ghost use Rattle.bb_memory_pool_machine.specs.PoolLogs.{IsHeldAfter};
ghost use Rattle.bb_memory_shared_pools.specs.SharedPool.{HasAttached, HasDetached, HasReturned, IsSameParty, attach_entry, detach_entry, return_detached_entry, with_entries};
ghost use Rattle.bb_memory_shared_pools.specs.SharedPoolCaching.{AreCached, AttachesCaching, CachingParty, IsOut, MissesCaching, MissesFirst, ReturnsCaching, ReturnsFromCaching, SendsCaching, ServesCaching, returns_of};
ghost use Rattle.bb_memory_shared_pools.specs.SharedPoolLeaving.{GivesAllBack};
ghost use Rattle.bb_memory_shared_pools.specs.SharedPoolMeetings.{AreBothOf, AreInterleaved};
ghost use Rattle.bb_memory_traits.specs.declared.allocator.AllocationError.TheVariants.{OutOfMemory};
ghost use Rattle.std.specs.Prelude.{Contains, Err, IfErr, IfNone, IfOk, IfSome, IsFalse, IsTrue, Ok, [], length, true, vec_capacity, ℕ, ◌<◌, ◌↔◌, ◌≡◌, ◌≢◌, ◌≤◌};

use super::bucket::Bucket;
use super::buckets::SharedBucketPool;
use super::by_number;
use super::detached::DetachedBucket;
use super::party::PoolParty;
use bb_memory_traits::allocator::AllocationError;
use bb_memory_traits::layout::Layout;
use std::alloc::{AllocError, Global};
use std::marker::Model;

/// The number of `u32` that fill two cache lines.
const GAP: usize = 32;

/// Returns an empty list with room for `most` numbers and a gap after them. Each call of a party writes the party's list, and
/// the gap keeps it off the cache lines that other threads' calls write. If `most` is 0, the list takes no memory.
fn list_of(alloc: Global, most: u32) -> Result<Vec<u32>, AllocError>
    ensures items { IfOk result (λ list. list.items ≡ []) }
    ensures room { IfOk result (λ list. most ≤ vec_capacity list) }
{
    let gap = if most == 0 { 0 } else { GAP };
    Vec::with_capacity(alloc, most as usize + gap)
}

/// A party of a shared pool that caches at most `most` of the buckets that it gave back last. Its next requests take the cached
/// buckets first, without a step. Each call takes the party's pool by `&`: a
/// [`SharedPoolAllocator`](super::SharedPoolAllocator) or a
/// [`SharedFixedSizePoolAllocator`](super::SharedFixedSizePoolAllocator).
///
/// A cached bucket stays held, so the other parties' requests fail if each bucket is cached or in use. Give a pool more buckets
/// than all its parties together may cache. Dropping a caching party leaks the buckets that it caches; `into_party` gives them
/// back.
///
/// Example: `comments::shared_pool_caching` of `crates/examples`.
#[derive(Drop)]
pub struct CachingParty {
    party: PoolParty,
    cached: Vec<u32>,
    most: u32,
}

impl Model for CachingParty {
    ghost use Rattle.bb_memory_shared_pools.specs.SharedPoolCaching.{AreCached, CachingParty};
    ghost use Rattle.std.specs.Prelude.{length, vec_capacity, ◌<◌, ◌^◌, ◌≤◌};

    ghost Value = { CachingParty };

    ghost view = { λ c. record { party = c.party; cached = c.cached.items; most = c.most } };

    ghost invariant = { λ c. AreCached c.party c.cached.items
        × (length c.cached.items ≤ c.most) × (c.most ≤ vec_capacity c.cached)
        × (c.most < 2 ^ 32) };
}

impl CachingParty {
    /// Makes this party a caching party. Each bucket that the party holds is in use, as none is cached yet. At most `most`
    /// buckets will be cached; with 0, each call does what the pool's call does. The list of cached buckets takes memory here
    /// and in `cache_at_most`; no other call allocates. If memory runs out, the party is returned unchanged.
    #[inline(always)]
    #[tactic(auto, unfolding(crate::specs::SharedPoolCaching::IsOut))]
    pub fn new(alloc: Global, party: PoolParty, most: u32) -> Result<Self, PoolParty>
        ensures empty { IfOk result (λ made.
            made ≡ record { party = party; cached = []; most = most }) }
        ensures out { IfOk result (λ made. (bucket : ℕ) → IsHeldAfter party.log bucket
            → IsOut made bucket) }
        ensures refused { IfErr result (λ handed_back. handed_back ≡ party) }
    {
        let Ok(cached) = list_of(alloc, most) else {
            return Err(party);
        };
        Ok(CachingParty {
            party,
            cached,
            most,
        })
    }

    /// Returns how many buckets are cached. The party holds each of them, and no two are the same.
    pub fn number_of_cached(&self) -> u32
        ensures value { result ≡ length self.now.cached }
        ensures within { result ≤ self.now.most }
        ensures cached { AreCached self.now.party self.now.cached }
    {
        self.cached.len() as u32
    }

    /// Returns the numbers of the buckets that are cached. The one that was cached last is the last.
    pub fn cached(&self) -> &[u32]
        ensures { result.now ≡ self.now.cached }
    {
        self.cached.as_slice()
    }

    /// Returns the party. It holds the buckets that are in use and those that are cached.
    pub fn party(&self) -> &PoolParty
        ensures { result.now ≡ self.now.party }
    {
        &self.party
    }

    /// Returns the party as it is, without a step: it holds the buckets that are in use and those that were cached.
    pub fn into_inner(self) -> PoolParty
        ensures { result ≡ self.party }
    {
        let CachingParty {
            party,
            cached: _,
            most: _,
        } = self;
        party
    }

    /// Returns whether the party holds the bucket of this number, in use or cached, as
    /// [`SharedPoolAllocator::is_held_by`](super::SharedPoolAllocator::is_held_by) does. The party has to be this pool's.
    pub fn is_held<const CAPPED: usize, const MOST: usize>(
        &mut self,
        pool: &SharedBucketPool<CAPPED, MOST>,
        number: u32,
    ) -> bool
        requires party { self.old.party.allocator ≡ pool.now }
        requires below { number < pool.now.scene.geometry.buckets }
        ensures value { (result ≡ true) ↔ IsHeldAfter self.old.party.log number }
        ensures unchanged { self.new ≡ self.old }
    {
        pool.is_held_by(&mut self.party, number)
    }

    /// Takes a bucket, with a chunk of `layout.size()` bytes: the one that was cached last, without a step. If none is cached,
    /// the call searches the pool as `allocate_next_fit` does.
    ///
    /// Fails, in this order, with `SizeTooLarge` if the size is greater than the bucket's, and with `AlignmentFailure` if the
    /// alignment is greater than the bucket's, both without a step; and with `OutOfMemory` if none is cached and each probe of
    /// the search misses. The party has to be this pool's.
    #[inline(always)]
    #[tactic(auto, unfolding(crate::specs::SharedPoolCaching::IsOut))]
    pub fn allocate<'p, const CAPPED: usize, const MOST: usize>(
        &mut self,
        pool: &'p SharedBucketPool<CAPPED, MOST>,
        layout: Layout,
    ) -> Result<Bucket<'p>, AllocationError>
        requires party { self.old.party.allocator ≡ pool.now }
        ensures { ServesCaching self.old layout result self.new }
    {
        // Proof hint: brings the party's invariant into scope on the returns without a step.
        let _ = self.party.number();
        pool.flags.geometry().admit(layout)?;
        match self.cached.pop() {
            Some(number) => {
                let bucket = by_number::bucket(pool, &self.party, number, layout.size());
                Ok(bucket)
            }
            None => pool.allocate_next_fit(&mut self.party, layout),
        }
    }

    /// Takes a whole bucket: the result is that of `allocate` for the bucket's own layout. Fails with `OutOfMemory` if none is
    /// cached and each probe of the search misses. The party has to be this pool's.
    #[inline(always)]
    pub fn take<'p, const CAPPED: usize, const MOST: usize>(
        &mut self,
        pool: &'p SharedBucketPool<CAPPED, MOST>,
    ) -> Result<Bucket<'p>, AllocationError>
        requires party { self.old.party.allocator ≡ pool.now }
        ensures answer { ServesCaching self.old pool.now.scene.geometry.bucket result self.new }
        ensures refused { IfErr result (λ error. error ≡ AllocationError.OutOfMemory) }
    {
        match self.take_first(pool) {
            Some(bucket) => Ok(bucket),
            None => self.take_later(pool),
        }
    }

    /// Takes a whole bucket as `take` does, but makes only the first probe of a search. If no bucket is cached and that probe
    /// misses, the search isn't over, and `take_later` goes on with it. The party has to be this pool's.
    #[inline(always)]
    #[tactic(auto, unfolding(crate::specs::SharedPoolCaching::IsOut))]
    pub fn take_first<'p, const CAPPED: usize, const MOST: usize>(
        &mut self,
        pool: &'p SharedBucketPool<CAPPED, MOST>,
    ) -> Option<Bucket<'p>>
        requires party { self.old.party.allocator ≡ pool.now }
        ensures taken { IfSome result (λ bucket. ServesCaching self.old
            pool.now.scene.geometry.bucket (Ok bucket) self.new) }
        ensures missed { IfNone result (MissesFirst self.old self.new) }
    {
        // Proof hint: brings the party's invariant into scope on the return without a step.
        let _ = self.party.number();
        let len = pool.bucket_size();
        match self.cached.pop() {
            Some(number) => {
                let bucket = by_number::bucket(pool, &self.party, number, len);
                Some(bucket)
            }
            None => pool.take_first(&mut self.party),
        }
    }

    /// Goes on with the search of a taking whose first probe missed. Fails with `OutOfMemory` if each probe misses. The first
    /// clause holds for each party with which the taking may have begun. The party has to be this pool's.
    #[tactic(auto, unfolding(crate::specs::SharedPoolCaching::IsOut))]
    pub fn take_later<'p, const CAPPED: usize, const MOST: usize>(
        &mut self,
        pool: &'p SharedBucketPool<CAPPED, MOST>,
    ) -> Result<Bucket<'p>, AllocationError>
        requires party { self.old.party.allocator ≡ pool.now }
        requires begun { (before : CachingParty) × MissesFirst before self.old }
        ensures answer { (before : CachingParty) → MissesFirst before self.old
            → ServesCaching before pool.now.scene.geometry.bucket result self.new }
        ensures refused { IfErr result (λ error. error ≡ AllocationError.OutOfMemory) }
    {
        pool.take_later(&mut self.party)
    }

    /// Gives back a bucket. If fewer than `most` are cached, the bucket is cached without a step. Otherwise it goes back to the
    /// pool by one store. The party and the bucket have to be this pool's, and the bucket has to be in use: the party holds it,
    /// and doesn't cache it.
    #[tactic(auto, unfolding(crate::specs::SharedPoolCaching::IsOut))]
    pub fn deallocate<const CAPPED: usize, const MOST: usize>(
        &mut self,
        pool: &SharedBucketPool<CAPPED, MOST>,
        bucket: Bucket<'_>,
    )
        requires party { self.old.party.allocator ≡ pool.now }
        requires bucket { bucket.allocator ≡ pool.now }
        requires out { IsOut self.old bucket.number }
        ensures answer { ReturnsCaching self.old bucket.entry.number self.new }
        ensures given_back { ¬ IsOut self.new bucket.entry.number }
        ensures others_kept { (other : ℕ) → other ≢ bucket.entry.number
            → IsOut self.old other → IsOut self.new other }
        ensures others { (other : ℕ) → IsOut self.new other → IsOut self.old other }
        ensures party { self.new.party.allocator ≡ self.old.party.allocator }
        ensures is_party { IsSameParty self.old.party self.new.party }
        ensures most { self.new.most ≡ self.old.most }
    {
        // Proof hint: brings the party's invariant into scope if the bucket is cached.
        let _ = self.party.number();
        if self.cached.len() < self.most as usize {
            self.cached.push_reserved(bucket.number());
        } else {
            pool.deallocate_bucket(&mut self.party, bucket);
        }
    }

    /// Detaches a bucket that is in use, as [`SharedPoolAllocator::detach`](super::SharedPoolAllocator::detach) does. The pool
    /// needs at least two parties. The party and the bucket have to be this pool's.
    #[tactic(auto, unfolding(crate::specs::SharedPoolCaching::IsOut))]
    pub fn detach<const CAPPED: usize, const MOST: usize>(
        &mut self,
        pool: &SharedBucketPool<CAPPED, MOST>,
        bucket: Bucket<'_>,
    ) -> DetachedBucket
        requires others { 1 < pool.now.scene.parties }
        requires party { self.old.party.allocator ≡ pool.now }
        requires bucket { bucket.allocator ≡ pool.now }
        requires out { IsOut self.old bucket.number }
        ensures bucket { result ≡ bucket.entry }
        ensures logged { self.new ≡ record self.old {
          party = with_entries self.old.party
              (detach_entry self.old.party.number bucket.entry.number);
        } }
        ensures party { HasDetached pool.now self.old.party bucket.entry self.new.party }
        ensures was_detached { ¬ IsOut self.new bucket.entry.number }
        ensures others_kept { (other : ℕ) → other ≢ bucket.entry.number
            → IsOut self.old other → IsOut self.new other }
        ensures others { (other : ℕ) → IsOut self.new other → IsOut self.old other }
    {
        pool.detach(&mut self.party, bucket)
    }

    /// Attaches a detached bucket, as [`SharedPoolAllocator::attach`](super::SharedPoolAllocator::attach) does. Afterwards the
    /// bucket is in use. The party and the bucket have to be this pool's.
    #[tactic(auto, unfolding(crate::specs::SharedPoolCaching::IsOut))]
    pub fn attach<'p, const CAPPED: usize, const MOST: usize>(
        &mut self,
        pool: &'p SharedBucketPool<CAPPED, MOST>,
        detached: DetachedBucket,
    ) -> Bucket<'p>
        requires party { self.old.party.allocator ≡ pool.now }
        requires bucket { detached.allocator ≡ pool.now }
        ensures bucket { result ≡ detached }
        ensures logged { self.new ≡ record self.old {
          party = with_entries self.old.party
              (attach_entry self.old.party.number detached.number);
        } }
        ensures party { HasAttached pool.now self.old.party detached self.new.party }
        ensures attached { IsOut self.new detached.number }
        ensures not_out { ¬ IsOut self.old detached.number }
        ensures others_kept { (other : ℕ) → IsOut self.old other → IsOut self.new other }
        ensures others { (other : ℕ) → other ≢ detached.number
            → IsOut self.new other → IsOut self.old other }
    {
        pool.attach(&mut self.party, detached)
    }

    /// Detaches a bucket that is in use, and returns its number, as
    /// [`SharedPoolAllocator::detach_number`](super::SharedPoolAllocator::detach_number) does. The pool needs at least two
    /// parties. The party and the bucket have to be this pool's.
    #[tactic(auto, unfolding(crate::specs::SharedPoolCaching::IsOut))]
    pub fn detach_number<const CAPPED: usize, const MOST: usize>(
        &mut self,
        pool: &SharedBucketPool<CAPPED, MOST>,
        bucket: Bucket<'_>,
    ) -> u32
        requires others { 1 < pool.now.scene.parties }
        requires party { self.old.party.allocator ≡ pool.now }
        requires bucket { bucket.allocator ≡ pool.now }
        requires out { IsOut self.old bucket.number }
        ensures number { result ≡ bucket.entry.number }
        ensures logged { self.new ≡ record self.old {
          party = with_entries self.old.party
              (detach_entry self.old.party.number bucket.entry.number);
        } }
        ensures party { HasDetached pool.now self.old.party bucket.entry self.new.party }
        ensures was_detached { ¬ IsOut self.new bucket.entry.number }
        ensures others_kept { (other : ℕ) → other ≢ bucket.entry.number
            → IsOut self.old other → IsOut self.new other }
        ensures others { (other : ℕ) → IsOut self.new other → IsOut self.old other }
    {
        pool.detach_number(&mut self.party, bucket)
    }

    /// Takes a whole bucket and detaches it, as `take` and `detach_number` do one after the other. Returns the bucket's number. If no
    /// bucket is cached, one exchange of a search does both. Returns `None` if none is cached and each probe of the search misses.
    /// The pool needs at least two parties. The party has to be this pool's.
    #[inline(always)]
    #[tactic(auto, unfolding(crate::specs::SharedPoolCaching::IsOut))]
    pub fn take_detached<const CAPPED: usize, const MOST: usize>(
        &mut self,
        pool: &SharedBucketPool<CAPPED, MOST>,
    ) -> Option<u32>
        requires others { 1 < pool.now.scene.parties }
        requires party { self.old.party.allocator ≡ pool.now }
        ensures sent { IfSome result (λ number. SendsCaching self.old number self.new) }
        ensures refused { IfNone result (ServesCaching self.old pool.now.scene.geometry.bucket
            (Err OutOfMemory) self.new) }
    {
        // Proof hint: brings the party's invariant into scope.
        let _ = self.party.number();
        let len = pool.bucket_size();
        match self.cached.pop() {
            Some(number) => {
                let token = by_number::bucket(pool, &self.party, number, len);
                pool.detach_number(&mut self.party, token);
                Some(number)
            }
            None => pool.take_detached(&mut self.party),
        }
    }

    /// Attaches the bucket of this number if the party of number `from` has detached it by `detach_number`, and returns whether
    /// that succeeded, as [`SharedPoolAllocator::attach_number`](super::SharedPoolAllocator::attach_number) does. Afterwards
    /// the bucket is in use. A loss changes only the log, which has the step. The party has to be this pool's.
    #[tactic(auto, unfolding(crate::specs::SharedPoolCaching::IsOut))]
    pub fn attach_number<const CAPPED: usize, const MOST: usize>(
        &mut self,
        pool: &SharedBucketPool<CAPPED, MOST>,
        number: u32,
        from: u32,
    ) -> bool
        requires party { self.old.party.allocator ≡ pool.now }
        requires below { number < pool.now.scene.geometry.buckets }
        ensures won { IsTrue result → AttachesCaching self.old number from self.new }
        ensures lost { IsFalse result → MissesCaching self.old number from self.new }
    {
        pool.attach_number(&mut self.party, number, from)
    }

    /// Gives back the bucket of this number to the pool if the party of number `from` has detached it by `detach_number`, and
    /// returns whether that succeeded, as [`SharedPoolAllocator::return_number`](super::SharedPoolAllocator::return_number)
    /// does. The bucket isn't cached. A loss changes only the log, which has the miss. The party has to be this pool's.
    #[tactic(auto, unfolding(crate::specs::SharedPoolCaching::IsOut))]
    pub fn return_number<const CAPPED: usize, const MOST: usize>(
        &mut self,
        pool: &SharedBucketPool<CAPPED, MOST>,
        number: u32,
        from: u32,
    ) -> bool
        requires party { self.old.party.allocator ≡ pool.now }
        requires below { number < pool.now.scene.geometry.buckets }
        ensures won { IsTrue result → ReturnsFromCaching self.old number from self.new }
        ensures lost { IsFalse result → MissesCaching self.old number from self.new }
    {
        pool.return_number(&mut self.party, number, from)
    }

    /// Gives back a detached bucket to the pool by one store, as
    /// [`SharedPoolAllocator::return_detached`](super::SharedPoolAllocator::return_detached) does. The bucket isn't cached. The
    /// party and the bucket have to be this pool's.
    #[tactic(auto, unfolding(crate::specs::SharedPoolCaching::IsOut))]
    pub fn return_detached<const CAPPED: usize, const MOST: usize>(
        &mut self,
        pool: &SharedBucketPool<CAPPED, MOST>,
        detached: DetachedBucket,
    )
        requires party { self.old.party.allocator ≡ pool.now }
        requires bucket { detached.allocator ≡ pool.now }
        ensures logged { self.new ≡ record self.old {
          party = with_entries self.old.party
              (return_detached_entry self.old.party.number detached.number);
        } }
        ensures party { HasReturned pool.now self.old.party detached self.new.party }
        ensures not_out { ¬ IsOut self.old detached.number }
        ensures others_kept { (other : ℕ) → IsOut self.old other → IsOut self.new other }
        ensures others { (other : ℕ) → IsOut self.new other → IsOut self.old other }
    {
        pool.return_detached(&mut self.party, detached)
    }

    /// Gives all cached buckets back to the pool, as `flush` does, and caches at most `most` from then on. It takes memory for
    /// their list. A refusal, with `OutOfMemory`, changes nothing. The party has to be this pool's.
    #[tactic(auto, unfolding(crate::specs::SharedPoolCaching::IsOut))]
    pub fn cache_at_most<const CAPPED: usize, const MOST: usize>(
        &mut self,
        alloc: Global,
        pool: &SharedBucketPool<CAPPED, MOST>,
        most: u32,
    ) -> Result<(), AllocationError>
        requires party { self.old.party.allocator ≡ pool.now }
        ensures empty { IfOk result (λ done. self.new ≡ record {
          party = with_entries self.old.party
              (returns_of self.old.party.number self.old.cached);
          cached = [];
          most = most;
        }) }
        ensures others_kept { (other : ℕ) → IsOut self.old other → IsOut self.new other }
        ensures others { (other : ℕ) → IsOut self.new other → IsOut self.old other }
        ensures refused { IfErr result (λ error. (error ≡ AllocationError.OutOfMemory)
            × (self.new ≡ self.old)) }
    {
        let Ok(room) = list_of(alloc, most) else {
            return Err(AllocationError::OutOfMemory);
        };
        self.flush(pool);
        self.cached = room;
        self.most = most;
        Ok(())
    }

    /// Gives all cached buckets back to the pool, each by one store, beginning with the one that was cached last. Then the
    /// party holds only the buckets that are in use. The party has to be this pool's.
    #[tactic(auto, unfolding(crate::specs::SharedPoolCaching::IsOut))]
    pub fn flush<const CAPPED: usize, const MOST: usize>(
        &mut self,
        pool: &SharedBucketPool<CAPPED, MOST>,
    )
        requires party { self.old.party.allocator ≡ pool.now }
        ensures logged { self.new ≡ record self.old {
          party = with_entries self.old.party
              (returns_of self.old.party.number self.old.cached);
          cached = [];
        } }
        ensures unchanged { self.old.cached ≡ [] → self.new ≡ self.old }
        ensures is_party { IsSameParty self.old.party self.new.party }
        ensures others_kept { (other : ℕ) → IsOut self.old other → IsOut self.new other }
        ensures others { (other : ℕ) → IsHeldAfter self.new.party.log other
            → IsOut self.old other }
    {
        return_all(pool, &mut self.party, &mut self.cached);
    }

    /// Gives back each bucket that the party holds, in use or cached, as
    /// [`SharedPoolAllocator::give_all_back`](super::SharedPoolAllocator::give_all_back) does. Afterwards none is cached. The
    /// party has to be this pool's.
    pub fn give_all_back<const CAPPED: usize, const MOST: usize>(
        &mut self,
        pool: &SharedBucketPool<CAPPED, MOST>,
    )
        requires party { self.old.party.allocator ≡ pool.now }
        ensures party { GivesAllBack self.old.party self.new.party }
        ensures empty { self.new.cached ≡ [] }
        ensures most { self.new.most ≡ self.old.most }
    {
        self.cached.clear();
        pool.give_all_back(&mut self.party);
    }

    /// Makes two parties meet, as [`SharedPoolAllocator::meet`](super::SharedPoolAllocator::meet) does: no bucket is held by
    /// both. So a bucket that is in use at one of them is neither in use nor cached at the other. Nothing changes. The parties
    /// have to be this pool's.
    #[tactic(auto, unfolding(crate::specs::SharedPoolCaching::IsOut))]
    pub fn meet<const CAPPED: usize, const MOST: usize>(
        &mut self,
        pool: &SharedBucketPool<CAPPED, MOST>,
        other: &mut CachingParty,
    )
        requires parties { AreBothOf pool.now self.old.party other.old.party }
        ensures kept { (self.new ≡ self.old) × (other.new ≡ other.old) }
        ensures parties { AreBothOf pool.now self.new.party other.new.party }
        ensures differ { self.old.party.number ≢ other.old.party.number }
        ensures apart { (bucket : ℕ) → IsHeldAfter self.old.party.log bucket
            → ¬ IsHeldAfter other.old.party.log bucket }
        ensures out_apart { (bucket : ℕ) → IsOut self.old bucket → ¬ IsOut other.old bucket }
        ensures interleaved { AreInterleaved self.old.party other.old.party }
    {
        pool.meet(&mut self.party, &mut other.party);
    }

    /// Gives all cached buckets back to the pool, as `flush` does, and returns the party, which holds only the buckets that are
    /// in use. The party has to be this pool's.
    #[tactic(auto, unfolding(crate::specs::SharedPoolCaching::IsOut))]
    pub fn into_party<const CAPPED: usize, const MOST: usize>(
        mut self,
        pool: &SharedBucketPool<CAPPED, MOST>,
    ) -> PoolParty
        requires party { self.party.allocator ≡ pool.now }
        ensures logged { result
            ≡ with_entries self.party (returns_of self.party.number self.cached) }
        ensures unchanged { self.cached ≡ [] → result ≡ self.party }
        ensures is_party { IsSameParty self.party result }
        ensures others_kept { (other : ℕ) → IsOut self other → IsHeldAfter result.log other }
        ensures others { (other : ℕ) → IsHeldAfter result.log other → IsOut self other }
    {
        self.flush(pool);
        let CachingParty {
            party,
            cached: _,
            most: _,
        } = self;
        party
    }
}

/// Gives these buckets back to the pool, the last first.
fn return_all<const CAPPED: usize, const MOST: usize>(
    pool: &SharedBucketPool<CAPPED, MOST>,
    party: &mut PoolParty,
    cached: &mut Vec<u32>,
)
    requires party { party.old.allocator ≡ pool.now }
    requires cached { AreCached party.old cached.old.items }
    ensures logged { party.new
        ≡ with_entries party.old (returns_of party.old.number cached.old.items) }
    ensures is_party { IsSameParty party.old party.new }
    ensures none { cached.new.items ≡ [] }
    ensures capacity { vec_capacity cached.new ≡ vec_capacity cached.old }
    ensures others_kept { (other : ℕ) → ¬ Contains cached.old.items other
        → IsHeldAfter party.old.log other → IsHeldAfter party.new.log other }
    ensures others { (other : ℕ) → IsHeldAfter party.new.log other
        → IsHeldAfter party.old.log other }
    ensures given_back { (other : ℕ) → IsHeldAfter party.new.log other
        → ¬ Contains cached.old.items other }
{
    // Proof hint: brings the party's invariant into scope if none is cached.
    let _ = party.number();
    while let Some(number) = cached.pop() {
        let bucket = by_number::bucket(pool, party, number, 0);
        pool.deallocate_bucket(party, bucket);
    }
}
