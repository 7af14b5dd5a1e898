//! Buckets by their numbers and places, for a user that keeps numbers because it can't keep a [`Bucket`], which borrows its
//! pool.
ghost use Rattle.bb_memory_pool_machine.specs.PoolLogs.{IsHeldAfter, MayBeFound};
ghost use Rattle.bb_memory_shared_pools.specs.SharedPool.{chunk_of, taken_bucket};
ghost use Rattle.bb_memory_shared_pools.specs.SharedPoolLeaving.{GivesAllBack};
ghost use Rattle.bb_memory_traits.specs.Geometry.{IsPlaceOfBucket, TellsPlace};
ghost use Rattle.bb_memory_traits.specs.PoolObject.{bucket_place};
ghost use Rattle.std.specs.Prelude.{IfNone, IfSome, true, ℕ, ◌%◌, ◌<◌, ◌↔◌, ◌≡◌, ◌≤◌};

use super::bucket::Bucket;
use super::buckets::SharedBucketPool;
use super::party::PoolParty;
pub use bb_memory_pool_machine::steps::Flag;

impl<const CAPPED: usize, const MOST: usize> SharedBucketPool<CAPPED, MOST> {
    /// Returns the number of the bucket that begins at this place, or `None` if none does.
    pub fn number_at(&self, place: usize) -> Option<u32>
        ensures below { IfSome result (λ number. number < self.now.scene.geometry.buckets) }
        ensures there { IfSome result (λ number.
            place ≡ bucket_place self.now.scene.geometry number) }
        ensures one { IfSome result (λ number. (other : ℕ)
            → place ≡ bucket_place self.now.scene.geometry other → other ≡ number) }
        ensures none { IfNone result (¬ IsPlaceOfBucket self.now.scene.geometry place) }
    {
        self.flags.geometry().number_at(place)
    }

    /// Returns where the bucket of this number begins, or `None` if the pool has no bucket of this number.
    pub fn place_at(&self, number: u32) -> Option<usize>
        ensures { TellsPlace self.now.scene.geometry number result }
    {
        self.flags.geometry().place_at(number)
    }

    /// Returns whether the party holds the bucket of this number, by one load of its flag, which
    /// adds to no log. The party has to be this pool's.
    ///
    /// Example: `comments::shared_pool_holder` of `crates/examples`.
    pub fn is_held_by(&self, party: &mut PoolParty, number: u32) -> bool
        requires party { party.old.allocator ≡ self.now }
        requires below { number < self.now.scene.geometry.buckets }
        ensures value { (result ≡ true) ↔ IsHeldAfter party.old.log number }
        ensures unchanged { party.new ≡ party.old }
    {
        self.flags.is_held(party.number, &mut party.seat, number)
    }

    /// Returns who holds the bucket of this number, or has detached it: its flag, as one load found it. Any thread may call
    /// this while parties step.
    pub fn holder(&self, number: u32) -> Flag
        requires { number < self.now.scene.geometry.buckets }
        ensures found { MayBeFound self.now.scene number result }
    {
        self.flags.found(number)
    }

    /// Returns how many buckets are held, cached or detached. Any thread may call this while parties step. The call loads each
    /// flag once, each at another moment, so the clause says only that no more are held than there are.
    pub fn held_buckets(&self) -> u32
        ensures at_most { result ≤ self.now.scene.geometry.buckets }
    {
        self.flags.count_taken().min(self.number_of_buckets())
    }

    /// Gives back each bucket that the party holds according to its flag, in order of the numbers: one load of each flag, and
    /// one store on each that names the party. The party has to be this pool's.
    pub fn give_all_back(&self, party: &mut PoolParty)
        requires { party.old.allocator ≡ self.now }
        ensures { GivesAllBack party.old party.new }
    {
        // Proof hint: brings the party's invariant into scope.
        let _ = party.number();
        for number in 0..self.number_of_buckets() {
            let is_held = self.is_held_by(party, number);
            if is_held {
                let bucket = bucket(self, party, number, 0);
                self.deallocate_bucket(party, bucket);
            }
        }
    }
}

/// Returns a token for the bucket of this number, with a chunk of `len` bytes, without a step. It is for a user that can't keep
/// a [`Bucket`], which borrows its pool, and keeps the number instead, as an interface for C does. So it is a function to
/// import, and not a call of the pool.
///
/// The party has to be this pool's, and its log has to hold the bucket: this party took the bucket, and it wasn't given back
/// since. The length has to be at most the bucket's size. Earlier tokens stay. After a return by one token the others are
/// stale: they still return the bucket's number and chunk when another party has taken it.
///
/// A caching party also holds the buckets that it caches, and its next requests take those. So pass only a bucket that is in
/// use, if the party caches. No condition requires this, and no call of a caching party lends a bucket that it caches.
///
/// Example: `comments::shared_pool_by_number` of `crates/examples`.
pub fn bucket<'a, const CAPPED: usize, const MOST: usize>(
    pool: &'a SharedBucketPool<CAPPED, MOST>,
    party: &PoolParty,
    number: u32,
    len: usize,
) -> Bucket<'a>
    requires party { party.now.allocator ≡ pool.now }
    requires held { IsHeldAfter party.now.log number }
    requires short { len ≤ pool.now.scene.geometry.bucket.size }
    ensures value { result ≡ taken_bucket pool.now number len }
    ensures aligned { (chunk_of result).place % pool.now.scene.geometry.bucket.align ≡ 0 }
{
    // Proof hint: brings the party's invariant into scope.
    let _ = party.number();
    Bucket {
        flags: &pool.flags,
        number,
        len,
    }
}
