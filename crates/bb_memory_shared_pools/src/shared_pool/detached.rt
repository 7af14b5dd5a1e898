//! Buckets in transit from one party of a shared pool to another.
ghost use Rattle.bb_memory_shared_pools.specs.SharedPool.{AreOf, HasAttached, HasAttachedFrom, HasDetached, HasMissedFrom, HasReturned, HasReturnedFrom, MayDetach};
ghost use Rattle.std.specs.Prelude.{IsFalse, IsTrue, ◌<◌, ◌≡◌, ◌≤◌};

use super::bucket::Bucket;
use super::buckets::SharedBucketPool;
use super::party::PoolParty;
use super::rule::View;
use atomic_table::Seat;
use std::marker::Model;

/// The token of a detached bucket.
/// [`SharedPoolAllocator::attach`](super::SharedPoolAllocator::attach) and
/// [`SharedPoolAllocator::return_detached`](super::SharedPoolAllocator::return_detached) consume
/// it. The token borrows nothing, so it can go to another thread in a message, or be stored in a
/// struct. Meanwhile no party holds the bucket, and its flag stays taken. Each detached bucket has
/// one token. Dropping the token leaks the bucket: its flag stays taken for good.
#[derive(Drop)]
pub struct DetachedBucket {
    number: u32,
    len: usize,
    seat: Seat<u8, View>,
}

impl Model for DetachedBucket {
    ghost use Rattle.bb_memory_shared_pools.specs.SharedPool.{TakenBucket, taken_bucket};
    ghost use Rattle.bb_memory_shared_pools.specs.SharedPoolRule.{IsDetachedSeat, pool_in};
    ghost use Rattle.std.specs.Prelude.{true};

    ghost Value = { TakenBucket };

    ghost view = { λ b. taken_bucket (pool_in b.seat.table_id b.seat.me.0) b.number b.len };

    ghost invariant = { λ b. IsDetachedSeat b.number b.len b.seat.me };
}

impl DetachedBucket {
    /// Returns the bucket's number in its pool, from 0.
    pub fn number(&self) -> u32
        ensures value { (result ≡ self.now.number)
            × (result < self.now.allocator.scene.geometry.buckets) }
    {
        self.number
    }

    /// Returns the length in bytes of the chunk that was in the bucket when it was detached.
    pub fn len(&self) -> usize
        ensures value { (result ≡ self.now.len)
            × (result ≤ self.now.allocator.scene.geometry.bucket.size) }
    {
        self.len
    }
}

impl<const CAPPED: usize, const MOST: usize> SharedBucketPool<CAPPED, MOST> {
    /// Detaches a bucket from the party that holds it, so that another party can attach it, in any thread. The party's log gets
    /// this step, a store, and the flag stays taken. The call also loads one more word. It allocates no memory and waits for
    /// nothing.
    ///
    /// The pool has to have at least two parties, as `number_of_parties` returns. The party and the bucket have to be this
    /// pool's, and the party's log has to hold the bucket: this party took or attached it, and hasn't given it back or detached
    /// it since.
    ///
    /// Example: `comments::shared_pool_detached` of `crates/examples`.
    pub fn detach(&self, party: &mut PoolParty, bucket: Bucket<'_>) -> DetachedBucket
        requires allowed { MayDetach self.now party.old bucket }
        ensures bucket { result ≡ bucket.entry }
        ensures party { HasDetached self.now party.old bucket.entry party.new }
    {
        let Bucket {
            flags: _,
            number,
            len,
        } = bucket;
        let seat = self.flags.detach(party.number, &mut party.seat, number);
        DetachedBucket { number, len, seat }
    }

    /// Attaches a detached bucket: the party holds it from then on, with its number and length unchanged, and can give it back.
    /// The party's log gets this step, a store. The call also loads one more word. It allocates no memory, waits for nothing
    /// and can't fail. The party and the bucket have to be this pool's.
    pub fn attach(&self, party: &mut PoolParty, detached: DetachedBucket) -> Bucket<'_>
        requires same_pool { AreOf self.now party.old detached }
        ensures bucket { result ≡ detached }
        ensures party { HasAttached self.now party.old detached party.new }
    {
        let DetachedBucket { number, len, seat } = detached;
        self.flags
            .attach(party.number, &mut party.seat, seat, number);
        Bucket {
            flags: &self.flags,
            number,
            len,
        }
    }

    /// Gives back a detached bucket by one store, which makes its flag free, if a party doesn't need the bucket any more. The
    /// party's log gets this step. The call can't fail. The party and the bucket have to be this pool's.
    pub fn return_detached(&self, party: &mut PoolParty, detached: DetachedBucket)
        requires same_pool { AreOf self.now party.old detached }
        ensures { HasReturned self.now party.old detached party.new }
    {
        let DetachedBucket {
            number,
            len: _,
            seat,
        } = detached;
        party.hint.follow_return(number);
        self.flags.return_detached(&mut party.seat, seat, number);
    }

    /// Detaches a bucket as `detach` does, but makes no token. The bucket's number, which is returned, can go to the other
    /// party in any way, for example through a file that processes share. That party attaches the bucket by `attach_number`.
    /// The conditions are those of `detach`.
    pub fn detach_number(&self, party: &mut PoolParty, bucket: Bucket<'_>) -> u32
        requires allowed { MayDetach self.now party.old bucket }
        ensures number { result ≡ bucket.entry.number }
        ensures party { HasDetached self.now party.old bucket.entry party.new }
    {
        let number = bucket.number;
        self.flags
            .detach_number(party.number, &mut party.seat, number);
        number
    }

    /// Attaches the bucket of this number if the party of number `from` has detached it by `detach_number`, by one exchange of
    /// its flag. Returns whether that succeeded: only if the flag says at the exchange that exactly this party has detached the
    /// bucket, without a token. So of any number of callers at most one succeeds. The exchange is a step of the party's log. If
    /// it loses, it changes nothing else, and the log says what it found: `from` hadn't detached the bucket, or had detached it
    /// with a token.
    ///
    /// [`by_number::bucket`](super::by_number::bucket) makes the token of a bucket that was attached. The party has to be this
    /// pool's. `from` may be any number.
    pub fn attach_number(&self, party: &mut PoolParty, number: u32, from: u32) -> bool
        requires party { party.old.allocator ≡ self.now }
        requires below { number < self.now.scene.geometry.buckets }
        ensures won { IsTrue result → HasAttachedFrom self.now party.old number from party.new }
        ensures lost { IsFalse result → HasMissedFrom self.now party.old number from party.new }
    {
        self.flags
            .attach_number(party.number, &mut party.seat, number, from)
    }

    /// Gives back the bucket of this number if the party of number `from` has detached it by `detach_number`, by one exchange of
    /// its flag, and returns whether that succeeded. Any party may call it, `from` itself too. The log has the exchange as the
    /// two steps that it takes the place of, an attach from `from` and a return, with no step of another party between them. If
    /// the exchange loses, it changes nothing, and the log has the miss, as after `attach_number`.
    ///
    /// The party has to be this pool's. `from` may be any number.
    pub fn return_number(&self, party: &mut PoolParty, number: u32, from: u32) -> bool
        requires party { party.old.allocator ≡ self.now }
        requires below { number < self.now.scene.geometry.buckets }
        ensures won { IsTrue result → HasReturnedFrom self.now party.old number from party.new }
        ensures lost { IsFalse result → HasMissedFrom self.now party.old number from party.new }
    {
        let is_free = self.flags.return_number(&mut party.seat, number, from);
        if is_free {
            party.hint.follow_return(number);
        }
        is_free
    }
}
