//! Shared pools: buckets with one flag each, on which any number of threads make atomic steps.
ghost use Rattle.bb_memory_pool_machine.specs.PoolLogs.{HasStepped, IsHeldAfter};
ghost use Rattle.bb_memory_seats.specs.Seats.{HasNow, HasRoomFor, Stays, number_of, view_log};
ghost use Rattle.bb_memory_shared_pools.specs.SharedPool.{AreFresh, IsAlignedTo, IsResizedTo, IsSameParty, IsSharedScene, MayTake, ServesAlone, chunk_of, refused_pass, return_entry, with_entries};
ghost use Rattle.bb_memory_shared_pools.specs.SharedPoolMeetings.{AreBothOf, AreInterleaved, HasTaker, HaveMet, HoldApart, MetDetached, MetUndetached};
ghost use Rattle.bb_memory_shared_pools.specs.SharedPoolRule.{AfterPassWin, AfterRefusal, IsIdleAt, all_parties};
ghost use Rattle.bb_memory_traits.specs.Chunk.{Chunk, IsRegion};
ghost use Rattle.bb_memory_traits.specs.PoolObject.{MayGrow, MayShrink};
ghost use Rattle.std.specs.Prelude.{All, IfErr, IfOk, IfSome, IsFalse, IsTrue, MatchOption, [], length, ℕ, ◌%◌, ◌+◌, ◌<◌, ◌^◌, ◌≡◌, ◌≢◌, ◌≤◌};

use super::bucket::Bucket;
use super::flags::Flags;
use super::party::PoolParty;
use super::rule::{Scene, View};
use atomic_table::Seat;
use bb_memory_pool_machine::hint::Hint;
use bb_memory_traits::allocator::{AllocationError, AllocationGrowError, AllocationShrinkError};
use bb_memory_traits::geometry::Geometry;
use bb_memory_traits::layout::{Chunk, Layout};
use std::alloc::Global;
use std::marker::Model;

/// Buckets with one flag each: if `CAPPED` is 0, all for which the region has room; if it is 1, at most `MOST` of them.
pub struct SharedBucketPool<const CAPPED: usize, const MOST: usize> {
    pub(super) flags: Flags,
}

impl<const CAPPED: usize, const MOST: usize> Drop for SharedBucketPool<CAPPED, MOST> {
    fn drop(self) {
        let SharedBucketPool { flags: _ } = self;
    }
}

impl<const CAPPED: usize, const MOST: usize> Model for SharedBucketPool<CAPPED, MOST> {
    ghost use Rattle.bb_memory_shared_pools.specs.SharedPool.{SharedPool};
    ghost use Rattle.bb_memory_shared_pools.specs.SharedPoolRule.{IsSharedPool};

    ghost Value = { SharedPool };

    ghost view = { λ b. b.flags };

    ghost invariant = { λ b. IsSharedPool CAPPED MOST b.flags.scene };
}

impl<const CAPPED: usize, const MOST: usize> SharedBucketPool<CAPPED, MOST> {
    /// Returns a pool over these buckets, with all flags free, and its parties, which are idle.
    pub(super) fn make(
        alloc: Global,
        geometry: Geometry,
        parties: u32,
    ) -> Result<(Self, Vec<PoolParty>), AllocationError>
        requires some { 1 ≤ parties }
        requires within { CAPPED ≡ 1 → geometry.buckets ≤ MOST }
        ensures geometry { IfOk result (λ made. made.0.scene.geometry ≡ geometry) }
        ensures parties { IfOk result (λ made. AreFresh made.0 parties made.1.items) }
        ensures refused { IfErr result (λ error. error ≡ AllocationError.OutOfMemory) }
    {
        let scene = Scene { geometry, parties };
        let Ok(mut all) = Vec::with_capacity(alloc, parties as usize) else {
            return Err(AllocationError::OutOfMemory);
        };
        let Ok((flags, seat)) = Flags::open(alloc, scene) else {
            return Err(AllocationError::OutOfMemory);
        };
        let pool = SharedBucketPool { flags };
        pool.seat_parties(seat, parties, &mut all);
        Ok((pool, all))
    }

    /// Gives each party a seat of its own.
    fn seat_parties(&self, mut rest: Seat<u8, View>, parties: u32, all: &mut Vec<PoolParty>)
        requires table { rest.table_id ≡ self.now.table }
        requires seat { rest.me ≡ (all_parties self.now.scene, []) }
        requires parties { parties ≡ self.now.scene.parties }
        requires room { HasRoomFor parties all.old }
        ensures { AreFresh self.now parties all.new.items }
    {
        for number in 0..parties {
            let seat = self.flags.split_first(&mut rest);
            let buckets = self.number_of_buckets();
            let hint = Hint::first(buckets, parties, self.bucket_size(), number);
            all.push_reserved(PoolParty { number, seat, hint });
        }
    }

    /// Makes one whole pass: an exchange on each flag from bucket 0 up, until one is taken.
    fn pass(&self, party: u32, seat: &mut Seat<u8, View>) -> Option<u32>
        requires party { number_of seat.old.me.0 ≡ party }
        requires seat { IsIdleAt self.now seat.old.table_id seat.old.me }
        ensures step { Stays seat.old.table_id seat.new.table_id (MatchOption result
            (AfterRefusal self.now.scene (number_of seat.old.me.0) (view_log seat.old.me.0)
            (refused_pass self.now.scene.geometry.buckets (number_of seat.old.me.0)) seat.new.me)
            (AfterPassWin self.now.scene (number_of seat.old.me.0) (view_log seat.old.me.0)
            seat.new.me)) }
        ensures fits { IfSome result (λ bucket. bucket + 1 < 2 ^ 32) }
    {
        for bucket in 0..self.number_of_buckets() {
            if self.flags.try_flag(party, seat, bucket) {
                return Some(bucket);
            }
        }
        None
    }

    /// Takes a bucket for the party, with a chunk of `layout.size()` bytes. The call makes one pass: one exchange on each flag
    /// from bucket 0 up, until one is taken.
    ///
    /// Fails, in this order, with `SizeTooLarge` if the size is greater than the bucket's, and with `AlignmentFailure` if the
    /// alignment is greater than the bucket's, both without a step; and with `OutOfMemory` if all exchanges are lost. If other
    /// parties step meanwhile, that doesn't mean that all buckets were held at one moment. The party has to be this pool's.
    pub fn allocate(
        &self,
        party: &mut PoolParty,
        layout: Layout,
    ) -> Result<Bucket<'_>, AllocationError>
        requires party { party.old.allocator ≡ self.now }
        ensures answer { MayTake party.old layout result party.new }
        ensures party { party.new.allocator ≡ self.now }
        ensures serves { ServesAlone self.now party.old layout result party.new }
    {
        // Proof hint: brings the party's invariant into scope on the early returns.
        let _ = &party.number;
        self.flags.geometry().admit(layout)?;
        match self.pass(party.number, &mut party.seat) {
            Some(number) => {
                party.hint.follow_taking(number);
                Ok(Bucket {
                    flags: &self.flags,
                    number,
                    len: layout.size(),
                })
            }
            None => Err(AllocationError::OutOfMemory),
        }
    }

    /// Takes a whole bucket for the party: the result is that of `allocate` for the bucket's own layout. Fails with
    /// `OutOfMemory` if all exchanges are lost. The party has to be this pool's.
    pub fn take(&self, party: &mut PoolParty) -> Result<Bucket<'_>, AllocationError>
        requires party { party.old.allocator ≡ self.now }
        ensures answer { MayTake party.old self.now.scene.geometry.bucket result party.new }
        ensures party { party.new.allocator ≡ self.now }
        ensures serves { ServesAlone self.now party.old self.now.scene.geometry.bucket
            result party.new }
        ensures refused { IfErr result (λ error. error ≡ AllocationError.OutOfMemory) }
    {
        let bucket = self.bucket_layout();
        self.allocate(party, bucket)
    }

    /// Gives back a bucket by one store, which makes its flag free. The party and the bucket have to be this pool's, and the
    /// party's log has to hold the bucket: this party took or attached it, and hasn't given it back or detached it since.
    ///
    /// Example: `comments::shared_pool_exchanged` of `crates/examples`.
    pub fn deallocate_bucket(&self, party: &mut PoolParty, bucket: Bucket<'_>)
        requires party { party.old.allocator ≡ self.now }
        requires bucket { bucket.allocator ≡ self.now }
        requires held { IsHeldAfter party.old.log bucket.number }
        ensures logged { party.new
            ≡ with_entries party.old (return_entry party.old.number bucket.entry.number) }
        ensures party { party.new.allocator ≡ self.now }
        ensures is_party { IsSameParty party.old party.new }
        ensures given_back { ¬ IsHeldAfter party.new.log bucket.entry.number }
        ensures others_kept { (other : ℕ) → other ≢ bucket.entry.number
            → IsHeldAfter party.old.log other → IsHeldAfter party.new.log other }
        ensures others { (other : ℕ) → IsHeldAfter party.new.log other
            → IsHeldAfter party.old.log other }
    {
        party.hint.follow_return(bucket.number);
        self.flags.give_back(&mut party.seat, bucket.number);
    }

    /// Makes two parties meet: no bucket is held by both. A meeting only loads words: it adds to no
    /// log, and changes nothing. The parties have to be this pool's.
    ///
    /// Example: `comments::shared_pool_left` of `crates/examples`.
    pub fn meet(&self, a: &mut PoolParty, b: &mut PoolParty)
        requires parties { AreBothOf self.now a.old b.old }
        ensures kept { (a.new ≡ a.old) × (b.new ≡ b.old) }
        ensures parties { AreBothOf self.now a.new b.new }
        ensures differ { a.old.number ≢ b.old.number }
        ensures apart { (bucket : ℕ) → IsHeldAfter a.old.log bucket
            → ¬ IsHeldAfter b.old.log bucket }
        ensures interleaved { AreInterleaved a.old b.old }
    {
        self.flags.meet(&mut a.seat, &mut b.seat);
    }

    /// Makes all these parties meet: no bucket is held by two of them, and one interleaving has all
    /// their logs. If these are all parties of the pool, the interleaving has no other steps, and a
    /// flag is taken exactly if one of them holds the bucket or the bucket is detached. If each of
    /// them has also made a step that isn't a lost attach by number, one of them has taken a bucket:
    /// they can't all have been refused because of somebody else, since there is nobody else. A
    /// meeting only loads words: it adds to no log, and changes nothing. The parties have to be this
    /// pool's.
    pub fn meet_all(&self, parties: &mut Vec<PoolParty>)
        requires parties { All (λ party. party.allocator ≡ self.now) parties.old.items }
        ensures kept { parties.new.items ≡ parties.old.items }
        ensures parties { All (λ party. party.allocator ≡ self.now) parties.new.items }
        ensures met { HaveMet self.now.scene parties.old.items }
        ensures apart { HoldApart parties.old.items }
        ensures one_took { length parties.old.items ≡ self.now.scene.parties
            → All (λ party. HasStepped party.log) parties.old.items
            → HasTaker self.now.scene parties.old.items }
    {
        let flags = &self.flags;
        if let Some(party) = parties.pop() {
            let PoolParty {
                number,
                mut seat,
                hint,
            } = party;
            flags.meet_rest(&mut seat, parties);
            parties.push_reserved(PoolParty { number, seat, hint });
        }
    }

    /// Returns whether a bucket is detached, for a user that has all parties of the pool, so that no flag can change meanwhile.
    /// The call loads each flag once, up to the first one of a detached bucket. The parties meet for that, and don't change.
    pub fn has_detached(&self, parties: &mut Vec<PoolParty>) -> bool
        requires parties { All (λ party. party.allocator ≡ self.now) parties.old.items }
        requires all { length parties.old.items ≡ self.now.scene.parties }
        ensures kept { HasNow parties.old.items parties.old parties.new }
        ensures detached { IsTrue result → (bucket : ℕ)
            × MetDetached self.now.scene parties.old.items bucket }
        ensures none { IsFalse result → (bucket : ℕ) → bucket < self.now.scene.geometry.buckets
            → MetUndetached self.now.scene parties.old.items bucket }
    {
        let flags = &self.flags;
        let Some(party) = parties.pop() else {
            return false;
        };
        let PoolParty {
            number,
            mut seat,
            hint,
        } = party;
        let told = flags.meet_detached(&mut seat, parties);
        parties.push_reserved(PoolParty { number, seat, hint });
        told
    }

    /// Gives the bucket's chunk the new size, in its bucket and without a step. Fails with the first of these errors that
    /// applies:
    ///
    /// - `GrowWouldShrink` if the new size isn't greater than the old one.
    /// - `AlignmentFailure` if the new alignment is greater than the bucket's.
    /// - `OutOfMemory` if the new size is greater than the bucket's.
    ///
    /// A failure changes nothing. The bucket has to be this pool's, and its place a multiple of the old alignment. The old size
    /// is the caller's: the token's own length isn't compared with it.
    pub fn grow(
        &self,
        bucket: &mut Bucket<'_>,
        old: Layout,
        new: Layout,
    ) -> Result<Chunk, AllocationGrowError>
        requires bucket { IsAlignedTo self.now old bucket.old }
        ensures answer { MayGrow self.now.scene.geometry.bucket (chunk_of bucket.old).place
            old new result }
        ensures aligned { IfOk result (λ chunk. chunk.place % new.align ≡ 0) }
        ensures resized { IsResizedTo self.now bucket.old result bucket.new }
    {
        let place = bucket.chunk().place();
        let grown = self.flags.geometry().grow(place, old, new)?;
        bucket.len = grown.len();
        Ok(grown)
    }

    /// Gives the bucket's chunk exactly the new size, without a step.
    ///
    /// Fails, in this order, with `ShrinkWouldGrow` if the new size isn't smaller than the old one, and with `AlignmentFailure`
    /// if the new alignment is greater than the bucket's. A failure changes nothing.
    ///
    /// The bucket has to be this pool's, its place a multiple of the old alignment, and the old size at most the bucket's. The
    /// old size is the caller's: the token's own length isn't compared with it.
    pub fn shrink(
        &self,
        bucket: &mut Bucket<'_>,
        old: Layout,
        new: Layout,
    ) -> Result<Chunk, AllocationShrinkError>
        requires bucket { IsAlignedTo self.now old bucket.old }
        requires reserved { old.size ≤ self.now.scene.geometry.bucket.size }
        ensures answer { MayShrink self.now.scene.geometry.bucket (chunk_of bucket.old).place
            old new result }
        ensures aligned { IfOk result (λ chunk. chunk.place % new.align ≡ 0) }
        ensures resized { IsResizedTo self.now bucket.old result bucket.new }
    {
        let place = bucket.chunk().place();
        let shrunk = self.flags.geometry().shrink(place, old, new)?;
        bucket.len = shrunk.len();
        Ok(shrunk)
    }

    /// Returns the number of buckets: in a fixed-size pool, at most its constant. The clauses also state the pool's invariant.
    pub fn number_of_buckets(&self) -> u32
        ensures value { result ≡ self.now.scene.geometry.buckets }
        ensures region { IsRegion self.now.scene.geometry.region }
        ensures scene { IsSharedScene self.now.scene }
        ensures within { CAPPED ≡ 1 → result ≤ MOST }
    {
        self.flags.geometry().count()
    }

    /// Returns the number of parties that the pool was made for. If there are at least two, a party may detach a bucket for
    /// another.
    pub fn number_of_parties(&self) -> u32
        ensures value { result ≡ self.now.scene.parties }
    {
        self.flags.parties()
    }

    /// Returns the layout of each bucket, as passed to `new`.
    pub fn bucket_layout(&self) -> Layout
        ensures { result ≡ self.now.scene.geometry.bucket }
    {
        self.flags.geometry().bucket()
    }

    /// Returns the size of a bucket in bytes, as passed to `new`. Two buckets begin at least that far apart.
    pub fn bucket_size(&self) -> usize
        ensures value { result ≡ self.now.scene.geometry.bucket.size }
    {
        self.flags.geometry().bucket().size()
    }

    /// Returns the greatest alignment that a request may have. Each bucket's place is a multiple of it.
    pub fn max_alignment(&self) -> usize
        ensures value { result ≡ self.now.scene.geometry.bucket.align }
    {
        self.flags.geometry().bucket().align()
    }

    /// Returns the size of the region in bytes, as passed to `new`.
    pub fn size(&self) -> usize
        ensures value { result ≡ self.now.scene.geometry.region.size }
    {
        self.flags.geometry().region_size()
    }
}
