//! Next fit: requests whose search begins at the party's hint.
ghost use Rattle.bb_memory_pool_machine.specs.PoolHints.{hint_after};
ghost use Rattle.bb_memory_pool_machine.specs.PoolLogs.{PoolLog};
ghost use Rattle.bb_memory_pool_machine.specs.declared.steps.pool.PoolOutcome.TheVariants.{Takes};
ghost use Rattle.bb_memory_seats.specs.Seats.{Stays, number_of, view_log};
ghost use Rattle.bb_memory_shared_pools.specs.SharedPool.{PoolParty, ServesAlone, taken_bucket};
ghost use Rattle.bb_memory_shared_pools.specs.SharedPoolNextFit.{BeginsSearch, MayTakeFrom, MissesToSend, TakesToSend, hint_of, probed, probes_before, refused_search};
ghost use Rattle.bb_memory_shared_pools.specs.SharedPoolRule.{AfterRefusal, AfterSearchSending, AfterSearchWin, IsIdleAt, IsInSearch};
ghost use Rattle.std.specs.Prelude.{IfErr, IfNone, IfSome, IsTrue, MatchBool, MatchOption, Ok, ℕ, ◌+◌, ◌<◌, ◌^◌, ◌≡◌, ◌≤◌};

use super::bucket::Bucket;
use super::buckets::SharedBucketPool;
use super::party::PoolParty;
use super::rule::View;
use atomic_table::Seat;
use bb_memory_pool_machine::hint::Hint;
use bb_memory_traits::allocator::AllocationError;
use bb_memory_traits::layout::Layout;

/// Returns the bucket that a probe tries, in a search over `buckets` buckets that begins at bucket `first`.
fn probed(buckets: u32, first: u32, probe: u32) -> u32
    requires { probe < buckets }
    ensures value { result ≡ probed buckets first probe }
    ensures below { result < buckets }
{
    let start = if first < buckets { first } else { 0 };
    let ahead = buckets - start;
    if probe < ahead {
        start + probe
    } else {
        probe - ahead
    }
}

impl<const CAPPED: usize, const MOST: usize> SharedBucketPool<CAPPED, MOST> {
    /// Makes the first probe of a search that begins at bucket `first`, if the pool has that bucket.
    /// Returns whether that took the bucket. The probe makes its exchange without a load before it,
    /// since the bucket at the hint is mostly free.
    fn try_first(&self, party: u32, seat: &mut Seat<u8, View>, first: u32) -> bool
        requires party { number_of seat.old.me.0 ≡ party }
        requires seat { IsIdleAt self.now seat.old.table_id seat.old.me }
        ensures step { Stays seat.old.table_id seat.new.table_id (MatchBool result
            (AfterSearchWin self.now.scene (number_of seat.old.me.0) (view_log seat.old.me.0)
            first seat.new.me first)
            (IsInSearch self.now.scene (number_of seat.old.me.0) (view_log seat.old.me.0)
            first (probes_before self.now.scene.geometry.buckets first) seat.new.me)) }
        ensures fits { IsTrue result → first + 1 < 2 ^ 32 }
    {
        first < self.number_of_buckets() && self.flags.try_at(party, seat, first)
    }

    /// Makes the probes of a search after that of bucket `first`, which missed, or all of them if the
    /// pool has no such bucket. The clause holds for each log with which the search may have begun.
    fn later_probes(&self, party: u32, seat: &mut Seat<u8, View>, first: u32) -> Option<u32>
        requires party { number_of seat.old.me.0 ≡ party }
        requires seat { IsIdleAt self.now seat.old.table_id seat.old.me }
        ensures step { Stays seat.old.table_id seat.new.table_id ((number : ℕ) (log : PoolLog)
            → IsInSearch self.now.scene number log first
            (probes_before self.now.scene.geometry.buckets first) seat.old.me → MatchOption result
            (AfterRefusal self.now.scene number log
            (refused_search self.now.scene.geometry.buckets number first) seat.new.me)
            (AfterSearchWin self.now.scene number log first seat.new.me)) }
        ensures fits { IfSome result (λ bucket. bucket + 1 < 2 ^ 32) }
    {
        let count = self.number_of_buckets();
        let from = if first < count { 1 } else { 0 };
        for probe in from..count {
            let bucket = probed(count, first, probe);
            if self.flags.probe(party, seat, bucket) {
                return Some(bucket);
            }
        }
        None
    }

    /// Goes on with a search from the hint whose first probe missed, and moves the hint if a probe takes a bucket. The function isn't
    /// inlined, so that a search whose first probe takes a bucket is straight-line code.
    #[inline(never)]
    fn search_on(&self, party: u32, seat: &mut Seat<u8, View>, hint: &mut Hint) -> Option<u32>
        requires party { number_of seat.old.me.0 ≡ party }
        requires seat { IsIdleAt self.now seat.old.table_id seat.old.me }
        ensures step { Stays seat.old.table_id seat.new.table_id ((number : ℕ) (log : PoolLog)
            → IsInSearch self.now.scene number log hint.old.bucket
            (probes_before self.now.scene.geometry.buckets hint.old.bucket) seat.old.me → MatchOption result
            (AfterRefusal self.now.scene number log
            (refused_search self.now.scene.geometry.buckets number hint.old.bucket) seat.new.me)
            (AfterSearchWin self.now.scene number log hint.old.bucket seat.new.me)) }
        ensures moved { IfSome result (λ bucket. hint.new ≡ hint_after hint.old (Takes bucket)) }
        ensures stays { IfNone result (hint.new ≡ hint.old) }
    {
        let later = self.later_probes(party, seat, hint.bucket);
        let Some(number) = later else {
            return None;
        };
        hint.follow_taking(number);
        Some(number)
    }

    /// Tries the first bucket of a search as `try_first` does, by an exchange that also detaches the bucket without a token.
    fn send_first(&self, party: u32, seat: &mut Seat<u8, View>, first: u32) -> bool
        requires party { number_of seat.old.me.0 ≡ party }
        requires others { 1 < self.now.scene.parties }
        requires seat { IsIdleAt self.now seat.old.table_id seat.old.me }
        ensures step { Stays seat.old.table_id seat.new.table_id (MatchBool result
            (AfterSearchSending self.now.scene (number_of seat.old.me.0) (view_log seat.old.me.0)
            first seat.new.me first)
            (IsInSearch self.now.scene (number_of seat.old.me.0) (view_log seat.old.me.0)
            first (probes_before self.now.scene.geometry.buckets first) seat.new.me)) }
        ensures fits { IsTrue result → first + 1 < 2 ^ 32 }
    {
        first < self.number_of_buckets() && self.flags.send_at(party, seat, first)
    }

    /// Makes the other probes of a search as `later_probes` does, by exchanges that also detach the bucket without a token.
    #[inline(never)]
    fn later_sends(&self, party: u32, seat: &mut Seat<u8, View>, first: u32) -> Option<u32>
        requires party { number_of seat.old.me.0 ≡ party }
        requires others { 1 < self.now.scene.parties }
        requires seat { IsIdleAt self.now seat.old.table_id seat.old.me }
        ensures step { Stays seat.old.table_id seat.new.table_id ((number : ℕ) (log : PoolLog)
            → IsInSearch self.now.scene number log first
            (probes_before self.now.scene.geometry.buckets first) seat.old.me → MatchOption result
            (AfterRefusal self.now.scene number log
            (refused_search self.now.scene.geometry.buckets number first) seat.new.me)
            (AfterSearchSending self.now.scene number log first seat.new.me)) }
        ensures fits { IfSome result (λ bucket. bucket + 1 < 2 ^ 32) }
    {
        let count = self.number_of_buckets();
        let before = if first < count { 1 } else { 0 };
        for probe in before..count {
            let bucket = probed(count, first, probe);
            if self.flags.probe_to_send(party, seat, bucket) {
                return Some(bucket);
            }
        }
        None
    }

    /// Returns the token of the bucket of this number, with this length.
    fn taken(&self, number: u32, len: usize) -> Bucket<'_>
        requires number { number < self.now.scene.geometry.buckets }
        requires len { len ≤ self.now.scene.geometry.bucket.size }
        ensures { result ≡ taken_bucket self.now number len }
    {
        Bucket {
            flags: &self.flags,
            number,
            len,
        }
    }

    /// Takes a bucket for the party, as `allocate` does, but tries the buckets in another order: after the same tests of size and
    /// alignment it probes each bucket once, until one is taken.
    ///
    /// The search begins at the party's hint, goes on to the last bucket, and then from bucket 0 up. The hint is the bucket that
    /// the party gave back last, or one at most 128 before it that it gave back earlier, or otherwise its rover. The rover is just
    /// after the bucket that the party took last, or at one that it gave back before. Before the party's first step, and each time
    /// that the rover has come to its limit, it is the first bucket of the party's own part of the pool.
    ///
    /// Fails with `OutOfMemory` if each probe misses. If other parties step meanwhile, that doesn't mean that all buckets were held
    /// at one moment. The party has to be this pool's.
    #[inline(always)]
    pub fn allocate_next_fit(
        &self,
        party: &mut PoolParty,
        layout: Layout,
    ) -> Result<Bucket<'_>, AllocationError>
        requires party { party.old.allocator ≡ self.now }
        ensures answer { MayTakeFrom (hint_of party.old) party.old layout result party.new }
        ensures party { party.new.allocator ≡ self.now }
        ensures serves { ServesAlone self.now party.old layout result party.new }
    {
        // Proof hint: brings the party's invariant into scope on the early returns.
        let _ = &party.number;
        self.flags.geometry().admit(layout)?;
        let first = party.hint.bucket;
        if self.try_first(party.number, &mut party.seat, first) {
            party.hint.follow_first(first);
            return Ok(self.taken(first, layout.size()));
        }
        let later = self.search_on(party.number, &mut party.seat, &mut party.hint);
        let Some(number) = later else {
            return Err(AllocationError::OutOfMemory);
        };
        Ok(self.taken(number, layout.size()))
    }

    /// Makes the first probe of the search of `allocate_next_fit` for a whole bucket. If it misses, the search isn't over:
    /// `take_later` makes its other probes. The party has to be this pool's.
    #[inline(always)]
    pub(super) fn take_first(&self, party: &mut PoolParty) -> Option<Bucket<'_>>
        requires party { party.old.allocator ≡ self.now }
        ensures took { IfSome result (λ bucket. MayTakeFrom (hint_of party.old) party.old
            self.now.scene.geometry.bucket (Ok bucket) party.new) }
        ensures serves { IfSome result (λ bucket. ServesAlone self.now party.old
            self.now.scene.geometry.bucket (Ok bucket) party.new) }
        ensures missed { IfNone result (BeginsSearch party.old party.new) }
        ensures party { party.new.allocator ≡ self.now }
    {
        let number = party.hint.bucket;
        if !self.try_first(party.number, &mut party.seat, number) {
            return None;
        }
        party.hint.follow_first(number);
        Some(self.taken(number, self.bucket_size()))
    }

    /// Goes on with a search whose first probe `take_first` has made. Fails with `OutOfMemory` if each probe misses. The clauses
    /// hold for each party with which the search may have begun. The party has to be this pool's.
    pub(super) fn take_later(&self, party: &mut PoolParty) -> Result<Bucket<'_>, AllocationError>
        requires party { party.old.allocator ≡ self.now }
        requires begun { (before : PoolParty) × BeginsSearch before party.old }
        ensures answer { (before : PoolParty) → BeginsSearch before party.old
            → MayTakeFrom (hint_of before) before self.now.scene.geometry.bucket result party.new }
        ensures serves { (before : PoolParty) → BeginsSearch before party.old
            → ServesAlone self.now before self.now.scene.geometry.bucket result party.new }
        ensures party { party.new.allocator ≡ self.now }
        ensures refused { IfErr result (λ error. error ≡ AllocationError.OutOfMemory) }
    {
        let taken = self.search_on(party.number, &mut party.seat, &mut party.hint);
        let Some(number) = taken else {
            return Err(AllocationError::OutOfMemory);
        };
        Ok(self.taken(number, self.bucket_size()))
    }

    /// Takes a whole bucket by a search as `allocate_next_fit` does, and detaches it as `detach_number` does. One exchange does
    /// both: it writes into the flag that the party has detached the bucket. Returns the bucket's number, or `None` if each probe
    /// misses. The pool has to have at least two parties, and the party has to be this pool's.
    pub fn take_detached(&self, party: &mut PoolParty) -> Option<u32>
        requires others { 1 < self.now.scene.parties }
        requires party { party.old.allocator ≡ self.now }
        ensures sent { IfSome result (λ number. TakesToSend party.old number party.new) }
        ensures refused { IfNone result (MissesToSend party.old party.new) }
        ensures party { party.new.allocator ≡ self.now }
    {
        let hinted = party.hint.bucket;
        if self.send_first(party.number, &mut party.seat, hinted) {
            party.hint.follow_first(hinted);
            return Some(hinted);
        }
        let later = self.later_sends(party.number, &mut party.seat, hinted);
        let Some(number) = later else {
            return None;
        };
        party.hint.follow_taking(number);
        Some(number)
    }
}
