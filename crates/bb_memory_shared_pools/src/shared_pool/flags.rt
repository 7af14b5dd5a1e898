//! The flags that threads share, one for each bucket: their words, and the only calls that touch them.
//!
//! - `try_flag`, `try_at`, `probe`, `give_back`, `detach_number` and `attach_number` make one logged step each, by the seat of
//!   the party whose step it is. That party's log then ends with the step and what it found.
//! - `return_number` makes one exchange, which the log has as two steps if it wins: an attach and a return. `send_at` and
//!   `probe_to_send` make one, too, which is a taking and a detachment.
//! - So do `detach`, `attach` and `return_detached`. Each of these three also loads one more word, for the seat of the detached
//!   bucket.
//! - `split_first`, `merge`, `load_for_meeting`, `meet`, `is_held`, `is_detached_when_met` and `found` only load words, and are
//!   in no log. Nor is the load with which `probe` or `probe_to_send` begins, if it finds the flag free.
//! - `open` runs before anything is shared, and `geometry` touches no word.
ghost use Rattle.bb_memory_pool_machine.specs.PoolLogs.{IsHeldAfter, MayBeFound, next_bucket};
ghost use Rattle.bb_memory_pool_machine.specs.PoolMachine.{NamesMade};
ghost use Rattle.bb_memory_pool_machine.specs.declared.steps.pool.Flag.{Flag};
ghost use Rattle.bb_memory_pool_machine.specs.declared.steps.pool.Flag.TheVariants.{DetachedBy, HeldBy};
ghost use Rattle.bb_memory_seats.specs.Seats.{IsSplit, MayMerge, Stays, alone_with, both_of, number_of, view_log};
ghost use Rattle.bb_memory_shared_pools.specs.FlagWords.{as_word, flag_in, with_token, word_of};
ghost use Rattle.bb_memory_shared_pools.specs.SharedPool.{attach_entry, attach_from_entry, return_detached_entry, return_from_entries};
ghost use Rattle.bb_memory_shared_pools.specs.SharedPoolRule.{AfterDetachSplit, AfterGain, AfterMeeting, AfterMeetingLoad, AfterMissFrom, AfterProbe, AfterReturn, AfterSendingProbe, AfterTryLoss, AfterTryWin, FoundDetached, FoundOther, IsDetachedAt, IsHeldAt, IsIdleAt, IsSeatAt, StandsAt, all_parties};
ghost use Rattle.bb_memory_traits.specs.Chunk.{IsRegion};
ghost use Rattle.bb_memory_traits.specs.PoolObject.{IsPoolGeometry};
ghost use Rattle.std.specs.Prelude.{IfOk, IsFalse, IsTrue, MatchBool, [], true, ◌<◌, ◌^◌, ◌↔◌, ◌≡◌, ◌≤◌};

use super::rule::{Agreement, Scene, View};
use super::stand_in::StandIns;
use atomic_table::{Join, Play, Seat, Split, Table};
use bb_memory_pool_machine::steps::Flag;
use bb_memory_traits::geometry::Geometry;
use std::alloc::{AllocError, Global};
use std::marker::Model;

/// The word of a free flag.
const FREE: u64 = 0;

/// Returns the word of the flag of a bucket that this party holds.
fn held_by(party: u32) -> u64
    ensures { result ≡ as_word (HeldBy party) }
{
    2 * party as u64 + 1
}

/// Returns the word of the flag of a bucket that this party has detached without a token.
fn detached_by(party: u32) -> u64
    ensures { result ≡ as_word (DetachedBy party) }
{
    2 * party as u64 + 2
}

/// The number in the word of a bucket that was detached with a token is this much greater than its sender's.
const WITH_TOKEN: u64 = 0x1_0000_0000;

/// Returns the word of the flag of a bucket that this party has detached with a token. An exchange
/// that expects the word of a bucket without a token never succeeds on this one.
fn detached_with_token(party: u32) -> u64
    ensures { result ≡ as_word (with_token party) }
{
    2 * (WITH_TOKEN + party as u64) + 2
}

/// Returns the flag of this word.
fn flag_of(word: u64) -> Flag
    requires { (mark : Flag) × (word ≡ as_word mark) × NamesMade (2 ^ 32) (flag_in mark) }
    ensures { (mark : Flag) → word ≡ as_word mark → NamesMade (2 ^ 32) (flag_in mark) → result ≡ flag_in mark }
{
    if word == FREE {
        return Flag::Free;
    }
    let party = ((word - 1) / 2 % WITH_TOKEN) as u32;
    if word % 2 == 1 {
        Flag::HeldBy(party)
    } else {
        Flag::DetachedBy(party)
    }
}

/// The word of the first flag. The 16 words before it are not flags: meetings load word 0. They fill two
/// cache lines, which processors fetch together. So if the words begin at a multiple of 128 bytes, so
/// do the flags, and each 16 of them have such a pair of lines for themselves.
const FIRST: usize = 16;

/// Returns the word of a bucket's flag. The flags are in the order of their buckets: neighbours in one
/// party's part of the pool share a cache line, and different parties' parts are on different lines,
/// except at their borders.
fn word_of(bucket: u32) -> usize
    ensures { result ≡ word_of bucket }
{
    FIRST + bucket as usize
}

/// An exchange from free to the party's number.
struct Tries;

impl Play<u8, View> for Tries {
    ghost use Rattle.bb_memory_shared_pools.specs.SharedPoolRule.{AfterTry, at_flag};

    ghost then = { at_flag AfterTry };
}

/// An exchange from free to the party's number, by a party that is in no pass.
struct TriesAt;

impl Play<u8, View> for TriesAt {
    ghost use Rattle.bb_memory_shared_pools.specs.SharedPoolRule.{AfterTryAt, at_flag};

    ghost then = { at_flag AfterTryAt };
}

/// An exchange from free to detached by the party without a token, by a party that is in no pass.
struct Sends;

impl Play<u8, View> for Sends {
    ghost use Rattle.bb_memory_shared_pools.specs.SharedPoolRule.{AfterSendAt, at_flag};

    ghost then = { at_flag AfterSendAt };
}

/// A load of a flag by a party that is in no pass.
struct LooksAt;

impl Play<u8, View> for LooksAt {
    ghost use Rattle.bb_memory_shared_pools.specs.SharedPoolRule.{AfterLook, at_flag};

    ghost then = { at_flag AfterLook };
}

/// A store of free, by a party after whose log the bucket is held.
struct Returns;

impl Play<u8, View> for Returns {
    ghost use Rattle.bb_memory_shared_pools.specs.SharedPoolRule.{returns};

    ghost then = { returns };
}

/// A load by a seat that represents any number of parties.
struct Meets;

impl Play<u8, View> for Meets {
    ghost use Rattle.bb_memory_shared_pools.specs.SharedPoolRule.{meets};

    ghost then = { meets };
}

/// A load of a flag by a seat that represents any number of parties.
struct LooksMet;

impl Play<u8, View> for LooksMet {
    ghost use Rattle.bb_memory_shared_pools.specs.SharedPoolRule.{looks_met};

    ghost then = { looks_met };
}

/// A load of a flag by a party, which finds whether the party holds the bucket.
struct Recognizes;

impl Play<u8, View> for Recognizes {
    ghost use Rattle.bb_memory_shared_pools.specs.SharedPoolRule.{AfterHolderLoad, at_flag};

    ghost then = { at_flag AfterHolderLoad };
}

/// A load of a flag by a new seat.
struct Finds;

impl Play<u8, View> for Finds {
    ghost use Rattle.bb_memory_shared_pools.specs.SharedPoolRule.{finds};

    ghost then = { finds };
}

/// A store by a party after whose log the bucket is held, which detaches it.
struct Detaches;

impl Play<u8, View> for Detaches {
    ghost use Rattle.bb_memory_shared_pools.specs.SharedPoolRule.{detaches};

    ghost then = { detaches };
}

/// A store by a party after whose log the bucket is held, which detaches it without a token.
struct DetachesNumber;

impl Play<u8, View> for DetachesNumber {
    ghost use Rattle.bb_memory_shared_pools.specs.SharedPoolRule.{detaches_number};

    ghost then = { detaches_number };
}

/// An exchange by an idle party from detached by some party without a token to the party's number.
struct AttachesNumber;

impl Play<u8, View> for AttachesNumber {
    ghost use Rattle.bb_memory_shared_pools.specs.SharedPoolRule.{attaches_number};

    ghost then = { attaches_number };
}

/// An exchange by an idle party from detached by some party without a token to free.
struct ReturnsNumber;

impl Play<u8, View> for ReturnsNumber {
    ghost use Rattle.bb_memory_shared_pools.specs.SharedPoolRule.{returns_number};

    ghost then = { returns_number };
}

/// A store by a party at whose seat the bucket is detached, which attaches it.
struct Attaches;

impl Play<u8, View> for Attaches {
    ghost use Rattle.bb_memory_shared_pools.specs.SharedPoolRule.{attaches};

    ghost then = { attaches };
}

/// A store of free by a party at whose seat the bucket is detached.
struct ReturnsDetached;

impl Play<u8, View> for ReturnsDetached {
    ghost use Rattle.bb_memory_shared_pools.specs.SharedPoolRule.{returns_detached};

    ghost then = { returns_detached };
}

/// Moves the first bucket that is detached to the new seat.
struct GiveDetached;

impl Split<View> for GiveDetached {
    ghost use Rattle.bb_memory_seats.specs.Seats.{first_detached, others_detached};

    ghost left = { others_detached };

    ghost right = { first_detached };
}

/// Moves detached buckets from one seat to another.
struct TakeIn;

impl Join<View> for TakeIn {
    ghost use Rattle.bb_memory_seats.specs.Seats.{both_detached};
    ghost use Rattle.bb_memory_shared_pools.specs.SharedPoolRule.{nobody};

    ghost both = { both_detached };

    ghost spent = { nobody };
}

/// Moves the first party to the new seat.
struct GiveFirst;

impl Split<View> for GiveFirst {
    ghost use Rattle.bb_memory_seats.specs.Seats.{first_of, others_of};

    ghost left = { others_of };

    ghost right = { first_of };
}

/// Makes one seat represent the parties of two.
struct Merge;

impl Join<View> for Merge {
    ghost use Rattle.bb_memory_seats.specs.Seats.{both_of};
    ghost use Rattle.bb_memory_shared_pools.specs.SharedPoolRule.{nobody};

    ghost both = { both_of };

    ghost spent = { nobody };
}

/// The words of the flags, and the buckets that they belong to.
#[derive(Drop)]
pub(super) struct Flags {
    table: Table<u8, View, Scene, Agreement, Global>,
    pub(super) scene: Scene,
    pub(super) stand_ins: StandIns,
}

impl Model for Flags {
    ghost use Rattle.bb_memory_shared_pools.specs.SharedPool.{SharedPool};
    ghost use Rattle.bb_memory_shared_pools.specs.SharedPoolRule.{HasWords};
    ghost use Rattle.std.specs.Prelude.{◌≡◌};

    ghost Value = { SharedPool };

    ghost view = { λ f. record {
      table = f.table.shared.table_id;
      scene = f.scene;
    } };

    ghost invariant = { λ f. (f.table.shared.key ≡ f.scene)
        × HasWords f.table.shared.table_id f.scene };
}

impl Flags {
    /// Makes the flags at a scene's opening, all free, and a seat that represents all its parties.
    pub(super) fn open(alloc: Global, scene: Scene) -> Result<(Flags, Seat<u8, View>), AllocError>
        requires { 1 ≤ scene.parties }
        ensures scene { IfOk result (λ made. made.0.scene ≡ scene) }
        ensures table { IfOk result (λ made. made.1.table_id ≡ made.0.table) }
        ensures seat { IfOk result (λ made. made.1.me ≡ (all_parties scene, [])) }
        ensures region { IfOk result (λ made. IsRegion scene.geometry.region) }
        ensures geometry { IfOk result (λ made. IsPoolGeometry scene.geometry) }
    {
        let words = Vec::from_elem(alloc, FREE, FIRST + scene.geometry.count() as usize)?;
        let (table, seat) = Table::of_words(alloc, words.as_slice(), &scene)?;
        let stand_ins = StandIns::open(alloc)?;
        let flags = Flags {
            table,
            scene,
            stand_ins,
        };
        Ok((flags, seat))
    }

    /// Returns a seat of its own for the first party that a seat represents.
    pub(super) fn split_first(&self, rest: &mut Seat<u8, View>) -> Seat<u8, View>
        requires { rest.old.table_id ≡ self.now.table }
        ensures { IsSplit rest.old.table_id rest.old.me rest.new.table_id rest.new.me
            result.table_id result.me }
    {
        self.table.shared.split_seat::<GiveFirst>(rest)
    }

    /// Exchanges the flag of the bucket that the party tries next from free to held. Returns whether that took the bucket.
    pub(super) fn try_flag(&self, party: u32, seat: &mut Seat<u8, View>, bucket: u32) -> bool
        requires party { number_of seat.old.me.0 ≡ party }
        requires seat { IsSeatAt self.now seat.old.table_id seat.old.me }
        requires next { next_bucket (view_log seat.old.me.0) ≡ bucket }
        requires below { bucket < self.now.scene.geometry.buckets }
        ensures { Stays seat.old.table_id seat.new.table_id (MatchBool result
            (AfterTryWin self.now.scene (number_of seat.old.me.0) (view_log seat.old.me.0)
            bucket seat.new.me)
            (AfterTryLoss self.now.scene (number_of seat.old.me.0) (view_log seat.old.me.0)
            bucket seat.new.me)) }
    {
        let found = self
            .table
            .shared
            .compare_exchange::<Tries>(seat, word_of(bucket), FREE, held_by(party));
        found == FREE
    }

    /// Exchanges the flag of `bucket` from free to held, by a party in no pass. Returns whether that took the bucket.
    pub(super) fn try_at(&self, party: u32, seat: &mut Seat<u8, View>, bucket: u32) -> bool
        requires party { number_of seat.old.me.0 ≡ party }
        requires seat { IsIdleAt self.now seat.old.table_id seat.old.me }
        requires below { bucket < self.now.scene.geometry.buckets }
        ensures { Stays seat.old.table_id seat.new.table_id (AfterProbe self.now.scene
            (number_of seat.old.me.0) (view_log seat.old.me.0) bucket seat.new.me result) }
    {
        let shared = &self.table.shared;
        let word = word_of(bucket);
        let flag = shared.compare_exchange::<TriesAt>(seat, word, FREE, held_by(party));
        flag == FREE
    }

    /// Tries this bucket as `try_at` does, but makes the exchange only if a load finds the flag free: even an exchange that
    /// loses takes the flag's cache line away from all other threads.
    pub(super) fn probe(&self, party: u32, seat: &mut Seat<u8, View>, bucket: u32) -> bool
        requires party { number_of seat.old.me.0 ≡ party }
        requires seat { IsIdleAt self.now seat.old.table_id seat.old.me }
        requires below { bucket < self.now.scene.geometry.buckets }
        ensures { Stays seat.old.table_id seat.new.table_id (AfterProbe self.now.scene
            (number_of seat.old.me.0) (view_log seat.old.me.0) bucket seat.new.me result) }
    {
        let seen = self.table.shared.load::<LooksAt>(seat, word_of(bucket));
        if seen != FREE {
            return false;
        }
        self.try_at(party, seat, bucket)
    }

    /// Exchanges the flag of `bucket` from free to detached without a token, by a party in no pass, which must not be the only one.
    /// Returns whether that took and detached the bucket.
    pub(super) fn send_at(&self, party: u32, seat: &mut Seat<u8, View>, bucket: u32) -> bool
        requires party { number_of seat.old.me.0 ≡ party }
        requires others { 1 < self.now.scene.parties }
        requires seat { IsIdleAt self.now seat.old.table_id seat.old.me }
        requires below { bucket < self.now.scene.geometry.buckets }
        ensures { Stays seat.old.table_id seat.new.table_id (AfterSendingProbe self.now.scene
            (number_of seat.old.me.0) (view_log seat.old.me.0) bucket seat.new.me result) }
    {
        let shared = &self.table.shared;
        let word = word_of(bucket);
        let flag = shared.compare_exchange::<Sends>(seat, word, FREE, detached_by(party));
        flag == FREE
    }

    /// Tries this bucket as `send_at` does, but makes the exchange only if a load finds the flag free, as `probe` does.
    pub(super) fn probe_to_send(&self, party: u32, seat: &mut Seat<u8, View>, bucket: u32) -> bool
        requires party { number_of seat.old.me.0 ≡ party }
        requires others { 1 < self.now.scene.parties }
        requires seat { IsIdleAt self.now seat.old.table_id seat.old.me }
        requires below { bucket < self.now.scene.geometry.buckets }
        ensures { Stays seat.old.table_id seat.new.table_id (AfterSendingProbe self.now.scene
            (number_of seat.old.me.0) (view_log seat.old.me.0) bucket seat.new.me result) }
    {
        let loaded = self.table.shared.load::<LooksAt>(seat, word_of(bucket));
        if loaded != FREE {
            return false;
        }
        self.send_at(party, seat, bucket)
    }

    /// Stores free in the flag of a bucket that is held after the party's log.
    pub(super) fn give_back(&self, seat: &mut Seat<u8, View>, bucket: u32)
        requires seat { IsSeatAt self.now seat.old.table_id seat.old.me }
        requires held { IsHeldAt self.now seat.old.me bucket }
        ensures { Stays seat.old.table_id seat.new.table_id (AfterReturn self.now.scene
            (number_of seat.old.me.0) (view_log seat.old.me.0) bucket seat.new.me) }
    {
        self.table
            .shared
            .store::<Returns>(seat, word_of(bucket), FREE);
    }

    /// Loads the flag of `bucket`, which is in no log. Returns whether the party holds the bucket.
    pub(super) fn is_held(&self, party: u32, seat: &mut Seat<u8, View>, bucket: u32) -> bool
        requires party { number_of seat.old.me.0 ≡ party }
        requires seat { IsSeatAt self.now seat.old.table_id seat.old.me }
        requires below { bucket < self.now.scene.geometry.buckets }
        ensures seat { Stays seat.old.table_id seat.new.table_id (seat.new.me ≡ seat.old.me) }
        ensures value { (result ≡ true) ↔ IsHeldAfter (view_log seat.old.me.0) bucket }
    {
        let shared = &self.table.shared;
        let found = shared.load::<Recognizes>(seat, word_of(bucket));
        found == held_by(party)
    }

    /// Loads the flag of `bucket` by a new seat, which is in no log, and returns it.
    pub(super) fn found(&self, bucket: u32) -> Flag
        requires { bucket < self.now.scene.geometry.buckets }
        ensures { MayBeFound self.now.scene bucket result }
    {
        // Proof hint: brings into scope that the numbers of parties fit into 32 bits.
        let _ = self.parties();
        let (word, _) = self.table.shared.load_new_seat::<Finds>(word_of(bucket));
        flag_of(word)
    }

    /// Makes the store with which a party detaches a bucket that is held after its log. The party
    /// must not be the only one. Returns the seat of the detached bucket.
    pub(super) fn detach(
        &self,
        party: u32,
        seat: &mut Seat<u8, View>,
        bucket: u32,
    ) -> Seat<u8, View>
        requires party { number_of seat.old.me.0 ≡ party }
        requires others { 1 < self.now.scene.parties }
        requires seat { IsSeatAt self.now seat.old.table_id seat.old.me }
        requires held { IsHeldAt self.now seat.old.me bucket }
        ensures step { Stays self.now.table seat.new.table_id (AfterDetachSplit self.now.scene
            (number_of seat.old.me.0) (view_log seat.old.me.0) bucket seat.new.me) }
        ensures detached { IsDetachedAt self.now result.table_id result.me bucket }
    {
        let shared = &self.table.shared;
        shared.store::<Detaches>(seat, word_of(bucket), detached_with_token(party));
        shared.split_seat::<GiveDetached>(seat)
    }

    /// Joins the seat of a detached bucket to that of an idle party.
    fn take_in(&self, seat: &mut Seat<u8, View>, detached: Seat<u8, View>, bucket: u32)
        requires seat { IsIdleAt self.now seat.old.table_id seat.old.me }
        requires detached { IsDetachedAt self.now detached.table_id detached.me bucket }
        ensures { Stays seat.old.table_id seat.new.table_id
            (seat.new.me ≡ (
              alone_with self.now.scene
                  (number_of seat.old.me.0) (view_log seat.old.me.0) bucket,
              [],
            )) }
    {
        self.table.shared.join_seat::<TakeIn>(seat, detached);
    }

    /// Moves a detached bucket to the seat of an idle party, and makes the store by which the party
    /// holds the bucket.
    pub(super) fn attach(
        &self,
        party: u32,
        seat: &mut Seat<u8, View>,
        detached: Seat<u8, View>,
        bucket: u32,
    )
        requires party { number_of seat.old.me.0 ≡ party }
        requires seat { IsIdleAt self.now seat.old.table_id seat.old.me }
        requires detached { IsDetachedAt self.now detached.table_id detached.me bucket }
        ensures { Stays seat.old.table_id seat.new.table_id (AfterGain self.now.scene
            (number_of seat.old.me.0) (view_log seat.old.me.0)
            (attach_entry (number_of seat.old.me.0) bucket) bucket seat.new.me) }
    {
        self.take_in(seat, detached, bucket);
        let shared = &self.table.shared;
        shared.store::<Attaches>(seat, word_of(bucket), held_by(party));
    }

    /// Moves a detached bucket to the seat of an idle party, and makes the store of free by which
    /// the party gives it back.
    pub(super) fn return_detached(
        &self,
        seat: &mut Seat<u8, View>,
        detached: Seat<u8, View>,
        bucket: u32,
    )
        requires seat { IsIdleAt self.now seat.old.table_id seat.old.me }
        requires detached { IsDetachedAt self.now detached.table_id detached.me bucket }
        ensures { Stays seat.old.table_id seat.new.table_id (AfterGain self.now.scene
            (number_of seat.old.me.0) (view_log seat.old.me.0)
            (return_detached_entry (number_of seat.old.me.0) bucket) bucket seat.new.me) }
    {
        self.take_in(seat, detached, bucket);
        let shared = &self.table.shared;
        shared.store::<ReturnsDetached>(seat, word_of(bucket), FREE);
    }

    /// Makes the store with which a party detaches, without a token, a bucket that is held after
    /// its log. The party must not be the only one. Afterwards no seat has the bucket.
    pub(super) fn detach_number(&self, party: u32, seat: &mut Seat<u8, View>, bucket: u32)
        requires party { number_of seat.old.me.0 ≡ party }
        requires others { 1 < self.now.scene.parties }
        requires seat { IsSeatAt self.now seat.old.table_id seat.old.me }
        requires held { IsHeldAt self.now seat.old.me bucket }
        ensures { Stays seat.old.table_id seat.new.table_id (AfterDetachSplit self.now.scene
            (number_of seat.old.me.0) (view_log seat.old.me.0) bucket seat.new.me) }
    {
        let shared = &self.table.shared;
        shared.store::<DetachesNumber>(seat, word_of(bucket), detached_by(party));
    }

    /// Exchanges the flag of `bucket` from detached by `from`, without a token, to held, by an idle party. Returns whether that
    /// attached the bucket.
    pub(super) fn attach_number(
        &self,
        party: u32,
        seat: &mut Seat<u8, View>,
        bucket: u32,
        from: u32,
    ) -> bool
        requires party { number_of seat.old.me.0 ≡ party }
        requires seat { IsIdleAt self.now seat.old.table_id seat.old.me }
        requires below { bucket < self.now.scene.geometry.buckets }
        ensures { Stays seat.old.table_id seat.new.table_id (MatchBool result
            (AfterGain self.now.scene (number_of seat.old.me.0) (view_log seat.old.me.0)
            (attach_from_entry (number_of seat.old.me.0) bucket from) bucket seat.new.me)
            (AfterMissFrom self.now.scene (number_of seat.old.me.0) (view_log seat.old.me.0)
            bucket from seat.new.me)) }
    {
        let shared = &self.table.shared;
        let sent = detached_by(from);
        let word = word_of(bucket);
        let found = shared.compare_exchange::<AttachesNumber>(seat, word, sent, held_by(party));
        found == sent
    }

    /// Exchanges the flag of `bucket` from detached by `from`, without a token, to free, by an idle party. Returns whether that
    /// gave the bucket back.
    pub(super) fn return_number(&self, seat: &mut Seat<u8, View>, bucket: u32, from: u32) -> bool
        requires seat { IsIdleAt self.now seat.old.table_id seat.old.me }
        requires below { bucket < self.now.scene.geometry.buckets }
        ensures { Stays seat.old.table_id seat.new.table_id (MatchBool result
            (AfterGain self.now.scene (number_of seat.old.me.0) (view_log seat.old.me.0)
            (return_from_entries (number_of seat.old.me.0) bucket from) bucket seat.new.me)
            (AfterMissFrom self.now.scene (number_of seat.old.me.0) (view_log seat.old.me.0)
            bucket from seat.new.me)) }
    {
        let shared = &self.table.shared;
        let expected = detached_by(from);
        let word = word_of(bucket);
        let flag = shared.compare_exchange::<ReturnsNumber>(seat, word, expected, FREE);
        flag == expected
    }

    /// Moves a guest's parties to this seat, before its own.
    pub(super) fn merge(&self, seat: &mut Seat<u8, View>, guest: Seat<u8, View>)
        requires { MayMerge self.now.table seat.old.table_id guest.table_id guest.me }
        ensures { Stays seat.old.table_id seat.new.table_id
            (seat.new.me ≡ (both_of seat.old.me.0 guest.me.0, seat.old.me.1)) }
    {
        self.table.shared.join_seat::<Merge>(seat, guest);
    }

    /// Makes a load when the parties of one seat have met.
    pub(super) fn load_for_meeting(&self, seat: &mut Seat<u8, View>)
        requires { StandsAt self.now seat.old.table_id seat.old.me }
        ensures table { seat.new.table_id ≡ seat.old.table_id }
        ensures seat { seat.new.me ≡ seat.old.me }
        ensures step { AfterMeetingLoad self.now.scene seat.old.me.0.parties }
    {
        self.table.shared.load::<Meets>(seat, 0);
    }

    /// Loads the flag of `bucket` when the parties of one seat have met, which is in no log. Returns whether the bucket is
    /// detached.
    pub(super) fn is_detached_when_met(&self, seat: &mut Seat<u8, View>, bucket: u32) -> bool
        requires seat { StandsAt self.now seat.old.table_id seat.old.me }
        requires below { bucket < self.now.scene.geometry.buckets }
        ensures table { seat.new.table_id ≡ seat.old.table_id }
        ensures seat { seat.new.me ≡ seat.old.me }
        ensures detached { IsTrue result
            → FoundDetached self.now.scene seat.old.me.0.parties bucket }
        ensures other { IsFalse result → FoundOther self.now.scene seat.old.me.0.parties bucket }
    {
        let shared = &self.table.shared;
        let found = shared.load::<LooksMet>(seat, word_of(bucket));
        found != FREE && found % 2 == 0
    }

    /// Makes two parties meet at one seat, load a word there, and go back to their own seats.
    pub(super) fn meet(&self, a: &mut Seat<u8, View>, b: &mut Seat<u8, View>)
        requires a { IsSeatAt self.now a.old.table_id a.old.me }
        requires b { IsSeatAt self.now b.old.table_id b.old.me }
        ensures a { Stays a.old.table_id a.new.table_id (a.new.me ≡ a.old.me) }
        ensures b { Stays b.old.table_id b.new.table_id (b.new.me ≡ b.old.me) }
        ensures met { AfterMeeting self.now.scene
            (number_of a.old.me.0) (view_log a.old.me.0)
            (number_of b.old.me.0) (view_log b.old.me.0) }
    {
        let guest = self.split_first(b);
        self.merge(a, guest);
        self.load_for_meeting(a);
        *b = self.split_first(a);
    }

    /// Loads each flag once, and returns how many are taken. The loads are in no log.
    pub(super) fn count_taken(&self) -> u32 {
        let is_taken = |bucket: &u32| self.table.shared.peek(word_of(*bucket)) != FREE;
        (0..self.scene.geometry.count()).filter(is_taken).count() as u32
    }

    /// Returns the number of parties that the flags were made for.
    pub(super) fn parties(&self) -> u32
        ensures value { result ≡ self.now.scene.parties }
    {
        self.scene.parties
    }

    /// Returns the buckets that the flags belong to.
    pub(super) fn geometry(&self) -> &Geometry
        ensures value { result.now ≡ self.now.scene.geometry }
    {
        &self.scene.geometry
    }
}
