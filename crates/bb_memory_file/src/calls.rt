//! The calls on the words of a file: each makes the steps of one process of the machine.
//!
//! Each of them is given a party whose lock this process has, and what it needs to know of a bucket
//! is in its `requires`: that the party holds the bucket, and what the bucket's entry says.
ghost use Rattle.bb_memory_file.specs.FileCalls.{AllocateSays, BeginsSearch, IsAttach, IsDeallocate, IsDetach, IsDone, IsFill, IsFound, IsJoin, IsLeave, IsPost, IsPutBack, IsReap, IsReceive, IsSettled, SearchSays, TakesOne, is_fit, length_in};
ghost use Rattle.bb_memory_file.specs.FileLog.{FileLog, IsKnownIn, IsLap, is_clear, is_held, known_of};
ghost use Rattle.bb_memory_file.specs.FileNames.{Deallocate, DetachNumber, Done, Flags, Next, Outside, Settled};
ghost use Rattle.bb_memory_file.specs.FileQueueCalls.{AllObey, IsDoneAt, IsSlotBelow, KnowsOthers};
ghost use Rattle.bb_memory_file.specs.FileSettlers.{IsCounted, IsCountedOn, IsRecover, IsSettledAt};
ghost use Rattle.bb_memory_file_machine.specs.FileMachine.{same_flag};
ghost use Rattle.std.specs.Prelude.{IfSome, IsTrue, MatchBool, Some, [], false, true, ℕ, ◌%◌, ◌+◌, ◌<◌, ◌^◌, ◌∷◌, ◌≡◌, ◌≤◌};

use crate::words::Words;
use bb_memory_file_machine::steps::{Entry, FileFlag, Slot};

/// The laps of a slot are less than this, so that a flag has room for them.
const LAPS: u32 = 1 << 30;

/// The answer of `receive`.
#[derive(Debug, Clone, Copy, PartialEq, Eq)]
pub enum Received {
    /// The bucket isn't sent there: another party has the message, or its sender hasn't finished.
    NotSent,
    /// The bucket's entry is none that a message in the slot has.
    Wrong,
    /// The party has received a message of this length in bytes, and holds the bucket.
    Message(u32),
}

/// Where a bucket that a party holds is.
#[derive(Debug, Clone, Copy, PartialEq, Eq)]
pub enum Whereabouts {
    /// In this slot, at this lap.
    In { slot: u32, lap: u32 },
    /// In no slot, though its entry names one.
    Entered,
    /// In no slot.
    Nowhere,
}

// BUCKETS

/// Begins a search for a free bucket: tries the bucket `hint`, if the file has that bucket, and returns
/// whether it took the bucket.
#[inline(always)]
pub fn allocate_first<W: Words>(words: &mut W, hint: u32) -> bool
    ensures answer { MatchBool result
        (AllocateSays (W.log words.old) hint (Some hint) (W.log words.new))
        (BeginsSearch (W.log words.old) hint (W.log words.new)) }
    ensures fits { IsTrue result → hint + 1 < 2 ^ 32 }
{
    if hint >= words.buckets() {
        return false;
    }
    let held = FileFlag::HeldBy(words.party());
    words.exchange_flag(hint, FileFlag::Free, held)
}

/// Goes on with a search that has not taken its first bucket: tries each other bucket, first from `hint`
/// on, and then before it. The first clause holds for each log with which the search may have begun.
#[inline(never)]
pub fn allocate_later<W: Words>(words: &mut W, hint: u32) -> Option<u32>
    ensures answer { (before : FileLog) → BeginsSearch before hint (W.log words.old)
        → AllocateSays before hint result (W.log words.new) }
    ensures takes { TakesOne (W.log words.old) result (W.log words.new) }
    ensures fits { IfSome result (λ bucket. bucket + 1 < 2 ^ 32) }
{
    let buckets = words.buckets();
    if hint >= buckets {
        return search(words, 0, buckets);
    }
    if let Some(bucket) = search(words, hint + 1, buckets) {
        return Some(bucket);
    }
    search(words, 0, hint)
}

/// Gives back a bucket that the party holds, and that is in no slot.
#[inline(always)]
pub fn deallocate<W: Words>(words: &mut W, bucket: u32)
    requires below { bucket < (W.log words.old).scene.buckets }
    requires clear { is_clear (known_of (W.log words.old) bucket) ≡ true }
    ensures { (process : ℕ) → IsDeallocate process (W.log words.old) bucket (W.log words.new) }
{
    words.store_flag(bucket, FileFlag::Free);
}

/// Detaches a bucket that the party holds, and that is in no slot, so that its number can go to
/// another party by a channel outside the file.
pub fn detach<W: Words>(words: &mut W, bucket: u32)
    requires below { bucket < (W.log words.old).scene.buckets }
    requires clear { is_clear (known_of (W.log words.old) bucket) ≡ true }
    ensures { (process : ℕ) → IsDetach process (W.log words.old) bucket (W.log words.new) }
{
    let detached = FileFlag::DetachedBy(words.party());
    words.store_flag(bucket, detached);
}

/// Attaches a bucket by its number, whoever has detached it. Returns whether it was detached.
pub fn attach<W: Words>(words: &mut W, bucket: u32) -> bool
    requires { bucket < (W.log words.old).scene.buckets }
    ensures { (process : ℕ) → IsAttach process (W.log words.old) bucket result (W.log words.new) }
{
    let held = FileFlag::HeldBy(words.party());
    match words.load_flag(bucket) {
        FileFlag::DetachedBy(from) => {
            words.exchange_flag(bucket, FileFlag::DetachedBy(from), held)
        }
        _ => false,
    }
}

// MESSAGES

/// Posts a message of `length` bytes in a bucket that the party holds, and that is in no slot. Returns
/// whether the slot was empty.
pub fn post<W: Words>(words: &mut W, slot: u32, bucket: u32, length: u32) -> bool
    requires slot { slot < (W.log words.old).scene.slots }
    requires below { bucket < (W.log words.old).scene.buckets }
    requires clear { is_clear (known_of (W.log words.old) bucket) ≡ true }
    ensures { (process : ℕ) → IsPost process (W.log words.old) slot bucket length result (W.log words.new) }
{
    let Slot::Empty { lap } = words.load_slot(slot) else {
        return false;
    };
    fill(words, slot, lap, bucket, length)
}

/// Posts a message of `length` bytes in a bucket that the party holds, and that is in no slot, into a slot
/// that was empty at this lap. Returns whether it still was.
pub fn fill<W: Words>(words: &mut W, slot: u32, lap: u32, bucket: u32, length: u32) -> bool
    requires slot { slot < (W.log words.old).scene.slots }
    requires lap { IsLap lap }
    requires below { bucket < (W.log words.old).scene.buckets }
    requires clear { is_clear (known_of (W.log words.old) bucket) ≡ true }
    ensures { (process : ℕ) → IsFill process (W.log words.old) slot lap bucket length result (W.log words.new) }
{
    words.store_entry(bucket, Entry::In { slot, length });
    let full = Slot::Message { lap, bucket };
    if !words.exchange_slot(slot, Slot::Empty { lap }, full) {
        words.store_entry(bucket, Entry::Nowhere);
        return false;
    }
    words.store_flag(bucket, FileFlag::SentTo { slot, lap });
    true
}

/// Takes the message in this bucket, which a load of the slot has found there at this lap. `size` is
/// the size of a bucket in bytes.
pub fn receive<W: Words>(words: &mut W, slot: u32, lap: u32, bucket: u32, size: u32) -> Received
    requires lap { IsLap lap }
    requires below { bucket < (W.log words.old).scene.buckets }
    ensures { (process : ℕ) → IsReceive process (W.log words.old) slot lap bucket size result (W.log words.new) }
{
    let sent = FileFlag::SentTo { slot, lap };
    let held = FileFlag::HeldBy(words.party());
    if !words.exchange_flag(bucket, sent, held) {
        return Received::NotSent;
    }
    let entry = words.load_entry(bucket);
    if is_fit(entry, slot, size) {
        return Received::Message(length_in(entry));
    }
    words.store_flag(bucket, sent);
    Received::Wrong
}

/// Says that the party is done with the message in a bucket that it holds, and that is in this slot at
/// this lap: empties the slot.
pub fn done<W: Words>(words: &mut W, slot: u32, bucket: u32, lap: u32)
    requires slot { slot < (W.log words.old).scene.slots }
    requires below { bucket < (W.log words.old).scene.buckets }
    requires its { IsKnownIn (W.log words.old) bucket slot lap }
    requires lap { IsLap lap }
    ensures { (process : ℕ) → IsDone process (W.log words.old) slot bucket lap (W.log words.new) }
{
    words.empty_slot(slot, bucket, lap, next_lap(lap));
    words.store_entry(bucket, Entry::Nowhere);
}

/// Says that the party is done with the message in a bucket that it holds: empties the slot that has the
/// bucket. Returns where the bucket was found to be.
pub fn done_with<W: Words>(words: &mut W, bucket: u32) -> Whereabouts
    requires below { bucket < (W.log words.old).scene.buckets }
    requires held { is_held (known_of (W.log words.old) bucket) ≡ true }
    ensures done { (process : ℕ) → IsDoneAt process (W.log words.old) bucket result (W.log words.new) }
    ensures others { KnowsOthers (W.log words.old) bucket (W.log words.new) }
    ensures obeys { (depth : ℕ) → AllObey depth (W.log words.old) → AllObey depth (W.log words.new) }
{
    let place = find(words, bucket);
    if let Whereabouts::In { slot, lap } = place {
        done(words, slot, bucket, lap);
    }
    place
}

/// Puts back the message in a bucket that the party holds, if the bucket is in a slot. Returns where
/// the bucket was found to be.
pub fn put_back<W: Words>(words: &mut W, bucket: u32) -> Whereabouts
    requires below { bucket < (W.log words.old).scene.buckets }
    requires held { is_held (known_of (W.log words.old) bucket) ≡ true }
    ensures { (process : ℕ) → IsPutBack process (W.log words.old) bucket result (W.log words.new) }
{
    let found = find(words, bucket);
    if let Whereabouts::In { slot, lap } = found {
        words.store_flag(bucket, FileFlag::SentTo { slot, lap });
    }
    found
}

// NUMBERS

/// Counts that this process has taken the number's lock. Returns the life that the number had before,
/// or None if that can't become greater.
pub fn count_lock<W: Words>(words: &mut W) -> Option<u64>
    ensures { (process : ℕ) → IsCounted process (W.log words.old) result (W.log words.new) }
{
    let life = words.load_life();
    if life >= u64::MAX - 3 {
        return None;
    }
    words.store_life(life + 2);
    Some(life)
}

/// Joins as the number whose lock this process has counted: settles what whoever had the number before
/// has left. The clause holds for each log with which the process may have counted the lock.
pub fn join<W: Words>(words: &mut W)
    ensures { (process : ℕ) (before : FileLog) (life : ℕ)
        → IsCounted process before (Some life) (W.log words.old)
        → IsJoin process before true (W.log words.new) }
{
    settle(words, false);
    count_join(words);
}

/// Gives back all buckets that the party holds, but for its messages, which are put back. Returns how
/// many these were.
pub fn give_all_back<W: Words>(words: &mut W) -> u32
    ensures { (process : ℕ) → IsSettled process (W.log words.old) false Outside result [] (W.log words.new) Outside }
{
    settle(words, false)
}

/// Leaves: gives back all that the party holds, as `give_all_back` does, and counts the number's life.
/// Returns how many buckets were given back.
pub fn leave<W: Words>(words: &mut W) -> u32
    ensures { (process : ℕ) → IsLeave process (W.log words.old) result (W.log words.new) }
{
    let freed = settle(words, false);
    count_leave(words);
    freed
}

/// Settles the number whose lock this process has just taken. If whoever had the number was killed and
/// `dead` is true, or has left and `left` is true, also frees what it has detached. Returns how many
/// buckets were freed, or None if the number's life can't become greater any more.
pub fn reap<W: Words>(words: &mut W, dead: bool, left: bool) -> Option<u32>
    ensures { (process : ℕ) → IsReap process (W.log words.old) dead left result (W.log words.new) }
{
    let Some(life) = count_lock(words) else {
        return None;
    };
    let detached = if life % 2 == 1 { dead } else { left };
    Some(settle(words, detached))
}

/// Settles the party's number: gives back what it holds, and sends its messages to their slots again,
/// or for the first time if it was killed before it had sent them. If `detached` is true, also gives
/// back what it has detached. Returns how many buckets were given back.
fn settle<W: Words>(words: &mut W, detached: bool) -> u32
    ensures { (process : ℕ) → IsSettled process (W.log words.old) detached (Flags (W.log words.old).party 0) result []
        (W.log words.new) (Settled (W.log words.old).party) }
{
    let mut freed = 0;
    for bucket in 0..words.buckets() {
        if detached {
            recover(words, bucket);
        }
        if settle_bucket(words, bucket) {
            freed += 1;
        }
    }
    freed
}

/// Attaches the bucket if the party has detached it.
fn recover<W: Words>(words: &mut W, bucket: u32)
    requires { bucket < (W.log words.old).scene.buckets }
    ensures { (process : ℕ) → IsRecover process (W.log words.old) bucket (W.log words.new) }
{
    let party = words.party();
    let detached = FileFlag::DetachedBy(party);
    if is_same(words.load_flag(bucket), detached) {
        words.exchange_flag(bucket, detached, FileFlag::HeldBy(party));
    }
}

/// Settles one bucket. Returns whether the bucket was given back.
fn settle_bucket<W: Words>(words: &mut W, bucket: u32) -> bool
    requires { bucket < (W.log words.old).scene.buckets }
    ensures { (process : ℕ) → IsSettledAt process (W.log words.old) bucket result (W.log words.new) }
{
    let held = FileFlag::HeldBy(words.party());
    if !is_same(words.load_flag(bucket), held) {
        return false;
    }
    match find(words, bucket) {
        Whereabouts::In { slot, lap } => {
            words.store_flag(bucket, FileFlag::SentTo { slot, lap });
            return false;
        }
        Whereabouts::Entered => words.store_entry(bucket, Entry::Nowhere),
        Whereabouts::Nowhere => {}
    }
    words.store_flag(bucket, FileFlag::Free);
    true
}

// LOOKS

/// Finds out whether a slot has a bucket that the party holds.
fn find<W: Words>(words: &mut W, bucket: u32) -> Whereabouts
    requires below { bucket < (W.log words.old).scene.buckets }
    requires held { is_held (known_of (W.log words.old) bucket) ≡ true }
    ensures found { IsFound (W.log words.old) bucket result (W.log words.new) }
    ensures slot { IsSlotBelow (W.log words.old).scene.slots result }
{
    let Entry::In { slot, length: _ } = words.load_entry(bucket) else {
        return Whereabouts::Nowhere;
    };
    let Slot::Message { lap, bucket: other } = words.load_slot(slot) else {
        return Whereabouts::Entered;
    };
    if other == bucket {
        Whereabouts::In { slot, lap }
    } else {
        Whereabouts::Entered
    }
}

/// Takes one of these buckets, if one is free when the search comes to it.
fn search<W: Words>(words: &mut W, from: u32, to: u32) -> Option<u32>
    requires order { from ≤ to }
    requires below { to ≤ (W.log words.old).scene.buckets }
    ensures { SearchSays (W.log words.old) from to result (W.log words.new) }
{
    let held = FileFlag::HeldBy(words.party());
    for bucket in from..to {
        if words.exchange_flag(bucket, FileFlag::Free, held) {
            return Some(bucket);
        }
    }
    None
}

/// Counts that this process has joined as the number, which it has settled. The life is odd then.
fn count_join<W: Words>(words: &mut W)
    ensures { (process : ℕ) → IsCountedOn process (W.log words.old) 1 (W.log words.new) }
{
    let life = words.load_life();
    if life % 2 == 0 {
        words.store_life(life + 1);
    }
}

/// Counts that this process leaves: the life is even then, unless it can't become greater.
fn count_leave<W: Words>(words: &mut W)
    ensures { (process : ℕ) → IsCountedOn process (W.log words.old) 0 (W.log words.new) }
{
    let life = words.load_life();
    if life % 2 == 1 && life < u64::MAX {
        words.store_life(life + 1);
    }
}

/// Returns the lap after this one.
pub fn next_lap(lap: u32) -> u32
    requires { IsLap lap }
    ensures next { result ≡ (lap + 1) % 2 ^ 30 }
    ensures lap { IsLap result }
{
    (lap + 1) % LAPS
}

/// Returns whether the entry is that of a message in this slot that fits into `size` bytes.
fn is_fit(entry: Entry, slot: u32, size: u32) -> bool
    ensures { result ≡ is_fit slot size entry }
{
    match entry {
        Entry::Nowhere => false,
        Entry::In {
            slot: other,
            length,
        } => other == slot && length <= size,
    }
}

/// Returns the length of the message of an entry, in bytes.
fn length_in(entry: Entry) -> u32
    ensures { result ≡ length_in entry }
{
    match entry {
        Entry::Nowhere => 0,
        Entry::In { slot: _, length } => length,
    }
}

/// Returns whether two flags are the same.
pub fn is_same(one: FileFlag, other: FileFlag) -> bool
    ensures { result ≡ same_flag one other }
{
    match (one, other) {
        (FileFlag::Free, FileFlag::Free) => true,
        (FileFlag::HeldBy(one), FileFlag::HeldBy(other)) => one == other,
        (FileFlag::DetachedBy(one), FileFlag::DetachedBy(other)) => one == other,
        (
            FileFlag::SentTo { slot: one, lap },
            FileFlag::SentTo {
                slot: other,
                lap: same,
            },
        ) => one == other && lap == same,
        _ => false,
    }
}
