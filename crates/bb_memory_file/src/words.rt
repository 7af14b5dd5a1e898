//! The single atomic operations on the words of a file, by the party whose lock this process has.
ghost use Rattle.bb_memory_file.specs.FileLog.{EmptySlot, ExchangeFlag, ExchangeSlot, FileLog, IsKnownIn, IsLap, IsSaid, LoadEntry, LoadFlag, LoadLife, LoadSlot, MissFlag, MissSlot, NamesBucket, NamesSlot, StoreEntry, StoreFlag, StoreLife, is_held, known_of, lap_in, life_by, told};
ghost use Rattle.bb_memory_file.specs.FileRuns.{CanUnlock};
ghost use Rattle.std.specs.Prelude.{MatchBool, Some, true, ℕ, ◌<◌, ◌≡◌};

use bb_memory_file_machine::steps::{Entry, FileFlag, Slot};

/// An atomic operation on a word of the file, and what it found.
#[derive(Debug, Clone, Copy, PartialEq, Eq)]
pub enum Event {
    /// A load of a bucket's flag found this flag.
    LoadFlag {
        bucket: u32,
        found: FileFlag,
    },
    /// An exchange of a bucket's flag found the first flag, and stored the second.
    ExchangeFlag {
        bucket: u32,
        from: FileFlag,
        to: FileFlag,
    },
    /// An exchange of a bucket's flag didn't find this flag, and stored nothing.
    MissFlag {
        bucket: u32,
        from: FileFlag,
    },
    /// This flag was stored.
    StoreFlag {
        bucket: u32,
        to: FileFlag,
    },
    /// A load of a bucket's entry found this entry.
    LoadEntry {
        bucket: u32,
        found: Entry,
    },
    /// This entry was stored.
    StoreEntry {
        bucket: u32,
        to: Entry,
    },
    /// A load of a slot's word found this word.
    LoadSlot {
        slot: u32,
        found: Slot,
    },
    /// An exchange of a slot's word found the first word, and stored the second.
    ExchangeSlot {
        slot: u32,
        from: Slot,
        to: Slot,
    },
    /// An exchange of a slot's word didn't find this word, and stored nothing.
    MissSlot {
        slot: u32,
        from: Slot,
    },
    /// The word of an empty slot at the lap `next` was stored.
    EmptySlot {
        slot: u32,
        next: u32,
    },
    /// A load of the life of the party's number found this life.
    LoadLife {
        found: u64,
    },
    /// This life of the party's number was stored.
    StoreLife {
        to: u64,
    },
}

/// The words of a file, as one party of this process changes them. Each call that takes a `&mut` is
/// one atomic operation, which is added to the party's log.
///
/// A word is stored only by a party that knows that no other one changes it: the flag and the entry
/// of a bucket that it holds, the word of a slot that has such a bucket, and the life of its own
/// number.
pub trait Words {
    /// The file's figures, the party's number, and what the party has done so far.
    ghost log: { Self → FileLog };

    /// Words with this log were given up.
    ghost unlocked: { FileLog → Type 0 };

    /// Returns the party's number.
    fn party(&self) -> u32
        ensures { result ≡ (log self.now).party };

    /// Returns how many buckets the file has.
    fn buckets(&self) -> u32
        ensures { result ≡ (log self.now).scene.buckets };

    /// Returns how many slots the file has.
    fn slots(&self) -> u32
        ensures { result ≡ (log self.now).scene.slots };

    /// Loads a bucket's flag.
    fn load_flag(&mut self, bucket: u32) -> FileFlag
        requires { bucket < (log self.old).scene.buckets }
        ensures { log self.new ≡ told (log self.old) (LoadFlag bucket result) };

    /// Stores `to` in a bucket's flag if it finds `from`. Returns whether it did.
    fn exchange_flag(&mut self, bucket: u32, from: FileFlag, to: FileFlag) -> bool
        requires below { bucket < (log self.old).scene.buckets }
        requires from { IsSaid from }
        requires to { IsSaid to }
        ensures { MatchBool result
            (log self.new ≡ told (log self.old) (ExchangeFlag bucket from to))
            (log self.new ≡ told (log self.old) (MissFlag bucket from)) };

    /// Stores the flag of a bucket that the party holds.
    fn store_flag(&mut self, bucket: u32, to: FileFlag)
        requires below { bucket < (log self.old).scene.buckets }
        requires held { is_held (known_of (log self.old) bucket) ≡ true }
        requires to { IsSaid to }
        ensures { log self.new ≡ told (log self.old) (StoreFlag bucket to) };

    /// Loads a bucket's entry.
    fn load_entry(&mut self, bucket: u32) -> Entry
        requires { bucket < (log self.old).scene.buckets }
        ensures told { log self.new ≡ told (log self.old) (LoadEntry bucket result) }
        ensures slot { NamesSlot (log self.old).scene.slots result };

    /// Stores the entry of a bucket that the party holds.
    fn store_entry(&mut self, bucket: u32, to: Entry)
        requires below { bucket < (log self.old).scene.buckets }
        requires held { is_held (known_of (log self.old) bucket) ≡ true }
        requires slot { NamesSlot (log self.old).scene.slots to }
        ensures { log self.new ≡ told (log self.old) (StoreEntry bucket to) };

    /// Loads a slot's word.
    fn load_slot(&mut self, slot: u32) -> Slot
        requires { slot < (log self.old).scene.slots }
        ensures told { log self.new ≡ told (log self.old) (LoadSlot slot result) }
        ensures lap { IsLap (lap_in result) };

    /// Stores `to` in a slot's word if it finds `from`. Returns whether it did.
    fn exchange_slot(&mut self, slot: u32, from: Slot, to: Slot) -> bool
        requires below { slot < (log self.old).scene.slots }
        requires from { IsLap (lap_in from) }
        requires to { IsLap (lap_in to) }
        requires buckets { NamesBucket (log self.old).scene.buckets from × NamesBucket (log self.old).scene.buckets to }
        ensures { MatchBool result
            (log self.new ≡ told (log self.old) (ExchangeSlot slot from to))
            (log self.new ≡ told (log self.old) (MissSlot slot from)) };

    /// Empties a slot that has this bucket, which the party holds, at this lap. The slot goes on with
    /// the lap `next`.
    fn empty_slot(&mut self, slot: u32, bucket: u32, lap: u32, next: u32)
        requires below { slot < (log self.old).scene.slots }
        requires its { IsKnownIn (log self.old) bucket slot lap }
        requires next { IsLap next }
        ensures { log self.new ≡ told (log self.old) (EmptySlot slot next) };

    /// Loads the life of the party's number.
    fn load_life(&mut self) -> u64
        ensures { log self.new ≡ told (log self.old) (LoadLife result) };

    /// Stores a greater life of the party's number.
    fn store_life(&mut self, to: u64)
        requires { (life : ℕ) × (life_by (log self.old).events ≡ Some life) × (life < to) }
        ensures { log self.new ≡ told (log self.old) (StoreLife to) };

    /// Gives up the words, as the process may free the number's lock: whoever called the party frees it
    /// right after.
    fn unlock(self)
        requires { CanUnlock (log self) }
        ensures { unlocked (log self) };
}
