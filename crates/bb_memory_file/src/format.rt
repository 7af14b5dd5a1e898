//! The words of a file: where each is in the file's row of words, and what it says.
ghost use Rattle.bb_memory_file.specs.FileFormat.{HasFlagWord, HasSlotWord, entry_in, entry_word, flag_in, flag_word, slot_in, slot_word};
ghost use Rattle.bb_memory_file.specs.FileLog.{IsLap, IsSaid, NamesSlot, lap_in};
ghost use Rattle.std.specs.Prelude.{◌-◌, ◌<◌, ◌^◌, ◌≡◌};

use bb_memory_file_machine::steps::{Entry, FileFlag, Slot};

/// The number in the low half of a word is below this.
const HALF: u64 = 1 << 32;

/// The laps are below this.
const LAPS: u64 = 1 << 30;

/// Returns the word of a flag.
pub(crate) fn flag_word(flag: FileFlag) -> u64
    requires { IsSaid flag }
    ensures word { result ≡ flag_word flag }
    ensures has { HasFlagWord flag }
    ensures reads { flag_in result ≡ flag }
{
    match flag {
        FileFlag::Free => 0,
        FileFlag::HeldBy(party) => 4 * party as u64 + 1,
        FileFlag::DetachedBy(party) => 4 * party as u64 + 2,
        FileFlag::SentTo { slot, lap } => lap as u64 * (4 * HALF) + 4 * slot as u64 + 3,
    }
}

/// Returns the flag that a word says. A word that is no flag's says that the bucket is sent at a lap
/// that is none.
pub(crate) fn flag_in(word: u64) -> FileFlag
    ensures { result ≡ flag_in word }
{
    if word == 0 {
        return FileFlag::Free;
    }
    let kind = word % 4;
    let number = word / 4;
    if kind == 3 {
        return FileFlag::SentTo {
            slot: (number % HALF) as u32,
            lap: (number / HALF) as u32,
        };
    }
    if number < HALF {
        if kind == 1 {
            return FileFlag::HeldBy(number as u32);
        }
        if kind == 2 {
            return FileFlag::DetachedBy(number as u32);
        }
    }
    FileFlag::SentTo {
        slot: 0,
        lap: 1 << 30,
    }
}

/// Returns the word of an entry of a file with this many slots.
pub(crate) fn entry_word(slots: u32, entry: Entry) -> u64
    requires slots { slots < 2 ^ 32 - 1 }
    requires slot { NamesSlot slots entry }
    ensures word { result ≡ entry_word entry }
    ensures reads { entry_in slots result ≡ entry }
{
    match entry {
        Entry::Nowhere => 0,
        Entry::In { slot, length } => length as u64 * HALF + slot as u64 + 1,
    }
}

/// Returns the entry that a word of a file with this many slots says. A word with none of these slots
/// says that the bucket is in no slot.
pub(crate) fn entry_in(slots: u32, word: u64) -> Entry
    ensures entry { result ≡ entry_in slots word }
    ensures slot { NamesSlot slots result }
{
    let named = word % HALF;
    if named == 0 || named - 1 >= slots as u64 {
        return Entry::Nowhere;
    }
    Entry::In {
        slot: (named - 1) as u32,
        length: (word / HALF) as u32,
    }
}

/// Returns the word of a slot.
pub(crate) fn slot_word(slot: Slot) -> u64
    requires { HasSlotWord slot }
    ensures word { result ≡ slot_word slot }
    ensures reads { slot_in result ≡ slot }
{
    match slot {
        Slot::Empty { lap } => lap as u64 * HALF,
        Slot::Message { lap, bucket } => lap as u64 * HALF + bucket as u64 + 1,
    }
}

/// Returns the word of a slot that a word says. A word that is no slot's says that the slot has a bucket
/// that no file has.
pub(crate) fn slot_in(word: u64) -> Slot
    ensures slot { result ≡ slot_in word }
    ensures lap { IsLap (lap_in result) }
{
    if word >= LAPS * HALF {
        return Slot::Message {
            lap: 0,
            bucket: u32::MAX,
        };
    }
    let lap = (word / HALF) as u32;
    let bucket = word % HALF;
    if bucket == 0 {
        return Slot::Empty { lap };
    }
    Slot::Message {
        lap,
        bucket: (bucket - 1) as u32,
    }
}
