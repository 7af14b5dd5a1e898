//! The table of the file's words: which flag, entry or slot of the machine each word is. It is
//! trusted: it was written by the format, and not by the code that makes the words.

use bb_memory_file_machine::steps::{Entry, FileFlag, Slot};
use scripts::words::to_u32;

/// Returns the flag that a word encodes: 0 is free. Otherwise the two lowest bits are the kind, and the
/// others a number n: with kind 1 the bucket is held by party n, with kind 2 party n has detached it.
/// With kind 3 it is sent: the low 32 bits of n are the slot, and the others the lap. Returns `None` if
/// the kind is 0, or if a party's number doesn't fit into 32 bits.
pub fn flag_of(word: usize) -> Option<FileFlag> {
    if word == 0 {
        return Some(FileFlag::Free);
    }
    let number = word >> 2;
    match word & 3 {
        1 => Some(FileFlag::HeldBy(to_u32(number)?)),
        2 => Some(FileFlag::DetachedBy(to_u32(number)?)),
        3 => Some(FileFlag::SentTo {
            slot: to_u32(number & 0xffff_ffff)?,
            lap: to_u32(number >> 32)?,
        }),
        _ => None,
    }
}

/// Returns the entry that a word encodes: 0 is in no slot. Otherwise the high 32 bits are the
/// length of the bucket's message, and the low 32 bits are the number of its slot, plus 1. Returns
/// `None` if the low 32 bits of such a word are 0.
pub fn entry_of(word: usize) -> Option<Entry> {
    if word == 0 {
        return Some(Entry::Nowhere);
    }
    let length = to_u32(word >> 32)?;
    let low = to_u32(word & 0xffff_ffff)?;
    let slot = low.checked_sub(1)?;
    Some(Entry::In { slot, length })
}

/// Returns the content of a slot that a word encodes: the high 32 bits are the slot's lap, and the
/// low 32 bits are the number of its message's bucket, plus 1, or 0 if the slot is empty.
pub fn slot_of(word: usize) -> Option<Slot> {
    let lap = to_u32(word >> 32)?;
    let low = to_u32(word & 0xffff_ffff)?;
    match low.checked_sub(1) {
        Some(bucket) => Some(Slot::Message { lap, bucket }),
        None => Some(Slot::Empty { lap }),
    }
}
