//! Answers about files in the form that C gets them.
ghost use Rattle.bb_memory_c.specs.Files.{detached_number, no_message, none_detached, overtaken, posted_as, put_back_number, shown_entry, shown_flag, shown_slot};
ghost use Rattle.std.specs.Prelude.{◌≡◌};

use bb_memory_c_calls::answer::{DETACHED, FREE, HELD};
use bb_memory_c_calls::code;
use bb_memory_file_machine::steps::{Entry, FileFlag, Slot};

/// The state of a bucket's flag: the bucket is sent to a slot.
pub const SENT: u32 = 3;

/// A code and, if the code is 0, a message: the number and the place of its bucket, and its length in bytes. With any other
/// code the other fields are 0.
#[repr(C)]
#[derive(Clone, Copy)]
pub struct Message {
    pub code: u32,
    pub number: u32,
    pub place: usize,
    pub len: usize,
}

/// A code. If other senders were faster, it is `BB_DETACHED_FULL`, and `is_overtaken` is true: the sender may try again.
#[repr(C)]
#[derive(Clone, Copy)]
pub struct PostedMessage {
    pub code: u32,
    pub is_overtaken: bool,
}

/// A code and, if the code is 0, the number of a bucket that a party has detached. If the bucket had a message, the message was put
/// back, and `slot` is its slot. All other fields are 0.
#[repr(C)]
#[derive(Clone, Copy)]
pub struct DetachedNumber {
    pub code: u32,
    pub number: u32,
    pub slot: u32,
    pub is_put_back: bool,
}

/// The flag of a bucket: one of `FREE`, `HELD`, `DETACHED` and `SENT`. It names the party that holds the bucket or has detached it,
/// or the slot to which the bucket is sent, at this lap. All other fields are 0.
#[repr(C)]
#[derive(Clone, Copy)]
pub struct ShownFlag {
    pub state: u32,
    pub by: u32,
    pub lap: u32,
}

/// The word of a slot: its lap, and the bucket of its message, or 0 if it is empty.
#[repr(C)]
#[derive(Clone, Copy)]
pub struct ShownSlot {
    pub is_full: bool,
    pub lap: u32,
    pub bucket: u32,
}

/// The entry of a bucket: in which slot the bucket is, and the length of its message in bytes, or that it is in none.
#[repr(C)]
#[derive(Clone, Copy)]
pub struct ShownEntry {
    pub is_in_slot: bool,
    pub slot: u32,
    pub length: u32,
}

impl Message {
    /// Returns the answer with this code and no message.
    pub fn refusal(code: u32) -> Message
        ensures { result ≡ no_message code }
    {
        Message {
            code,
            number: 0,
            place: 0,
            len: 0,
        }
    }
}

impl PostedMessage {
    /// Returns the answer with this code.
    pub fn of(code: u32) -> PostedMessage
        ensures { result ≡ posted_as code }
    {
        PostedMessage {
            code,
            is_overtaken: false,
        }
    }

    /// Returns the answer that other senders were faster.
    pub fn overtaken() -> PostedMessage
        ensures { result ≡ overtaken }
    {
        PostedMessage {
            code: code::DETACHED_FULL,
            is_overtaken: true,
        }
    }
}

impl DetachedNumber {
    /// Returns the answer with this code and no bucket.
    pub fn refusal(code: u32) -> DetachedNumber
        ensures { result ≡ none_detached code }
    {
        DetachedNumber {
            code,
            number: 0,
            slot: 0,
            is_put_back: false,
        }
    }

    /// Returns the answer that the bucket of this number is detached.
    pub fn detached(number: u32) -> DetachedNumber
        ensures { result ≡ detached_number number }
    {
        DetachedNumber {
            code: code::OK,
            number,
            slot: 0,
            is_put_back: false,
        }
    }

    /// Returns the answer that the message in the bucket of this number was put back in this slot.
    pub fn put_back(number: u32, slot: u32) -> DetachedNumber
        ensures { result ≡ put_back_number number slot }
    {
        DetachedNumber {
            code: code::OK,
            number,
            slot,
            is_put_back: true,
        }
    }
}

impl ShownFlag {
    /// Converts a flag into C's.
    pub fn of(flag: FileFlag) -> ShownFlag
        ensures { result ≡ shown_flag flag }
    {
        let (state, by, lap) = match flag {
            FileFlag::Free => (FREE, 0, 0),
            FileFlag::HeldBy(party) => (HELD, party, 0),
            FileFlag::DetachedBy(party) => (DETACHED, party, 0),
            FileFlag::SentTo { slot, lap } => (SENT, slot, lap),
        };
        ShownFlag { state, by, lap }
    }
}

impl ShownSlot {
    /// Converts the word of a slot into C's.
    pub fn of(slot: Slot) -> ShownSlot
        ensures { result ≡ shown_slot slot }
    {
        match slot {
            Slot::Empty { lap } => ShownSlot {
                is_full: false,
                lap,
                bucket: 0,
            },
            Slot::Message { lap, bucket } => ShownSlot {
                is_full: true,
                lap,
                bucket,
            },
        }
    }
}

impl ShownEntry {
    /// Converts an entry into C's.
    pub fn of(entry: Entry) -> ShownEntry
        ensures { result ≡ shown_entry entry }
    {
        match entry {
            Entry::Nowhere => ShownEntry {
                is_in_slot: false,
                slot: 0,
                length: 0,
            },
            Entry::In { slot, length } => ShownEntry {
                is_in_slot: true,
                slot,
                length,
            },
        }
    }
}
