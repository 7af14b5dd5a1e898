//! The lines of a trace. `trace.c` of the library for C defines them.

use crate::which_word::{entry_of, flag_of, slot_of};
use bb_memory_file_machine::steps::{Entry, FileFlag, Slot};
use scripts::words::{Numbers, is_word, to_u32, words};

/// A call that a process makes, with the number of the party that makes it if the trace names one.
#[derive(Debug, Clone, Copy, PartialEq, Eq)]
pub enum Call {
    /// A call that changes nothing: it only looks, or opens the file. The machine's process is in
    /// no call meanwhile.
    Looks,
    Join,
    Close,
    Reap,
    /// A reap with detached buckets.
    Recover,
    Leave {
        party: u32,
    },
    GiveAllBack {
        party: u32,
    },
    Flush {
        party: u32,
    },
    Allocate {
        party: u32,
    },
    Deallocate {
        party: u32,
        bucket: u32,
    },
    Detach {
        party: u32,
        bucket: u32,
    },
    Attach {
        party: u32,
        bucket: u32,
    },
    Post {
        party: u32,
        slot: u32,
        bucket: u32,
        length: u32,
    },
    Take {
        party: u32,
        slot: u32,
    },
    Done {
        party: u32,
        slot: u32,
    },
}

/// A change of a word, of a lock or of a life.
#[derive(Debug, Clone, Copy, PartialEq, Eq)]
pub enum Change {
    Flag {
        bucket: u32,
        from: FileFlag,
        to: FileFlag,
    },
    Entry {
        bucket: u32,
        from: Entry,
        to: Entry,
    },
    Slot {
        slot: u32,
        from: Slot,
        to: Slot,
    },
    /// The life of this number.
    Life {
        party: u32,
        from: u64,
        to: u64,
    },
    /// The lock of this number is the process's now.
    Lock {
        party: u32,
    },
    /// The lock of this number was the process's, and is free now.
    Unlock {
        party: u32,
    },
}

/// The result of a call.
#[derive(Debug, Clone, Copy, PartialEq, Eq)]
pub enum Returned {
    Refused,
    Nothing,
    Bucket(u32),
    Message { bucket: u32, length: u32 },
}

/// An event of a process, as a line of a trace has it.
#[derive(Debug, Clone, Copy, PartialEq, Eq)]
pub enum Event {
    Begins(Call),
    Changes(Change),
    Returns(Returned),
    IsKilled,
    IsGone,
}

/// A line of a trace.
#[derive(Debug, Clone, Copy, PartialEq, Eq)]
pub struct Line {
    pub process: u32,
    pub event: Event,
}

impl Line {
    /// Returns whether the event is a change of a word, of a lock or of a life.
    pub fn is_change(self) -> bool {
        match self.event {
            Event::Changes(_) => true,
            _ => false,
        }
    }
}

/// The figures in the first line of a trace.
#[derive(Debug, Clone, Copy, PartialEq, Eq)]
pub struct Figures {
    pub processes: u32,
    pub parties: u32,
    pub buckets: u32,
    pub slots: u32,
}

/// Parses the first line of a trace, or returns `None` if it is unreadable.
pub fn read_figures(text: &[u8]) -> Option<Figures> {
    let (name, numbers) = words(text)?;
    match numbers {
        Numbers::Four(processes, parties, buckets, slots) if is_word(name, b"file") => Some(
            Figures {
                processes: to_u32(processes)?,
                parties: to_u32(parties)?,
                buckets: to_u32(buckets)?,
                slots: to_u32(slots)?,
            },
        ),
        _ => None,
    }
}

/// Parses a line after the first. Returns `None` if the line is unreadable.
pub fn read_line(text: &[u8]) -> Option<Line> {
    let (name, numbers) = words(text)?;
    let (process, event) = match numbers {
        Numbers::One(process) => (process, event_of_one(name)?),
        Numbers::Two(process, a) => (process, event_of_two(name, to_u32(a)?)?),
        Numbers::Three(process, a, b) => (process, event_of_three(name, to_u32(a)?, to_u32(b)?)?),
        Numbers::Four(process, a, from, to) => (
            process,
            event_of_four(name, to_u32(a)?, from, to)?,
        ),
        Numbers::Five(process, party, slot, bucket, length) if is_word(name, b"post") => {
            let call = Call::Post {
                party: to_u32(party)?,
                slot: to_u32(slot)?,
                bucket: to_u32(bucket)?,
                length: to_u32(length)?,
            };
            (process, Event::Begins(call))
        }
        _ => return None,
    };
    Some(Line {
        process: to_u32(process)?,
        event,
    })
}

/// Returns the event of a line of this name that has only a process.
fn event_of_one(name: &[u8]) -> Option<Event> {
    if is_word(name, b"open") || is_word(name, b"show") {
        Some(Event::Begins(Call::Looks))
    } else if is_word(name, b"join") {
        Some(Event::Begins(Call::Join))
    } else if is_word(name, b"close") {
        Some(Event::Begins(Call::Close))
    } else if is_word(name, b"reap") {
        Some(Event::Begins(Call::Reap))
    } else if is_word(name, b"recover") {
        Some(Event::Begins(Call::Recover))
    } else if is_word(name, b"ok") {
        Some(Event::Returns(Returned::Nothing))
    } else if is_word(name, b"refused") {
        Some(Event::Returns(Returned::Refused))
    } else if is_word(name, b"kill") {
        Some(Event::IsKilled)
    } else if is_word(name, b"gone") {
        Some(Event::IsGone)
    } else {
        None
    }
}

/// Returns the event of a line with one number after the process.
fn event_of_two(name: &[u8], number: u32) -> Option<Event> {
    if is_word(name, b"leave") {
        Some(Event::Begins(Call::Leave { party: number }))
    } else if is_word(name, b"give_all_back") {
        Some(Event::Begins(Call::GiveAllBack { party: number }))
    } else if is_word(name, b"flush") {
        Some(Event::Begins(Call::Flush { party: number }))
    } else if is_word(name, b"allocate") {
        Some(Event::Begins(Call::Allocate { party: number }))
    } else if is_word(name, b"lock") {
        Some(Event::Changes(Change::Lock { party: number }))
    } else if is_word(name, b"unlock") {
        Some(Event::Changes(Change::Unlock { party: number }))
    } else if is_word(name, b"ok") {
        Some(Event::Returns(Returned::Bucket(number)))
    } else {
        None
    }
}

/// Returns the event of a line with two numbers after the process.
fn event_of_three(name: &[u8], party: u32, number: u32) -> Option<Event> {
    if is_word(name, b"deallocate") {
        let bucket = number;
        Some(Event::Begins(Call::Deallocate { party, bucket }))
    } else if is_word(name, b"detach") {
        let bucket = number;
        Some(Event::Begins(Call::Detach { party, bucket }))
    } else if is_word(name, b"attach") {
        let bucket = number;
        Some(Event::Begins(Call::Attach { party, bucket }))
    } else if is_word(name, b"take") {
        Some(Event::Begins(Call::Take {
            party,
            slot: number,
        }))
    } else if is_word(name, b"done") {
        Some(Event::Begins(Call::Done {
            party,
            slot: number,
        }))
    } else if is_word(name, b"ok") {
        let message = Returned::Message {
            bucket: party,
            length: number,
        };
        Some(Event::Returns(message))
    } else {
        None
    }
}

/// Returns the event of a line with the change of a flag, an entry, a slot or a life.
fn event_of_four(name: &[u8], number: u32, from: usize, to: usize) -> Option<Event> {
    if is_word(name, b"flag") {
        let change = Change::Flag {
            bucket: number,
            from: flag_of(from)?,
            to: flag_of(to)?,
        };
        Some(Event::Changes(change))
    } else if is_word(name, b"entry") {
        let change = Change::Entry {
            bucket: number,
            from: entry_of(from)?,
            to: entry_of(to)?,
        };
        Some(Event::Changes(change))
    } else if is_word(name, b"slot") {
        let change = Change::Slot {
            slot: number,
            from: slot_of(from)?,
            to: slot_of(to)?,
        };
        Some(Event::Changes(change))
    } else if is_word(name, b"life") {
        let change = Change::Life {
            party: number,
            from: from as u64,
            to: to as u64,
        };
        Some(Event::Changes(change))
    } else {
        None
    }
}
