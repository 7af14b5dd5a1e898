//! The calls on the words of a pool in a file. They are written over single atomic operations, and
//! each is proved to make the steps of the file machine.
//!
//! - `words`: the atomic operations
//! - `joined`: a party that has joined, with its notes of buckets and its cache; reapers
//! - `queues`: where senders and receivers go on in a queue over the slots
//! - `geometry`, `table`, `party`: the words of a file in one row, with the parties that operate on them
//! - `laws`: what the calls and the row of words have to do with the machine
#![tactic(auto)]

mod calls;
mod format;
pub mod geometry;
pub mod joined;
pub mod laws;
pub mod party;
mod party_words;
pub mod queues;
mod recorded;
pub mod table;
pub mod words;
