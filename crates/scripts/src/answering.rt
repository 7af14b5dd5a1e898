//! The run from the bytes of an input to the bytes of its replies, by a table of kinds.
ghost use Rattle.scripts.specs.Scripts.{Ends, IsOutcome, Kind, Sends, are_apart, kind};
ghost use Rattle.scripts.specs.Words.{MayStand, lines_of, words, words_text};
ghost use Rattle.std.specs.Prelude.{List, [], true, ◌∷◌, ◌≡◌};

use crate::driving::{Outcome, ScriptKind, run_script};
use crate::status::Status;
use crate::words::{Numbers, first_line, words, write_words};
use std::alloc::Global;
use std::io::{ErrorKind, Write};

/// A table of kinds of scripts, as a tuple of a kind and further kinds.
pub trait Kinds {
    ghost table: { List Kind };

    /// Checks and runs the script of a first line of these words and the bytes after it.
    fn run(alloc: Global, name: &[u8], numbers: Numbers, rest: &[u8]) -> Outcome
        requires apart { are_apart table ≡ true }
        requires stand { MayStand (words name.now numbers) }
        ensures { IsOutcome table (words_text (words name.now numbers) ∷ lines_of rest.now) result };
}

impl Kinds for () {
    ghost table = { [] };

    fn run(_: Global, _: &[u8], _: Numbers, _: &[u8]) -> Outcome {
        Outcome::Unreadable(1)
    }
}

impl<K: ScriptKind, Others: Kinds> Kinds for (K, Others) {
    ghost table = { kind K.rules ∷ Others.table };

    fn run(alloc: Global, name: &[u8], numbers: Numbers, rest: &[u8]) -> Outcome {
        match K::read_header(name, numbers) {
            Some(header) => run_script::<K>(alloc, header, rest),
            None => Others::run(alloc, name, numbers, rest),
        }
    }
}

/// Checks every line of an input, runs it, and then writes its text.
pub fn answer<T: Kinds, W: Write>(alloc: Global, input: &[u8], writer: &mut W) -> Status
    requires { are_apart T.table ≡ true }
    ensures { Ends T.table input.now (W.contents writer.old) (W.contents writer.new) result }
{
    match outcome_of::<T>(alloc, input) {
        Outcome::Answered(text) => send(&text, Status::Done, writer),
        Outcome::Unreadable(number) => {
            let mut line = Vec::new(alloc);
            match write_words(b"line", Numbers::One(number), b": refused\n", &mut line) {
                Ok(()) => send(&line, Status::Unreadable, writer),
                Err(_) => Status::OutOfMemory,
            }
        }
        Outcome::OutOfMemory => Status::OutOfMemory,
    }
}

/// Checks every line of an input, and then runs it.
fn outcome_of<T: Kinds>(alloc: Global, input: &[u8]) -> Outcome
    requires { are_apart T.table ≡ true }
    ensures { IsOutcome T.table (lines_of input.now) result }
{
    let Some((first, rest)) = first_line(input) else {
        return Outcome::Unreadable(1);
    };
    match words(first) {
        Some((name, numbers)) => T::run(alloc, name, numbers, rest),
        None => Outcome::Unreadable(1),
    }
}

/// Writes a text and flushes the writer. Returns the status, or `OutputFailed` if writing fails.
fn send<W: Write>(text: &[u8], status: Status, writer: &mut W) -> Status
    ensures { Sends (W.contents writer.old) (W.contents writer.new) text.now status result }
{
    let mut left = text;
    for _ in 0..u64::MAX {
        if left.is_empty() {
            return match writer.flush() {
                Ok(()) => status,
                Err(_) => Status::OutputFailed,
            };
        }
        match writer.write(left) {
            Ok(0) => return Status::OutputFailed,
            Ok(count) => left = &left[count..],
            Err(e) if e.kind() == ErrorKind::Interrupted => {}
            Err(_) => return Status::OutputFailed,
        }
    }
    Status::OutputFailed
}
