//! The run from the bytes of a script to the bytes of its replies.
ghost use Rattle.script_kinds.specs.Kinds.{kinds};
ghost use Rattle.scripts.specs.Scripts.{BeginsOutput, IsAnswered, IsLeft, IsUnreadable};
ghost use Rattle.scripts.specs.Words.{unreadable_text};
ghost use Rattle.std.specs.Io.KnownBytes.{Appends, Keeps};
ghost use Rattle.std.specs.Prelude.{List, ℕ, ◌≡◌};

use crate::allocators::WithLiveList;
use crate::loan_pool::LoanPool;
use crate::pool::Fixed;
use crate::steps::{BumpSteps, PoolSteps};
use bb_memory_bump::bump_allocator::BumpAllocator;
use bb_memory_owned::one_chunk_allocator::OneChunkAllocator;
use bb_memory_owned::pool_allocator::PoolAllocator;
use scripts::answering::answer;
use scripts::status::Status;
use std::alloc::Global;
use std::io::{ErrorKind, Read, Write};

/// The kinds of scripts, in the order in which a header is tried.
type AllKinds = (
    WithLiveList<BumpAllocator>,
    (
        WithLiveList<OneChunkAllocator>,
        (
            WithLiveList<PoolAllocator<Global>>,
            (
                WithLiveList<Fixed>,
                (BumpSteps, (PoolSteps, (LoanPool, ()))),
            ),
        ),
    ),
);

/// Reads a script to its end, checks every line of it, and then runs it: makes the value that it
/// drives, gives it the commands in order, and writes a line for each reply to the writer, which is
/// then flushed. `docs/script-format.md` defines the lines of a script, the reply to each, and when
/// each [`Status`] is returned; its scripts are examples.
pub fn run<R: Read + Drop, W: Write>(alloc: Global, mut reader: R, writer: &mut W) -> Status
    ensures done { result ≡ Status.Done → (input : List ℕ) × (text : List ℕ)
        × IsLeft input (R.remaining reader) × IsAnswered kinds input text
        × Appends (W.contents writer.old) (W.contents writer.new) text }
    ensures unreadable { result ≡ Status.Unreadable → (input : List ℕ) × (number : ℕ)
        × IsLeft input (R.remaining reader) × IsUnreadable kinds input number
        × Appends (W.contents writer.old) (W.contents writer.new) (unreadable_text number) }
    ensures input_failed { result ≡ Status.InputFailed
        → Keeps (W.contents writer.old) (W.contents writer.new) }
    ensures out_of_memory { result ≡ Status.OutOfMemory
        → Keeps (W.contents writer.old) (W.contents writer.new) }
    ensures output_failed { result ≡ Status.OutputFailed → (input : List ℕ) × (sent : List ℕ)
        × IsLeft input (R.remaining reader) × BeginsOutput kinds input sent
        × Appends (W.contents writer.old) (W.contents writer.new) sent }
{
    let mut input = Vec::new(alloc);
    match reader.read_to_end(&mut input) {
        Ok(_) => answer::<AllKinds, W>(alloc, &input, writer),
        Err(e) if e.kind() == ErrorKind::OutOfMemory => Status::OutOfMemory,
        Err(_) => Status::InputFailed,
    }
}
