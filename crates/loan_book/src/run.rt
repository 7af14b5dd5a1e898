//! Calls of a loan book one after the other.
ghost use Rattle.bb_memory_traits.specs.Chunk.{Chunk as GivenChunk, IsSound};
ghost use Rattle.bb_memory_traits.specs.Object.{IsRun};
ghost use Rattle.loan_book.specs.Book.{HasReturns, IsBook, IsOut, IsUnpublished, chunks_out};
ghost use Rattle.loan_book.specs.Calls.{AreLongEnough, BookStep, NotedStep, NotesCall, ids_in, publishes_in, returns_in};
ghost use Rattle.loan_book.specs.declared.run.LoanCall.TheVariants.{Loan, Publish};
ghost use Rattle.loan_book.specs.declared.run.LoanReply.TheVariants.{Loaned, Published};
ghost use Rattle.std.specs.List.{range_with_len};
ghost use Rattle.std.specs.Prelude.{IfOk, OnErr, OnOk, Some, drop, length, slice_get, ℕ, ◌+◌, ◌<◌, ◌↔◌, ◌≡◌, ◌≤◌};

use crate::book::LoanBook;
use crate::error::LoanError;
use bb_memory_traits::allocator::Allocator;
use bb_memory_traits::layout::Chunk;
use std::alloc::{AllocError, Global};

/// A call of a loan book.
#[derive(Debug, Clone, Copy, PartialEq, Eq)]
pub enum LoanCall {
    /// Loans a sample of this size in bytes.
    Loan(usize),
    /// Publishes the sample of this id for a number of readers.
    Publish(u64, u32),
    /// Gives the sample of this id back once.
    GiveBack(u64),
    /// A query whether the sample of this id is in use.
    IsOut(u64),
}

/// The reply of a loan book to a call.
#[derive(Debug, Clone, Copy, PartialEq, Eq)]
pub enum LoanReply {
    /// The sample's id and its chunk.
    Loaned(u64, Chunk),
    /// The sample was published.
    Published,
    /// The return was the last one, and the sample's chunk went back.
    Returned,
    /// Further returns are to come.
    Kept,
    /// True if the sample is in use.
    Out(bool),
    /// The call was refused, and the book is unchanged.
    Refused(LoanError),
}

fn apply<A: Allocator>(book: &mut LoanBook<A>, call: LoanCall) -> LoanReply
    ensures step { BookStep (A.may_allocate (A.geometry book.old.allocator))
        book.old.book call result book.new.book }
    ensures noted { NotesCall (A.note_after (A.geometry book.old.allocator)) call result
        (A.note book.old.allocator) (A.note book.new.allocator) }
    ensures long_enough { (size id : ℕ) (chunk : GivenChunk)
        → call ≡ Loan size → result ≡ Loaned id chunk → size ≤ chunk.len }
    ensures geometry { A.geometry book.new.allocator ≡ A.geometry book.old.allocator }
{
    match call {
        LoanCall::Loan(size) => match book.loan(size) {
            Ok(loaned) => LoanReply::Loaned(loaned.0, loaned.1),
            Err(error) => LoanReply::Refused(error),
        },
        LoanCall::Publish(id, readers) => match book.publish(id, readers) {
            Ok(()) => LoanReply::Published,
            Err(error) => LoanReply::Refused(error),
        },
        LoanCall::GiveBack(id) => match book.give_back(id) {
            Ok(true) => LoanReply::Returned,
            Ok(false) => LoanReply::Kept,
            Err(error) => LoanReply::Refused(error),
        },
        LoanCall::IsOut(id) => LoanReply::Out(book.is_out(id)),
    }
}

/// Makes the calls in order, and returns one reply for each call. Afterwards the allocator stands
/// for exactly the chunks of the samples that are in use. The allocator gets one request for each
/// loan that it answers, and none from any other call. The ids that are given count up from the
/// number of samples that were loaned before. A published sample that waited for returns is still
/// in use exactly if fewer of the calls return it. So a sample that a call publishes for r readers
/// goes back at the r-th return after that call, and not before. A sample that a call loans, and
/// none publishes, goes back at its first return.
///
/// Memory for the replies is reserved first, from `alloc`. If it runs out, no call is made, and
/// everything is as before.
pub fn run_loans<A: Allocator>(
    alloc: Global,
    book: &mut LoanBook<A>,
    calls: &[LoanCall],
) -> Result<Vec<LoanReply>, AllocError>
    ensures run { IfOk result (λ replies.
        IsRun (BookStep (A.may_allocate (A.geometry book.old.allocator)))
        book.old.book calls.now replies.items book.new.book) }
    ensures asked { IfOk result (λ replies.
        IsRun (NotedStep (A.may_allocate (A.geometry book.old.allocator))
        (A.note_after (A.geometry book.old.allocator)))
        (book.old.book, A.note book.old.allocator) calls.now replies.items
        (book.new.book, A.note book.new.allocator)) }
    ensures long_enough { IfOk result (λ replies. AreLongEnough calls.now replies.items) }
    ensures counted { IfOk result (λ replies.
        book.new.book.loaned ≡ book.old.book.loaned + length (ids_in replies.items)) }
    ensures ids { IfOk result (λ replies. ids_in replies.items
        ≡ range_with_len book.old.book.loaned (length (ids_in replies.items))) }
    ensures returned { OnOk result ((id returns : ℕ)
        → HasReturns book.old.book id (Some returns)
        → (IsOut book.new.book id ↔ (returns_in id calls.now < returns))) }
    ensures unpublished { OnOk result ((id : ℕ)
        → IsUnpublished book.old.book id → publishes_in id calls.now ≡ 0
        → (IsOut book.new.book id ↔ (returns_in id calls.now ≡ 0))) }
    ensures published { IfOk result (λ replies. (i id readers : ℕ)
        → slice_get calls.now i ≡ Some (Publish id readers)
        → slice_get replies.items i ≡ Some Published
        → (IsOut book.new.book id ↔ (returns_in id (drop (i + 1) calls.now) < readers))) }
    ensures loaned { IfOk result (λ replies. (i id : ℕ) (chunk : GivenChunk)
        → slice_get replies.items i ≡ Some (Loaned id chunk)
        → publishes_in id (drop (i + 1) calls.now) ≡ 0
        → (IsOut book.new.book id ↔ (returns_in id (drop (i + 1) calls.now) ≡ 0))) }
    ensures book { OnOk result (IsBook book.new.book) }
    ensures stands { OnOk result (A.stands_for book.new.allocator (chunks_out book.new.book)) }
    ensures sound { OnOk result (IsSound (A.region_of (A.geometry book.old.allocator))
        (chunks_out book.new.book)) }
    ensures geometry { A.geometry book.new.allocator ≡ A.geometry book.old.allocator }
    ensures unchanged { OnErr result (book.new ≡ book.old) }
{
    book.law();
    let mut replies = Vec::with_capacity(alloc, calls.len())?;
    for call in calls {
        let reply = apply(book, *call);
        replies.push_reserved(reply);
    }
    book.law();
    Ok(replies)
}
