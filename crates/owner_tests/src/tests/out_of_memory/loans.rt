//! Loan books. A failed loan leaves the book unchanged: exactly the same samples are in use.
ghost use Rattle.std.specs.Prelude.{[]};

use crate::tests::checks::{check, chunk, layout, refused, same};
use crate::tests::kinds::pool_over;
use bb_memory_owned::one_chunk_allocator::OneChunkAllocator;
use bb_memory_traits::allocator::{AllocationError, Allocator};
use bb_memory_traits::layout::Chunk;
use loan_book::LoanCall::{self, GiveBack, IsOut, Loan, Publish};
use loan_book::LoanReply::{self, Kept, Loaned, Out, Published, Refused, Returned};
use loan_book::{LoanBook, LoanError, run_loans};
use std::alloc::Global;
use std::process::Abort;

/// Makes a book over a one-chunk allocator of 64 bytes at 4096.
pub(super) fn one_book(alloc: Global) -> LoanBook<OneChunkAllocator> {
    LoanBook::new(alloc, OneChunkAllocator::new(4096, 64))
}

/// Makes a call of a book, and returns its reply.
pub(super) fn reply<A: Allocator + Drop>(book: &mut LoanBook<A>, call: LoanCall) -> LoanReply {
    // Does nothing: the contract is a proof.
    book.law();
    match call {
        Loan(size) => match book.loan(size) {
            Ok((id, chunk)) => Loaned(id, chunk),
            Err(error) => Refused(error),
        },
        Publish(id, readers) => match book.publish(id, readers) {
            Ok(()) => Published,
            Err(error) => Refused(error),
        },
        GiveBack(id) => match book.give_back(id) {
            Ok(true) => Returned,
            Ok(false) => Kept,
            Err(error) => Refused(error),
        },
        IsOut(id) => Out(book.is_out(id)),
    }
}

/// The refusal because memory for the record ran out.
pub(super) const NO_MEMORY: LoanReply = Refused(LoanError::Memory);

/// The refusal by a full allocator.
pub(super) const FULL: LoanReply = Refused(LoanError::Allocation(AllocationError::OutOfMemory));

/// Loans `size` bytes, a second time if memory ran out: then the same samples are in use, and the
/// next one isn't.
fn loan<A: Allocator + Drop>(
    rt: &(impl Abort + AllocGlobal),
    book: &mut LoanBook<A>,
    size: usize,
    next: u64,
) -> LoanReply {
    let got = reply(book, Loan(size));
    if got != NO_MEMORY {
        return got;
    }
    refused(rt);
    same(rt, reply(book, IsOut(0)), Out(next > 0));
    same(rt, reply(book, IsOut(next)), Out(false));
    reply(book, Loan(size))
}

// row: loan-over-one-chunk, refused-loan
#[test]
fn loan_over_one_chunk(rt: HostRuntime) {
    let (mut book, whole) = (one_book(rt.alloc()), chunk(&rt, 4096, 64));
    same(&rt, loan(&rt, &mut book, 64, 0), Loaned(0, whole));
    same(&rt, loan(&rt, &mut book, 1, 1), FULL);
    same(&rt, reply(&mut book, GiveBack(0)), Returned);
    same(&rt, reply(&mut book, Loan(1)), Loaned(1, whole));
}

/// Returns whether a loan and its return are made as one list, or `None` if memory ran out: for the
/// replies, or for the loan's record, which uses up no id.
fn is_made(alloc: Global, book: &mut LoanBook<OneChunkAllocator>, whole: Chunk) -> Option<bool> {
    let replies = run_loans(alloc, book, &[Loan(1), GiveBack(0)]).ok()?;
    let unmade = [NO_MEMORY, Refused(LoanError::UnknownSample)];
    if replies.as_slice() == unmade.as_slice() {
        return None;
    }
    let made = [Loaned(0, whole), Returned];
    Some(replies.as_slice() == made.as_slice())
}

/// A list of calls is made, a second time if memory ran out.
#[test]
fn a_list_of_loans_keeps_the_book(rt: HostRuntime) {
    let (mut book, whole) = (one_book(rt.alloc()), chunk(&rt, 4096, 64));
    if let Some(is_made) = is_made(rt.alloc(), &mut book, whole) {
        return check(&rt, is_made);
    }
    refused(&rt);
    same(&rt, reply(&mut book, IsOut(0)), Out(false));
    same(&rt, is_made(rt.alloc(), &mut book, whole), Some(true));
}

/// Checks that a loan gave a chunk of 64 bytes under this number.
fn is_loaned(rt: &impl Abort, got: LoanReply, wanted: u64) {
    match got {
        Loaned(id, chunk) => same(rt, (id, chunk.len()), (wanted, 64)),
        _ => panic!(rt; "nothing is loaned"),
    }
}

/// Gives each of these samples back by one return.
fn leave<A: Allocator + Drop>(rt: &impl Abort, book: &mut LoanBook<A>, ids: &[u64]) {
    for id in ids {
        same(rt, reply(book, GiveBack(*id)), Returned);
        same(rt, reply(book, IsOut(*id)), Out(false));
    }
}

/// Loans sixteen samples, of which some go back and the others are published. Then six more are
/// loaned.
fn goes_back<A: Allocator + Drop>(rt: &(impl Abort + AllocGlobal), allocator: A)
    requires { A.stands_for allocator [] }
{
    let mut book = LoanBook::new(rt.alloc(), allocator);
    for id in 0..16 {
        is_loaned(rt, loan(rt, &mut book, 64, id), id);
    }
    leave(rt, &mut book, &[7, 0, 15, 8, 1, 14]);
    for id in [2, 3, 4, 5, 6, 9, 10, 11, 12, 13] {
        same(rt, reply(&mut book, IsOut(id)), Out(true));
        same(rt, reply(&mut book, Publish(id, 2)), Published);
    }
    for id in 16..22 {
        is_loaned(rt, reply(&mut book, Loan(64)), id);
    }
    same(rt, reply(&mut book, GiveBack(9)), Kept);
    leave(rt, &mut book, &[9]);
}

#[test]
fn samples_go_back_in_any_order(rt: HostRuntime) {
    let Some(pool) = pool_over(rt.alloc(), layout(&rt, 64, 8), 4096, 1024) else {
        return refused(&rt);
    };
    goes_back(&rt, pool);
}
