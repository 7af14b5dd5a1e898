//! Loan books, of which only a loan allocates.
ghost use Rattle.std.specs.Prelude.{[]};

use crate::tests::checks::{check, layout, none_requested, refused, same};
use crate::tests::kinds::pool_over;
use crate::tests::out_of_memory::loans::{FULL, NO_MEMORY, one_book, reply};
use bb_memory_traits::allocator::Allocator;
use loan_book::LoanCall::{GiveBack, IsOut, Loan, Publish};
use loan_book::LoanReply::{Kept, Out, Published, Refused, Returned};
use loan_book::{LoanBook, LoanError};
use std::process::Abort;
use test_marks::{none_was_asked, refuse_memory, some_was_refused};

/// Publishes and gives back a sample, and makes a book.
#[test]
fn a_loan_book(rt: HostRuntime) {
    let mut book = one_book(rt.alloc());
    if reply(&mut book, Loan(64)) == NO_MEMORY {
        return refused(&rt);
    }
    refuse_memory(rt.alloc());
    for (call, got) in [
        (Publish(1, 2), Refused(LoanError::UnknownSample)),
        (Publish(0, 2), Published),
        (GiveBack(0), Kept),
        (IsOut(0), Out(true)),
        (GiveBack(0), Returned),
    ] {
        same(&rt, reply(&mut book, call), got);
    }
    same(&rt, reply(&mut one_book(rt.alloc()), IsOut(0)), Out(false));
    none_requested(&rt);
}

/// Fills an allocator of sixteen chunks and the book's room for records. If memory fails, a further
/// loan fails because of its record, before the allocator gets a request; with memory the allocator
/// refuses it.
fn fills<A: Allocator + Drop>(rt: &(impl Abort + AllocGlobal), allocator: A)
    requires { A.stands_for allocator [] }
{
    let mut book = LoanBook::new(rt.alloc(), allocator);
    for _ in 0..16 {
        if reply(&mut book, Loan(64)) == NO_MEMORY {
            return refused(rt);
        }
    }
    let is_refused = refuse_memory(rt.alloc());
    let got = reply(&mut book, Loan(64));
    check(rt, none_was_asked(rt.alloc()) != is_refused);
    let wanted = if some_was_refused(rt.alloc()) {
        NO_MEMORY
    } else {
        FULL
    };
    same(rt, got, wanted);
    same(rt, reply(&mut book, Loan(64)), FULL);
}

#[test]
fn a_loan_of_a_full_pool(rt: HostRuntime) {
    let Some(pool) = pool_over(rt.alloc(), layout(&rt, 64, 8), 4096, 1024) else {
        return refused(&rt);
    };
    fills(&rt, pool);
}
