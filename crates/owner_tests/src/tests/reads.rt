//! The index words that a pool reads in each call of a loan book.
ghost use Rattle.std.specs.Prelude.{[]};

use super::checks::{layout, same};
use super::kinds::pool_over;
use bb_memory_owned::pool_allocator::PoolAllocator;
use bb_memory_traits::allocator::{
    AllocationError, AllocationGrowError, AllocationShrinkError, Allocator, BaseAllocator,
};
use bb_memory_traits::layout::{Chunk, Layout};
use loan_book::LoanCall::{GiveBack, IsOut, Loan, Publish};
use loan_book::{LoanBook, run_loans};
use std::alloc::Global;
use std::cell::Cell;
use std::process::Abort;
use std::rc::Rc;

/// An allocator that reports how many index words its last request read.
trait Reads: Allocator {
    fn last_reads(&self) -> u32;
}

impl Reads for PoolAllocator<Global> {
    fn last_reads(&self) -> u32 {
        PoolAllocator::last_reads(self)
    }
}

/// Does what its allocator does, and adds up in a cell what the requests read.
#[derive(Drop)]
struct Counted<A: Reads + Drop> {
    inner: A,
    reads: Rc<Cell<u32>>,
}

impl<A: Reads + Drop> BaseAllocator for Counted<A> {
    const RELEASE_EMPTIES: bool = A::RELEASE_EMPTIES;

    ghost RELEASE_EMPTIES = { A.RELEASE_EMPTIES };

    ghost Geometry = { A.Geometry };

    ghost geometry = { λ c. A.geometry c.inner };

    ghost region_of = { A.region_of };

    ghost may_allocate = { A.may_allocate };

    ghost stands_for = { λ c. A.stands_for c.inner };

    ghost may_release = { λ c. A.may_release c.inner };

    ghost Note = { A.Note };

    ghost note = { λ c. A.note c.inner };

    ghost note_after = { A.note_after };

    fn allocate(&mut self, layout: Layout) -> Result<Chunk, AllocationError> {
        let answer = self.inner.allocate(layout);
        let reads = self.reads.get().saturating_add(self.inner.last_reads());
        self.reads.set(reads);
        answer
    }

    fn deallocate(&mut self, place: usize, layout: Layout) {
        self.inner.deallocate(place, layout);
    }

    fn stands_for_some_list(&self) {
        self.inner.stands_for_some_list();
    }

    fn answers_fit(&self) {
        self.inner.answers_fit();
    }

    ghost releases = { λ c. A.releases c.inner };

    ghost sound = { λ c. A.sound c.inner };
}

impl<A: Reads + Drop> Allocator for Counted<A> {
    ghost ResizeKey = { A.ResizeKey };

    ghost resize_key = { λ c. A.resize_key c.inner };

    ghost reserved_at = { A.reserved_at };

    ghost may_grow = { A.may_grow };

    ghost may_shrink = { A.may_shrink };

    fn reserved(&self, place: usize) -> usize {
        self.inner.reserved(place)
    }

    fn grow(
        &mut self,
        place: usize,
        old: Layout,
        new: Layout,
    ) -> Result<Chunk, AllocationGrowError> {
        self.inner.grow(place, old, new)
    }

    fn shrink(
        &mut self,
        place: usize,
        old: Layout,
        new: Layout,
    ) -> Result<Chunk, AllocationShrinkError> {
        self.inner.shrink(place, old, new)
    }

    ghost fixed = { λ one other. A.fixed one.inner other.inner };

    ghost closes_up = { A.closes_up };

    ghost distinct = { λ c. A.distinct c.inner };

    ghost covered = { λ c. A.covered c.inner };

    ghost only_live = { λ c. A.only_live c.inner };
}

/// Makes calls of a loan book over an allocator of two buckets. A loan that the allocator may serve
/// reads one word, even if both buckets are held, and no other call reads any.
fn calls<A: Reads + Drop>(rt: &(impl Abort + AllocGlobal), inner: A)
    requires { A.stands_for inner [] }
{
    let alloc = rt.alloc();
    let counter = Rc::new(alloc, Cell::new(0)).expect(rt, "there is memory");
    let reads = counter.clone().expect(rt, "there is memory");
    let mut book = LoanBook::new(alloc, Counted { inner, reads });
    for (call, wanted) in [
        (Loan(64), 1),
        (Loan(0), 1),
        (Loan(1), 1),
        (Loan(65), 0),
        (Loan(usize::MAX), 0),
        (Publish(0, 2), 0),
        (Publish(2, 1), 0),
        (GiveBack(0), 0),
        (IsOut(0), 0),
        (GiveBack(0), 0),
        (GiveBack(0), 0),
        (GiveBack(1), 0),
        (Loan(64), 1),
    ] {
        let replies = run_loans(alloc, &mut book, &[call]).expect(rt, "there is memory");
        same(rt, (replies.len(), counter.replace(0)), (1, wanted));
    }
}

#[test]
fn each_call_of_a_loan_book(rt: HostRuntime) {
    let pool = pool_over(rt.alloc(), layout(&rt, 64, 8), 4096, 128);
    calls(&rt, pool.expect(&rt, "there is such a pool"));
}
