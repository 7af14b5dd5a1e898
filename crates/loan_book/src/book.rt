//! Loan books.
ghost use Rattle.bb_memory_traits.specs.Chunk.{Chunk, IsSound};
ghost use Rattle.loan_book.specs.Book.{Book, HasReturns, IsAllocators, IsAskedOnce, IsAt, IsBook, IsLoanBook, IsOut, IsPublished, IsUnpublished, LoanBook, LoanError, Sample, StillStands, book_of, chunks_out, returns_to_come};
ghost use Rattle.loan_book.specs.Calls.{GivesBack, Loans, Publishes, with_returns, without};
ghost use Rattle.std.specs.Prelude.{IfErr, IfNone, IfOk, IfSome, IsTrue, List, OnErr, OnOk, Result, Some, [], false, length, slice_get, ℕ, ◌<◌, ◌^◌, ◌↔◌, ◌≡◌, ◌≤◌};

use crate::error::LoanError;
use bb_memory_traits::allocator::Allocator;
use bb_memory_traits::layout::{Chunk, Layout};
use std::alloc::Global;
use std::collections::VecDeque;
use std::marker::Model;

/// A sample that is in use.
#[derive(Drop)]
struct Sample {
    id: u64,
    chunk: Chunk,
    /// The number of returns to come, or `None` until the sample is published.
    returns: Option<u32>,
}

/// The samples that are in use, over an allocator that the book owns. A sample's id is the number
/// of samples that were loaned before it. Its chunk goes back to the allocator when the last of its
/// readers has returned it.
///
/// The samples are kept in the order of their ids, which is the order of the loans, so a sample is
/// found by binary search. Removing a sample moves those before it or those after it, whichever are
/// fewer; removing the oldest or the newest moves none.
///
/// Example: `comments::loans` of `crates/examples`.
#[derive(Drop)]
pub struct LoanBook<A: Allocator> {
    allocator: A,
    /// The next sample's id, or `None` if the greatest one was loaned.
    next: Option<u64>,
    out: VecDeque<Sample>,
}

impl<A: Allocator> Model for LoanBook<A> {
    ghost Value = { LoanBook A };

    ghost view = { λ b. record { allocator = b.allocator; book = book_of b.next b.out.items } };

    ghost invariant = { λ b. IsLoanBook A.stands_for b.allocator b.next b.out.items };
}

impl<A: Allocator> LoanBook<A> {
    /// Makes a book over this allocator, which must have no chunk in use. The records of samples
    /// take their memory from `alloc`.
    pub fn new(alloc: Global, allocator: A) -> Self
        requires { A.stands_for allocator [] }
        ensures allocator { result.allocator ≡ allocator }
        ensures book { result.book ≡ record { loaned = 0; out = [] } }
        ensures stands { A.stands_for result.allocator (chunks_out result.book) }
    {
        LoanBook {
            allocator,
            next: Some(0),
            out: VecDeque::new(alloc),
        }
    }

    /// Loans a chunk of at least `size` bytes, at any place, and returns the sample's id and its
    /// chunk. Ids count up from 0 in the order of the loans, and a failed loan uses up no id.
    ///
    /// Fails with the first of these errors that applies:
    ///
    /// - `Size` if `size` exceeds `isize::MAX`.
    /// - `IdsExhausted` if the greatest id was loaned before.
    /// - `Memory` if memory for the sample's record ran out.
    /// - `Allocation` if the allocator refused.
    ///
    /// A refusal leaves the book unchanged. The allocator gets one request, and only after the
    /// first three tests.
    pub fn loan(&mut self, size: usize) -> Result<(u64, Chunk), LoanError>
        ensures answer { Loans (A.may_allocate (A.geometry self.old.allocator))
            self.old.book size result self.new.book }
        ensures too_large { (result ≡ Err LoanError.Size) ↔ (2 ^ 63 ≤ size) }
        ensures ids_exhausted { (result ≡ Err LoanError.IdsExhausted)
            ↔ ((size < 2 ^ 63) × (2 ^ 64 ≤ self.old.book.loaned)) }
        ensures stands { StillStands A.stands_for A.geometry self.old self.new }
        ensures sound { IsSound (A.region_of (A.geometry self.old.allocator))
            (chunks_out self.new.book) }
        ensures long_enough { IfOk result (λ loaned. size ≤ loaned.1.len) }
        ensures kept { OnErr result ((live : List Chunk) → A.stands_for self.old.allocator live
            → A.stands_for self.new.allocator live) }

        // The allocator gets one request, and none if the refusal is the book's own.
        ensures unasked { IfErr result (λ error. (¬ IsAllocators error) → self.new ≡ self.old) }
        ensures asked_once { IfOk result (λ loaned. IsAskedOnce
            (A.note_after (A.geometry self.old.allocator)) size
            (A.note self.old.allocator) (A.note self.new.allocator)) }
        ensures refused_once { IfErr result (λ error. IsAllocators error → IsAskedOnce
            (A.note_after (A.geometry self.old.allocator)) size
            (A.note self.old.allocator) (A.note self.new.allocator)) }
    {
        // Proof hint, here and below: brings the type's invariant into scope.
        let _ = &self.next;
        let Ok(layout) = Layout::from_size_align(size, 1) else {
            return Err(LoanError::Size);
        };
        let Some(id) = self.next else {
            return Err(LoanError::IdsExhausted);
        };
        if self.out.reserve(1).is_err() {
            return Err(LoanError::Memory);
        }
        match self.allocator.allocate(layout) {
            Ok(chunk) => {
                self.out.push_back_reserved(Sample {
                    id,
                    chunk,
                    returns: None,
                });
                self.next = id.checked_add(1);
                Ok((id, chunk))
            }
            Err(error) => Err(LoanError::Allocation(error)),
        }
    }

    /// Publishes a sample that is in use: it then waits for one return of each of its readers.
    ///
    /// Fails, in this order, with `UnknownSample` if no sample of this id is in use, with
    /// `AlreadyPublished` if it was published before, and with `NoReaders` if `readers` is 0. A
    /// refusal leaves everything unchanged.
    pub fn publish(&mut self, id: u64, readers: u32) -> Result<(), LoanError>
        ensures answer { Publishes self.old.book id readers result self.new.book }
        ensures unknown_sample { (result ≡ Err LoanError.UnknownSample)
            ↔ (¬ IsOut self.old.book id) }
        ensures already_published { (result ≡ Err LoanError.AlreadyPublished)
            ↔ IsPublished self.old.book id }
        ensures no_readers { (result ≡ Err LoanError.NoReaders)
            ↔ (IsUnpublished self.old.book id × (readers ≡ 0)) }
        ensures stands { StillStands A.stands_for A.geometry self.old self.new }
        ensures waits { OnOk result (HasReturns self.new.book id (Some readers)) }
        ensures same_allocator { self.new.allocator ≡ self.old.allocator }
        ensures unchanged { OnErr result (self.new ≡ self.old) }
    {
        let _ = &self.next;
        let Some((position, returns)) = self.find(id) else {
            return Err(LoanError::UnknownSample);
        };
        if returns.is_some() {
            return Err(LoanError::AlreadyPublished);
        }
        if readers == 0 {
            return Err(LoanError::NoReaders);
        }
        self.wait_for(position, readers);
        Ok(())
    }

    /// Gives a sample back once. If that was the last return that the sample waited for, its chunk
    /// goes back to the allocator, and the result is true. A sample that was never published waits
    /// for one return. The allocator gets no request.
    ///
    /// Fails, with `UnknownSample`, exactly if no sample of this id is in use. A refusal leaves
    /// everything unchanged.
    pub fn give_back(&mut self, id: u64) -> Result<bool, LoanError>
        ensures answer { GivesBack self.old.book id result self.new.book }
        ensures unknown_sample { (result ≡ Err LoanError.UnknownSample)
            ↔ (¬ IsOut self.old.book id) }
        ensures leaves { IfOk result (λ left. IsTrue left ↔ (¬ IsOut self.new.book id)) }
        ensures stands { StillStands A.stands_for A.geometry self.old self.new }
        ensures unasked { A.note self.new.allocator ≡ A.note self.old.allocator }
        ensures same_allocator { IfOk result
            (λ left. left ≡ false → self.new.allocator ≡ self.old.allocator) }
        ensures unchanged { OnErr result (self.new ≡ self.old) }
    {
        let _ = &self.next;
        let Some((position, returns)) = self.find(id) else {
            return Err(LoanError::UnknownSample);
        };
        let to_come = returns.unwrap_or(1);
        let left = to_come - 1;
        if left > 0 {
            self.wait_for(position, left);
            return Ok(false);
        }
        self.take_out(position);
        Ok(true)
    }

    /// Returns whether a sample of this id is in use.
    pub fn is_out(&self, id: u64) -> bool
        ensures answer { IsTrue result ↔ IsOut self.now.book id }
        ensures stands { A.stands_for self.now.allocator (chunks_out self.now.book) }
    {
        let _ = &self.next;
        self.find(id).is_some()
    }

    /// Does nothing: its contract is the proof of what holds for every loan book. The allocator
    /// stands for exactly the chunks of the samples that are in use. These are sound: each is
    /// inside the allocator's region, and no two overlap. The ids of the samples rise, and each
    /// sample waits for a return. Each answer that a loan may have leads to one book.
    pub fn law(&self)
        ensures stands { A.stands_for self.now.allocator (chunks_out self.now.book) }
        ensures sound { IsSound (A.region_of (A.geometry self.now.allocator))
            (chunks_out self.now.book) }
        ensures book { IsBook self.now.book }
        ensures loans_one_book { (size : ℕ) (answer : Result (ℕ × Chunk) LoanError)
            (new next : Book)
            → Loans (A.may_allocate (A.geometry self.now.allocator)) self.now.book size answer new
            → Loans (A.may_allocate (A.geometry self.now.allocator)) self.now.book size answer next
            → new ≡ next }
    {
        let _ = &self.next;
    }

    /// Finds the sample of this id: its position, and how many returns it waits for, or `None` if
    /// it wasn't published yet.
    fn find(&self, id: u64) -> Option<(usize, Option<u32>)>
        ensures found { IfSome result (λ found. (sample : Sample)
            × IsAt self.now.book id found.0 sample × (sample.returns ≡ found.1)) }
        ensures there { IfSome result (λ found. found.0 < length self.now.book.out) }
        ensures waits { IfSome result (λ found. 0 < returns_to_come found.1) }
        ensures absent { IfNone result (¬ IsOut self.now.book id) }
        ensures book { IsBook self.now.book }
    {
        let Ok(position) = self.out.binary_search_by_key(&id, |sample| sample.id) else {
            return None;
        };
        Some((position, self.out[position].returns))
    }

    /// Makes the sample at a position wait for this number of returns.
    fn wait_for(&mut self, position: usize, returns: u32)
        requires there { position < length self.old.book.out }
        requires some { 0 < returns }
        ensures book { (sample : Sample) → slice_get self.old.book.out position ≡ Some sample
            → self.new.book ≡ with_returns self.old.book position sample returns }
        ensures same_allocator { self.new.allocator ≡ self.old.allocator }
        ensures stands { StillStands A.stands_for A.geometry self.old self.new }
    {
        self.out[position].returns = Some(returns);
    }

    /// Removes the sample at a position, and gives its chunk back. The layout that is passed with
    /// the chunk has no effect.
    fn take_out(&mut self, position: usize)
        requires { position < length self.old.book.out }
        ensures book { self.new.book ≡ without self.old.book position }
        ensures stands { StillStands A.stands_for A.geometry self.old self.new }
        ensures unasked { A.note self.new.allocator ≡ A.note self.old.allocator }
    {
        let sample = self.out.remove(position).unwrap();
        self.allocator
            .deallocate(sample.chunk.place(), Layout::empty());
    }
}
