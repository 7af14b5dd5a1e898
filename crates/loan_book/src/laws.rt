//! Laws of every book and every answer. No function here does anything: each contract is a law.
ghost use Rattle.loan_book.specs.Book.{Book, IsBook, LoanError};
ghost use Rattle.loan_book.specs.Calls.{GivesBack, LoanCall, LoanReply, Publishes};
ghost use Rattle.std.specs.Prelude.{Bool, IsTrue, Result, ℕ, ◌↔◌, ◌≡◌};

use crate::error::LoanError;
use crate::run::{LoanCall, LoanReply};

/// States that a book has exactly one answer to each `publish` and each `give_back`, and leads to
/// one book. A `loan` may have several: the allocator chooses the chunk, and memory may run out.
/// Each of its answers also leads to one book, by [`LoanBook::law`](crate::LoanBook::law). The
/// function does nothing: its contract is the law.
pub fn one_answer_law()
    ensures publish { (book : Book) (id readers : ℕ)
        (one other : Result (Unit {0}) LoanError) (new next : Book) → IsBook book
        → Publishes book id readers one new → Publishes book id readers other next
        → (one ≡ other) × (new ≡ next) }
    ensures give_back { (book : Book) (id : ℕ)
        (one other : Result Bool LoanError) (new next : Book) → IsBook book
        → GivesBack book id one new → GivesBack book id other next
        → (one ≡ other) × (new ≡ next) }
{}

/// States that errors, calls and replies are equal, by `==`, exactly if they are the same variant
/// with the same fields. The function does nothing: its contract is the law.
pub fn equality_law()
    ensures errors { (one other : LoanError)
        → IsTrue (⟦<LoanError as PartialEq>⟧.eq one other) ↔ (one ≡ other) }
    ensures calls { (one other : LoanCall)
        → IsTrue (⟦<LoanCall as PartialEq>⟧.eq one other) ↔ (one ≡ other) }
    ensures replies { (one other : LoanReply)
        → IsTrue (⟦<LoanReply as PartialEq>⟧.eq one other) ↔ (one ≡ other) }
{}
