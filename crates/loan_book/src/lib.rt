//! Samples that are loaned from an allocator and have several readers: a sample goes back to the
//! allocator when the last of its readers has returned it. The crate depends only on the trait
//! [`Allocator`](bb_memory_traits::allocator::Allocator), and names no allocator.
//!
//! The modules, in the order in which to read them:
//!
//! - `error`: why a loan book refuses.
//! - `book`: the loan book and its calls.
//! - `run`: calls one after the other, and what a list of them does.
//! - `laws`: what holds for every book and every answer.
#![tactic(auto)]

mod book;
mod error;
mod laws;
mod run;

pub use book::LoanBook;
pub use error::LoanError;
pub use laws::{equality_law, one_answer_law};
pub use run::{LoanCall, LoanReply, run_loans};
