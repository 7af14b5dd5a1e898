//! Runs a script: reads it to its end, drives an allocator, a machine of steps or a loan book with
//! it, and writes a line for each reply. `docs/script-format.md` defines scripts and their replies;
//! `specs` does so for the clauses.
//!
//! The files, in the order in which to read them:
//!
//! - `running`: the table of the kinds, and the run from the bytes of a script to the bytes of its
//!   replies.
//! - The kinds: `allocators` and `pool`, `steps` for both machines, `loan_pool`.
//!
//! Crate `scripts` has what all kinds share.
#![tactic(auto)]

mod allocators;
mod loan_pool;
mod pool;
mod running;
mod steps;

pub use running::run;
pub use scripts::laws::lines_law;
pub use scripts::status::Status;
