//! Bump allocators over a region that is given as two numbers, its start and its size in bytes: for
//! one owner, and for threads.
//!
//! The modules, in the order in which to read them:
//!
//! - `bump_allocator`: one chunk after another, all given back in one release.
//! - `shared_bump`: the bump that threads share.
//!   - `position`: the shared word, and the only calls that touch it. `rule`: the rule that each
//!     step on the word keeps.
//!   - `party`: one user's right to step. `request`: the loop of a request. `meeting`: any number
//!     of parties at one seat.
//!   - `all_parties`: the law of parties that met.
//!
//! Crate `bb_memory` re-exports all of this.
#![tactic(auto)]

pub mod bump_allocator;
pub mod shared_bump;
