//! Re-exports what the allocators share, applies runs of commands to any of them, and states when
//! `==` is true.
//!
//! - `allocator`: from `bb_memory_traits`, with the calls of `runs`. `runs`: runs of commands.
//! - `layout`, `region`: from `bb_memory_traits`. `lists`: from `bb_memory_lists`.
//! - `steps`: from `bb_memory_bump_machine` and `bb_memory_pool_machine`.
//! - `equality`: the meaning of `==` for the types of these crates.
#![tactic(auto)]

pub use bb_memory_lists::lists;
pub use bb_memory_traits::{layout, region};

pub mod allocator;
pub mod equality;
mod runs;
pub mod steps;
