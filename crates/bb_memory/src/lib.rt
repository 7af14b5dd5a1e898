//! Allocators over a region that is given as two numbers: its start and its size in bytes. All
//! modules are re-exported. A user who needs only some of them may depend on their crates instead
//! of this one:
//!
//! - `allocator`, `equality`, `layout`, `region`, `steps`: from `bb_memory_base`.
//! - `heap_allocator`, `one_chunk_allocator`, `pool_allocator`: from `bb_memory_owned`.
//! - `bump_allocator`, `shared_bump`: from `bb_memory_bump`. `shared_pool`: from
//!   `bb_memory_shared_pools`.
#![tactic(auto)]

pub use bb_memory_base::{allocator, equality, layout, region, steps};
pub use bb_memory_bump::{bump_allocator, shared_bump};
pub use bb_memory_owned::{heap_allocator, one_chunk_allocator, pool_allocator};
pub use bb_memory_shared_pools::shared_pool;
