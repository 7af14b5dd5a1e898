//! Layers of threads that use only the public contracts of what threads share, as users write them:
//! this crate has no proof files.
//!
//! - `bump_workers`: four threads over one bump, which has one owner afterwards. `pool_workers`:
//!   four threads over one pool.
//! - `thread_arena`: a bump of one thread over a chunk of a shared bump.
//! - `pool_messages`: messages whose buckets one party takes and another gives back.
#![tactic(auto)]

pub mod bump_workers;
pub mod pool_messages;
pub mod pool_workers;
pub mod thread_arena;
