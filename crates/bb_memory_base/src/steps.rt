//! Machines of atomic steps: what any number of parties do to the words that they share, one step
//! after another.
pub use bb_memory_bump_machine::steps::{BumpOutcome, BumpStep, BumpWorld, bump_theorem};
pub use bb_memory_pool_machine::steps::{Flag, PoolOutcome, PoolStep, PoolWorld, pool_theorem};
