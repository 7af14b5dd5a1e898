//! The machine's steps with the theorem about every list of them, and a machine that a caller steps
//! by hand.
mod pool;
mod pool_world;

pub use pool::{Flag, PoolOutcome, PoolStep, pool_theorem};
pub use pool_world::PoolWorld;
