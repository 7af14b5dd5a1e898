//! The machine's steps with the theorem about every list of them, and a machine that a caller steps
//! by hand.
mod bump;
mod bump_world;

pub use bump::{BumpOutcome, BumpStep, bump_theorem};
pub use bump_world::BumpWorld;
