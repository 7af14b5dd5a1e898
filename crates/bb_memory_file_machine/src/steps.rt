//! The machine's steps with the theorem about every list of them, and a machine that a caller steps
//! by hand.
mod file;
mod file_steps;
mod file_world;

pub use file::{
    Entry, FileFlag, FileOutcome, FileStep, Place, Slot, file_theorem, file_variants_theorem,
};
pub use file_steps::file_steps_law;
pub use file_world::FileWorld;
