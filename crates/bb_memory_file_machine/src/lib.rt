//! The machine of a pool in a file: what any number of processes do to the words and locks of the
//! file, one atomic step at a time, with a kill at any step.
#![tactic(auto)]

pub mod order;
pub mod steps;
