//! The machine of a shared bump: what any number of parties do to its position, one atomic step at
//! a time.
#![tactic(auto)]

pub mod steps;
