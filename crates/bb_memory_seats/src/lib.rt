//! Seats of a table that threads share. This crate has no code. `specs/Seats` defines the parties
//! that a seat stands for, with their logs. `proofs` has the results about splits and joins of
//! seats, for the shared bump and the shared pools.
#![tactic(auto)]
