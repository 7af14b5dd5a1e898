//! The machine of a shared pool: what any number of parties do to one flag for each bucket, one
//! atomic step at a time. The module `hint` says where a party's next search begins.
#![tactic(auto)]

pub mod hint;
pub mod steps;
