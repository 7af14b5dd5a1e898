//! Tests of `script_kinds` and of the machines of atomic steps: what scripts write, and how they
//! end. `.ci/run-memrun` has the scripts of thousands of lines, and those whose buckets may be at
//! any place.
#![tactic(auto)]

#[cfg(test)]
mod tests;
