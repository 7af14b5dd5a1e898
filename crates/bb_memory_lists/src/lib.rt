//! Plain facts about lists: the item at a position, what a set, a push or a removal changes, sums
//! of a measure. `lists` has those that are laws for users; `proofs` has the lemmas of the crates
//! above.
#![tactic(auto)]

pub mod lists;
