//! A set of numbers below a bound, in which a pool records its held buckets.
//!
//! - `index_set`: the trait. `index_set/flags`: a flag for each number, and the numbers that aren't
//!   in the set.
//! - `index_set/words`: a bit for each number, in the words of `index_set/index_words`, which a
//!   search reads only through a counter.
#![tactic(auto)]

pub mod index_set;
