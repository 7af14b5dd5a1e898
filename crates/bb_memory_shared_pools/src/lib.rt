//! Pools that threads share, over a region that is given as two numbers: its start and its size in bytes.
//!
//! The modules of `shared_pool`, in the order in which to read them:
//!
//! - `flags`: the words of the flags, and the only calls that touch them. `rule`: the rule that each step on a word keeps.
//! - `party`: one user's right to step. `meeting`: any number of parties at one seat. `all_parties`: the law of parties that
//!   met.
//! - `buckets`: the pool itself, and requests that make a pass. `next_fit`: requests that begin at the party's hint.
//! - `bucket`: the tokens that requests return. `by_number`: buckets by number and by place, and how many are held.
//! - `caching`: parties that keep the buckets that they gave back last for their next requests.
//! - `detached`: buckets in transit from one party to another.
//! - `fixed_size`: the pool with at most a constant number of buckets.
#![tactic(auto)]

pub mod shared_pool;
