//! Proved examples for the pages and doc comments: straight-line calls with literals. Each `prove!`
//! follows only from contracts, and this crate has no proof files.
//!
//! The modules: `first`, `bump`, `one_chunk`, `pools` and `tenants_and_vectors`, and `comments`,
//! the examples of the libraries' comments.
#![tactic(auto)]

pub mod bump;
pub mod comments;
pub mod first;
pub mod one_chunk;
pub mod pools;
pub mod tenants_and_vectors;
