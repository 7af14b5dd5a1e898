//! Layers that use only the contracts of the traits, as users write them: this crate has no proof
//! files.
//!
//! The modules, in the order in which to read them:
//!
//! - `slab`: records of bytes, each in a chunk of its own.
//! - `chunk_budget`: a limit on the number of chunks in use, over any allocator; it is an allocator
//!   itself.
//! - `tenants`: tenants of one allocator, each with a limit, which together never exceed a whole.
//! - `byte_vector`: a vector of bytes at an offset of a region, which can move to another region.
#![tactic(auto)]

pub mod byte_vector;
pub mod chunk_budget;
pub mod slab;
pub mod tenants;
