//! Layouts, chunks, regions, the places of a region's buckets, and the traits of allocators: the
//! base of this workspace.
//!
//! The modules, in the order in which to read them:
//!
//! - `layout`: sizes with alignments, which callers request, and rounding up. `layout/chunk`:
//!   chunks, which allocators return.
//! - `region`: the bytes of a region, lent chunk by chunk.
//! - `geometry`: the buckets of a region, for the pools with one owner and for those that threads
//!   share.
//! - `allocator`: the traits of allocators, the reasons why requests fail, and commands with their
//!   replies.
//!
//! Crate `bb_memory_base` re-exports all of this except `geometry`, and adds runs of commands and
//! the machines of atomic steps.
#![tactic(auto)]

pub mod allocator;
pub mod geometry;
pub mod layout;
pub mod region;
