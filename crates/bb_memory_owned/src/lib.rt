//! Allocators with one owner over a region that is given as two numbers: its start and its size in
//! bytes. Also blocks of bytes from the language's allocator.
//!
//! The modules, in the order in which to read them:
//!
//! - `one_chunk_allocator`: one chunk at a time, all of the region from its place on.
//! - `pool_allocator`: pools, and the constructors of the pool that records its buckets in words.
//!   Re-exports `geometry` of `bb_memory_traits`.
//!   - `bucket_pool`: buckets, and the set of those that are held, which is a set of
//!     `bb_memory_index_set`.
//!   - `fixed_size`: the pool that records its buckets in an array of its own. `laws`: what the
//!     definitions mean.
//! - `heap_allocator`: heap blocks, which need no region.
//!
//! The bump is in crate `bb_memory_bump`, with the bump that threads share. Crate `bb_memory`
//! re-exports all of this.
#![tactic(auto)]

pub mod heap_allocator;
pub mod one_chunk_allocator;
pub mod pool_allocator;
