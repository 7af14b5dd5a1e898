//! The one chunk.
use super::bump::forty_eight;
use bb_memory::layout::Layout;
use bb_memory::one_chunk_allocator::{
    AllocationError, Allocator, BaseAllocator, OneChunkAllocator,
};

/// A chunk is shrunk at its place, to exactly the new size.
pub fn shrunk() -> Result<(), AllocationError> {
    let mut one = OneChunkAllocator::new(4096, 1024);
    let small = Layout::from_size_align(32, 4).unwrap();
    let chunk = one.allocate(forty_eight())?;
    let place = chunk.place();
    let shrunk = one.shrink(place, forty_eight(), small).unwrap();
    prove!(shrunk.place() == place && shrunk.len() == 32);
    Ok(())
}
