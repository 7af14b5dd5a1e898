//! Two chunks of a bump.
#![tactic(auto, unfolding(bb_memory_traits::specs::LeastPlace::least_place))]

use bb_memory::bump_allocator::{AllocationError, BaseAllocator, BumpAllocator};
use bb_memory::layout::Layout;

/// The second chunk begins after the first.
pub fn first_two() -> Result<(), AllocationError> {
    let layout = Layout::from_size_align(48, 4).unwrap();
    let mut bump = BumpAllocator::new(4096, 1024);
    let first = bump.allocate(layout)?;
    let second = bump.allocate(layout)?;
    let (end, place) = (first.end(), second.place());
    prove!(end <= place);
    Ok(())
}
