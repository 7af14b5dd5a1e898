//! The bump.
ghost use Rattle.std.specs.Prelude.{◌≡◌};

use bb_memory::bump_allocator::{AllocationError, BaseAllocator, BumpAllocator};
use bb_memory::layout::Layout;

/// Returns the layout of 48 bytes at multiples of 4.
pub fn forty_eight() -> Layout
    ensures size { result.size ≡ 48 }
    ensures align { result.align ≡ 4 }
{
    Layout::from_size_align(48, 4).unwrap()
}

/// Size 0 is refused, and a release frees the whole region.
pub fn refused_and_released() -> Result<(), AllocationError> {
    let mut bump = BumpAllocator::new(4096, 1024);
    let refused = bump.allocate(Layout::empty());
    prove!(matches!(&refused, Err(AllocationError::SizeIsZero)));
    let chunk = bump.allocate(forty_eight())?;
    bump.deallocate(chunk.place(), forty_eight());
    prove!(bump.free_space() == 1024);
    Ok(())
}
