//! The traits of allocators over one region, and runs of commands over any of these allocators.
pub use crate::runs::{run_base, run_full};
pub use bb_memory_traits::allocator::{
    AllocationError, AllocationGrowError, AllocationShrinkError, Allocator, BaseAllocator, Command,
    Reply,
};
