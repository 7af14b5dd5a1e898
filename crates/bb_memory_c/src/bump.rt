//! A bump in a handle.
ghost use Rattle.bb_memory_bump.specs.Bump.{bump_of};
ghost use Rattle.bb_memory_c_calls.specs.Calls.{Answers, AnswersFree, AnswersInfo, AnswersMake, AnswersRequest};
ghost use Rattle.bb_memory_c_calls.specs.OneOwner.{BumpAllocates, ShowsBump};
ghost use Rattle.bb_memory_c_calls.specs.declared.code.TheConstants.{OK as ok, UNINITIALIZED as uninitialized};
ghost use Rattle.bb_memory_traits.specs.Chunk.{IsRegion, region_at};
ghost use Rattle.std.specs.Prelude.{Some, ◌≡◌};

use crate::handle::{BumpHandle, Handle};
use bb_memory_bump::bump_allocator::{BaseAllocator, BumpAllocator};
use bb_memory_c_calls::answer::{Answer, BumpInfo};
use bb_memory_c_calls::{call, code};
use bb_memory_traits::layout::Layout;
use std::alloc::Global;

/// Makes a bump over the region of `size` bytes at `start`, in a handle that has to be empty. The start has to be greater than 0,
/// and start plus size at most `SIZE_MAX`.
#[unsafe(no_mangle)]
pub extern "C" fn bb_bump_init(
    alloc: Global,
    handle: &mut BumpHandle,
    start: usize,
    size: usize,
) -> u32
    ensures { AnswersMake handle.old.value handle.new.value result
        (IsRegion (region_at start size)) (λ new. new ≡ Some (bump_of start size 0)) }
{
    if call::is_made(handle) {
        return code::ALREADY_INITIALIZED;
    }
    if !BumpAllocator::can_make(start, size) {
        return code::INVALID_ARGUMENT;
    }
    call::keep(handle, alloc, BumpAllocator::new(start, size))
}

/// Frees the bump and empties its handle.
#[unsafe(no_mangle)]
pub extern "C" fn bb_bump_destroy(alloc: Global, handle: &mut BumpHandle) -> u32
    ensures { AnswersFree handle.old.value handle.new.value result }
{
    call::free(handle, alloc)
}

/// Allocates a chunk of exactly `size` bytes at a multiple of `align`.
#[unsafe(no_mangle)]
pub extern "C" fn bb_bump_allocate(handle: &mut BumpHandle, size: usize, align: usize) -> Answer
    ensures { AnswersRequest handle.old.value handle.new.value size align result BumpAllocates }
{
    call::request(handle, size, align)
}

/// Gives back all chunks.
#[unsafe(no_mangle)]
pub extern "C" fn bb_bump_deallocate(handle: &mut BumpHandle) -> u32
    ensures { Answers handle.old.value handle.new.value (result ≡ uninitialized) (λ bump after.
        (result ≡ ok) × (after ≡ bump_of bump.region.start bump.region.size 0)) }
{
    let Some(bump) = handle.made_mut() else {
        return code::UNINITIALIZED;
    };
    bump.deallocate(0, Layout::empty());
    code::OK
}

/// Fills the struct with the bump's figures. The used space includes the padding between chunks.
#[unsafe(no_mangle)]
pub extern "C" fn bb_bump_info(handle: &mut BumpHandle, to: &mut BumpInfo) -> u32
    ensures { AnswersInfo handle.old.value handle.new.value to.old to.new result ShowsBump }
{
    call::info(handle, to)
}
