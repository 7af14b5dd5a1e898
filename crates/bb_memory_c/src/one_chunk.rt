//! A one-chunk allocator in a handle.
ghost use Rattle.bb_memory_c_calls.specs.Answers.{AnswersStill, TellsOfLayouts, no_figure};
ghost use Rattle.bb_memory_c_calls.specs.Calls.{Answers, AnswersFree, AnswersInfo, AnswersMake, AnswersRequest, AnswersResize, AnswersReturn, AnswersWhether};
ghost use Rattle.bb_memory_c_calls.specs.OneOwner.{OneChunkAllocates, ShowsOneChunk, TellsGrow, TellsReserved, TellsShrink};
ghost use Rattle.bb_memory_c_calls.specs.declared.code.TheConstants.{UNINITIALIZED as uninitialized};
ghost use Rattle.bb_memory_owned.specs.OneChunk.{one_chunk_of};
ghost use Rattle.bb_memory_traits.specs.Chunk.{IsRegion, region_at};
ghost use Rattle.std.specs.Prelude.{None, Some, ◌≡◌};

use crate::handle::{Handle, OneChunkHandle};
use bb_memory_c_calls::answer::{Answer, Figure, OneChunkInfo};
use bb_memory_c_calls::layout::layouts_of;
use bb_memory_c_calls::{call, code};
use bb_memory_owned::one_chunk_allocator::OneChunkAllocator;
use bb_memory_traits::allocator::{Allocator, BaseAllocator};
use bb_memory_traits::layout::Layout;
use std::alloc::Global;

/// Makes a one-chunk allocator over the region of `size` bytes at `start`, in a handle that has to be empty. The start has to be
/// greater than 0, and start plus size at most `SIZE_MAX`.
#[unsafe(no_mangle)]
pub extern "C" fn bb_one_chunk_init(
    alloc: Global,
    handle: &mut OneChunkHandle,
    start: usize,
    size: usize,
) -> u32
    ensures { AnswersMake handle.old.value handle.new.value result
        (IsRegion (region_at start size)) (λ new. new ≡ Some (one_chunk_of start size None)) }
{
    if call::is_made(handle) {
        return code::ALREADY_INITIALIZED;
    }
    if !OneChunkAllocator::can_make(start, size) {
        return code::INVALID_ARGUMENT;
    }
    call::keep(handle, alloc, OneChunkAllocator::new(start, size))
}

/// Frees the allocator and empties its handle.
#[unsafe(no_mangle)]
pub extern "C" fn bb_one_chunk_destroy(alloc: Global, handle: &mut OneChunkHandle) -> u32
    ensures { AnswersFree handle.old.value handle.new.value result }
{
    call::free(handle, alloc)
}

/// Allocates all of the region from the first multiple of `align` on. That has to be at least `size` bytes.
#[unsafe(no_mangle)]
pub extern "C" fn bb_one_chunk_allocate(
    handle: &mut OneChunkHandle,
    size: usize,
    align: usize,
) -> Answer
    ensures { AnswersRequest handle.old.value handle.new.value size align result OneChunkAllocates }
{
    call::request(handle, size, align)
}

/// Takes back the chunk at this place. For any other place it returns `BB_NOT_HELD`, and nothing changes.
#[unsafe(no_mangle)]
pub extern "C" fn bb_one_chunk_deallocate(handle: &mut OneChunkHandle, place: usize) -> u32
    ensures { AnswersReturn handle.old.value handle.new.value result
        (λ one. one.kept ≡ Some place) (λ one after. after ≡ record one { kept = None }) }
{
    call::give_back(handle, place)
}

/// Returns 1 if the chunk in use begins at this place, otherwise 0.
#[unsafe(no_mangle)]
pub extern "C" fn bb_one_chunk_holds(handle: &mut OneChunkHandle, place: usize) -> Figure
    ensures { AnswersWhether handle.old.value handle.new.value result (λ one. one.kept ≡ Some place) }
{
    call::holds(handle, place)
}

/// Returns how many bytes are reserved for the chunk at this place: everything up to the end of the region. For any other place
/// it returns `BB_NOT_HELD`.
#[unsafe(no_mangle)]
pub extern "C" fn bb_one_chunk_reserved(handle: &mut OneChunkHandle, place: usize) -> Figure
    ensures { Answers handle.old.value handle.new.value (result ≡ no_figure uninitialized)
        (λ one after. TellsReserved one place result × (after ≡ one)) }
{
    let Some(one) = handle.made_mut() else {
        return Figure::refusal(code::UNINITIALIZED);
    };
    if !one.holds(place) {
        return Figure::refusal(code::NOT_HELD);
    }
    Figure::of(one.reserved(place))
}

/// Fills the struct with the allocator's figures.
#[unsafe(no_mangle)]
pub extern "C" fn bb_one_chunk_info(handle: &mut OneChunkHandle, to: &mut OneChunkInfo) -> u32
    ensures { AnswersInfo handle.old.value handle.new.value to.old to.new result ShowsOneChunk }
{
    call::info(handle, to)
}

/// Checks that the chunk at this place is held and fits the old layout, then grows it.
fn grow(one: &mut OneChunkAllocator, place: usize, layouts: Option<(Layout, Layout)>) -> Answer
    ensures { AnswersStill one.old one.new (TellsOfLayouts layouts result (TellsGrow one.old place result)) }
{
    let Some((from, to)) = layouts else {
        return Answer::refusal(code::INVALID_LAYOUT);
    };
    if !one.holds(place) {
        return Answer::refusal(code::NOT_HELD);
    }
    if place % from.align() != 0 {
        return Answer::refusal(code::LAYOUT_MISMATCH);
    }
    Answer::of_grow(one.grow(place, from, to))
}

/// Grows the chunk at this place to at least the new size: to all bytes that are reserved for it.
#[unsafe(no_mangle)]
pub extern "C" fn bb_one_chunk_grow(
    handle: &mut OneChunkHandle,
    place: usize,
    old_size: usize,
    old_align: usize,
    new_size: usize,
    new_align: usize,
) -> Answer
    ensures { AnswersResize handle.old.value handle.new.value old_size old_align new_size new_align result
        (λ one. TellsGrow one place result) }
{
    match handle.made_mut() {
        Some(one) => grow(
            one,
            place,
            layouts_of(old_size, old_align, new_size, new_align),
        ),
        None => Answer::refusal(code::UNINITIALIZED),
    }
}

/// Checks that the chunk at this place is held and fits the old layout, then shrinks it.
fn shrink(one: &mut OneChunkAllocator, place: usize, layouts: Option<(Layout, Layout)>) -> Answer
    ensures { AnswersStill one.old one.new (TellsOfLayouts layouts result (TellsShrink one.old place result)) }
{
    let Some((from, to)) = layouts else {
        return Answer::refusal(code::INVALID_LAYOUT);
    };
    if !one.holds(place) {
        return Answer::refusal(code::NOT_HELD);
    }
    if place % from.align() != 0 || from.size() > one.reserved(place) {
        return Answer::refusal(code::LAYOUT_MISMATCH);
    }
    Answer::of_shrink(one.shrink(place, from, to))
}

/// Shrinks the chunk at this place to exactly the new size.
#[unsafe(no_mangle)]
pub extern "C" fn bb_one_chunk_shrink(
    handle: &mut OneChunkHandle,
    place: usize,
    old_size: usize,
    old_align: usize,
    new_size: usize,
    new_align: usize,
) -> Answer
    ensures { AnswersResize handle.old.value handle.new.value old_size old_align new_size new_align result
        (λ one. TellsShrink one place result) }
{
    match handle.made_mut() {
        Some(one) => shrink(
            one,
            place,
            layouts_of(old_size, old_align, new_size, new_align),
        ),
        None => Answer::refusal(code::UNINITIALIZED),
    }
}
