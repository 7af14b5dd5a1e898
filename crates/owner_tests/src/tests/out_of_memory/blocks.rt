//! Heap blocks. If memory runs out, `allocate` makes no block, and `grow` returns its block
//! unchanged; then the call is made again.
use crate::tests::checks::{layout, refused, same};
use bb_memory_owned::heap_allocator::{
    AllocationError, AllocationGrowError, AllocationShrinkError, HeapAllocator, HeapBlock,
};
use bb_memory_traits::layout::Layout;
use std::alloc::Global;
use std::process::Abort;

/// A block, or the old one with the error.
type Resized<E> = Result<HeapBlock, (HeapBlock, E)>;

fn allocate(alloc: Global, requested: Layout, zeroed: bool) -> Result<HeapBlock, AllocationError> {
    let heap = HeapAllocator::new(alloc);
    if zeroed {
        heap.allocate_zeroed(requested)
    } else {
        heap.allocate(requested)
    }
}

/// Makes a block, in a second attempt if memory ran out.
pub(super) fn made(rt: &(impl Abort + AllocGlobal), requested: Layout, zeroed: bool) -> HeapBlock {
    match allocate(rt.alloc(), requested, zeroed) {
        Err(AllocationError::OutOfMemory) => {
            refused(rt);
            allocate(rt.alloc(), requested, zeroed).expect(rt, "there is memory for a block")
        }
        other => other.expect(rt, "the block isn't empty"),
    }
}

/// Returns the length of a block, and its bytes as digits.
pub(super) fn digits(block: &HeapBlock) -> (usize, usize) {
    let mut digits: usize = 0;
    for byte in block.as_slice() {
        digits = digits.saturating_mul(10).saturating_add(*byte as usize);
    }
    (block.len(), digits)
}

/// Writes numbers into a block, counting from `first`.
pub(super) fn counted(mut block: HeapBlock, first: u8) -> HeapBlock {
    let mut number = first;
    for byte in block.as_mut_slice() {
        *byte = number;
        number = number.saturating_add(1);
    }
    block
}

fn grow(alloc: Global, block: HeapBlock, to: Layout, zeroed: bool) -> Resized<AllocationGrowError> {
    let Ok(from) = Layout::from_size_align(block.len(), 1) else {
        return Err((block, AllocationGrowError::GrowWouldShrink));
    };
    let heap = HeapAllocator::new(alloc);
    if zeroed {
        heap.grow_zeroed(block, from, to)
    } else {
        heap.grow(block, from, to)
    }
}

/// Grows a block, in a second attempt if memory ran out: then the block was unchanged.
fn grown(
    rt: &(impl Abort + AllocGlobal),
    block: HeapBlock,
    new: Layout,
    zeroed: bool,
) -> HeapBlock {
    let before = digits(&block);
    match grow(rt.alloc(), block, new, zeroed) {
        Ok(block) => block,
        Err((block, error)) => {
            same(rt, error, AllocationGrowError::OutOfMemory);
            refused(rt);
            same(rt, digits(&block), before);
            let again = grow(rt.alloc(), block, new, zeroed).ok();
            again.expect(rt, "there is memory for a block")
        }
    }
}

fn shrink(alloc: Global, block: HeapBlock, to: Layout) -> Resized<AllocationShrinkError> {
    match Layout::from_size_align(block.len(), 1) {
        Ok(from) => HeapAllocator::new(alloc).shrink(block, from, to),
        Err(_) => Err((block, AllocationShrinkError::AlignmentFailure)),
    }
}

/// Shrinks a block.
pub(super) fn shrunk(rt: &(impl Abort + AllocGlobal), block: HeapBlock, new: Layout) -> HeapBlock {
    let shrunk = shrink(rt.alloc(), block, new).ok();
    shrunk.expect(rt, "the block is shrunk")
}

/// Checks that a shrink is refused, and returns the block unchanged.
fn not_shrunk(
    rt: &(impl Abort + AllocGlobal),
    block: HeapBlock,
    new: Layout,
    wanted: AllocationShrinkError,
) -> HeapBlock {
    let before = digits(&block);
    let refused = shrink(rt.alloc(), block, new).err();
    let (block, error) = refused.expect(rt, "the block isn't shrunk");
    same(rt, (digits(&block), error), (before, wanted));
    block
}

// row: heap-grow-and-shrink, refused-heap-allocate, refused-heap-grow
#[test]
fn a_block_is_grown_and_shrunk(rt: HostRuntime) {
    let rt = &rt;
    let empty = allocate(rt.alloc(), layout(rt, 0, 1), false);
    same(rt, empty.err(), Some(AllocationError::SizeIsZero));
    let block = counted(made(rt, layout(rt, 4, 1), false), 1);
    same(rt, digits(&block), (4, 1234));
    let block = grown(rt, block, layout(rt, 6, 1), false);
    same(rt, digits(&block), (6, 123_400));
    let block = shrunk(rt, block, layout(rt, 2, 1));
    same(rt, digits(&block), (2, 12));
    let block = not_shrunk(
        rt,
        block,
        layout(rt, 0, 1),
        AllocationShrinkError::SizeIsZero,
    );
    same(rt, digits(&block), (2, 12));
}

// row: heap-zeroed-and-refused, refused-heap-allocate, refused-heap-grow
#[test]
fn a_block_is_zeroed_and_refused(rt: HostRuntime) {
    let rt = &rt;
    let fresh = made(rt, layout(rt, 3, 1), true);
    same(rt, digits(&fresh), (3, 0));
    let block = counted(fresh, 5);
    same(rt, digits(&block), (3, 567));
    let refused = grow(rt.alloc(), block, layout(rt, 3, 1), false).err();
    let (block, error) = refused.expect(rt, "the block isn't grown");
    same(rt, error, AllocationGrowError::GrowWouldShrink);
    same(rt, digits(&block), (3, 567));
    let block = grown(rt, block, layout(rt, 5, 1), true);
    same(rt, digits(&block), (5, 56_700));
    let block = not_shrunk(
        rt,
        block,
        layout(rt, 5, 1),
        AllocationShrinkError::ShrinkWouldGrow,
    );
    let block = shrunk(rt, block, layout(rt, 1, 1));
    same(rt, digits(&block), (1, 5));
}

/// Blocks of many sizes are made, or grown from a byte, and their bytes are zero. Alignments are
/// ignored.
#[test]
fn heap_of_many_sizes(rt: HostRuntime) {
    let rt = &rt;
    for size in [5, 6, 7, 64, 1024, 4096, 65_536, 1_048_575, 1_048_576] {
        for zeroed in [false, true] {
            let block = made(rt, layout(rt, size, 4096), zeroed);
            same(rt, digits(&block), (size, 0));
            let byte = made(rt, layout(rt, 1, 4096), zeroed);
            let block = grown(rt, byte, layout(rt, size, 4096), zeroed);
            same(rt, digits(&block), (size, 0));
            let block = shrunk(rt, block, layout(rt, 4, 4096));
            same(rt, digits(&block), (4, 0));
        }
    }
}
