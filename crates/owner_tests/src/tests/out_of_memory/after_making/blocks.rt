//! A heap block.
use crate::tests::checks::{check, layout, none_requested, same};
use crate::tests::out_of_memory::blocks::{counted, digits, made, shrunk};
use bb_memory_owned::heap_allocator::HeapAllocator;
use bb_memory_traits::layout::Layout;
use test_marks::{refuse_memory, some_was_freed};

/// A block is written, shrunk and deallocated, which gives its memory back.
#[test]
fn a_heap_block(rt: HostRuntime) {
    let block = made(&rt, layout(&rt, 4, 1), false);
    refuse_memory(rt.alloc());
    let block = shrunk(&rt, counted(block, 1), layout(&rt, 2, 1));
    same(&rt, digits(&block), (2, 12));
    HeapAllocator::new(rt.alloc()).deallocate(block, Layout::empty());
    check(&rt, some_was_freed(rt.alloc()));
    none_requested(&rt);
}
