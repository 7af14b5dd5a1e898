//! The workers of `thread_layers`, and the room that is left when all of them have returned.
use crate::tests::checks::same;
use bb_memory_bump::bump_allocator::BumpAllocator;
use bb_memory_traits::layout::Layout;
use std::alloc::Global;
use std::test::Fail;
use std::thread::Threads;
use thread_layers::bump_workers::carved_by_four;
use thread_layers::pool_workers::four_workers;

/// Returns how much of 1024 bytes is used when four threads have each requested `size` bytes, or
/// `None` if memory ran out.
fn used_by_four<R: Threads + Sync>(rt: &R, alloc: Global, size: usize) -> Option<usize> {
    let requested = Layout::from_size_align(size, 4).ok()?;
    let again = carved_by_four(rt, alloc, BumpAllocator::new(4096, 1024), requested).ok()?;
    Some(again.used_space())
}

/// If four chunks fit, all four threads are served, and otherwise three, whichever of the four
/// comes last. Each worker keeps a bucket.
#[test]
fn four_work(rt: HostRuntime) -> Result<(), Fail> {
    same(&rt, used_by_four(&rt, rt.alloc(), 100), Some(400));
    same(&rt, used_by_four(&rt, rt.alloc(), 300), Some(900));
    let (pool, _) = four_workers(&rt, rt.alloc(), Layout::from_size_align(100, 4)?)?;
    same(&rt, pool.held_buckets(), 4);
    Ok(())
}
