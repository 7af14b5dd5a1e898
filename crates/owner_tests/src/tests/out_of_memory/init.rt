//! If `init` fails, it returns the uninitialized pool.
use crate::tests::checks::{layout, refused, same};
use bb_memory_owned::pool_allocator::{AllocationError, PoolAllocator};
use bb_memory_traits::layout::Layout;
use std::alloc::Global;
use std::process::Abort;

/// Makes a pool over 1,024 bytes at 4097. If memory ran out, `init` returns the value on which it
/// was called, and is called again.
fn initialised(rt: &(impl Abort + AllocGlobal), bucket: Layout) -> Option<PoolAllocator<Global>> {
    if !PoolAllocator::can_make(bucket, 4097, 1024) {
        return None;
    }
    match PoolAllocator::new_uninit(bucket, 4097, 1024).init(rt.alloc()) {
        Ok(pool) => Some(pool),
        Err((returned, error)) => {
            same(rt, error, AllocationError::OutOfMemory);
            refused(rt);
            returned.init(rt.alloc()).ok()
        }
    }
}

// row: pool-odd-start-getters, refused-init
#[test]
fn a_pool_at_an_odd_start(rt: HostRuntime) {
    let made = initialised(&rt, layout(&rt, 128, 8));
    let pool = made.expect(&rt, "there is memory for a pool");
    same(&rt, pool.start_address(), 4104);
    same(&rt, pool.number_of_buckets(), 7);
    same(&rt, (pool.size(), pool.bucket_size()), (1024, 128));
}
