//! Layouts, roundings, chunks and a region; and the laws.
use crate::tests::checks::{check, layout, none_requested, refused, same};
use crate::tests::kinds::{fixed_over, pool_over};
use bb_memory_bump::bump_allocator::bump_object_law;
use bb_memory_owned::heap_allocator::heap_law;
use bb_memory_owned::one_chunk_allocator::{OneChunkAllocator, one_chunk_object_law};
use bb_memory_owned::pool_allocator::{
    PoolAllocator, pool_count_law, pool_geometry_law, pool_held_law, pool_object_law,
};
use bb_memory_traits::layout::{Chunk, Layout, given_law, layout_law, least_place_law, round_up};
use bb_memory_traits::region::{Region, live_bytes_law, region_law, split_bytes_law};
use test_marks::refuse_memory;

/// Pairs of a size and an alignment, and whether they are a layout.
const PAIRS: [(usize, usize, bool); 6] = [
    (0, 1 << 63, true),
    (1, 1 << 63, false),
    (8, 3, false),
    (8, 0, false),
    (9_223_372_036_854_775_807, 1, true),
    (9_223_372_036_854_775_807, 2, false),
];

// row: layouts-accepted-and-refused, round-up-three-answers
#[test]
fn layouts_and_roundings(rt: HostRuntime) {
    refuse_memory(rt.alloc());
    for (size, align, is_layout) in &PAIRS {
        let made = Layout::from_size_align(*size, *align);
        check(&rt, made.is_ok() == *is_layout);
        if let Ok(made) = made {
            same(&rt, (made.size(), made.align()), (*size, *align));
        }
    }
    let (two, eight) = (layout(&rt, 0, 2).align(), layout(&rt, 0, 8).align());
    same(&rt, round_up(4097, eight), Some(4104));
    same(&rt, round_up(0, eight), Some(0));
    same(&rt, round_up(usize::MAX, two), None);
    none_requested(&rt);
}

/// Calls `memory_size`, if its conditions hold.
fn memory_size(bucket: Layout, size: usize) -> Option<usize> {
    if bucket.size() == 0 || size / bucket.size() > u32::MAX as usize {
        return None;
    }
    Some(PoolAllocator::memory_size(bucket, size))
}

// row: memory-size-eight-buckets, memory-size-unrounded, memory-size-below-one-bucket, pool-rounded-stride
#[test]
fn memory_sizes(rt: HostRuntime) {
    let (large, small) = (layout(&rt, 128, 8), layout(&rt, 12, 8));
    let Some(pool) = pool_over(rt.alloc(), small, 4096, 64) else {
        return refused(&rt);
    };
    refuse_memory(rt.alloc());
    same(&rt, (pool.number_of_buckets(), pool.bucket_size()), (4, 12));
    same(&rt, memory_size(large, 1024), Some(64));
    same(&rt, memory_size(small, 64), Some(40));
    same(&rt, memory_size(large, 100), Some(0));
    none_requested(&rt);
}

// row: pool-odd-start-getters, fixed-constant-four
#[test]
fn getters(rt: HostRuntime) {
    let bucket = layout(&rt, 128, 8);
    let Some(pool) = pool_over(rt.alloc(), bucket, 4097, 1024) else {
        return refused(&rt);
    };
    let fixed = fixed_over::<4>(bucket, 4096, 1024);
    let fixed = fixed.expect(&rt, "there is such a pool");
    let one = OneChunkAllocator::new(4097, 1024);
    refuse_memory(rt.alloc());
    same(&rt, (pool.start_address(), pool.size()), (4104, 1024));
    same(&rt, pool.number_of_buckets(), 7);
    same(&rt, (pool.bucket_size(), pool.max_alignment()), (128, 8));
    same(&rt, pool.bucket_layout(), bucket);
    same(&rt, (fixed.number_of_buckets(), fixed.size()), (4, 1024));
    same(&rt, (fixed.bucket_size(), fixed.max_alignment()), (128, 8));
    same(&rt, fixed.bucket_layout(), bucket);
    same(&rt, (one.start_address(), one.size()), (4097, 1024));
    check(&rt, one.has_chunk_available());
    none_requested(&rt);
}

/// A region of eight bytes, call by call.
#[test]
fn a_region(rt: HostRuntime) {
    let Ok(bytes) = vec![in rt.alloc(); b'7'; 8] else {
        return refused(&rt);
    };
    refuse_memory(rt.alloc());
    let mut region = Region::new(4096, bytes);
    same(&rt, (region.start_address(), region.size()), (4096, 8));
    let chunk = Chunk::new(4098, 3).unwrap();
    region.write(chunk, b"123");
    check(&rt, region.chunk(chunk) == b"123".as_slice());
    region.chunk_mut(chunk)[1] = b'5';
    check(&rt, region.bytes() == b"77153777".as_slice());
    region.zero(chunk);
    check(&rt, region.bytes() == b"77\0\0\0777".as_slice());
    none_requested(&rt);
}

/// Laws do nothing, and each is called once.
#[test]
fn laws_do_nothing(rt: HostRuntime) {
    refuse_memory(rt.alloc());
    layout_law();
    least_place_law();
    given_law();
    bump_object_law();
    one_chunk_object_law();
    pool_object_law();
    pool_geometry_law();
    pool_held_law();
    pool_count_law();
    region_law();
    live_bytes_law();
    heap_law();
    split_bytes_law();
    loan_book::one_answer_law();
    loan_book::equality_law();
    none_requested(&rt);
}
