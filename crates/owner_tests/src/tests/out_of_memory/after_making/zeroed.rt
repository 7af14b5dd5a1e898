//! Calls of the traits, and which bytes they clear. The region's bytes are all 7 at first.
ghost use Rattle.bb_memory_traits.specs.Chunk.{region_at};
ghost use Rattle.std.specs.Prelude.{[], ◌≡◌};

use crate::tests::checks::{check, chunk, layout, none_requested, refused, same};
use crate::tests::kinds::{Kind, Of, fixed_over, fresh};
use crate::tests::owner::Owner;
use bb_memory_bump::bump_allocator::BumpAllocator;
use bb_memory_owned::one_chunk_allocator::OneChunkAllocator;
use bb_memory_owned::pool_allocator::{FixedSizePoolAllocator, PoolAllocator};
use bb_memory_traits::allocator::{
    AllocationError, AllocationGrowError, Allocator, BaseAllocator, Reply,
};
use layers::chunk_budget::ChunkBudget;
use std::alloc::Global;
use std::process::Abort;
use test_marks::refuse_memory;

/// Requests a chunk, and returns its place and its length.
fn takes<A: BaseAllocator + Drop>(
    rt: &impl Abort,
    owner: &mut Owner<A>,
    (size, align): (usize, usize),
    zeroed: bool,
) -> (usize, usize) {
    match owner.allocate(layout(rt, size, align), zeroed) {
        Reply::Chunk(chunk) => (chunk.place(), chunk.len()),
        _ => panic!(rt; "no chunk is given"),
    }
}

/// Resizes the first chunk between 4-aligned sizes, and checks its new length. The place stays.
fn resizes<A: Allocator + Drop>(
    rt: &impl Abort,
    owner: &mut Owner<A>,
    (place, old, new): (usize, usize, usize),
    len: usize,
    zeroed: bool,
) {
    let (old, new) = (layout(rt, old, 4), layout(rt, new, 4));
    let got = if new.size() > old.size() {
        owner.grow(0, old, new, zeroed)
    } else {
        owner.shrink(0, old, new)
    };
    same(rt, got, Reply::Chunk(chunk(rt, place, len)));
}

/// Allocates the 64 bytes at 4096 that a fresh allocator has. Then a request is refused.
fn takes_all<A: BaseAllocator + Drop>(rt: &impl Abort, owner: &mut Owner<A>, zeroed: bool) {
    let (all, whole) = (layout(rt, 64, 4), chunk(rt, 4096, 64));
    same(rt, owner.allocate(all, zeroed), Reply::Chunk(whole));
    let refused = Reply::Refused(AllocationError::OutOfMemory);
    same(rt, owner.allocate(all, zeroed), refused);
}

/// Makes each call that resizes, first plainly and then with cleared bytes, between a request and a
/// return.
fn each_call<A: Kind + Allocator>(rt: &(impl Abort + AllocGlobal), of: Of) {
    let mut owner = fresh::<A>(rt, of);
    for (zeroed, end) in [(false, 4096), (true, 4160)] {
        takes_all(rt, &mut owner, zeroed);
        resizes(rt, &mut owner, (4096, 64, 48), 48, zeroed);
        resizes(rt, &mut owner, (4096, 48, 64), 64, zeroed);
        same(rt, owner.reserved(0), Some(64));
        same(rt, owner.deallocate(0), Reply::Released);
        check(rt, owner.has_zeros(4096, end));
    }
    none_requested(rt);
}

#[test]
fn each_call_of_the_traits(rt: HostRuntime) {
    let mut bump = fresh::<BumpAllocator>(&rt, [4096, 64, 0, 0]);
    takes_all(&rt, &mut bump, false);
    same(&rt, bump.deallocate(0), Reply::Released);
    takes_all(&rt, &mut bump, true);
    none_requested(&rt);
    each_call::<OneChunkAllocator>(&rt, [4096, 64, 0, 0]);
    each_call::<PoolAllocator<Global>>(&rt, [4096, 64, 64, 8]);
    each_call::<FixedSizePoolAllocator<4>>(&rt, [4096, 64, 64, 8]);
}

// row: bump-allocate-zeroed
#[test]
fn a_bump_clears_its_chunk(rt: HostRuntime) {
    let mut bump = fresh::<BumpAllocator>(&rt, [4096, 1024, 0, 0]);
    let made = bump.allocator();
    same(&rt, made.start_address(), 4096);
    same(&rt, takes(&rt, &mut bump, (10, 1), false), (4096, 10));
    same(&rt, takes(&rt, &mut bump, (16, 8), true), (4112, 16));
    check(&rt, bump.has_zeros(4112, 4128));
    let used = bump.allocator();
    same(&rt, (used.used_space(), used.free_space()), (32, 992));
    same(&rt, used.total_space(), 1024);
    none_requested(&rt);
}

// row: one-zeroed-refused, one-grow-zeroed
#[test]
fn a_grown_chunk_is_cleared_after_its_old_size(rt: HostRuntime) {
    let mut one = fresh::<OneChunkAllocator>(&rt, [4096, 1024, 0, 0]);
    let refused = Reply::Refused(AllocationError::OutOfMemory);
    same(&rt, one.allocate(layout(&rt, 1025, 1), true), refused);
    check(&rt, one.has_zeros(0, 0));
    same(&rt, takes(&rt, &mut one, (48, 4), false), (4096, 1024));
    resizes(&rt, &mut one, (4096, 48, 64), 1024, true);
    check(&rt, one.has_zeros(4144, 5120));
    none_requested(&rt);
}

// row: one-doc-example
#[test]
fn one_chunk_is_shrunk_and_grown(rt: HostRuntime) {
    let mut one = fresh::<OneChunkAllocator>(&rt, [4096, 1024, 0, 0]);
    same(&rt, takes(&rt, &mut one, (48, 4), false), (4096, 1024));
    let held = one.allocator();
    check(&rt, held.holds(4096) && !held.holds(4097));
    resizes(&rt, &mut one, (4096, 64, 32), 32, true);
    resizes(&rt, &mut one, (4096, 48, 64), 1024, true);
    same(&rt, one.reserved(0), Some(1024));
    same(&rt, one.deallocate(0), Reply::Released);
    let back = one.allocator();
    check(&rt, back.has_chunk_available() && !back.holds(4096));
    check(&rt, one.has_zeros(4144, 5120));
    none_requested(&rt);
}

/// Takes 48 bytes, which can't be grown to 129. They are grown, shrunk and given back: exactly the
/// bytes by which they grew are zero.
fn is_grown_and_shrunk<A: Kind + Allocator>(rt: &(impl Abort + AllocGlobal), of: Of) {
    let mut owner = fresh::<A>(rt, of);
    let (place, len) = takes(rt, &mut owner, (48, 4), false);
    same(rt, len, 48);
    let (old, new) = (layout(rt, 48, 4), layout(rt, 129, 4));
    let refused = Reply::GrowRefused(AllocationGrowError::OutOfMemory);
    same(rt, owner.grow(0, old, new, true), refused);
    check(rt, owner.has_zeros(0, 0));
    resizes(rt, &mut owner, (place, 48, 64), 64, true);
    resizes(rt, &mut owner, (place, 64, 32), 32, true);
    same(rt, owner.deallocate(0), Reply::Released);
    let cleared = place.saturating_add(48);
    check(rt, owner.has_zeros(cleared, cleared.saturating_add(16)));
    none_requested(rt);
}

// row: fixed-doc-example, fixed-grow-zeroed-refused
#[test]
fn a_bucket_is_grown_and_shrunk(rt: HostRuntime) {
    is_grown_and_shrunk::<FixedSizePoolAllocator<512>>(&rt, [4096, 1024, 128, 8]);
}

/// Takes all buckets of a pool at 4096, each of which is at a place of its own, and then one of
/// them again, cleared.
fn fills<A: Kind + Allocator>(
    rt: &(impl Abort + AllocGlobal),
    of: Of,
    (stride, count): (usize, usize),
) {
    let mut pool = fresh::<A>(rt, of);
    for _ in 0..count {
        same(rt, takes(rt, &mut pool, (of[2], of[3]), false).1, of[2]);
    }
    let refused = Reply::Refused(AllocationError::OutOfMemory);
    same(rt, pool.allocate(layout(rt, of[2], of[3]), false), refused);
    check(rt, pool.are_at(4096, stride, count));
    same(rt, pool.reserved(0), Some(of[2]));
    same(rt, pool.deallocate(1), Reply::Released);
    let (place, len) = takes(rt, &mut pool, (9, 1), true);
    same(rt, len, 9);
    check(rt, pool.has_zeros(place, place.saturating_add(9)));
    none_requested(rt);
}

// row: pool-eight-buckets, pool-rounded-stride
#[test]
fn each_bucket_has_its_place(rt: HostRuntime) {
    fills::<PoolAllocator<Global>>(&rt, [4096, 1024, 128, 8], (128, 8));
    fills::<PoolAllocator<Global>>(&rt, [4096, 64, 12, 8], (16, 4));
}

/// Spends a budget of one chunk over a pool of buckets of 128 bytes. Then the budget refuses a
/// request before the pool gets it. A resize spends nothing.
fn spends<A: Allocator + Drop>(rt: &(impl Abort + AllocGlobal), pool: A)
    requires fresh { A.stands_for pool [] }
    requires region { A.region_of (A.geometry pool) ≡ region_at 4096 1024 }
{
    let Some(mut budget) = Owner::new(rt.alloc(), ChunkBudget::new(pool, 1), 4096, 1024) else {
        return refused(rt);
    };
    refuse_memory(rt.alloc());
    let large = layout(rt, 129, 1);
    let too_large = Reply::Refused(AllocationError::SizeTooLarge);
    same(rt, budget.allocate(large, false), too_large);
    let (place, _) = takes(rt, &mut budget, (10, 4), false);
    resizes(rt, &mut budget, (place, 10, 20), 20, true);
    same(rt, budget.allocator().out(), 1);
    let spent = Reply::Refused(AllocationError::OutOfMemory);
    same(rt, budget.allocate(large, false), spent);
    same(rt, budget.deallocate(0), Reply::Released);
    same(rt, budget.allocator().out(), 0);
    none_requested(rt);
}

#[test]
fn a_budget_of_one_chunk(rt: HostRuntime) {
    let pool = fixed_over::<16>(layout(&rt, 128, 8), 4096, 1024);
    spends(&rt, pool.expect(&rt, "there is such a pool"));
}
