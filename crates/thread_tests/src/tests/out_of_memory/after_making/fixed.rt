//! A shared pool of at most four buckets of 128 bytes.
ghost use Rattle.std.specs.Prelude.{All, IfSome, ◌≡◌};

use crate::tests::checks::{check, chunk, layout, none_requested, refused, same};
use bb_memory_owned::pool_allocator::FixedSizePoolAllocator;
use bb_memory_shared_pools::shared_pool::{Bucket, PoolParty, SharedFixedSizePoolAllocator};
use bb_memory_traits::allocator::AllocationError::OutOfMemory;
use bb_memory_traits::allocator::AllocationGrowError;
use bb_memory_traits::layout::{Chunk, Layout};
use std::alloc::Global;
use std::process::Abort;
use test_marks::refuse_memory;

type Four = SharedFixedSizePoolAllocator<4>;

/// Makes a pool over 1,024 bytes at 4096 for one party. Fails if memory ran out.
fn four(alloc: Global) -> Option<(Four, Vec<PoolParty>)>
    ensures { IfSome result (λ made. All (λ party. party.allocator ≡ made.0) made.1.items) }
{
    let bucket = Layout::from_size_align(128, 8).ok()?;
    if !FixedSizePoolAllocator::<4>::can_make(bucket, 4096, 1024) {
        return None;
    }
    match SharedFixedSizePoolAllocator::new(alloc, bucket, 4096, 1024, 1) {
        Ok((pool, parties)) => Some((pool, parties)),
        Err(_) => None,
    }
}

/// Takes the buckets that are left, and drops their tokens.
fn takes_three(rt: &impl Abort, pool: &Four, party: &mut PoolParty, layout: Layout)
    requires { party.old.allocator ≡ pool.now }
{
    for wanted in [Ok(1), Ok(2), Ok(3), Err(OutOfMemory)] {
        let got = match pool.allocate(party, layout) {
            Ok(bucket) => Ok(bucket.number()),
            Err(error) => Err(error),
        };
        same(rt, got, wanted);
    }
}

/// Grows a bucket's chunk, and checks the answer.
fn grow(
    rt: &impl Abort,
    pool: &Four,
    bucket: &mut Bucket<'_>,
    old: Layout,
    new: Layout,
    wanted: Result<Chunk, AllocationGrowError>,
)
    requires { bucket.old.allocator ≡ pool.now }
    ensures { bucket.new.allocator ≡ pool.now }
{
    if bucket.chunk().place() % old.align() != 0 {
        return check(rt, false);
    }
    same(rt, pool.grow(bucket, old, new), wanted);
}

/// Takes all four buckets, and grows the chunk of the first one.
fn fills(rt: &impl Abort, pool: &Four, mut parties: Vec<PoolParty>)
    requires { All (λ party. party.allocator ≡ pool.now) parties.items }
{
    let mut party = parties.pop().expect(rt, "there is a party");
    let (small, medium, large) = (layout(rt, 48, 4), layout(rt, 64, 4), layout(rt, 129, 4));
    let first = pool.allocate(&mut party, small);
    let mut first = first.expect(rt, "a bucket is free");
    same(rt, (first.number(), first.chunk().place()), (0, 4096));
    takes_three(rt, pool, &mut party, small);
    let grown = chunk(rt, 4096, 64);
    grow(rt, pool, &mut first, small, medium, Ok(grown));
    let refused = Err(AllocationGrowError::OutOfMemory);
    grow(rt, pool, &mut first, medium, large, refused);
    same(rt, first.chunk(), grown);
}

// row: shared-fixed-four-buckets, refused-shared-pools
#[test]
fn four_of_eight_buckets(rt: HostRuntime) {
    let Some((pool, parties)) = four(rt.alloc()) else {
        return refused(&rt);
    };
    refuse_memory(rt.alloc());
    same(&rt, (pool.number_of_buckets(), pool.size()), (4, 1024));
    same(&rt, (pool.bucket_size(), pool.max_alignment()), (128, 8));
    same(&rt, pool.bucket_layout(), layout(&rt, 128, 8));
    same(&rt, pool.number_of_parties(), 1);
    fills(&rt, &pool, parties);
    none_requested(&rt);
}
