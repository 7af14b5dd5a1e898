//! Runs of commands. If memory runs out, a run applies no command, and is made again.
use super::after_making::held_buckets::Buckets;
use crate::tests::checks::{check, chunk, layout, refused, same};
use crate::tests::kinds::{Of, made};
use crate::tests::owner::Owner;
use bb_memory_bump::bump_allocator::BumpAllocator;
use bb_memory_owned::one_chunk_allocator::OneChunkAllocator;
use bb_memory_owned::pool_allocator::{FixedSizePoolAllocator, PoolAllocator};
use bb_memory_traits::allocator::AllocationError::{self, OutOfMemory, SizeTooLarge};
use bb_memory_traits::allocator::AllocationGrowError::{self, AlignmentFailure, GrowWouldShrink};
use bb_memory_traits::allocator::Allocator;
use bb_memory_traits::allocator::Command::{self, Allocate, Grow, Release, Shrink};
use bb_memory_traits::allocator::Reply::{self, GrowRefused, Passed, Refused};
use bb_memory_traits::layout::Layout;
use std::alloc::Global;
use std::process::Abort;

/// Runs commands, a second time if memory ran out: then the number of live chunks is unchanged.
fn replies<A: Allocator + Drop>(
    rt: &(impl Abort + AllocGlobal),
    owner: &mut Owner<A>,
    commands: &[Command],
) -> Vec<Reply> {
    let live = owner.number_of_live();
    if let Ok(replies) = owner.run_full(commands) {
        return replies;
    }
    refused(rt);
    same(rt, owner.number_of_live(), live);
    owner
        .run_full(commands)
        .expect(rt, "there is memory for a run")
}

/// Runs commands by a fresh bump, which has no resizes, a second time if memory ran out.
fn replies_of_a_bump(rt: &(impl Abort + AllocGlobal), commands: &[Command]) -> Vec<Reply> {
    let mut bump = made::<BumpAllocator>(rt, [4096, 1024, 0, 0]);
    if let Ok(replies) = bump.run_base(commands) {
        return replies;
    }
    refused(rt);
    same(rt, bump.number_of_live(), 0);
    bump.run_base(commands)
        .expect(rt, "there is memory for a run")
}

fn given(rt: &impl Abort, place: usize, len: usize) -> Reply {
    Reply::Chunk(chunk(rt, place, len))
}

// row: bump-first-path, refused-run
#[test]
fn a_bump_is_filled(rt: HostRuntime) {
    let commands = [
        Allocate(layout(&rt, 48, 4)),
        Grow(0, Layout::empty(), layout(&rt, 64, 4)),
        Allocate(layout(&rt, 10, 32)),
        Allocate(layout(&rt, 950, 1)),
        Allocate(layout(&rt, 1, 1)),
    ];
    let (first, second) = (given(&rt, 4096, 48), given(&rt, 4160, 10));
    let wanted = [
        first,
        Passed,
        second,
        given(&rt, 4170, 950),
        Refused(OutOfMemory),
    ];
    check(
        &rt,
        replies_of_a_bump(&rt, &commands).as_slice() == wanted.as_slice(),
    );
}

// row: one-resizes, refused-run
#[test]
fn one_chunk_is_resized(rt: HostRuntime) {
    let (small, large) = (layout(&rt, 48, 4), layout(&rt, 64, 4));
    let commands = [
        Allocate(small),
        Shrink(0, large, layout(&rt, 32, 4)),
        Grow(0, small, large),
        Grow(0, large, large),
        Grow(0, small, layout(&rt, 64, 8)),
        Grow(0, small, layout(&rt, 1022, 4)),
        Grow(0, small, layout(&rt, 1021, 4)),
        Grow(0, layout(&rt, 48, 16), layout(&rt, 64, 16)),
    ];
    let wanted = [
        given(&rt, 4100, 1021),
        given(&rt, 4100, 32),
        given(&rt, 4100, 1021),
        GrowRefused(GrowWouldShrink),
        GrowRefused(AlignmentFailure),
        GrowRefused(AllocationGrowError::OutOfMemory),
        given(&rt, 4100, 1021),
        Passed,
    ];
    let mut one = made::<OneChunkAllocator>(&rt, [4097, 1024, 0, 0]);
    let got = replies(&rt, &mut one, &commands);
    check(&rt, got.as_slice() == wanted.as_slice());
}

/// Takes two buckets, gives one back, and takes one more. Checks how many are held then, and the
/// greatest number so far.
fn takes<A: Buckets>(
    rt: &(impl Abort + AllocGlobal),
    pool: &mut Owner<A>,
    counts: (u32, u32, bool),
) -> Vec<Reply> {
    let take = Allocate(Layout::empty());
    let commands = [take, take, Release(0), take];
    let got = replies(rt, pool, &commands);
    same(rt, pool.allocator().figures(0, 0).0, counts);
    got
}

/// Takes all buckets of a pool of four by two runs. A third run's request is refused.
fn fills<A: Buckets>(rt: &(impl Abort + AllocGlobal), of: Of) {
    let mut pool = made::<A>(rt, of);
    same(rt, takes(rt, &mut pool, (2, 2, true)).len(), 4);
    same(rt, takes(rt, &mut pool, (4, 4, false)).len(), 4);
    let got = takes(rt, &mut pool, (4, 4, false));
    same(rt, got.first().copied(), Some(Refused(OutOfMemory)));
}

/// The fixed pool's region has room for eight buckets.
// row: refused-run
#[test]
fn pools_of_four_buckets(rt: HostRuntime) {
    fills::<PoolAllocator<Global>>(&rt, [4096, 64, 16, 8]);
    fills::<FixedSizePoolAllocator<4>>(&rt, [4096, 1024, 128, 8]);
}

// row: fixed-constant-four, refused-run
#[test]
fn a_fixed_pool_has_its_constant(rt: HostRuntime) {
    let mut pool = made::<FixedSizePoolAllocator<4>>(&rt, [4096, 1024, 128, 8]);
    same(&rt, pool.allocator().number_of_buckets(), 4);
    let commands = [Allocate(layout(&rt, 0, 1)); 5];
    let got = replies(&rt, &mut pool, &commands);
    same(&rt, (got.len(), chunks_of(&got, 0)), (5, 4));
    same(&rt, got.last().copied(), Some(Refused(OutOfMemory)));
}

/// Returns how many of these replies are chunks of this length.
fn chunks_of(replies: &[Reply], len: usize) -> usize {
    let mut found: usize = 0;
    for reply in replies {
        if let Reply::Chunk(chunk) = reply {
            if chunk.len() == len {
                found = found.saturating_add(1);
            }
        }
    }
    found
}

/// Returns the reply to the command at a position.
fn reply_at(replies: &[Reply], position: usize) -> Option<Reply> {
    replies.get(position).copied()
}

/// The commands of a pool of eight buckets of 128 bytes: each refusal, each bucket once, and the
/// first one again.
fn commands_of_eight(rt: &impl Abort) -> [Command; 14] {
    let take = Allocate(layout(rt, 48, 4));
    [
        Allocate(layout(rt, 129, 8)),
        Allocate(layout(rt, 129, 16)),
        Allocate(layout(rt, 48, 16)),
        take,
        take,
        take,
        take,
        take,
        take,
        take,
        take,
        take,
        Release(0),
        take,
    ]
}

// row: pool-eight-buckets, refused-run
#[test]
fn a_pool_of_eight_buckets(rt: HostRuntime) {
    let mut pool = made::<PoolAllocator<Global>>(&rt, [4096, 1024, 128, 8]);
    let got = replies(&rt, &mut pool, &commands_of_eight(&rt));
    same(&rt, (got.len(), chunks_of(&got, 48)), (14, 9));
    same(&rt, reply_at(&got, 0), Some(Refused(SizeTooLarge)));
    same(&rt, reply_at(&got, 1), Some(Refused(SizeTooLarge)));
    let misaligned = AllocationError::AlignmentFailure;
    same(&rt, reply_at(&got, 2), Some(Refused(misaligned)));
    for place in [4096, 4224, 4352, 4480, 4608, 4736, 4864, 4992] {
        let wanted = given(&rt, place, 48);
        check(&rt, got.iter().any(|reply| *reply == wanted));
    }
    same(&rt, reply_at(&got, 11), Some(Refused(OutOfMemory)));
    same(&rt, reply_at(&got, 12), Some(Reply::Released));
    same(&rt, reply_at(&got, 13), reply_at(&got, 3));
}
