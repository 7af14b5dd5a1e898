//! Parties of one thread that share a bump.
use crate::tests::bumps::{end, last_of, share, spaces, take, two};
use crate::tests::checks::{none_requested, same};
use bb_memory_bump::bump_allocator::AllocationError::{OutOfMemory, SizeIsZero};

// row: share-two-parties
#[test]
fn two_parties(rt: HostRuntime) {
    let rt = &rt;
    let (shared, mut a, mut b) = two(rt, (4096, 64, 0));
    same(rt, (a.number(), b.number()), (0, 1));
    same(rt, take(&shared, &mut a, 40, 1), Ok((4096, 40)));
    same(rt, spaces(&shared, &mut b), (40, 24));
    same(rt, take(&shared, &mut b, 40, 1), Err(OutOfMemory));
    same(rt, take(&shared, &mut b, 0, 1), Err(SizeIsZero));
    same(rt, end(shared, b), (4096, 64, 40));
    none_requested(rt);
}

/// If a request for memory fails, the bump comes back with its text.
// row: share-keeps-position, refused-share
#[test]
fn what_was_used_stays_used(rt: HostRuntime) {
    let rt = &rt;
    let (shared, mut a, mut b) = two(rt, (4096, 64, 40));
    same(rt, shared.used_space(&mut b), 40);
    same(rt, shared.free_space(&mut a), 24);
    same(rt, shared.start_address(), 4096);
    same(rt, shared.total_space(), 64);
    same(rt, end(shared, b), (4096, 64, 40));
    none_requested(rt);
}

/// A thousand parties meet. Afterwards one takes a chunk, and the last one, which has made no step
/// and hasn't seen that, ends the sharing.
#[test]
fn the_last_party_made_no_step(rt: HostRuntime) {
    let rt = &rt;
    let (shared, mut parties) = share(rt, (4096, 64, 0), 1000);
    shared.meet_all(&mut parties);
    let last = last_of(rt, &shared, &mut parties);
    let mut other = last_of(rt, &shared, &mut parties);
    same(rt, (last.number(), other.number()), (999, 998));
    same(rt, take(&shared, &mut other, 40, 1), Ok((4096, 40)));
    same(rt, end(shared, last), (4096, 64, 40));
    none_requested(rt);
}

#[test]
fn two_parties_meet(rt: HostRuntime) {
    let rt = &rt;
    let (shared, mut a, mut b) = two(rt, (4096, 64, 0));
    same(rt, take(&shared, &mut a, 10, 1), Ok((4096, 10)));
    same(rt, take(&shared, &mut b, 8, 8), Ok((4112, 8)));
    shared.meet(&mut a, &mut b);
    same(rt, (a.number(), b.number()), (0, 1));
    same(rt, take(&shared, &mut a, 3, 1), Ok((4120, 3)));
    same(rt, take(&shared, &mut b, 4, 4), Ok((4124, 4)));
    same(rt, spaces(&shared, &mut a), (32, 32));
    same(rt, end(shared, a), (4096, 64, 32));
    none_requested(rt);
}
