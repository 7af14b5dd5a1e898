//! Parties of one thread that share a pool of buckets of 128 bytes. A request returns a bucket's
//! number, place and length.
ghost use Rattle.std.specs.Prelude.{All, ◌<◌, ◌≡◌};

use crate::tests::buckets::{add, fit, found, hold, last_of, pool_at_last, take, two};
use crate::tests::checks::{check, chunk, layout, none_requested, same};
use bb_memory_shared_pools::shared_pool::by_number::Flag;
use bb_memory_shared_pools::shared_pool::{
    AllocationShrinkError, Bucket, PoolParty, SharedPoolAllocator, by_number,
};
use bb_memory_traits::allocator::AllocationError::{AlignmentFailure, OutOfMemory, SizeTooLarge};
use bb_memory_traits::layout::{Chunk, Layout};
use std::process::Abort;

// row: shared-pool-dropped-bucket, refused-shared-pools
#[test]
fn a_dropped_token_leaves_its_bucket_held(rt: HostRuntime) {
    let (small, (pool, mut all)) = (layout(&rt, 48, 4), pool_at_last(&rt, 256, 1));
    let (rt, pool) = (&rt, &pool);
    let mut party = last_of(rt, pool, &mut all);
    let first = hold(rt, pool, &mut party, small);
    same(rt, found(&first), (0, 4096, 48));
    same(rt, take(pool, &mut party, small), Ok((1, 4224, 48)));
    same(rt, take(pool, &mut party, small), Err(OutOfMemory));
    pool.deallocate_bucket(&mut party, first);
    same(rt, take(pool, &mut party, small), Ok((0, 4096, 48)));
    same(rt, take(pool, &mut party, small), Err(OutOfMemory));
    none_requested(rt);
}

#[test]
fn two_parties_of_one_bucket(rt: HostRuntime) {
    let (small, (pool, mut a, mut b)) = (layout(&rt, 48, 4), two(&rt, 128));
    let (rt, pool) = (&rt, &pool);
    let (large, wide) = (layout(rt, 129, 16), layout(rt, 48, 16));
    same(rt, take(pool, &mut a, large), Err(SizeTooLarge));
    same(rt, fit(pool, &mut a, wide), Err(AlignmentFailure));
    let held = hold(rt, pool, &mut a, small);
    same(rt, take(pool, &mut b, small), Err(OutOfMemory));
    same(rt, fit(pool, &mut b, small), Err(OutOfMemory));
    pool.deallocate_bucket(&mut a, held);
    same(rt, take(pool, &mut b, small), Ok((0, 4096, 48)));
    none_requested(rt);
}

/// The last party's part of the pool is its last bucket, even after all parties met. Bucket `i`
/// begins at 4096 + 128 i: the last one, 511, at 69504, and the region ends before 69632.
#[test]
fn as_many_parties_as_buckets(rt: HostRuntime) {
    let (pool, mut all) = pool_at_last(&rt, 65536, 512);
    let (rt, pool) = (&rt, &pool);
    pool.meet_all(&mut all);
    let (small, mut party) = (layout(rt, 48, 4), last_of(rt, pool, &mut all));
    same(rt, (party.number(), all.len()), (511, 511));
    same(rt, pool.number_of_buckets(), pool.number_of_parties());
    same(rt, (pool.size(), pool.bucket_size()), (65536, 128));
    same(rt, (pool.start_address(), pool.max_alignment()), (4096, 8));
    same(rt, pool.bucket_layout(), layout(rt, 128, 8));
    same(
        rt,
        [pool.number_at(4097), pool.number_at(4224)],
        [None, Some(1)],
    );
    same(
        rt,
        [pool.number_at(69504), pool.number_at(69632)],
        [Some(511), None],
    );
    same(
        rt,
        [pool.number_at(3968), pool.number_at(usize::MAX)],
        [None, None],
    );
    same(
        rt,
        [pool.place_at(511), pool.place_at(512)],
        [Some(69504), None],
    );
    same(rt, fit(pool, &mut party, small), Ok((511, 69504, 48)));
    same(rt, fit(pool, &mut party, small), Ok((0, 4096, 48)));
    let whole = pool.take(&mut party).ok();
    let whole = whole.expect(rt, "a bucket is free");
    same(rt, found(&whole), (1, 4224, 128));
    none_requested(rt);
}

/// Detaches a bucket of the first party, and attaches it by the other one, which gives it back.
fn attaches(rt: &impl Abort, pool: &SharedPoolAllocator, a: &mut PoolParty, b: &mut PoolParty)
    requires others { 1 < pool.now.scene.parties }
    requires first { a.old.allocator ≡ pool.now }
    requires second { b.old.allocator ≡ pool.now }
    ensures first { a.new.allocator ≡ pool.now }
    ensures second { b.new.allocator ≡ pool.now }
{
    let small = layout(rt, 48, 4);
    let held = hold(rt, pool, a, small);
    let number = held.number();
    let by_both = (pool.is_held_by(a, number), pool.is_held_by(b, number));
    same(
        rt,
        (pool.holder(number), by_both),
        (Flag::HeldBy(a.number()), (true, false)),
    );
    let detached = pool.detach(a, held);
    same(rt, (detached.number(), detached.len()), (0, 48));
    same(rt, pool.holder(number), Flag::DetachedBy(a.number()));
    same(rt, take(pool, a, small), Err(OutOfMemory));
    same(rt, fit(pool, b, small), Err(OutOfMemory));
    let attached = pool.attach(b, detached);
    same(rt, pool.holder(number), Flag::HeldBy(b.number()));
    same(rt, found(&attached), (0, 4096, 48));
    pool.deallocate_bucket(b, attached);
    same(rt, pool.holder(number), Flag::Free);
}

#[test]
fn a_detached_bucket_is_nobodys(rt: HostRuntime) {
    let (small, (pool, mut a, mut b)) = (layout(&rt, 48, 4), two(&rt, 128));
    let (rt, pool) = (&rt, &pool);
    attaches(rt, pool, &mut a, &mut b);
    let held = hold(rt, pool, &mut a, small);
    let number = held.number();
    let detached = pool.detach(&mut a, held);
    pool.return_detached(&mut b, detached);
    same(rt, pool.holder(number), Flag::Free);
    let held = hold(rt, pool, &mut a, small);
    drop(pool.detach(&mut a, held));
    same(rt, take(pool, &mut b, small), Err(OutOfMemory));
    none_requested(rt);
}

/// Attaches the bucket of this number, which `from` may have detached, and gives it back if that
/// succeeded. Returns whether it did.
fn attaches_number(
    pool: &SharedPoolAllocator,
    party: &mut PoolParty,
    number: u32,
    from: u32,
) -> bool
    requires party { party.old.allocator ≡ pool.now }
    requires below { number < pool.now.scene.geometry.buckets }
    ensures { party.new.allocator ≡ pool.now }
{
    let won = pool.attach_number(party, number, from);
    if won {
        let bucket = by_number::bucket(pool, party, number, 0);
        pool.deallocate_bucket(party, bucket);
    }
    won
}

/// A bucket that was detached by its number is attached once, by the number of the party that
/// detached it. A bucket with a token is not.
#[test]
fn a_number_is_attached_once(rt: HostRuntime) {
    let (small, (pool, mut a, mut b)) = (layout(&rt, 48, 4), two(&rt, 128));
    let (rt, pool) = (&rt, &pool);
    let sender = a.number();
    let held = hold(rt, pool, &mut a, small);
    let number = pool.detach_number(&mut a, held);
    same(rt, pool.holder(number), Flag::DetachedBy(sender));
    same(rt, take(pool, &mut b, small), Err(OutOfMemory));
    let own = b.number();
    same(rt, attaches_number(pool, &mut b, number, own), false);
    same(rt, attaches_number(pool, &mut b, number, u32::MAX), false);
    same(rt, pool.holder(number), Flag::DetachedBy(sender));
    same(rt, attaches_number(pool, &mut b, number, sender), true);
    same(rt, attaches_number(pool, &mut b, number, sender), false);
    same(rt, pool.holder(number), Flag::Free);
    let held = hold(rt, pool, &mut a, small);
    let number = held.number();
    let detached = pool.detach(&mut a, held);
    same(rt, pool.holder(number), Flag::DetachedBy(sender));
    same(rt, attaches_number(pool, &mut b, number, sender), false);
    let attached = pool.attach(&mut b, detached);
    same(rt, found(&attached), (0, 4096, 48));
    pool.give_all_back(&mut b);
    same(rt, pool.holder(number), Flag::Free);
    none_requested(rt);
}

/// A bucket is taken and detached by one call, and attached by its number. If no bucket is free, none
/// is detached.
#[test]
fn a_bucket_is_taken_to_be_sent(rt: HostRuntime) {
    let (pool, mut a, mut b) = two(&rt, 256);
    let (rt, pool) = (&rt, &pool);
    let sender = a.number();
    let Some(number) = pool.take_detached(&mut a) else {
        panic!(rt; "both buckets are free");
    };
    same(rt, number, 0);
    same(rt, pool.holder(number), Flag::DetachedBy(sender));
    same(rt, pool.take_detached(&mut a), Some(1));
    same(rt, pool.take_detached(&mut a), None);
    same(rt, pool.held_buckets(), 2);
    same(rt, attaches_number(pool, &mut b, number, sender), true);
    same(rt, pool.holder(number), Flag::Free);
    same(rt, pool.take_detached(&mut b), Some(0));
    same(rt, pool.take_detached(&mut b), None);
    none_requested(rt);
}

/// A search begins in the party's part. The next one begins where the last one ended, or at the
/// bucket that came back last, and goes on at bucket 0.
#[test]
fn a_search_goes_on(rt: HostRuntime) {
    let (small, (pool, mut a, mut b)) = (layout(&rt, 48, 4), two(&rt, 1024));
    let (rt, pool) = (&rt, &pool);
    same(rt, fit(pool, &mut a, small), Ok((0, 4096, 48)));
    same(rt, fit(pool, &mut b, small), Ok((4, 4608, 48)));
    let least = hold(rt, pool, &mut b, small);
    same(rt, found(&least), (1, 4224, 48));
    same(rt, fit(pool, &mut a, small), Ok((2, 4352, 48)));
    pool.deallocate_bucket(&mut b, least);
    same(rt, fit(pool, &mut b, small), Ok((1, 4224, 48)));
    same(rt, fit(pool, &mut b, small), Ok((3, 4480, 48)));
    same(rt, fit(pool, &mut a, small), Ok((5, 4736, 48)));
    same(rt, fit(pool, &mut a, small), Ok((6, 4864, 48)));
    same(rt, fit(pool, &mut a, small), Ok((7, 4992, 48)));
    same(rt, fit(pool, &mut b, small), Err(OutOfMemory));
    none_requested(rt);
}

#[test]
fn a_meeting_keeps_where_a_search_begins(rt: HostRuntime) {
    let (small, (pool, mut a, mut b)) = (layout(&rt, 48, 4), two(&rt, 1024));
    let (rt, pool) = (&rt, &pool);
    same(rt, fit(pool, &mut a, small), Ok((0, 4096, 48)));
    same(rt, fit(pool, &mut b, small), Ok((4, 4608, 48)));
    pool.meet(&mut a, &mut b);
    same(rt, fit(pool, &mut b, small), Ok((5, 4736, 48)));
    same(rt, fit(pool, &mut a, small), Ok((1, 4224, 48)));
    none_requested(rt);
}

/// Returns whether a bucket of the pool is detached, if all its parties are here.
fn detached(rt: &impl Abort, pool: &SharedPoolAllocator, all: &mut Vec<PoolParty>) -> bool
    requires { All (λ party. party.allocator ≡ pool.now) all.old.items }
    ensures { All (λ party. party.allocator ≡ pool.now) all.new.items }
{
    if all.len() != pool.number_of_parties() as usize {
        panic!(rt; "all parties are here");
    }
    pool.has_detached(all)
}

/// A bucket is detached from its detaching to its return, and no other bucket is.
#[test]
fn a_detached_bucket_is_found(rt: HostRuntime) {
    let (small, (pool, mut all)) = (layout(&rt, 48, 4), pool_at_last(&rt, 384, 2));
    let (rt, pool) = (&rt, &pool);
    check(rt, !detached(rt, pool, &mut all));
    let mut b = last_of(rt, pool, &mut all);
    let mut a = last_of(rt, pool, &mut all);
    same(rt, take(pool, &mut b, small), Ok((0, 4096, 48)));
    let sent = hold(rt, pool, &mut a, small);
    let token = pool.detach(&mut a, sent);
    add(rt, pool, &mut all, a);
    add(rt, pool, &mut all, b);
    check(rt, detached(rt, pool, &mut all));
    let mut b = last_of(rt, pool, &mut all);
    pool.return_detached(&mut b, token);
    add(rt, pool, &mut all, b);
    check(rt, !detached(rt, pool, &mut all));
    none_requested(rt);
}

/// A bucket is held from its taking to its return, even while it is detached. A refusal changes
/// nothing.
#[test]
fn held_buckets_are_counted(rt: HostRuntime) {
    let (small, (pool, mut a, mut b)) = (layout(&rt, 48, 4), two(&rt, 256));
    let (rt, pool) = (&rt, &pool);
    same(rt, pool.held_buckets(), 0);
    let first = hold(rt, pool, &mut a, small);
    let large = layout(rt, 129, 4);
    same(rt, take(pool, &mut b, large), Err(SizeTooLarge));
    same(rt, pool.held_buckets(), 1);
    let detached = pool.detach(&mut a, first);
    same(rt, pool.held_buckets(), 1);
    let first = pool.attach(&mut b, detached);
    pool.deallocate_bucket(&mut b, first);
    same(rt, pool.held_buckets(), 0);
    let first = hold(rt, pool, &mut a, small);
    same(rt, take(pool, &mut b, small), Ok((1, 4224, 48)));
    same(rt, take(pool, &mut b, small), Err(OutOfMemory));
    same(rt, fit(pool, &mut b, small), Err(OutOfMemory));
    same(rt, pool.held_buckets(), 2);
    pool.deallocate_bucket(&mut a, first);
    same(rt, pool.held_buckets(), 1);
    none_requested(rt);
}

fn shrink(
    rt: &impl Abort,
    pool: &SharedPoolAllocator,
    bucket: &mut Bucket<'_>,
    old: Layout,
    new: Layout,
) -> Result<Chunk, AllocationShrinkError>
    requires { bucket.old.allocator ≡ pool.now }
    ensures { bucket.new.allocator ≡ pool.now }
{
    if bucket.chunk().place() % old.align() != 0 || old.size() > pool.bucket_size() {
        panic!(rt; "no bucket is aligned so, or as large");
    }
    pool.shrink(bucket, old, new)
}

/// A chunk is shrunk. Then a token of its bucket is made from the bucket's number, and the bucket
/// is given back.
#[test]
fn a_bucket_by_its_number(rt: HostRuntime) {
    let (small, (pool, mut party, _)) = (layout(&rt, 48, 4), two(&rt, 128));
    let (rt, pool) = (&rt, &pool);
    let mut held = hold(rt, pool, &mut party, small);
    let number = held.number();
    let (shorter, wanted) = (layout(rt, 16, 4), chunk(rt, 4096, 16));
    let got = shrink(rt, pool, &mut held, shorter, small);
    same(rt, got, Err(AllocationShrinkError::ShrinkWouldGrow));
    let got = shrink(rt, pool, &mut held, small, shorter);
    same(rt, got, Ok(wanted));
    same(rt, found(&held), (0, 4096, 16));
    let again = by_number::bucket(pool, &party, number, 0);
    same(rt, found(&again), (0, 4096, 0));
    pool.deallocate_bucket(&mut party, again);
    same(rt, take(pool, &mut party, small), Ok((0, 4096, 48)));
    none_requested(rt);
}
