//! Two parties of a pool of two buckets of 128 bytes, which cache one bucket each.
ghost use Rattle.bb_memory_shared_pools.specs.SharedPoolCaching.{IsOut};
ghost use Rattle.std.specs.Prelude.{IfSome, ◌<◌, ◌≡◌};

use crate::tests::buckets::{last_of, pool_of};
use crate::tests::checks::{check, none_requested, refused, same};
use bb_memory_shared_pools::shared_pool::{
    Bucket, CachingParty, PoolParty, SharedPoolAllocator, by_number,
};
use std::alloc::Global;
use std::process::Abort;
use test_marks::refuse_memory;

/// Makes a party cache one bucket. Fails if memory ran out.
fn caching_one(alloc: Global, party: PoolParty) -> Option<CachingParty>
    ensures { IfSome result (λ made. made.party ≡ party) }
{
    CachingParty::new(alloc, party, 1).ok()
}

/// Makes the pool and its parties. Fails if memory ran out.
fn caching(
    rt: &impl Abort,
    alloc: Global,
) -> Option<(SharedPoolAllocator, CachingParty, CachingParty)>
    ensures others { IfSome result (λ made. 1 < made.0.scene.parties) }
    ensures first { IfSome result (λ made. made.1.party.allocator ≡ made.0) }
    ensures second { IfSome result (λ made. made.2.party.allocator ≡ made.0) }
{
    let (pool, mut parties) = pool_of(alloc, 256, 2)?;
    let second = last_of(rt, &pool, &mut parties);
    let first = last_of(rt, &pool, &mut parties);
    let first = caching_one(alloc, first)?;
    let second = caching_one(alloc, second)?;
    Some((pool, first, second))
}

/// Takes a whole bucket.
fn hold<'p>(rt: &impl Abort, pool: &'p SharedPoolAllocator, party: &mut CachingParty) -> Bucket<'p>
    requires { party.old.party.allocator ≡ pool.now }
    ensures party { party.new.party.allocator ≡ pool.now }
    ensures bucket { result.allocator ≡ pool.now }
    ensures out { IsOut party.new result.number }
{
    let bucket = party.take(pool).ok();
    bucket.expect(rt, "a bucket is free or cached")
}

/// Takes bucket 0 and gives it back, which caches it. Then the other party's request is refused,
/// and both meet.
fn caches(rt: &impl Abort, pool: &SharedPoolAllocator, a: &mut CachingParty, b: &mut CachingParty)
    requires first { a.old.party.allocator ≡ pool.now }
    requires second { b.old.party.allocator ≡ pool.now }
    ensures first { a.new.party.allocator ≡ pool.now }
    ensures second { b.new.party.allocator ≡ pool.now }
{
    let first = hold(rt, pool, a);
    let number = first.number();
    a.deallocate(pool, first);
    same(
        rt,
        (number, a.number_of_cached(), a.cached().len()),
        (0, 1, 1),
    );
    same(
        rt,
        (a.is_held(pool, number), b.is_held(pool, number)),
        (true, false),
    );
    same(rt, hold(rt, pool, b).number(), 1);
    check(rt, b.take(pool).is_err());
    a.meet(pool, b);
    same(rt, (a.party().number(), b.party().number()), (0, 1));
}

/// Takes the cached bucket, and passes it to the other party by its token and by its number.
fn passes_on(
    rt: &impl Abort,
    pool: &SharedPoolAllocator,
    a: &mut CachingParty,
    b: &mut CachingParty,
)
    requires others { 1 < pool.now.scene.parties }
    requires first { a.old.party.allocator ≡ pool.now }
    requires second { b.old.party.allocator ≡ pool.now }
    ensures first { a.new.party.allocator ≡ pool.now }
    ensures second { b.new.party.allocator ≡ pool.now }
{
    let first = hold(rt, pool, a);
    let number = first.number();
    same(rt, (number, a.number_of_cached()), (0, 0));
    let detached = a.detach(pool, first);
    let attached = b.attach(pool, detached);
    same(rt, b.detach_number(pool, attached), 0);
    let sender = b.party().number();
    check(rt, !a.attach_number(pool, number, 0));
    if !a.attach_number(pool, number, sender) {
        panic!(rt; "the bucket is detached by its number");
    }
    let again = by_number::bucket(pool, a.party(), number, 0);
    let detached = a.detach(pool, again);
    b.return_detached(pool, detached);
    b.give_all_back(pool);
    same(rt, pool.held_buckets(), 0);
}

/// Caches one bucket at each party. One party flushes its own, and the other one ends with its own.
fn ends(rt: &impl Abort, pool: &SharedPoolAllocator, mut a: CachingParty, mut b: CachingParty)
    requires first { a.party.allocator ≡ pool.now }
    requires second { b.party.allocator ≡ pool.now }
{
    let (first, second) = (hold(rt, pool, &mut a), hold(rt, pool, &mut b));
    a.deallocate(pool, first);
    b.deallocate(pool, second);
    same(rt, (a.number_of_cached(), b.number_of_cached()), (1, 1));
    same(rt, pool.held_buckets(), 2);
    a.flush(pool);
    same(rt, (a.number_of_cached(), pool.held_buckets()), (0, 1));
    same(
        rt,
        (a.into_inner().number(), b.into_party(pool).number()),
        (0, 1),
    );
    same(rt, pool.held_buckets(), 0);
}

#[test]
fn parties_that_cache(rt: HostRuntime) {
    let Some((pool, mut a, mut b)) = caching(&rt, rt.alloc()) else {
        return refused(&rt);
    };
    refuse_memory(rt.alloc());
    caches(&rt, &pool, &mut a, &mut b);
    passes_on(&rt, &pool, &mut a, &mut b);
    ends(&rt, &pool, a, b);
    none_requested(&rt);
}
