//! Caching parties, with ample memory and with any one failing request: only `new` and
//! `cache_at_most` allocate memory.
ghost use Rattle.std.specs.Prelude.{◌≡◌};

use crate::tests::buckets::two;
use crate::tests::checks::{check, layout, refused, same};
use bb_memory_shared_pools::shared_pool::{CachingParty, PoolParty, SharedPoolAllocator};
use bb_memory_traits::allocator::AllocationError;
use bb_memory_traits::layout::Layout;
use std::process::Abort;

/// Takes two buckets and gives them back. The other party finds the cached one held until it is
/// flushed.
fn fills(
    rt: &impl Abort,
    pool: &SharedPoolAllocator,
    caching: &mut CachingParty,
    other: &mut PoolParty,
    small: Layout,
) -> Result<(), AllocationError>
    requires caching { caching.old.party.allocator ≡ pool.now }
    requires other { other.old.allocator ≡ pool.now }
{
    let first = caching.allocate(pool, small)?;
    let second = caching.take(pool)?;
    let (cached, beyond) = (first.number(), second.number());
    caching.deallocate(pool, first);
    check(rt, caching.number_of_cached() == 1);
    check(rt, pool.take(other).is_err());
    caching.deallocate(pool, second);
    check(rt, pool.allocate(other, small)?.number() == beyond);
    let again = caching.allocate(pool, small)?;
    check(rt, again.number() == cached);
    caching.deallocate(pool, again);
    check(rt, pool.allocate(other, small).is_err());
    caching.flush(pool);
    check(rt, caching.number_of_cached() == 0);
    check(rt, pool.allocate_next_fit(other, small)?.number() == cached);
    Ok(())
}

#[test]
fn one_of_two_buckets_is_cached(rt: HostRuntime) {
    let (small, (pool, mut other, party)) = (layout(&rt, 48, 4), two(&rt, 256));
    match CachingParty::new(rt.alloc(), party, 1) {
        Ok(mut made) => check(&rt, fills(&rt, &pool, &mut made, &mut other, small).is_ok()),
        Err(party) => {
            refused(&rt);
            check(&rt, party.number() == 1);
        }
    }
}

/// Takes two buckets and gives them back.
fn keeps_two(
    pool: &SharedPoolAllocator,
    caching: &mut CachingParty,
    small: Layout,
) -> Result<(), AllocationError>
    requires { caching.old.party.allocator ≡ pool.now }
    ensures { caching.new.party.allocator ≡ pool.now }
{
    let first = caching.allocate(pool, small)?;
    let second = caching.allocate(pool, small)?;
    caching.deallocate(pool, first);
    caching.deallocate(pool, second);
    Ok(())
}

/// Makes a party that caches one bucket cache at most two from then on, which gives back the cached
/// one. A failure changes nothing.
fn caches_two(
    rt: &(impl Abort + AllocGlobal),
    pool: &SharedPoolAllocator,
    caching: &mut CachingParty,
    small: Layout,
) -> Result<(), AllocationError>
    requires { caching.old.party.allocator ≡ pool.now }
    ensures { caching.new.party.allocator ≡ pool.now }
{
    let taken = caching.allocate(pool, small)?;
    caching.deallocate(pool, taken);
    if caching.cache_at_most(rt.alloc(), pool, 2).is_err() {
        refused(rt);
        check(rt, caching.number_of_cached() == 1);
        return Ok(());
    }
    check(rt, caching.number_of_cached() == 0);
    keeps_two(pool, caching, small)?;
    check(rt, caching.number_of_cached() == 2);
    Ok(())
}

#[test]
fn two_of_two_buckets_are_cached(rt: HostRuntime) {
    let (small, (pool, other, party)) = (layout(&rt, 48, 4), two(&rt, 256));
    let (Ok(mut one), Ok(mut other)) = (
        CachingParty::new(rt.alloc(), party, 1),
        CachingParty::new(rt.alloc(), other, 0),
    ) else {
        return refused(&rt);
    };
    check(&rt, caches_two(&rt, &pool, &mut one, small).is_ok());
    one.meet(&pool, &mut other);
    let numbers = (one.party().number(), other.party().number());
    same(&rt, numbers, (1, 0));
}
