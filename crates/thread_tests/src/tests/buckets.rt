//! Shared pools of buckets of 128 bytes at 4096, and calls that promise only what a further call
//! needs.
ghost use Rattle.bb_memory_pool_machine.specs.PoolLogs.{IsHeldAfter};
ghost use Rattle.std.specs.Prelude.{All, IfOk, IfSome, ℕ, ◌<◌, ◌≡◌};

use super::checks::refused;
use bb_memory_owned::pool_allocator::PoolAllocator;
use bb_memory_shared_pools::shared_pool::{
    AllocationError, Bucket, PoolParty, SharedPoolAllocator,
};
use bb_memory_traits::layout::Layout;
use std::alloc::Global;
use std::process::Abort;
use test_marks::refuse_memory;

/// A bucket's number, and its chunk's place and length.
pub(super) type Found = (u32, usize, usize);

/// Makes a pool over `size` bytes. Fails if these numbers describe no pool, or if memory ran out.
pub(super) fn pool_of(
    alloc: Global,
    size: usize,
    parties: u32,
) -> Option<(SharedPoolAllocator, Vec<PoolParty>)>
    ensures count { IfSome result (λ made. made.0.scene.parties ≡ parties) }
    ensures parties { IfSome result (λ made. All (λ party. party.allocator ≡ made.0) made.1.items) }
{
    let bucket = Layout::from_size_align(128, 8).ok()?;
    if parties == 0 || !PoolAllocator::can_make(bucket, 4096, size) {
        return None;
    }
    match SharedPoolAllocator::new(alloc, bucket, 4096, size, parties) {
        Ok((pool, parties)) => Some((pool, parties)),
        Err(_) => None,
    }
}

/// Makes a pool over `size` bytes, a second time if memory ran out. From here on, requests for
/// memory may fail.
pub(super) fn pool_at_last(
    rt: &(impl Abort + AllocGlobal),
    size: usize,
    parties: u32,
) -> (SharedPoolAllocator, Vec<PoolParty>)
    ensures count { result.0.scene.parties ≡ parties }
    ensures parties { All (λ party. party.allocator ≡ result.0) result.1.items }
{
    if let Some(made) = pool_of(rt.alloc(), size, parties) {
        refuse_memory(rt.alloc());
        return made;
    }
    refused(rt);
    pool_of(rt.alloc(), size, parties).expect(rt, "there is memory for a pool")
}

/// Takes the last party out of `parties`.
pub(super) fn last_of(
    rt: &impl Abort,
    pool: &SharedPoolAllocator,
    parties: &mut Vec<PoolParty>,
) -> PoolParty
    requires { All (λ party. party.allocator ≡ pool.now) parties.old.items }
    ensures others { All (λ party. party.allocator ≡ pool.now) parties.new.items }
    ensures own { result.allocator ≡ pool.now }
{
    let _ = pool;
    parties.pop().expect(rt, "there is a party")
}

/// Adds a party to `parties`.
pub(super) fn add(
    rt: &impl Abort,
    pool: &SharedPoolAllocator,
    parties: &mut Vec<PoolParty>,
    party: PoolParty,
)
    requires others { All (λ party. party.allocator ≡ pool.now) parties.old.items }
    requires own { party.allocator ≡ pool.now }
    ensures { All (λ party. party.allocator ≡ pool.now) parties.new.items }
{
    let _ = pool;
    parties
        .push(party)
        .expect(rt, "there is memory for a party");
}

/// Makes a pool over `size` bytes, with its two parties.
pub(super) fn two(
    rt: &(impl Abort + AllocGlobal),
    size: usize,
) -> (SharedPoolAllocator, PoolParty, PoolParty)
    ensures others { 1 < result.0.scene.parties }
    ensures first { result.1.allocator ≡ result.0 }
    ensures second { result.2.allocator ≡ result.0 }
{
    let (pool, mut parties) = pool_at_last(rt, size, 2);
    let second = last_of(rt, &pool, &mut parties);
    let first = last_of(rt, &pool, &mut parties);
    (pool, first, second)
}

/// Requests a bucket by a next-fit search, or by a pass.
pub(super) fn request<'a>(
    pool: &'a SharedPoolAllocator,
    party: &mut PoolParty,
    layout: Layout,
    next_fit: bool,
) -> Result<Bucket<'a>, AllocationError>
    requires { party.old.allocator ≡ pool.now }
    ensures party { party.new.allocator ≡ pool.now }
    ensures kept { (other : ℕ) → IsHeldAfter party.old.log other → IsHeldAfter party.new.log other }
    ensures bucket { IfOk result (λ bucket. bucket.allocator ≡ pool.now) }
    ensures held { IfOk result (λ bucket. IsHeldAfter party.new.log bucket.number) }
{
    if next_fit {
        pool.allocate_next_fit(party, layout)
    } else {
        pool.allocate(party, layout)
    }
}

/// Takes a bucket by a pass.
pub(super) fn hold<'a>(
    rt: &impl Abort,
    pool: &'a SharedPoolAllocator,
    party: &mut PoolParty,
    layout: Layout,
) -> Bucket<'a>
    requires party { party.old.allocator ≡ pool.now }
    ensures party { party.new.allocator ≡ pool.now }
    ensures bucket { result.allocator ≡ pool.now }
    ensures held { IsHeldAfter party.new.log result.number }
{
    let bucket = request(pool, party, layout, false).ok();
    bucket.expect(rt, "a bucket is free")
}

pub(super) fn found(bucket: &Bucket<'_>) -> Found {
    let chunk = bucket.chunk();
    (bucket.number(), chunk.place(), chunk.len())
}

/// Requests a bucket by a pass, and drops its token.
pub(super) fn take(
    pool: &SharedPoolAllocator,
    party: &mut PoolParty,
    layout: Layout,
) -> Result<Found, AllocationError>
    requires { party.old.allocator ≡ pool.now }
    ensures party { party.new.allocator ≡ pool.now }
    ensures kept { (other : ℕ) → IsHeldAfter party.old.log other → IsHeldAfter party.new.log other }
{
    Ok(found(&request(pool, party, layout, false)?))
}

/// Requests a bucket by a next-fit search, and drops its token.
pub(super) fn fit(
    pool: &SharedPoolAllocator,
    party: &mut PoolParty,
    layout: Layout,
) -> Result<Found, AllocationError>
    requires { party.old.allocator ≡ pool.now }
    ensures { party.new.allocator ≡ pool.now }
{
    Ok(found(&request(pool, party, layout, true)?))
}
