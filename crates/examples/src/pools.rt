//! The pools with one owner.

ghost use Rattle.bb_memory.specs.Pool.{HoldsPlace};
ghost use Rattle.std.specs.Prelude.{IfOk, ◌≢◌};

use bb_memory::layout::{Chunk, Layout};
use bb_memory::pool_allocator::{
    AllocationError, BaseAllocator, FixedSizePoolAllocator, PoolAllocator,
};
use std::alloc::Global;

/// A pool over a region that is known only at run time.
pub fn tested(bucket: Layout, start: usize, size: usize) -> Option<FixedSizePoolAllocator<16>> {
    if !FixedSizePoolAllocator::<16>::can_make(bucket, start, size) {
        return None;
    }
    Some(FixedSizePoolAllocator::new(bucket, start, size))
}

/// A bucket that is taken whole has the bucket's size.
pub fn taken_whole(pool: &mut FixedSizePoolAllocator<16>) -> Result<(), AllocationError> {
    let chunk = pool.take()?;
    prove!(chunk.len() == pool.bucket_size());
    pool.deallocate(chunk.place(), Layout::empty());
    Ok(())
}

/// A pool knows beforehand whether it will give a bucket.
pub fn room_told(pool: &mut FixedSizePoolAllocator<16>) {
    let before = pool.has_room();
    let answer = pool.allocate(Layout::empty());
    prove!(answer.is_ok() == before);
    if let Ok(chunk) = answer {
        pool.deallocate(chunk.place(), Layout::empty());
    }
}

/// An arbitrary place is given back if it is a held bucket's, and only once.
pub fn back_if_held(pool: &mut FixedSizePoolAllocator<16>) -> Result<(), AllocationError> {
    let chunk = pool.allocate(Layout::empty())?;
    let given_back = pool.deallocate_if_held(chunk.place());
    prove!(given_back);
    let again = pool.deallocate_if_held(chunk.place());
    prove!(!again);
    Ok(())
}

/// A return doesn't change the greatest number of held buckets.
pub fn greatest_kept(pool: &mut FixedSizePoolAllocator<16>) -> Result<(), AllocationError> {
    let chunk = pool.allocate(Layout::empty())?;
    let greatest = pool.greatest_held();
    pool.deallocate(chunk.place(), Layout::empty());
    prove!(pool.greatest_held() == greatest);
    Ok(())
}

/// After an accepted request one more bucket is held, and after a return one fewer.
pub fn held_counted(
    pool: &mut FixedSizePoolAllocator<16>,
    layout: Layout,
) -> Result<(), AllocationError> {
    let before = pool.held_buckets();
    let chunk = pool.allocate(layout)?;
    prove!(pool.held_buckets() - before == 1);
    pool.deallocate(chunk.place(), layout);
    prove!(pool.held_buckets() == before);
    Ok(())
}

/// Giving a bucket back by its place leaves one held bucket fewer.
pub fn counted_by_bucket(
    pool: &mut PoolAllocator<Global>,
    layout: Layout,
) -> Result<(), AllocationError> {
    let before = pool.held_buckets();
    let chunk = pool.allocate(layout)?;
    pool.deallocate_bucket(chunk.place());
    prove!(pool.held_buckets() == before);
    Ok(())
}

/// After a return of one bucket, every other place at which no bucket was held is still free.
pub fn free_stays_free(
    pool: &mut PoolAllocator<Global>,
    layout: Layout,
    place: usize,
) -> Result<(), AllocationError> {
    let chunk = pool.allocate(layout)?;
    let before = pool.holds(place);
    pool.deallocate_bucket(chunk.place());
    let after = pool.holds(place);
    prove!(before || !after);
    Ok(())
}

/// Takes one more bucket. The place `out` is still held then, and the new chunk has another place.
fn one_more(
    pool: &mut FixedSizePoolAllocator<16>,
    layout: Layout,
    out: usize,
) -> Result<Chunk, AllocationError>
    requires { HoldsPlace pool.old.pool out }
    ensures out { HoldsPlace pool.new.pool out }
    ensures given { IfOk result (λ chunk. HoldsPlace pool.new.pool chunk.place) }
    ensures differ { IfOk result (λ chunk. chunk.place ≢ out) }
{
    pool.allocate(layout)
}

/// Gives two places back, one after the other. The first one stays free when the other one goes
/// back.
fn give_two(pool: &mut FixedSizePoolAllocator<16>, one: usize, other: usize)
    requires one { HoldsPlace pool.old.pool one }
    requires other { HoldsPlace pool.old.pool other }
    requires differ { one ≢ other }
    ensures one { ¬ HoldsPlace pool.new.pool one }
    ensures other { ¬ HoldsPlace pool.new.pool other }
{
    pool.deallocate(one, Layout::empty());
    pool.deallocate(other, Layout::empty());
}

/// Two chunks are in use at once, and both go back.
pub fn two_out(
    pool: &mut FixedSizePoolAllocator<16>,
    layout: Layout,
) -> Result<(), AllocationError> {
    let first = pool.allocate(layout)?;
    match one_more(pool, layout, first.place()) {
        Ok(second) => {
            give_two(pool, first.place(), second.place());
            Ok(())
        }
        Err(error) => {
            pool.deallocate(first.place(), layout);
            Err(error)
        }
    }
}
