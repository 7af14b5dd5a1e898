//! A pool in a handle.
ghost use Rattle.bb_memory_c_calls.specs.Calls.{AnswersFree, AnswersInfo, AnswersNumber, AnswersPlace, AnswersPoolMake, AnswersRequest, AnswersReturn, AnswersReturns, AnswersTake, AnswersTakings, AnswersWhether};
ghost use Rattle.bb_memory_c_calls.specs.OneOwner.{PoolAllocates, ShowsPool, cutting_pool};
ghost use Rattle.bb_memory_owned.specs.Pool.{FreesBucket, HoldsPlace};
ghost use Rattle.bb_memory_traits.specs.Chunk.{region_at};

use crate::handle::PoolHandle;
use bb_memory_c_calls::answer::{Answer, Figure, PoolInfo};
use bb_memory_c_calls::layout::cut_into;
use bb_memory_c_calls::one_owner::Pool;
use bb_memory_c_calls::{call, code};
use bb_memory_owned::pool_allocator::PoolAllocator;
use std::alloc::Global;

/// Makes a pool over the region of `size` bytes at `start`, in a handle that has to be empty. The region is cut into buckets of
/// `bucket_size` bytes at multiples of `bucket_align`, and has to have room for one.
#[unsafe(no_mangle)]
pub extern "C" fn bb_pool_init(
    alloc: Global,
    handle: &mut PoolHandle,
    bucket_size: usize,
    bucket_align: usize,
    start: usize,
    size: usize,
) -> u32
    ensures { AnswersPoolMake handle.old.value handle.new.value bucket_size bucket_align result
        (cutting_pool (region_at start size)) }
{
    if call::is_made(handle) {
        return code::ALREADY_INITIALIZED;
    }
    let bucket = match cut_into(bucket_size, bucket_align, start, size, 1) {
        Ok(bucket) => bucket,
        Err(code) => return code,
    };
    let Ok(pool) = PoolAllocator::new_uninit(bucket, start, size).init(alloc) else {
        return code::MALLOC_REFUSED;
    };
    call::keep(handle, alloc, Pool { pool })
}

/// Frees the pool and empties its handle. Returns 0, or `BB_UNINITIALIZED` if the handle was empty already.
#[unsafe(no_mangle)]
pub extern "C" fn bb_pool_destroy(alloc: Global, handle: &mut PoolHandle) -> u32
    ensures { AnswersFree handle.old.value handle.new.value result }
{
    call::free(handle, alloc)
}

/// Allocates a chunk of `size` bytes at a multiple of `align`, in a bucket that isn't held.
#[unsafe(no_mangle)]
pub extern "C" fn bb_pool_allocate(handle: &mut PoolHandle, size: usize, align: usize) -> Answer
    ensures { AnswersRequest handle.old.value handle.new.value size align result PoolAllocates }
{
    call::request_bucket(handle, size, align)
}

/// Takes a whole bucket that isn't held, as a request of the bucket's own size and alignment does.
#[unsafe(no_mangle)]
pub extern "C" fn bb_pool_take(handle: &mut PoolHandle) -> Answer
    ensures { AnswersTake handle.old.value handle.new.value result
        (λ pool. PoolAllocates pool pool.pool.geometry.bucket) }
{
    call::take(handle)
}

/// Takes whole buckets, as that many calls of `bb_pool_take` do, until each slot has a bucket's place or a call is refused.
/// Returns how many buckets it took. Their places are in the first slots.
#[unsafe(no_mangle)]
pub extern "C" fn bb_pool_take_many(handle: &mut PoolHandle, slots: &mut [usize]) -> Figure
    ensures { AnswersTakings handle.old.value handle.new.value slots.old slots.new result
        (λ pool. PoolAllocates pool pool.pool.geometry.bucket) }
{
    call::take_many(handle, slots)
}

/// Takes back the bucket at this place. If no held bucket begins there, it returns `BB_NOT_HELD`, and nothing changes.
#[unsafe(no_mangle)]
pub extern "C" fn bb_pool_deallocate(handle: &mut PoolHandle, place: usize) -> u32
    ensures { AnswersReturn handle.old.value handle.new.value result
        (λ pool. HoldsPlace pool.pool place) (λ pool after. FreesBucket pool place after) }
{
    call::give_back(handle, place)
}

/// Takes back the buckets at these places, as that many calls of `bb_pool_deallocate` do, up to the first one that is refused.
/// Returns how many it took back.
#[unsafe(no_mangle)]
pub extern "C" fn bb_pool_deallocate_many(handle: &mut PoolHandle, places: &[usize]) -> Figure
    ensures { AnswersReturns handle.old.value handle.new.value places.now result
        (λ pool place. HoldsPlace pool.pool place) FreesBucket }
{
    call::give_back_many(handle, places)
}

/// Returns 1 if a held bucket begins at this place, otherwise 0.
#[unsafe(no_mangle)]
pub extern "C" fn bb_pool_holds(handle: &mut PoolHandle, place: usize) -> Figure
    ensures { AnswersWhether handle.old.value handle.new.value result (λ pool. HoldsPlace pool.pool place) }
{
    call::holds(handle, place)
}

/// Fills the struct with the pool's figures.
#[unsafe(no_mangle)]
pub extern "C" fn bb_pool_info(handle: &mut PoolHandle, to: &mut PoolInfo) -> u32
    ensures { AnswersInfo handle.old.value handle.new.value to.old to.new result ShowsPool }
{
    call::info(handle, to)
}

/// Returns where the bucket of this number begins, held or not, or `BB_NOT_A_BUCKET` if there is no such bucket.
#[unsafe(no_mangle)]
pub extern "C" fn bb_pool_place_at(handle: &mut PoolHandle, number: u32) -> Figure
    ensures { AnswersPlace handle.old.value handle.new.value result number (λ pool. pool.pool.geometry) }
{
    call::place(handle, number)
}

/// Returns the number of the bucket at this place, held or not, or `BB_NOT_A_BUCKET` if no bucket begins there.
#[unsafe(no_mangle)]
pub extern "C" fn bb_pool_number_at(handle: &mut PoolHandle, place: usize) -> Figure
    ensures { AnswersNumber handle.old.value handle.new.value result place (λ pool. pool.pool.geometry) }
{
    call::number(handle, place)
}
