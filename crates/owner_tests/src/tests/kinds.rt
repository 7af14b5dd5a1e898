//! The allocators with one owner, and how a test makes each. Calls of an allocator are in functions
//! over all kinds: a proof at a pool's own type takes seconds for each of them.
ghost use Rattle.bb_memory_owned.specs.Pool.{StandsFor};
ghost use Rattle.bb_memory_traits.specs.Chunk.{region_at};
ghost use Rattle.std.specs.Prelude.{IfSome, [], ◌≡◌};

use super::checks::refused;
use super::owner::Owner;
use bb_memory_bump::bump_allocator::BumpAllocator;
use bb_memory_owned::one_chunk_allocator::OneChunkAllocator;
use bb_memory_owned::pool_allocator::{FixedSizePoolAllocator, PoolAllocator};
use bb_memory_traits::allocator::BaseAllocator;
use bb_memory_traits::layout::Layout;
use std::alloc::Global;
use std::process::Abort;
use test_marks::refuse_memory;

/// The region's start and size, and a bucket's size and alignment.
pub(super) type Of = [usize; 4];

/// An allocator with one owner.
pub(super) trait Kind: BaseAllocator + Drop {
    /// Makes a fresh allocator with its region, or returns `None` if the numbers describe no
    /// allocator, or memory ran out.
    fn owner(alloc: Global, of: Of) -> Option<Owner<Self>>;
}

impl Kind for BumpAllocator {
    fn owner(alloc: Global, of: Of) -> Option<Owner<Self>> {
        let [start, size, ..] = of;
        if !BumpAllocator::can_make(start, size) {
            return None;
        }
        Owner::new(alloc, BumpAllocator::new(start, size), start, size)
    }
}

impl Kind for OneChunkAllocator {
    fn owner(alloc: Global, of: Of) -> Option<Owner<Self>> {
        let [start, size, ..] = of;
        if !OneChunkAllocator::can_make(start, size) {
            return None;
        }
        Owner::new(alloc, OneChunkAllocator::new(start, size), start, size)
    }
}

impl Kind for PoolAllocator<Global> {
    fn owner(alloc: Global, of: Of) -> Option<Owner<Self>> {
        let [start, size, bucket_size, align] = of;
        let bucket = Layout::from_size_align(bucket_size, align).ok()?;
        let pool = pool_over(alloc, bucket, start, size)?;
        Owner::new(alloc, pool, start, size)
    }
}

impl<const N: usize> Kind for FixedSizePoolAllocator<N> {
    fn owner(alloc: Global, of: Of) -> Option<Owner<Self>> {
        let [start, size, bucket_size, align] = of;
        let bucket = Layout::from_size_align(bucket_size, align).ok()?;
        let pool = fixed_over::<N>(bucket, start, size)?;
        Owner::new(alloc, pool, start, size)
    }
}

/// Makes a pool of `size` bytes at `start`.
pub(super) fn pool_over(
    alloc: Global,
    bucket: Layout,
    start: usize,
    size: usize,
) -> Option<PoolAllocator<Global>>
    ensures empty { IfSome result (λ pool. StandsFor pool.pool []) }
    ensures region { IfSome result (λ pool. pool.pool.geometry.region ≡ region_at start size) }
{
    if !PoolAllocator::can_make(bucket, start, size) {
        return None;
    }
    PoolAllocator::new_uninit(bucket, start, size)
        .init(alloc)
        .ok()
}

/// Makes a fixed pool of `size` bytes at `start`, of at most `N` buckets.
pub(super) fn fixed_over<const N: usize>(
    bucket: Layout,
    start: usize,
    size: usize,
) -> Option<FixedSizePoolAllocator<N>>
    ensures empty { IfSome result (λ pool. StandsFor pool.pool []) }
    ensures region { IfSome result (λ pool. pool.pool.geometry.region ≡ region_at start size) }
{
    if !FixedSizePoolAllocator::<N>::can_make(bucket, start, size) {
        return None;
    }
    Some(FixedSizePoolAllocator::new(bucket, start, size))
}

/// Makes a fresh allocator with its region, a second time if memory ran out.
pub(super) fn made<A: Kind>(rt: &(impl Abort + AllocGlobal), of: Of) -> Owner<A> {
    if let Some(owner) = A::owner(rt.alloc(), of) {
        return owner;
    }
    refused(rt);
    A::owner(rt.alloc(), of).expect(rt, "there is memory for an owner")
}

/// Makes a fresh allocator with its region. From here on, requests for memory may fail.
pub(super) fn fresh<A: Kind>(rt: &(impl Abort + AllocGlobal), of: Of) -> Owner<A> {
    let owner = made::<A>(rt, of);
    refuse_memory(rt.alloc());
    owner
}
