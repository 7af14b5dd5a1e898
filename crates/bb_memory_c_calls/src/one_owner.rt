//! The allocators with one owner, as kinds.
ghost use Rattle.bb_memory_c_calls.specs.OneOwner.{BumpAllocates, OneChunkAllocates, PoolAllocates, ShowsBump, ShowsOneChunk, ShowsPool};
ghost use Rattle.bb_memory_owned.specs.Pool.{CountedPool, FreesBucket, HoldsPlace};
ghost use Rattle.bb_memory_traits.specs.declared.allocator.AllocationError.TheVariants.{OutOfMemory};
ghost use Rattle.std.specs.Prelude.{Err, None, Some, ◌≡◌};

use crate::answer::{BumpInfo, OneChunkInfo, PoolInfo};
use crate::kind::{Bucketed, Gives, Keeps};
use bb_memory_bump::bump_allocator::{AllocationError, BaseAllocator, BumpAllocator};
use bb_memory_owned::one_chunk_allocator::OneChunkAllocator;
use bb_memory_owned::pool_allocator::PoolAllocator;
use bb_memory_traits::layout::{Chunk, Layout};
use std::alloc::Global;
use std::marker::Model;

impl Gives<BumpInfo> for BumpAllocator {
    ghost may_give = { BumpAllocates };

    ghost may_show = { ShowsBump };

    fn give(&mut self, layout: Layout) -> Result<Chunk, AllocationError> {
        self.allocate(layout)
    }

    fn show(&mut self) -> BumpInfo {
        BumpInfo {
            start_address: self.start_address(),
            used_space: self.used_space(),
            free_space: self.free_space(),
            total_space: self.total_space(),
        }
    }
}

impl Gives<OneChunkInfo> for OneChunkAllocator {
    ghost may_give = { OneChunkAllocates };

    ghost may_show = { ShowsOneChunk };

    fn give(&mut self, layout: Layout) -> Result<Chunk, AllocationError> {
        self.allocate(layout)
    }

    fn show(&mut self) -> OneChunkInfo {
        OneChunkInfo {
            start_address: self.start_address(),
            size: self.size(),
            has_chunk_available: self.has_chunk_available(),
        }
    }
}

impl Keeps for OneChunkAllocator {
    ghost holds = { λ one place. one.kept ≡ Some place };

    ghost may_free = { λ one place. one.kept ≡ Some place };

    ghost frees = { λ one place after. after ≡ record one { kept = None } };

    fn is_held(&mut self, place: usize) -> bool {
        self.holds(place)
    }

    fn give_back(&mut self, place: usize) -> bool {
        if !self.is_held(place) {
            return false;
        }
        self.deallocate(place, Layout::empty());
        true
    }
}

/// A pool in a handle. Its type has no parameters, since the parameters of `PoolAllocator` would be proved again at each call
/// of a handle.
#[derive(Drop)]
pub struct Pool {
    pub pool: PoolAllocator<Global>,
}

impl Model for Pool {
    ghost Value = { CountedPool };

    ghost view = { λ s. s.pool };
}

impl Gives<PoolInfo> for Pool {
    ghost may_give = { PoolAllocates };

    ghost may_show = { ShowsPool };

    fn give(&mut self, layout: Layout) -> Result<Chunk, AllocationError> {
        self.pool.allocate(layout)
    }

    fn show(&mut self) -> PoolInfo {
        let pool = &self.pool;
        PoolInfo {
            start_address: pool.start_address(),
            size: pool.size(),
            bucket_size: pool.bucket_size(),
            max_alignment: pool.max_alignment(),
            number_of_buckets: pool.number_of_buckets() as usize,
            held_buckets: pool.held_buckets() as usize,
            greatest_held: pool.greatest_held() as usize,
        }
    }
}

impl Keeps for Pool {
    ghost holds = { λ pool place. HoldsPlace pool.pool place };

    ghost may_free = { λ pool place. HoldsPlace pool.pool place };

    ghost frees = { FreesBucket };

    fn is_held(&mut self, place: usize) -> bool {
        self.pool.holds(place)
    }

    fn give_back(&mut self, place: usize) -> bool {
        self.pool.deallocate_if_held(place)
    }
}

impl Bucketed for Pool {
    ghost geometry = { λ pool. pool.pool.geometry };

    ghost may_take = { λ pool. PoolAllocates pool pool.pool.geometry.bucket };

    ghost misses_first = { λ pool. PoolAllocates pool pool.pool.geometry.bucket (Err OutOfMemory) };

    #[inline(always)]
    fn take_first(&mut self) -> Option<Chunk> {
        self.pool.take().ok()
    }

    fn take_later(&mut self) -> Result<Chunk, AllocationError> {
        Err(AllocationError::OutOfMemory)
    }

    fn limit(&self) -> Layout {
        self.pool.bucket_layout()
    }

    fn place_of(&self, number: u32) -> Option<usize> {
        self.pool.place_at(number)
    }

    fn number_of(&self, place: usize) -> Option<u32> {
        self.pool.number_at(place)
    }
}
