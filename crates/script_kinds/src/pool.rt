//! Pools that a script drives: the pool on words, and the pool of fixed size.
ghost use Rattle.bb_memory_owned.specs.Pool.{StandsFor};
ghost use Rattle.script_kinds.specs.Allocators.{IsPoolPlan, fixed_rules, pool_numbers, pool_rules};
ghost use Rattle.std.specs.Prelude.{IfSome, Some, ◌≡◌};

use crate::allocators::ScriptedAllocator;
use bb_memory_base::allocator::run_full;
use bb_memory_owned::pool_allocator::{FixedSizePoolAllocator, PoolAllocator};
use bb_memory_traits::allocator::{Command, Reply};
use bb_memory_traits::layout::{Chunk, Layout};
use scripts::words::{Labelled, Numbers, is_word, layout, write_labelled};
use std::alloc::{AllocError, Global};

/// The region that a pool cuts, and the layout of each of its buckets.
#[derive(Clone, Copy)]
pub struct PoolPlan {
    start: usize,
    size: usize,
    bucket: Layout,
}

/// Parses `KIND START SIZE BUCKET ALIGN`, or returns `None` if the words are others or there is no
/// such pool.
pub fn pool_plan(kind: &[u8], name: &[u8], numbers: Numbers) -> Option<PoolPlan>
    ensures written { IfSome result (λ plan. IsPoolPlan plan
        × (name.now ≡ kind.now) × (numbers ≡ pool_numbers plan)) }
    ensures each { (plan : PoolPlan) → IsPoolPlan plan → name.now ≡ kind.now
        → numbers ≡ pool_numbers plan → result ≡ Some plan }
{
    match numbers {
        Numbers::Four(start, size, bucket, align) if is_word(name, kind) => {
            let bucket = layout(bucket, align)?;
            let plan = PoolPlan {
                start,
                size,
                bucket,
            };
            PoolAllocator::can_make(bucket, start, size).then_some(plan)
        }
        _ => None,
    }
}

impl ScriptedAllocator for PoolAllocator<Global> {
    type Header = PoolPlan;

    ghost rules = { pool_rules };

    ghost stands_for = { λ pool. StandsFor pool.pool };

    fn read_header(name: &[u8], numbers: Numbers) -> Option<PoolPlan> {
        pool_plan(b"pool", name, numbers)
    }

    fn make(alloc: Global, header: PoolPlan) -> Result<Self, AllocError> {
        let uninit = PoolAllocator::new_uninit(header.bucket, header.start, header.size);
        match uninit.init(alloc) {
            Ok(pool) => Ok(pool),
            Err(_) => Err(AllocError),
        }
    }

    fn run(&mut self, live: &mut Vec<Chunk>, calls: &[Command]) -> Result<Vec<Reply>, AllocError> {
        run_full(self, live, calls)
    }

    fn write_state(&self, live: usize, line: &mut Vec<u8>) -> Result<(), AllocError> {
        let figures = [
            Labelled(b"pool start ", self.start_address()),
            Labelled(b" size ", self.size()),
            Labelled(b" bucket ", self.bucket_size()),
            Labelled(b" align ", self.max_alignment()),
            Labelled(b" buckets ", self.number_of_buckets() as usize),
            Labelled(b" live ", live),
            Labelled(b" reads ", self.last_reads() as usize),
        ];
        write_labelled(&figures, b"\n", line)
    }
}

/// The fixed pool of scripts: at most 512 buckets.
pub type Fixed = FixedSizePoolAllocator<512>;

impl ScriptedAllocator for Fixed {
    type Header = PoolPlan;

    ghost rules = { fixed_rules };

    ghost stands_for = { λ pool. StandsFor pool.pool };

    fn read_header(name: &[u8], numbers: Numbers) -> Option<PoolPlan> {
        pool_plan(b"fixed", name, numbers)
    }

    fn make(_alloc: Global, header: PoolPlan) -> Result<Self, AllocError> {
        Ok(Fixed::new(header.bucket, header.start, header.size))
    }

    fn run(&mut self, live: &mut Vec<Chunk>, calls: &[Command]) -> Result<Vec<Reply>, AllocError> {
        run_full(self, live, calls)
    }

    fn write_state(&self, live: usize, line: &mut Vec<u8>) -> Result<(), AllocError> {
        let figures = [
            Labelled(b"fixed size ", self.size()),
            Labelled(b" bucket ", self.bucket_size()),
            Labelled(b" align ", self.max_alignment()),
            Labelled(b" buckets ", self.number_of_buckets() as usize),
            Labelled(b" live ", live),
        ];
        write_labelled(&figures, b"\n", line)
    }
}
