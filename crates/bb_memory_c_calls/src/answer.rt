//! Answers in the form that C gets them.
ghost use Rattle.bb_memory_c_calls.specs.Answers.{answer_by, answer_of, figure_of, grow_code, no_figure, refused, shown_flag, shrink_code};
ghost use Rattle.std.specs.Prelude.{◌≡◌};

use crate::code;
use bb_memory_pool_machine::steps::Flag;
use bb_memory_traits::allocator::{AllocationError, AllocationGrowError, AllocationShrinkError};
use bb_memory_traits::layout::Chunk;

/// A code and, if the code is 0, the place of the chunk. With any other code the place is 0. Both fields fit into registers.
///
/// In C's struct, the code has 32 bits, and 32 bits of padding follow it. Here they are one field of
/// 64 bits, whose upper half is 0. So a call that returns another call's answer passes it on as it is.
#[repr(C)]
#[derive(Clone, Copy)]
pub struct Answer {
    pub code: usize,
    pub place: usize,
}

/// A code and, if the code is 0, the requested number. With any other code the number is 0. The code
/// has 64 bits, as in an [`Answer`].
#[repr(C)]
#[derive(Clone, Copy)]
pub struct Figure {
    pub code: usize,
    pub number: usize,
}

/// The figures of a bump, in bytes.
#[repr(C)]
#[derive(Clone, Copy)]
pub struct BumpInfo {
    pub start_address: usize,
    pub used_space: usize,
    pub free_space: usize,
    pub total_space: usize,
}

/// The figures of a one-chunk allocator.
#[repr(C)]
#[derive(Clone, Copy)]
pub struct OneChunkInfo {
    pub start_address: usize,
    pub size: usize,
    pub has_chunk_available: bool,
}

/// The figures of a pool with one owner. The start address is the place of bucket 0.
#[repr(C)]
#[derive(Clone, Copy)]
pub struct PoolInfo {
    pub start_address: usize,
    pub size: usize,
    pub bucket_size: usize,
    pub max_alignment: usize,
    pub number_of_buckets: usize,
    pub held_buckets: usize,
    pub greatest_held: usize,
}

/// The figures of a shared pool, as they were read while parties may have called. In the figures of a party, the held buckets
/// are its own.
#[repr(C)]
#[derive(Clone, Copy)]
pub struct SharedPoolInfo {
    pub start_address: usize,
    pub size: usize,
    pub bucket_size: usize,
    pub max_alignment: usize,
    pub number_of_buckets: usize,
    pub held_buckets: usize,
}

/// The flag of a bucket: one of `FREE`, `HELD` and `DETACHED`, and the party that holds it or has detached it, or 0.
#[repr(C)]
#[derive(Clone, Copy)]
pub struct Holder {
    pub state: u32,
    pub party: u32,
}

/// The state of a bucket's flag: no party has the bucket.
pub const FREE: u32 = 0;

/// The state of a bucket's flag: a party holds the bucket.
pub const HELD: u32 = 1;

/// The state of a bucket's flag: a party has detached the bucket.
pub const DETACHED: u32 = 2;

impl Holder {
    /// Converts a flag into C's.
    pub fn of(flag: Flag) -> Holder
        ensures { result ≡ shown_flag flag }
    {
        let (state, party) = match flag {
            Flag::Free => (FREE, 0),
            Flag::HeldBy(party) => (HELD, party),
            Flag::DetachedBy(party) => (DETACHED, party),
        };
        Holder { state, party }
    }
}

impl Answer {
    /// Returns the answer with this code and no chunk.
    pub fn refusal(code: u32) -> Answer
        ensures { result ≡ refused code }
    {
        Answer {
            code: code as usize,
            place: 0,
        }
    }

    /// Converts the answer to a request into C's.
    pub fn of(answer: Result<Chunk, AllocationError>) -> Answer
        ensures { result ≡ answer_of answer }
    {
        match answer {
            Ok(chunk) => Answer {
                code: code::OK as usize,
                place: chunk.place(),
            },
            Err(AllocationError::SizeIsZero) => Answer::refusal(code::SIZE_IS_ZERO),
            Err(AllocationError::SizeTooLarge) => Answer::refusal(code::SIZE_TOO_LARGE),
            Err(AllocationError::AlignmentFailure) => Answer::refusal(code::ALIGNMENT_FAILURE),
            Err(AllocationError::OutOfMemory) => Answer::refusal(code::OUT_OF_MEMORY),
        }
    }

    /// Converts the answer to a grow into C's.
    pub fn of_grow(answer: Result<Chunk, AllocationGrowError>) -> Answer
        ensures { result ≡ answer_by grow_code answer }
    {
        match answer {
            Ok(chunk) => Answer {
                code: code::OK as usize,
                place: chunk.place(),
            },
            Err(AllocationGrowError::GrowWouldShrink) => Answer::refusal(code::GROW_WOULD_SHRINK),
            Err(AllocationGrowError::AlignmentFailure) => {
                Answer::refusal(code::ALIGNMENT_FAILURE)
            }
            Err(AllocationGrowError::OutOfMemory) => Answer::refusal(code::MORE_THAN_RESERVED),
        }
    }

    /// Converts the answer to a shrink into C's.
    pub fn of_shrink(answer: Result<Chunk, AllocationShrinkError>) -> Answer
        ensures { result ≡ answer_by shrink_code answer }
    {
        match answer {
            Ok(chunk) => Answer {
                code: code::OK as usize,
                place: chunk.place(),
            },
            Err(AllocationShrinkError::ShrinkWouldGrow) => Answer::refusal(code::SHRINK_WOULD_GROW),
            Err(AllocationShrinkError::AlignmentFailure) => {
                Answer::refusal(code::ALIGNMENT_FAILURE)
            }
            Err(AllocationShrinkError::SizeIsZero) => Answer::refusal(code::SIZE_IS_ZERO),
        }
    }
}

impl Figure {
    /// Returns the requested number, with code 0.
    pub fn of(number: usize) -> Figure
        ensures { result ≡ figure_of number }
    {
        Figure {
            code: code::OK as usize,
            number,
        }
    }

    /// Returns the figure with this code and no number.
    pub fn refusal(code: u32) -> Figure
        ensures { result ≡ no_figure code }
    {
        Figure {
            code: code as usize,
            number: 0,
        }
    }
}
