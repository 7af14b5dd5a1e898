//! The reasons why a loan book refuses.
use bb_memory_traits::allocator::AllocationError;
use thiserror::Error;

/// The reason why a call of a loan book was refused.
#[derive(Debug, Clone, Copy, PartialEq, Eq, Error)]
pub enum LoanError {
    /// The size is greater than `isize::MAX`.
    #[error("the sample size is too large")]
    Size,
    /// The greatest id was loaned before.
    #[error("there are no more sample numbers")]
    IdsExhausted,
    /// Memory for the sample's record ran out.
    #[error("the record of the sample found no memory")]
    Memory,
    /// The allocator refused, with this error.
    #[error(transparent)]
    Allocation(AllocationError),
    /// No sample of this id is in use.
    #[error("the sample is not out")]
    UnknownSample,
    /// The sample was published before.
    #[error("the sample was already published")]
    AlreadyPublished,
    /// The number of readers is 0.
    #[error("the number of readers is zero")]
    NoReaders,
}
