//! Texts of `Display` and `Debug`.
use super::checks::{check, layout};
use super::kinds::fixed_over;
use bb_memory_bump::bump_allocator::{BaseAllocator, BumpAllocator};
use bb_memory_traits::allocator::AllocationError::{self, SizeTooLarge};
use bb_memory_traits::allocator::{
    AllocationGrowError as GrowError, AllocationShrinkError as ShrinkError,
};
use bb_memory_traits::layout::Layout;
use loan_book::LoanError;
use std::fmt::{Debug, Display};
use std::process::Abort;

/// Checks a value's Display text.
fn has_text<D: Display>(rt: &(impl Abort + AllocGlobal), value: &D, text: &str) {
    let got = format!(in rt.alloc(); "{value}").expect(rt, "there is memory for a text");
    check(rt, got.as_str() == text);
}

const ALIGNMENT: &str = "the requested alignment is not supported";

const NO_MEMORY: &str = "there is not enough memory available";

const TOO_LARGE: &str = "the requested size is greater than the bucket size";

const ZERO: &str = "the requested size is zero";

#[test]
fn texts_of_requests(rt: HostRuntime) {
    let text = "the alignment is no power of two or the rounded size is too large";
    match Layout::from_size_align(8, 3) {
        Ok(_) => panic!(&rt; "the alignment 3 was accepted"),
        Err(refused) => has_text(&rt, &refused, text),
    }
    has_text(&rt, &AllocationError::SizeIsZero, ZERO);
    has_text(&rt, &AllocationError::SizeTooLarge, TOO_LARGE);
    has_text(&rt, &AllocationError::AlignmentFailure, ALIGNMENT);
    has_text(&rt, &AllocationError::OutOfMemory, NO_MEMORY);
}

#[test]
fn texts_of_resizes(rt: HostRuntime) {
    let not_greater = "the new size is not greater than the old size";
    has_text(&rt, &GrowError::GrowWouldShrink, not_greater);
    has_text(&rt, &GrowError::AlignmentFailure, ALIGNMENT);
    has_text(&rt, &GrowError::OutOfMemory, NO_MEMORY);
    let not_smaller = "the new size is not smaller than the old size";
    has_text(&rt, &ShrinkError::ShrinkWouldGrow, not_smaller);
    has_text(&rt, &ShrinkError::AlignmentFailure, ALIGNMENT);
    has_text(&rt, &ShrinkError::SizeIsZero, ZERO);
}

#[test]
fn texts_of_loans(rt: HostRuntime) {
    has_text(&rt, &LoanError::Size, "the sample size is too large");
    let ids = "there are no more sample numbers";
    has_text(&rt, &LoanError::IdsExhausted, ids);
    let record = "the record of the sample found no memory";
    has_text(&rt, &LoanError::Memory, record);
    has_text(&rt, &LoanError::Allocation(SizeTooLarge), TOO_LARGE);
    has_text(&rt, &LoanError::UnknownSample, "the sample is not out");
    let published = "the sample was already published";
    has_text(&rt, &LoanError::AlreadyPublished, published);
    has_text(&rt, &LoanError::NoReaders, "the number of readers is zero");
}

// row: bump-display
#[test]
fn text_of_a_bump(rt: HostRuntime) {
    let mut bump = BumpAllocator::new(4096, 1024);
    check(&rt, bump.allocate(layout(&rt, 48, 4)).is_ok());
    let text = "BumpAllocator { start: 4096, size: 1024, current_position: 48 }";
    has_text(&rt, &bump, text);
}

/// Returns a value's Debug text.
fn debug_text(rt: &(impl Abort + AllocGlobal), value: &impl Debug) -> String {
    format!(in rt.alloc(); "{value:?}").expect(rt, "there is memory for a text")
}

/// A request that a full pool refuses doesn't change the pool's Debug text.
#[test]
fn a_refusal_shows_nothing(rt: HostRuntime) {
    let bucket = layout(&rt, 8, 8);
    let mut pool = fixed_over::<4>(bucket, 4096, 8).expect(&rt, "there is such a pool");
    check(&rt, pool.allocate(bucket).is_ok());
    let before = debug_text(&rt, &pool);
    check(&rt, pool.allocate(bucket).is_err());
    check(&rt, debug_text(&rt, &pool) == before);
}
