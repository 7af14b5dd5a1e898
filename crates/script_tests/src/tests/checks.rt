//! Checks, each proved once, so that a test's own proof carries only the call of a check.
use bb_memory_base::layout::{Chunk, Layout};
use std::fmt::{Debug, Display};
use std::process::Abort;
use test_marks::{none_was_asked, some_was_refused};

/// Checks a condition.
pub(super) fn check(rt: &impl Abort, found: bool) {
    assert!(rt; found);
}

/// Checks that a result is the expected one. A failure prints both.
pub(super) fn same<T: PartialEq + Debug + Copy>(rt: &impl Abort, found: T, wanted: T) {
    assert_eq!(rt; found, wanted);
}

/// Checks a condition. A failure prints its name or number.
pub(super) fn check_at<D: Display + Drop>(rt: &impl Abort, found: bool, at: D) {
    assert!(rt; found, "at {at}");
}

/// Checks that a request for memory failed.
pub(super) fn refused(rt: &(impl Abort + AllocGlobal)) {
    assert!(rt; some_was_refused(rt.alloc()), "no memory was refused");
}

/// Checks that no call requested memory since the values were made, and ends the time in which
/// requests may fail.
pub(super) fn none_requested(rt: &(impl Abort + AllocGlobal)) {
    assert!(rt; none_was_asked(rt.alloc()), "a call requested memory");
}

/// Makes a layout. The numbers have to make one.
pub(super) fn layout(rt: &impl Abort, size: usize, align: usize) -> Layout {
    Layout::from_size_align(size, align).expect(rt, "there is such a layout")
}

/// Makes a chunk. The numbers have to make one.
pub(super) fn chunk(rt: &impl Abort, place: usize, len: usize) -> Chunk {
    Chunk::new(place, len).expect(rt, "there is such a chunk")
}
