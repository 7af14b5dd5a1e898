//! Marks by which a test tells the sweep of failing requests when its values have been made and
//! when its calls have ended. By further marks the test learns whether a request failed or memory
//! was freed. Each mark is a request for memory of a size that no other request has: `.ci/refuse.c`
//! decides when it fails.
#![tactic(auto)]

use std::alloc::Global;

const FIRST_MARK: usize = 100_003;

const SECOND_MARK: usize = 100_019;

const FREED_MARK: usize = 100_043;

const REFUSED_MARK: usize = 100_049;

/// Returns whether a request for `bytes` bytes succeeds, at once or in a second attempt: a sweep in
/// which only one request fails doesn't make a mark fail.
fn is_granted(alloc: Global, bytes: usize) -> bool {
    Vec::<u8>::with_capacity(alloc, bytes).is_ok() || Vec::<u8>::with_capacity(alloc, bytes).is_ok()
}

/// Marks that the test's values have been made. Returns whether requests fail from here on.
pub fn refuse_memory(alloc: Global) -> bool {
    !is_granted(alloc, FIRST_MARK)
}

/// Marks that the test's calls have ended, so that memory is available again. Returns whether none
/// of them requested memory.
pub fn none_was_asked(alloc: Global) -> bool {
    is_granted(alloc, SECOND_MARK)
}

/// Returns whether memory was freed since the values were made.
pub fn some_was_freed(alloc: Global) -> bool {
    is_granted(alloc, FREED_MARK)
}

/// Returns whether a request for memory has failed since the test began. A test accepts an error
/// for memory only if this is true.
pub fn some_was_refused(alloc: Global) -> bool {
    !is_granted(alloc, REFUSED_MARK)
}
