//! The pointer that a handle holds, and a box whose pointer is visible.
ghost use Rattle.bb_memory_c_calls.specs.Handles.{owns_if};
ghost use Rattle.std.specs.Box.Ownership.{box_owns};
ghost use Rattle.std.specs.Prelude.{MatchOption, None, Option, Some, ◌≡◌};

use std::alloc::{Allocator, Global};
use std::marker::Model;
use std::ptr;

/// Nothing, or the owner of a value.
#[repr(C)]
#[derive(Drop)]
pub struct Held<T> {
    pub at: *mut T,
    pub made: bool,
    pub ghost value: { Option T },
}

impl<T> Model for Held<T> {
    ghost also_owns = { λ h. owns_if T.row h.made h.at h.value };
}

impl<T> Held<T> {
    /// Returns the owner of nothing.
    pub fn nothing(_alloc: Global) -> Held<T>
        ensures { result.value ≡ None }
    {
        Held {
            at: ptr::null_mut(),
            made: false,
        }
    }

    /// Returns the owner of what the loose box owns.
    pub fn of_loose(loose: Loose<T, Global>) -> Held<T>
        ensures { result.value ≡ Some loose.value }
    {
        let Loose { at, alloc: _ } = loose;
        Held { at, made: true }
    }

    /// Returns the owned value, if there is one.
    pub fn into_loose(self, alloc: Global) -> Option<Loose<T, Global>>
        ensures { MatchOption result (self.value ≡ None) (λ loose. self.value ≡ Some loose.value) }
    {
        let Held { at, made } = self;
        if made {
            Some(Loose { at, alloc })
        } else {
            None
        }
    }
}

/// The parts of a box, which owns the value at its pointer.
pub struct Loose<T, A: Allocator> {
    pub at: *mut T,
    pub alloc: A,
    pub ghost value: { T },
}

impl<T, A: Allocator> Model for Loose<T, A> {
    ghost also_owns = { λ l. box_owns (A.dealloc_token l.alloc) T.row l.at l.value };
}

impl<T: Drop, A: Allocator> Loose<T, A> {
    /// Returns the parts of a box.
    pub fn of(value: Box<T, A>) -> Loose<T, A>
        ensures { result.value ≡ value.value }
    {
        let (at, alloc) = Box::into_raw_with_allocator(value);
        Loose { at, alloc }
    }

    /// Returns the box of these parts.
    pub fn into_box(self) -> Box<T, A>
        ensures { result.value ≡ self.value }
    {
        let Loose { at, alloc } = self;
        unsafe { Box::from_raw(alloc, at) }
    }
}
