//! Handles, by what all of them have: a pointer that owns a value, or nothing.
ghost use Rattle.bb_memory_c_calls.specs.contracts.held.Held.{the_row as held_row};
ghost use Rattle.bb_memory_c_calls.specs.declared.held.Held.{Held as HeldOf};
ghost use Rattle.std.specs.Borrow.{Lends, LendsSo, sem};
ghost use Rattle.std.specs.Prelude.{MatchOption, None, Option, Some, ◌≡◌};

use crate::held::{Held, Loose};
use std::alloc::Global;
use std::mem;

impl<T> Held<T> {
    /// Lends the value, in its place, if there is one.
    pub fn made_mut(&mut self) -> Option<&mut T>
        ensures value { MatchOption result (self.old.value ≡ None) (λ lent. self.old.value ≡ Some lent.now) }
        ensures* writes_back { sem 𝓛 (LendsSo (held_row T.row) T.row self.entry result
            (λ after last. after.value ≡ Some last) (λ after. after.value ≡ self.old.value)) }
    {
        if !self.made {
            return None;
        }
        let at = self.at;
        Some(unsafe { &mut *at })
    }
}

/// A handle, which the host holds.
pub trait Handle<M: Drop>: Drop {
    /// The value that the handle holds, if it isn't empty.
    ghost made: { Self → Option M };

    /// The handle that holds this.
    ghost of: { HeldOf M → Self };

    /// Lends the contents of the handle, in the one type for all kinds.
    fn held(&mut self) -> &mut Held<M>
        ensures* writes_back { sem 𝓛 (Lends Self.row (held_row M.row) self.entry result of) }
        ensures value { result.now.value ≡ made self.old }
        ensures kept { (held : HeldOf M) → made (of held) ≡ held.value };

    /// Lends the value, in its place, if the handle isn't empty. The call doesn't write the handle.
    final fn made_mut(&mut self) -> Option<&mut M>
        ensures value { MatchOption result (made self.old ≡ None) (λ lent. made self.old ≡ Some lent.now) }
        ensures* writes_back { sem 𝓛 (LendsSo Self.row M.row self.entry result
            (λ after last. made after ≡ Some last) (λ after. made after ≡ made self.old)) }
    {
        self.held().made_mut()
    }

    /// Makes the handle own this value. A value that it owned before would be forgotten, so the handle has to be empty.
    final fn put(&mut self, fresh: Box<M>)
        requires { made self.old ≡ None }
        ensures { made self.new ≡ Some fresh.value }
    {
        *self.held() = Held::of_loose(Loose::of(fresh));
    }

    /// Takes out the value that the handle owned, if it wasn't empty. Afterwards the handle is empty.
    final fn take(&mut self, alloc: Global) -> Option<Box<M>>
        ensures empty { made self.new ≡ None }
        ensures value { MatchOption result (made self.old ≡ None) (λ taken. made self.old ≡ Some taken.value) }
    {
        let held = mem::replace(self.held(), Held::nothing(alloc));
        held.into_loose(alloc).map(|loose| loose.into_box())
    }
}
