//! A set of numbers below a bound. Its main call, `take`, adds some number that isn't in the set,
//! and returns that number.
//!
//! [`words::Words`] allocates once, for a bit for each number and a list of the words that have a
//! clear bit; [`flags::Flags`] doesn't allocate, and has an array with a flag for each number. Both
//! keep a list of places with free numbers, so `take` never searches.
ghost use Rattle.bb_memory_index_set.specs.IndexSets.{Has, IsFull, Lacks, member_count};
ghost use Rattle.std.specs.Prelude.{Bool, IfNone, IfSome, IsTrue, List, false, length, max, min, slice_set, true, ℕ, ◌<◌, ◌↔◌, ◌≡◌, ◌≤◌};

pub mod flags;
pub mod index_words;
pub mod words;

pub use crate::index_set::index_words::Counter;

/// A set of numbers below a bound. It is empty when it is made.
pub trait IndexSet: Drop {
    /// A flag for each number below the bound: whether the number is in the set.
    ghost numbers: { Self → List Bool };

    /// The greatest number of members that the set had at one time so far.
    ghost most: { Self → ℕ };

    /// The number of words of a set of this bound that are read through a counter.
    ghost words: { ℕ → ℕ };

    /// Adds a number that isn't in the set, and returns that number. Returns `None` exactly if
    /// every number is in the set. The counter has to be 0, and ends at the number of words that
    /// were read: one, or none if the set has no word.
    fn take(&mut self, counter: &mut Counter) -> Option<usize>
        requires { counter.old ≡ 0 }
        ensures lacked { IfSome result (Lacks (numbers self.old)) }
        ensures taken { IfSome result (λ number. numbers self.new
            ≡ slice_set (numbers self.old) number true) }
        ensures full { IfNone result (IsFull (numbers self.old)) }
        ensures unchanged { IfNone result (numbers self.new ≡ numbers self.old) }
        ensures most { most self.new ≡ max (most self.old) (member_count (numbers self.new)) }
        ensures counted { counter.new ≡ min (words (length (numbers self.old))) 1 };

    /// Removes a number, which has to be in the set, and no other.
    fn release(&mut self, number: usize)
        requires { Has (numbers self.old) number }
        ensures released { numbers self.new ≡ slice_set (numbers self.old) number false }
        ensures most { most self.new ≡ most self.old };

    /// Returns whether a number below the bound is in the set. No word is read through a counter.
    fn has(&self, number: usize) -> bool
        requires { number < length (numbers self.now) }
        ensures { IsTrue result ↔ Has (numbers self.now) number };

    /// Returns whether some number below the bound isn't in the set, so that `take` returns one. No
    /// word is read through a counter.
    fn has_room(&self) -> bool
        ensures { IsTrue result ↔ ((number : ℕ) × Lacks (numbers self.now) number) };

    /// Returns the number of members. The call looks at no member, and reads no word.
    fn len(&self) -> u32
        ensures { result ≡ member_count (numbers self.now) };

    /// Returns the greatest number of members that the set had at one time so far.
    fn greatest_len(&self) -> u32
        ensures value { result ≡ most self.now }
        ensures within { result ≤ length (numbers self.now) };
}
