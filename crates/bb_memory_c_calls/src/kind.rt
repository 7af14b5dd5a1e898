//! Traits of the kinds of values in handles: what a call, which is written once for all kinds, needs from a kind.
ghost use Rattle.bb_memory_c_calls.specs.Calls.{Sharing, TakesParty};
ghost use Rattle.bb_memory_traits.specs.Chunk.{Chunk};
ghost use Rattle.bb_memory_traits.specs.Geometry.{TellsNumber, TellsPlace};
ghost use Rattle.bb_memory_traits.specs.PoolObject.{PoolGeometry};
ghost use Rattle.bb_memory_traits.specs.declared.allocator.AllocationError.{AllocationError};
ghost use Rattle.bb_memory_traits.specs.declared.layout.Layout.{Layout as Asked};
ghost use Rattle.std.specs.Prelude.{IfErr, IfNone, IfSome, IsFalse, IsTrue, Ok, Result, ℕ, ◌↔◌, ◌≡◌};

use bb_memory_traits::allocator::AllocationError;
use bb_memory_traits::layout::{Chunk, Layout};
use std::alloc::Global;

/// A kind that gives chunks, and fills a C struct of type `I` with its figures.
pub trait Gives<I>: Drop {
    /// The answers that a request may have, and the value after it.
    ghost may_give: { Self → Asked → Result Chunk AllocationError → Self → Type 0 };

    /// The figures that the struct may be filled with, and the value after that.
    ghost may_show: { Self → I → Self → Type 0 };

    /// Requests a chunk.
    fn give(&mut self, layout: Layout) -> Result<Chunk, AllocationError>
        ensures { may_give self.old layout result self.new };

    /// Returns the filled struct.
    fn show(&mut self) -> I
        ensures { may_show self.old result self.new };
}

/// A kind that knows its chunks by their places.
pub trait Keeps: Drop {
    /// A chunk is held at this place.
    ghost holds: { Self → ℕ → Type 0 };

    /// The chunk at this place may be given back.
    ghost may_free: { Self → ℕ → Type 0 };

    /// The value after the chunk at a place was given back.
    ghost frees: { Self → ℕ → Self → Type 0 };

    /// Returns whether a chunk is held at this place.
    fn is_held(&mut self, place: usize) -> bool
        ensures value { IsTrue result ↔ holds self.old place }
        ensures unchanged { self.new ≡ self.old };

    /// Gives back the chunk at this place, if it may be given back, and returns whether it was. Otherwise nothing changes.
    fn give_back(&mut self, place: usize) -> bool
        ensures held { IsTrue result ↔ may_free self.old place }
        ensures freed { IsTrue result → frees self.old place self.new }
        ensures unchanged { IsFalse result → self.new ≡ self.old };
}

/// A kind that is cut into buckets.
pub trait Bucketed: Drop {
    /// How its region is cut.
    ghost geometry: { Self → PoolGeometry };

    /// The answers that the taking of a whole bucket may have, and the value after it.
    ghost may_take: { Self → Result Chunk AllocationError → Self → Type 0 };

    /// Relates the value before the taking of a whole bucket to the one after the taking has missed its first bucket.
    ghost misses_first: { Self → Self → Type 0 };

    /// Begins the taking of a whole bucket: tries at most one bucket, and takes it unless it misses it.
    fn take_first(&mut self) -> Option<Chunk>
        ensures taken { IfSome result (λ chunk. may_take self.old (Ok chunk) self.new) }
        ensures missed { IfNone result (misses_first self.old self.new) };

    /// Goes on with a taking that has missed its first bucket. The first clause holds for each value with which the taking may have
    /// begun.
    fn take_later(&mut self) -> Result<Chunk, AllocationError>
        requires { (before : Self) × misses_first before self.old }
        ensures may { (before : Self) → misses_first before self.old → may_take before result self.new }
        ensures refused { IfErr result (λ error. error ≡ AllocationError.OutOfMemory) };

    /// Returns a layout within which a request skips `layout_of`. Any layout is correct.
    fn limit(&self) -> Layout;

    /// Returns where the bucket of this number begins, if there is one.
    fn place_of(&self, number: u32) -> Option<usize>
        ensures { TellsPlace (geometry self.now) number result };

    /// Returns the number of the bucket at this place, if one begins there.
    fn number_of(&self, place: usize) -> Option<u32>
        ensures { TellsNumber (geometry self.now) place result };
}

/// A kind that is destroyed only if nothing of the value is in use.
pub trait Ends: Drop {
    /// A destruction of the value may return this code.
    ghost ends: { Self → ℕ → Type 0 };

    /// Returns the code of a destruction: `BB_OK`, or the reason why it fails.
    fn end_code(&mut self) -> u32
        ensures value { ends self.old result }
        ensures unchanged { self.new ≡ self.old };
}

/// A kind that threads share: `S` is a party that has joined, and the other parties are in the value.
pub trait Shares<S: Drop>: Drop {
    /// How the kind describes its parties.
    ghost sharing: { Sharing Self S };

    /// If the party's shared value begins where this one does, it is this one.
    ghost knows: { Self → S → Type 0 };

    /// Makes the last party that hasn't joined join, in memory of its own.
    fn join_last(&mut self, alloc: Global) -> Result<Box<S>, u32>
        ensures { TakesParty (λ joined. joined.value) self.old self.new result sharing };

    /// Returns whether a party is one of this value's that has joined.
    fn has_joined(&self, party: &S) -> bool
        requires { knows self.now party.now }
        ensures { IsTrue result ↔ sharing.at self.now party.now };

    /// Takes the party back. It is then the last of those that haven't joined.
    fn take_back(&mut self, joined: S)
        requires { sharing.at self.old joined }
        ensures { (after : S) × sharing.leaves joined after × (self.new ≡ sharing.with_party self.old after) };
}
