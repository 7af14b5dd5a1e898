//! The traits of allocators over a region, the errors of their calls, and commands with their
//! replies.
ghost use Rattle.bb_memory_traits.specs.Chunk.{AllocationError, Chunk, IsInside, IsSound, Layout, Region};
ghost use Rattle.bb_memory_traits.specs.HeldBytes.{ZeroesAnswered, held_region, part_behind};
ghost use Rattle.bb_memory_traits.specs.Object.{AllocationGrowError, AllocationShrinkError, PlacesDiffer, released};
ghost use Rattle.bb_memory_traits.specs.Request.{Grown, Requested};
ghost use Rattle.std.specs.Prelude.{Bool, IfOk, List, Ok, OnErr, Result, Some, [], false, slice_get, slice_set, ℕ, ◌%◌, ◌++◌, ◌<◌, ◌∷◌, ◌≡◌, ◌≤◌};

use crate::layout::{Chunk, Layout};
use crate::region::Region;
use thiserror::Error;

/// The reason why a request failed.
#[derive(Debug, Clone, Copy, PartialEq, Eq, Error)]
pub enum AllocationError {
    /// The size is 0: only for a bump or the heap.
    #[error("the requested size is zero")]
    SizeIsZero,
    /// The size is greater than the bucket's: only for a pool.
    #[error("the requested size is greater than the bucket size")]
    SizeTooLarge,
    /// The alignment is greater than the bucket's: only for a pool.
    #[error("the requested alignment is not supported")]
    AlignmentFailure,
    /// There is no room. The reason depends on the allocator:
    ///
    /// - A bump: the chunk would end after the region.
    /// - The one chunk: a chunk is in use, or the region has no byte or too few bytes from the
    ///   first multiple of the alignment on.
    /// - A pool: every bucket is held. If threads share the pool, each bucket was found held at
    ///   some step of the search.
    /// - The heap, and constructors that allocate: memory ran out.
    #[error("there is not enough memory available")]
    OutOfMemory,
}

/// The reason why a chunk wasn't grown.
#[derive(Debug, Clone, Copy, PartialEq, Eq, Error)]
pub enum AllocationGrowError {
    /// The new size isn't greater than the old one.
    #[error("the new size is not greater than the old size")]
    GrowWouldShrink,
    /// The new alignment is greater than the bucket's (a pool) or than the old one (the one chunk).
    #[error("the requested alignment is not supported")]
    AlignmentFailure,
    /// The new size is greater than the number of bytes that are reserved for the chunk. For the
    /// heap: memory ran out.
    #[error("there is not enough memory available")]
    OutOfMemory,
}

/// The reason why a chunk wasn't shrunk.
#[derive(Debug, Clone, Copy, PartialEq, Eq, Error)]
pub enum AllocationShrinkError {
    /// The new size isn't smaller than the old one.
    #[error("the new size is not smaller than the old size")]
    ShrinkWouldGrow,
    /// The new alignment is greater than the bucket's (a pool) or than the old one (the one chunk).
    #[error("the requested alignment is not supported")]
    AlignmentFailure,
    /// The new size is 0: only for the heap.
    #[error("the requested size is zero")]
    SizeIsZero,
}

/// A command to an allocator. Each `usize` is a position in the live list, counted from 0.
#[derive(Debug, Clone, Copy, PartialEq, Eq)]
pub enum Command {
    /// Requests a chunk.
    Allocate(Layout),
    /// Gives back the chunk at a position.
    Release(usize),
    /// Grows the chunk at a position, from the first layout to the second.
    Grow(usize, Layout, Layout),
    /// Shrinks the chunk at a position, from the first layout to the second.
    Shrink(usize, Layout, Layout),
}

/// The reply to a command.
#[derive(Debug, Clone, Copy, PartialEq, Eq)]
pub enum Reply {
    /// The allocated chunk, or the resized one.
    Chunk(Chunk),
    /// The chunk at the position was given back, or all chunks if `RELEASE_EMPTIES` is true.
    Released,
    /// The command was skipped: the live list doesn't have the position, or the run doesn't make
    /// the resize.
    Passed,
    /// The request was refused: no chunk was allocated.
    Refused(AllocationError),
    /// The chunk at the position wasn't grown.
    GrowRefused(AllocationGrowError),
    /// The chunk at the position wasn't shrunk.
    ShrinkRefused(AllocationShrinkError),
}

/// An allocator over one region, with one owner.
///
/// The contract is about live lists: the chunks in use, in the order in which they were allocated.
/// An allocator *stands for* a live list if exactly those chunks may be in use in its state. Every
/// clause holds for each list that the allocator stands for, and each allocator stands for at least
/// one.
///
/// The answers to requests are those of an object whose only state is the live list (`geometry`,
/// `may_allocate`). A crate may bring an allocator with an object of its own.
pub trait BaseAllocator {
    /// True if a release gives back all chunks at once.
    const RELEASE_EMPTIES: bool;

    ghost RELEASE_EMPTIES: { Bool };

    /// The facts that are fixed when an allocator is made: its region, and everything else on which
    /// its answers depend.
    ghost Geometry: { Type 0 };

    /// The geometry of an allocator.
    ghost geometry: { Self → Geometry };

    /// The region of an allocator with this geometry.
    ghost region_of: { Geometry → Region };

    /// The answers that an allocator of this geometry may give to a request on a live list.
    ghost may_allocate: { Geometry → List Chunk → Layout → Result Chunk AllocationError → Type 0 };

    /// The allocator stands for this live list.
    ghost stands_for: { Self → List Chunk → Type 0 };

    /// The chunk at this place may be given back.
    ghost may_release: { Self → ℕ → Type 0 };

    /// A note that an allocator keeps about past requests, in addition to the chunks in use. An
    /// allocator that keeps none has `Unit {0}` here.
    ghost Note: { Type 0 };

    /// The note of an allocator.
    ghost note: { Self → Note };

    /// The note after a request for a layout, whether the request succeeds or not.
    ghost note_after: { Geometry → Layout → Note → Note };

    /// A further promise of `allocate`, about the values: the allocator before the request, the
    /// layout, the answer, and the allocator afterwards. An allocator that leaves it out promises
    /// only the other clauses of `allocate`.
    ghost takes: { Self → Layout → Result Chunk AllocationError → Self
        → Type 0 } = { λ old layout result new. Unit {0} };

    /// A further promise of `deallocate`, about the values: the allocator before the release, the
    /// place, the layout, and the allocator afterwards.
    ghost frees: { Self → ℕ → Layout → Self → Type 0 } = { λ old place layout new. Unit {0} };

    /// Allocates a chunk of at least `layout.size()` bytes, at a place that is a multiple of
    /// `layout.align()`. After a refusal the allocator stands for the same lists as before.
    fn allocate(&mut self, layout: Layout) -> Result<Chunk, AllocationError>
        ensures answer { (live : List Chunk) → stands_for self.old live
            → may_allocate (geometry self.old) live layout result }
        ensures appended { IfOk result (λ chunk. (live : List Chunk) → stands_for self.old live
            → stands_for self.new (live ++ chunk ∷ [])) }
        ensures kept { OnErr result ((live : List Chunk) → stands_for self.old live
            → stands_for self.new live) }
        ensures given { IfOk result (λ chunk. may_release self.new chunk.place) }
        ensures inside { IfOk result (IsInside (region_of (geometry self.old))) }
        ensures aligned { IfOk result (λ chunk. chunk.place % layout.align ≡ 0) }
        ensures long_enough { IfOk result (λ chunk. layout.size ≤ chunk.len) }
        ensures geometry { geometry self.new ≡ geometry self.old }
        ensures note { note self.new ≡ note_after (geometry self.old) layout (note self.old) }
        ensures value { takes self.old layout result self.new };

    /// Gives back the chunk at this place, or all chunks if `RELEASE_EMPTIES` is true. A chunk in
    /// use has to begin at the place (a bump accepts any place). The layout has no effect.
    fn deallocate(&mut self, place: usize, layout: Layout)
        requires { may_release self.old place }
        ensures released { (live : List Chunk) (position : ℕ) (chunk : Chunk)
            → stands_for self.old live → slice_get live position ≡ Some chunk → chunk.place ≡ place
            → stands_for self.new (released RELEASE_EMPTIES live position) }
        ensures geometry { geometry self.new ≡ geometry self.old }
        ensures note { note self.new ≡ note self.old }
        ensures value { frees self.old place layout self.new };

    /// Allocates a chunk as `allocate` does, with all its promises (`Requested`), and zeroes the
    /// chunk's bytes. All other bytes of the region are unchanged; after a refusal, all bytes are.
    /// The region's start and size have to be those with which the allocator was made.
    fn allocate_zeroed(
        &mut self,
        layout: Layout,
        region: &mut Region,
    ) -> Result<Chunk, AllocationError>
        requires same_region { held_region region.old ≡ region_of (geometry self.old) }
        ensures requested { Requested (record {
          stands_for = stands_for;
          may_release = may_release;
          geometry = geometry;
          region_of = region_of;
          may_allocate = may_allocate;
          note = note;
          note_after = note_after;
          takes = takes;
        }) self.old layout result self.new }
        ensures bytes { ZeroesAnswered (λ chunk. chunk) region.old region.new result }
    {
        let chunk = self.allocate(layout)?;
        region.zero(chunk);
        Ok(chunk)
    }

    /// Does nothing: its contract is the proof that each allocator stands for some live list, so
    /// that no clause is vacuous.
    fn stands_for_some_list(&self)
        ensures { (live : List Chunk) × stands_for self.now live };

    /// Does nothing: its contract is the proof that each chunk that a request may get is inside the
    /// region, at a multiple of the requested alignment, and at least as long as requested.
    fn answers_fit(&self)
        ensures inside { (live : List Chunk) (layout : Layout) (chunk : Chunk)
            → stands_for self.now live → may_allocate (geometry self.now) live layout (Ok chunk)
            → IsInside (region_of (geometry self.now)) chunk }
        ensures aligned { (live : List Chunk) (layout : Layout) (chunk : Chunk)
            → stands_for self.now live → may_allocate (geometry self.now) live layout (Ok chunk)
            → chunk.place % layout.align ≡ 0 }
        ensures long_enough { (live : List Chunk) (layout : Layout) (chunk : Chunk)
            → stands_for self.now live → may_allocate (geometry self.now) live layout (Ok chunk)
            → layout.size ≤ chunk.len };

    /// The chunk at a position of a list that the allocator stands for may be given back.
    ghost releases: { (allocator : Self) (live : List Chunk) (position : ℕ) (chunk : Chunk)
        → stands_for allocator live → slice_get live position ≡ Some chunk
        → may_release allocator chunk.place };

    /// Each list that the allocator stands for is sound.
    ghost sound: { (allocator : Self) (live : List Chunk) → stands_for allocator live
        → IsSound (region_of (geometry allocator)) live };
}

/// An allocator whose chunks can be resized in place. A release removes only its chunk from the
/// list, and no two chunks of a list that the allocator stands for have the same place. A resize
/// never changes the allocator: its answer says how many of the bytes reserved for the chunk may be
/// used.
pub trait Allocator: BaseAllocator {
    /// The facts on which the answers to resizes depend. The geometry fixes them, by the law
    /// `fixed`.
    ghost ResizeKey: { Type 0 };

    ghost resize_key: { Self → ResizeKey };

    /// The number of bytes that are reserved for the chunk at a place.
    ghost reserved_at: { ResizeKey → ℕ → ℕ };

    /// The answers that an allocator of this key may give on a live list to a resize of the chunk
    /// at a place, from an old layout to a new one.
    ghost may_grow: { ResizeKey → List Chunk → ℕ → Layout → Layout
        → Result Chunk AllocationGrowError → Type 0 };

    ghost may_shrink: { ResizeKey → List Chunk → ℕ → Layout → Layout
        → Result Chunk AllocationShrinkError → Type 0 };

    /// A further promise of `grow`, about the values: the allocator before the call, the place, the
    /// old layout and the new one, the answer, and the allocator afterwards. An allocator that
    /// leaves it out promises only the other clauses of `grow`.
    ghost grows: { Self → ℕ → Layout → Layout → Result Chunk AllocationGrowError → Self
        → Type 0 } = { λ one place old new result after. Unit {0} };

    /// A further promise of `shrink`, about the same values as `grows`.
    ghost shrinks: { Self → ℕ → Layout → Layout → Result Chunk AllocationShrinkError → Self
        → Type 0 } = { λ one place old new result after. Unit {0} };

    /// Returns how many bytes are reserved for the live chunk at this place.
    fn reserved(&self, place: usize) -> usize
        requires { Self.may_release self.now place }
        ensures { result ≡ reserved_at (resize_key self.now) place };

    /// Grows the live chunk at this place to at least `new.size()` bytes, without moving it. The
    /// place has to be a multiple of the old alignment. The allocator doesn't change.
    fn grow(&mut self, place: usize, old: Layout, new: Layout) -> Result<Chunk, AllocationGrowError>
        requires live { Self.may_release self.old place }
        requires aligned { place % old.align ≡ 0 }
        ensures answer { (live : List Chunk) (position : ℕ) (chunk : Chunk)
            → Self.stands_for self.old live → slice_get live position ≡ Some chunk
            → chunk.place ≡ place → may_grow (resize_key self.old) live place old new result }
        ensures resized { IfOk result (λ grown. (live : List Chunk) (position : ℕ) (chunk : Chunk)
            → Self.stands_for self.old live → slice_get live position ≡ Some chunk
            → chunk.place ≡ place → Self.stands_for self.new (slice_set live position grown)) }
        ensures same_place { IfOk result (λ grown. grown.place ≡ place) }
        ensures aligned { IfOk result (λ grown. grown.place % new.align ≡ 0) }
        ensures longer { IfOk result (λ grown. old.size < grown.len) }
        ensures long_enough { IfOk result (λ grown. new.size ≤ grown.len) }
        ensures within { IfOk result (λ grown. grown.len ≤ reserved_at (resize_key self.old) place) }
        ensures inside { IfOk result (IsInside (Self.region_of (Self.geometry self.old))) }
        ensures unchanged { self.new ≡ self.old }
        ensures value { grows self.old place old new result self.new };

    /// Shrinks the live chunk at this place to at least `new.size()` and fewer than `old.size()`
    /// bytes, without moving it. The place has to be a multiple of the old alignment, and the old
    /// size at most what is reserved. The allocator doesn't change.
    fn shrink(
        &mut self,
        place: usize,
        old: Layout,
        new: Layout,
    ) -> Result<Chunk, AllocationShrinkError>
        requires live { Self.may_release self.old place }
        requires aligned { place % old.align ≡ 0 }
        requires reserved { old.size ≤ reserved_at (resize_key self.old) place }
        ensures answer { (live : List Chunk) (position : ℕ) (chunk : Chunk)
            → Self.stands_for self.old live → slice_get live position ≡ Some chunk
            → chunk.place ≡ place → may_shrink (resize_key self.old) live place old new result }
        ensures resized { IfOk result (λ shrunk. (live : List Chunk) (position : ℕ) (chunk : Chunk)
            → Self.stands_for self.old live → slice_get live position ≡ Some chunk
            → chunk.place ≡ place → Self.stands_for self.new (slice_set live position shrunk)) }
        ensures same_place { IfOk result (λ shrunk. shrunk.place ≡ place) }
        ensures aligned { IfOk result (λ shrunk. shrunk.place % new.align ≡ 0) }
        ensures shorter { IfOk result (λ shrunk. shrunk.len < old.size) }
        ensures long_enough { IfOk result (λ shrunk. new.size ≤ shrunk.len) }
        ensures within { IfOk result (λ shrunk. shrunk.len ≤ reserved_at (resize_key self.old) place) }
        ensures inside { IfOk result (IsInside (Self.region_of (Self.geometry self.old))) }
        ensures unchanged { self.new ≡ self.old }
        ensures value { shrinks self.old place old new result self.new };

    /// Grows a chunk as `grow` does, with all its promises (`Grown`), and zeroes the bytes after
    /// its old size, up to the end of the returned chunk. All other bytes of the region are
    /// unchanged; after a refusal, all bytes are. The region's start and size have to be those with
    /// which the allocator was made.
    fn grow_zeroed(
        &mut self,
        place: usize,
        old: Layout,
        new: Layout,
        region: &mut Region,
    ) -> Result<Chunk, AllocationGrowError>
        requires live { Self.may_release self.old place }
        requires aligned { place % old.align ≡ 0 }
        requires same_region { held_region region.old ≡ Self.region_of (Self.geometry self.old) }
        ensures grown { Grown (record {
          stands_for = Self.stands_for;
          region = Self.region_of (Self.geometry self.old);
          reserved_at = reserved_at (resize_key self.old);
          may_grow = may_grow (resize_key self.old);
          grows = grows;
        }) self.old place old new result self.new }
        ensures bytes { ZeroesAnswered (part_behind old.size) region.old region.new result }
    {
        let grown = self.grow(place, old, new)?;
        region.zero(grown.behind(old.size()));
        Ok(grown)
    }

    /// Allocators of one geometry have the same resize key.
    ghost fixed: { (one other : Self) → Self.geometry one ≡ Self.geometry other
        → resize_key one ≡ resize_key other };

    /// A release removes only the chunk at its place.
    ghost closes_up: { Self.RELEASE_EMPTIES ≡ false };

    /// No two chunks of a list that the allocator stands for have the same place.
    ghost distinct: { (allocator : Self) (live : List Chunk) → Self.stands_for allocator live
        → PlacesDiffer live };

    /// No chunk of a list that the allocator stands for is longer than what is reserved for it.
    ghost covered: { (allocator : Self) (live : List Chunk) (position : ℕ) (chunk : Chunk)
        → Self.stands_for allocator live → slice_get live position ≡ Some chunk
        → chunk.len ≤ reserved_at (resize_key allocator) chunk.place };

    /// A chunk that may be given back is in each list that the allocator stands for.
    ghost only_live: { (allocator : Self) (live : List Chunk) (place : ℕ)
        → Self.stands_for allocator live → Self.may_release allocator place
        → (position : ℕ) × (chunk : Chunk)
        × (slice_get live position ≡ Some chunk) × (chunk.place ≡ place) };
}
