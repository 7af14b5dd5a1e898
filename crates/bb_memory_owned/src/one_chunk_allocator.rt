//! An allocator with one chunk at a time, which is all of its region from the chunk's place on.
ghost use Rattle.bb_memory_owned.specs.OneChunk.{AllocationError, AllocationGrowError, AllocationShrinkError, Frees, IsOneChunk, Layout, OneChunk, StandsFor, Takes, one_chunk_of};
ghost use Rattle.bb_memory_traits.proofs.OneChunkLists.{covered, kept_is_live, only_chunk, places_differ};
ghost use Rattle.bb_memory_traits.specs.Chunk.{Chunk, IsInside, IsRegion, Region, chunk_end, region_at, region_end};
ghost use Rattle.bb_memory_traits.specs.Object.{AnswersAll, AnswersOnce, GivesOnly, IsRun, ResizableStep, Step};
ghost use Rattle.bb_memory_traits.specs.OneChunkObject.{MayAllocate, MayGrow, MayShrink, one_chunk_object, reserved_at};
ghost use Rattle.bb_memory_traits.specs.declared.allocator.Command.{Command};
ghost use Rattle.bb_memory_traits.specs.declared.allocator.Reply.{Reply};
ghost use Rattle.std.specs.Prelude.{IsTrue, List, Result, Some, [], false, refl, ℕ, ◌%◌, ◌+◌, ◌-◌, ◌<◌, ◌↔◌, ◌≡◌, ◌≤◌};

pub use bb_memory_traits::allocator::{
    AllocationError, AllocationGrowError, AllocationShrinkError, Allocator, BaseAllocator,
};
use bb_memory_traits::layout::Chunk;
pub use bb_memory_traits::layout::Layout;
use bb_memory_traits::region;
use std::marker::Model;

/// Allocates one chunk at a time: all of the region from the first suitable place on. The chunk can
/// be resized in place.
///
/// Example: `comments::one_chunk` of `crates/examples`.
#[derive(Debug, Drop)]
pub struct OneChunkAllocator {
    start: usize,
    size: usize,
    kept_place: Option<usize>,
}

impl Model for OneChunkAllocator {
    ghost Value = { OneChunk };

    ghost view = { λ a. one_chunk_of a.start a.size a.kept_place };

    ghost invariant = { λ a. IsOneChunk (one_chunk_of a.start a.size a.kept_place) };
}

impl OneChunkAllocator {
    /// Makes an allocator over the region of `size` bytes at `start`, with no chunk in use. The
    /// start has to be greater than 0, and start plus size at most `usize::MAX`;
    /// [`OneChunkAllocator::can_make`] tests both.
    #[inline]
    pub fn new(start: usize, size: usize) -> Self
        requires { IsRegion (region_at start size) }
        ensures value { result ≡ one_chunk_of start size None }
        ensures empty { StandsFor result [] }
    {
        OneChunkAllocator {
            start,
            size,
            kept_place: None,
        }
    }

    /// Returns whether `new` may be called with these arguments.
    pub fn can_make(start: usize, size: usize) -> bool
        ensures { IsTrue result ↔ IsRegion (region_at start size) }
    {
        region::Region::can_make(start, size)
    }

    /// Returns whether no chunk is in use.
    #[inline(always)]
    pub fn has_chunk_available(&self) -> bool
        ensures value { IsTrue result ↔ (self.now.kept ≡ None) }
        ensures of_live { (live : List Chunk) → StandsFor self.now live
            → (IsTrue result ↔ (live ≡ [])) }
    {
        self.kept_place.is_none()
    }

    /// Returns whether a chunk is in use that begins at this place: true exactly if `deallocate`
    /// may be called with the place.
    ///
    /// Example: `comments::one_chunk_held` of `crates/examples`.
    #[inline(always)]
    pub fn holds(&self, place: usize) -> bool
        ensures value { IsTrue result ↔ (self.now.kept ≡ Some place) }
        ensures may_release { IsTrue result
            ↔ ⟦<OneChunkAllocator as BaseAllocator>⟧.may_release self.now place }
    {
        self.kept_place == Some(place)
    }

    /// Returns the place where the region starts.
    #[inline]
    pub fn start_address(&self) -> usize
        ensures value { result ≡ self.now.region.start }
        ensures is_region { IsRegion self.now.region }
    {
        self.start
    }

    /// Returns the size of the region in bytes.
    #[inline]
    pub fn size(&self) -> usize
        ensures { result ≡ self.now.region.size }
    {
        self.size
    }
}

impl BaseAllocator for OneChunkAllocator {
    const RELEASE_EMPTIES: bool = false;

    ghost RELEASE_EMPTIES = { false };

    ghost Geometry = { Region };

    ghost geometry = { λ one. one.region };

    ghost region_of = { λ region. region };

    ghost may_allocate = { MayAllocate };

    ghost stands_for = { StandsFor };

    ghost may_release = { λ one place. one.kept ≡ Some place };

    ghost Note = { Unit {0} };

    ghost note = { λ _. tt };

    ghost note_after = { λ _ _ note. note };

    ghost takes = { Takes };

    ghost frees = { λ one _ _ new. Frees one new };

    /// Allocates all bytes from the first multiple of `layout.align()` at or after the region's
    /// start up to the region's end. Fails, with `OutOfMemory`, exactly if a chunk is in use, if
    /// that place is at or after the region's end, or if fewer than `layout.size()` bytes are left
    /// from there on. A refusal leaves the allocator unchanged.
    #[inline(always)]
    fn allocate(&mut self, layout: Layout) -> Result<Chunk, AllocationError> {
        if self.kept_place.is_some() {
            return Err(AllocationError::OutOfMemory);
        }
        let end = self.start + self.size;
        let Some(asked) = Chunk::at_or_after(self.start, layout, end) else {
            return Err(AllocationError::OutOfMemory);
        };
        if asked.place() == end {
            return Err(AllocationError::OutOfMemory);
        }
        self.kept_place = Some(asked.place());
        Ok(chunk_between(asked.place(), end))
    }

    /// Gives back the chunk in use, which has to begin at this place. The layout is ignored.
    #[inline(always)]
    fn deallocate(&mut self, _place: usize, _layout: Layout) {
        self.kept_place = None;
    }

    fn stands_for_some_list(&self) {
        // Proof hint, here and below: brings the type's invariant into scope.
        let _ = &self.start;
    }

    fn answers_fit(&self) {
        let _ = &self.start;
    }

    ghost releases = { λ one live position chunk stands at.
        (only_chunk one.kept live position chunk stands.keeps at).2 };

    ghost sound = { λ one live stands. stands.sound };
}

impl Allocator for OneChunkAllocator {
    ghost ResizeKey = { Region };

    ghost resize_key = { λ one. one.region };

    ghost reserved_at = { reserved_at };

    ghost may_grow = { λ region live. MayGrow region };

    ghost may_shrink = { λ region live. MayShrink };

    ghost grows = { λ one place old new answer _. MayGrow one.region place old new answer };

    ghost shrinks = { λ _ place old new answer _. MayShrink place old new answer };

    /// Returns the number of bytes from the chunk's place to the region's end. The place has to be
    /// that of the chunk in use.
    #[inline]
    fn reserved(&self, place: usize) -> usize
        requires { self.now.kept ≡ Some place }
        ensures value { result ≡ reserved_at self.now.region place }
        ensures up_to_end { place + result ≡ region_end self.now.region }
    {
        let end = self.start + self.size;
        end - place
    }

    /// Grows the chunk to all the bytes that are reserved for it. Fails with the first of these
    /// errors that applies:
    ///
    /// - `GrowWouldShrink` if the new size isn't greater than the old one.
    /// - `AlignmentFailure` if the new alignment is greater than the old one.
    /// - `OutOfMemory` if fewer bytes than the new size are reserved.
    ///
    /// The allocator doesn't change. The place has to be that of the chunk in use and a multiple of
    /// the old alignment.
    #[inline]
    fn grow(
        &mut self,
        place: usize,
        old: Layout,
        new: Layout,
    ) -> Result<Chunk, AllocationGrowError> {
        if old.size() >= new.size() {
            return Err(AllocationGrowError::GrowWouldShrink);
        }
        if old.align() < new.align() {
            return Err(AllocationGrowError::AlignmentFailure);
        }
        let end = self.start + self.size;
        if end - place < new.size() {
            return Err(AllocationGrowError::OutOfMemory);
        }
        Ok(chunk_between(place, end))
    }

    /// Shrinks the chunk to exactly the new size. Fails, in this order, with `ShrinkWouldGrow` if
    /// the new size isn't smaller than the old one, and with `AlignmentFailure` if the new
    /// alignment is greater than the old one. The allocator doesn't change. The place has to be
    /// that of the chunk in use and a multiple of the old alignment, and the old size at most what
    /// is reserved.
    #[inline]
    fn shrink(
        &mut self,
        place: usize,
        old: Layout,
        new: Layout,
    ) -> Result<Chunk, AllocationShrinkError> {
        let _ = &self.start;
        if old.size() <= new.size() {
            return Err(AllocationShrinkError::ShrinkWouldGrow);
        }
        if old.align() < new.align() {
            return Err(AllocationShrinkError::AlignmentFailure);
        }
        Ok(chunk_between(place, place + new.size()))
    }

    ghost fixed = { λ one other same. same };

    ghost closes_up = { refl };

    ghost distinct = { λ one live stands. places_differ one.kept live stands.keeps };

    ghost covered = { covered };

    ghost only_live = { λ one live place stands out.
        kept_is_live one.kept live place stands.keeps out };
}

/// States what the definition of the one-chunk object means for every region and every list of
/// commands. There is exactly one answer to each request, and to each resize. An allocated chunk
/// begins at a multiple of the requested alignment, has at least the requested size, isn't empty,
/// and ends at the region's end. Each run from a live list that a one-chunk allocator stands for,
/// with resizes or without, leads to another such list, which is sound. The function does nothing:
/// its contract is the law.
pub fn one_chunk_object_law()
    ensures some_answer { (region : Region) → AnswersAll (one_chunk_object region).base }
    ensures one_answer { (region : Region) → AnswersOnce (one_chunk_object region).base }
    ensures some_grow { (region : Region) (place : ℕ) (old new : Layout)
        → (answer : Result Chunk AllocationGrowError) × MayGrow region place old new answer }
    ensures one_grow { (region : Region) (place : ℕ) (old new : Layout)
        (one other : Result Chunk AllocationGrowError)
        → MayGrow region place old new one → MayGrow region place old new other
        → one ≡ other }
    ensures some_shrink { (place : ℕ) (old new : Layout)
        → (answer : Result Chunk AllocationShrinkError) × MayShrink place old new answer }
    ensures one_shrink { (place : ℕ) (old new : Layout)
        (one other : Result Chunk AllocationShrinkError)
        → MayShrink place old new one → MayShrink place old new other
        → one ≡ other }
    ensures aligned { (region : Region) → GivesOnly (one_chunk_object region).base
        (λ layout chunk. chunk.place % layout.align ≡ 0) }
    ensures long_enough { (region : Region) → GivesOnly (one_chunk_object region).base
        (λ layout chunk. layout.size ≤ chunk.len) }
    ensures inside { (region : Region) → GivesOnly (one_chunk_object region).base
        (λ layout. IsInside region) }
    ensures whole_rest { (region : Region) → GivesOnly (one_chunk_object region).base
        (λ layout chunk. (0 < chunk.len) × (chunk_end chunk ≡ region_end region)) }
    ensures keeps_sound { (one : OneChunk) (live new : List Chunk)
        (commands : List Command) (replies : List Reply)
        → IsOneChunk one → StandsFor one live
        → IsRun (ResizableStep (one_chunk_object one.region)) live commands replies new
        → (left : OneChunk) × IsOneChunk left × (left.region ≡ one.region) × StandsFor left new }
    ensures keeps_sound_base { (one : OneChunk) (live new : List Chunk)
        (commands : List Command) (replies : List Reply)
        → IsOneChunk one → StandsFor one live
        → IsRun (Step (one_chunk_object one.region).base) live commands replies new
        → (left : OneChunk) × IsOneChunk left × (left.region ≡ one.region) × StandsFor left new }
{}

/// Returns the chunk from a place to an end. The place must not be 0, and the end must not be below
/// it.
#[inline(always)]
fn chunk_between(place: usize, end: usize) -> Chunk
    requires place { 0 < place }
    requires end { place ≤ end }
    ensures { result ≡ record { place = place; len = end - place } }
{
    Chunk::new_unchecked(place, end - place)
}
