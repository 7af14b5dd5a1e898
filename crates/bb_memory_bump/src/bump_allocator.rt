//! An allocator of chunks one after another, which are all given back in one release.
ghost use Rattle.bb_memory_bump.specs.Bump.{AllocationError, Bump, Frees, IsBump, Layout, OutOfMemory, Takes, bump_of, bump_text};
ghost use Rattle.bb_memory_bump.specs.SharedBump.{fresh_party, scene_at};
ghost use Rattle.bb_memory_traits.specs.BumpObject.{IsInOrder, MayAllocate, StandsFor, bump_object, used_space};
ghost use Rattle.bb_memory_traits.specs.Chunk.{Chunk, IsInside, IsRegion, Region, chunk_end, region_at};
ghost use Rattle.bb_memory_traits.specs.Object.{AnswersAll, AnswersOnce, GivesOnly, IsRun, Step};
ghost use Rattle.bb_memory_traits.specs.declared.allocator.Command.{Command};
ghost use Rattle.bb_memory_traits.specs.declared.allocator.Reply.{Reply};
ghost use Rattle.std.specs.Prelude.{All, IfErr, IfOk, IsTrue, List, Ok, Some, [], length, slice_get, true, ℕ, ◌%◌, ◌+◌, ◌-◌, ◌<◌, ◌↔◌, ◌≡◌, ◌≤◌};

use crate::shared_bump::{BumpParty, SharedBumpAllocator};
pub use bb_memory_traits::allocator::{AllocationError, BaseAllocator};
use bb_memory_traits::layout::{Chunk, Layout};
use bb_memory_traits::region;
use std::alloc::{AllocError, Global};
use std::fmt;
use std::marker::Model;

/// Allocates chunks one after another, each at the first suitable place after the previous one. A
/// release gives back all chunks.
///
/// Example: `comments::bump` of `crates/examples`.
#[derive(Debug, Drop)]
pub struct BumpAllocator {
    start: usize,
    size: usize,
    /// The address just before the unused bytes. The next chunk begins after it.
    last: usize,
}

impl Model for BumpAllocator {
    ghost Value = { Bump };

    ghost view = { λ a. bump_of a.start a.size (a.last + 1 - a.start) };

    ghost invariant = { λ a. IsBump (bump_of a.start a.size (a.last + 1 - a.start))
        × (a.start ≤ a.last + 1) };
}

impl BumpAllocator {
    /// Makes an allocator over the region of `size` bytes at `start`, with no chunk in use. The
    /// start has to be greater than 0, and start plus size at most `usize::MAX`;
    /// [`BumpAllocator::can_make`] tests both.
    #[inline]
    pub fn new(start: usize, size: usize) -> Self
        requires { IsRegion (region_at start size) }
        ensures value { result ≡ bump_of start size 0 }
        ensures empty { StandsFor result.region result.used [] }
    {
        BumpAllocator {
            start,
            size,
            last: start - 1,
        }
    }

    /// Returns whether `new` may be called with these arguments.
    pub fn can_make(start: usize, size: usize) -> bool
        ensures { IsTrue result ↔ IsRegion (region_at start size) }
    {
        region::Region::can_make(start, size)
    }

    /// Returns an allocator over the region of `size` bytes at `start`, of which `position` bytes
    /// are used.
    pub(crate) fn at_position(start: usize, size: usize, position: usize) -> Self
        requires region { IsRegion (region_at start size) }
        requires position { position ≤ size }
        ensures { result ≡ bump_of start size position }
    {
        BumpAllocator {
            start,
            size,
            last: start - 1 + position,
        }
    }

    /// Returns the place where the region starts.
    #[inline]
    pub fn start_address(&self) -> usize
        ensures value { result ≡ self.now.region.start }
        ensures is_region { IsRegion self.now.region }
    {
        self.start
    }

    /// Returns the number of used bytes: those from the region's start to the end of the last
    /// chunk, padding included.
    #[inline]
    pub fn used_space(&self) -> usize
        ensures value { result ≡ self.now.used }
        ensures of_live { (live : List Chunk) → StandsFor self.now.region self.now.used live
            → result ≡ used_space self.now.region live }
    {
        self.last + 1 - self.start
    }

    /// Returns the number of bytes after the last chunk.
    #[inline]
    pub fn free_space(&self) -> usize
        ensures { self.now.used + result ≡ self.now.region.size }
    {
        self.start + self.size - (self.last + 1)
    }

    /// Returns the size of the region in bytes.
    #[inline]
    pub fn total_space(&self) -> usize
        ensures { result ≡ self.now.region.size }
    {
        self.size
    }

    /// Shares the bump among `parties` parties; there has to be at least one. What was used stays
    /// used, and each party begins with an empty log. Fails only with `OutOfMemory`, if memory for
    /// the shared word or for the parties ran out, and then returns the allocator unchanged.
    pub fn share(
        self,
        alloc: Global,
        parties: u32,
    ) -> Result<(SharedBumpAllocator, Vec<BumpParty>), (BumpAllocator, AllocationError)>
        requires parties { 1 ≤ parties }

        // The machine begins with this region, position and number of parties.
        ensures scene { IfOk result (λ shared.
            shared.0.scene ≡ scene_at self.region self.used parties) }

        // All parties belong to this shared bump, are numbered from 0, and have empty logs. There
        // are as many as requested.
        ensures parties { IfOk result (λ shared. shared.0.scene.parties ≡ parties) }
        ensures as_many { IfOk result (λ shared. length shared.1.items ≡ parties) }
        ensures fresh { IfOk result (λ shared. (number : ℕ) → number < parties
            → slice_get shared.1.items number ≡ Some (fresh_party shared.0 number)) }
        ensures theirs { IfOk result (λ shared.
            All (λ party. party.allocator ≡ shared.0) shared.1.items) }

        ensures unchanged { IfErr result (λ refused. refused.0 ≡ self) }
        ensures refused { IfErr result (λ refused. refused.1 ≡ OutOfMemory) }
    {
        let start = self.start;
        let size = self.size;
        let position = self.used_space();
        match SharedBumpAllocator::open(alloc, start, size, position, parties) {
            Ok(shared) => Ok(shared),
            Err(AllocError) => Err((self, AllocationError::OutOfMemory)),
        }
    }
}

impl fmt::Display for BumpAllocator {
    ghost output = { λ bump. Some (bump_text bump) };

    fn fmt<W: fmt::Write>(&self, f: &mut fmt::Formatter<W>) -> fmt::Result {
        let start = self.start;
        let size = self.size;
        let current_position = self.used_space();
        write!(
            f,
            "BumpAllocator {{ start: {start}, size: {size}, current_position: {current_position} }}"
        )
    }
}

impl BaseAllocator for BumpAllocator {
    const RELEASE_EMPTIES: bool = true;

    ghost RELEASE_EMPTIES = { true };

    ghost Geometry = { Region };

    ghost geometry = { λ bump. bump.region };

    ghost region_of = { λ region. region };

    ghost may_allocate = { MayAllocate };

    ghost stands_for = { λ bump live. StandsFor bump.region bump.used live };

    ghost may_release = { λ _ _. Unit {0} };

    ghost Note = { Unit {0} };

    ghost note = { λ _. tt };

    ghost note_after = { λ _ _ note. note };

    ghost takes = { Takes };

    ghost frees = { λ bump _ _ new. Frees bump new };

    /// Allocates a chunk of exactly `layout.size()` bytes, at the first multiple of
    /// `layout.align()` at or after the end of the used bytes. Fails with `SizeIsZero` if the size
    /// is 0, and with `OutOfMemory` if the chunk would end after the region. A refusal leaves the
    /// allocator unchanged.
    #[inline(always)]
    fn allocate(&mut self, layout: Layout) -> Result<Chunk, AllocationError> {
        if layout.size() == 0 {
            return Err(AllocationError::SizeIsZero);
        }
        let end = self.start + self.size;
        let Some(chunk) = Chunk::at_or_after(self.last + 1, layout, end) else {
            return Err(AllocationError::OutOfMemory);
        };
        self.last = chunk.end() - 1;
        Ok(chunk)
    }

    /// Gives back all chunks. Both arguments are ignored.
    #[inline(always)]
    fn deallocate(&mut self, _place: usize, _layout: Layout) {
        self.last = self.start - 1;
    }

    fn stands_for_some_list(&self) {
        // Proof hint, here and below: brings the type's invariant into scope.
        let _ = &self.start;
    }

    fn answers_fit(&self) {
        let _ = &self.start;
    }

    ghost releases = { λ bump live position chunk stands at. tt };

    ghost sound = { λ bump live stands. stands.sound };
}

/// States what the definition of the bump object means for every region and every list of commands.
/// There is exactly one answer to each request. An allocated chunk begins at a multiple of the
/// requested alignment, has exactly the requested size, and begins at or after the end of every
/// chunk of the list, if the list is in order. Each run from a live list that a bump stands for
/// leads to another such list, which is sound. The function does nothing: its contract is the law.
pub fn bump_object_law()
    ensures some_answer { (region : Region) → AnswersAll (bump_object region) }
    ensures one_answer { (region : Region) → AnswersOnce (bump_object region) }
    ensures aligned { (region : Region) → GivesOnly (bump_object region)
        (λ layout chunk. chunk.place % layout.align ≡ 0) }
    ensures exact_size { (region : Region) → GivesOnly (bump_object region)
        (λ layout chunk. chunk.len ≡ layout.size) }
    ensures inside { (region : Region) (live : List Chunk) (layout : Layout) (chunk : Chunk)
        → IsInOrder region.start live → MayAllocate region live layout (Ok chunk)
        → IsInside region chunk }
    ensures after_all { (region : Region) (live : List Chunk) (layout : Layout) (chunk : Chunk)
        → IsInOrder region.start live → MayAllocate region live layout (Ok chunk)
        → All (λ other. chunk_end other ≤ chunk.place) live }
    ensures keeps_sound { (region : Region) (position : ℕ) (live new : List Chunk)
        (commands : List Command) (replies : List Reply)
        → StandsFor region position live
        → IsRun (Step (bump_object region)) live commands replies new
        → (left : ℕ) × StandsFor region left new }
{}
