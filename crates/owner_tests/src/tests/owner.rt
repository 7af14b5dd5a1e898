//! An owner of an allocator and its region. Its calls have no clause.
ghost use Rattle.bb_memory_traits.specs.Chunk.{region_at};
ghost use Rattle.bb_memory_traits.specs.HeldBytes.{held_region};
ghost use Rattle.std.specs.Prelude.{IfSome, Some, [], slice_get, ◌%◌, ◌≡◌};

use bb_memory_base::allocator::{run_base, run_full};
use bb_memory_traits::allocator::{Allocator, BaseAllocator, Command, Reply};
use bb_memory_traits::layout::{Chunk, Layout};
use bb_memory_traits::region::Region;
use std::alloc::{AllocError, Global};
use std::marker::Model;

/// Makes a region of `size` bytes at `start`, each of them `byte`, or `None` if memory ran out.
pub(super) fn region_of(alloc: Global, start: usize, size: usize, byte: u8) -> Option<Region>
    ensures { IfSome result (λ region. held_region region ≡ region_at start size) }
{
    if !Region::can_make(start, size) {
        return None;
    }
    let bytes = vec![in alloc; byte; size].ok()?;
    Some(Region::new(start, bytes))
}

/// An allocator, its region, whose bytes are 7 at first, and its live chunks.
#[derive(Drop)]
pub(super) struct Owner<A: BaseAllocator + Drop> {
    allocator: A,
    region: Region,
    live: Vec<Chunk>,
}

impl<A: BaseAllocator + Drop> Model for Owner<A> {
    ghost use Rattle.bb_memory_traits.specs.HeldBytes.{held_region};
    ghost use Rattle.std.specs.Prelude.{◌≡◌};

    // An owner promises nothing.
    ghost Value = { Unit {0} };

    ghost view = { λ _. tt };

    ghost invariant = { λ o. A.stands_for o.allocator o.live.items
        × (held_region o.region ≡ A.region_of (A.geometry o.allocator)) };
}

impl<A: BaseAllocator + Drop> Owner<A> {
    /// Makes the owner of a fresh allocator, with room for sixteen live chunks.
    pub(super) fn new(alloc: Global, allocator: A, start: usize, size: usize) -> Option<Owner<A>>
        requires fresh { A.stands_for allocator [] }
        requires region { A.region_of (A.geometry allocator) ≡ region_at start size }
    {
        let region = region_of(alloc, start, size, 7)?;
        let live = Vec::with_capacity(alloc, 16).ok()?;
        Some(Owner {
            allocator,
            region,
            live,
        })
    }

    pub(super) fn allocator(&self) -> &A {
        &self.allocator
    }

    /// Returns whether the bytes from one place up to the other are zero, and every other byte is a
    /// 7.
    pub(super) fn has_zeros(&self, from: usize, to: usize) -> bool {
        let mut place = self.region.start_address();
        for byte in self.region.bytes() {
            let wanted = if from <= place && place < to { 0 } else { 7 };
            if *byte != wanted {
                return false;
            }
            place = place.saturating_add(1);
        }
        true
    }

    pub(super) fn number_of_live(&self) -> usize {
        self.live.len()
    }

    /// Returns whether exactly `count` chunks are live, at `place` and each `stride` bytes further
    /// on.
    pub(super) fn are_at(&self, place: usize, stride: usize, count: usize) -> bool {
        let mut place = place;
        for _ in 0..count {
            if !self.live.iter().any(|chunk| chunk.place() == place) {
                return false;
            }
            place = place.saturating_add(stride);
        }
        self.live.len() == count
    }

    pub(super) fn allocate(&mut self, layout: Layout, zeroed: bool) -> Reply {
        if self.live.reserve(1).is_err() {
            return Reply::Passed;
        }
        let given = if zeroed {
            self.allocator.allocate_zeroed(layout, &mut self.region)
        } else {
            self.allocator.allocate(layout)
        };
        match given {
            Ok(chunk) => {
                self.live.push_reserved(chunk);
                Reply::Chunk(chunk)
            }
            Err(error) => Reply::Refused(error),
        }
    }

    pub(super) fn deallocate(&mut self, position: usize) -> Reply {
        let Some(chunk) = chunk_at(&self.live, position) else {
            return Reply::Passed;
        };
        self.allocator.deallocate(chunk.place(), Layout::empty());
        if A::RELEASE_EMPTIES {
            self.live.clear();
        } else {
            self.live.remove(position);
        }
        Reply::Released
    }

    pub(super) fn run_base(&mut self, commands: &[Command]) -> Result<Vec<Reply>, AllocError> {
        run_base(&mut self.allocator, &mut self.live, commands)
    }
}

impl<A: Allocator + Drop> Owner<A> {
    pub(super) fn grow(
        &mut self,
        position: usize,
        old: Layout,
        new: Layout,
        zeroed: bool,
    ) -> Reply {
        let Some(chunk) = resized_at(&self.live, position, old) else {
            return Reply::Passed;
        };
        let place = chunk.place();
        let grown = if zeroed {
            self.allocator
                .grow_zeroed(place, old, new, &mut self.region)
        } else {
            self.allocator.grow(place, old, new)
        };
        match grown {
            Ok(grown) => {
                self.live[position] = grown;
                Reply::Chunk(grown)
            }
            Err(error) => Reply::GrowRefused(error),
        }
    }

    pub(super) fn shrink(&mut self, position: usize, old: Layout, new: Layout) -> Reply {
        let Some(chunk) = resized_at(&self.live, position, old) else {
            return Reply::Passed;
        };
        if old.size() > self.allocator.reserved(chunk.place()) {
            return Reply::Passed;
        }
        match self.allocator.shrink(chunk.place(), old, new) {
            Ok(shrunk) => {
                self.live[position] = shrunk;
                Reply::Chunk(shrunk)
            }
            Err(error) => Reply::ShrinkRefused(error),
        }
    }

    /// Returns how many bytes are reserved for the chunk at a position.
    pub(super) fn reserved(&self, position: usize) -> Option<usize> {
        let chunk = chunk_at(&self.live, position)?;
        Some(self.allocator.reserved(chunk.place()))
    }

    pub(super) fn run_full(&mut self, commands: &[Command]) -> Result<Vec<Reply>, AllocError> {
        run_full(&mut self.allocator, &mut self.live, commands)
    }
}

/// Returns the live chunk at a position.
fn chunk_at(live: &Vec<Chunk>, position: usize) -> Option<Chunk>
    ensures { IfSome result (λ chunk. slice_get live.now.items position ≡ Some chunk) }
{
    live.get(position).copied()
}

/// Returns the live chunk at a position, if its place is a multiple of the old alignment.
fn resized_at(live: &Vec<Chunk>, position: usize, old: Layout) -> Option<Chunk>
    ensures at { IfSome result (λ chunk. slice_get live.now.items position ≡ Some chunk) }
    ensures aligned { IfSome result (λ chunk. chunk.place % old.align ≡ 0) }
{
    let chunk = chunk_at(live, position)?;
    (chunk.place() % old.align() == 0).then_some(chunk)
}
