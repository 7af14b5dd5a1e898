//! A limit on the number of chunks in use, over any allocator.
use bb_memory_lists::lists::{append_law, remove_law};
use bb_memory_traits::allocator::{
    AllocationError, AllocationGrowError, AllocationShrinkError, Allocator, BaseAllocator,
};
use bb_memory_traits::layout::{Chunk, Layout};
use std::marker::Model;

/// An allocator with at most `budget` chunks in use. A budget is itself an allocator, so budgets
/// nest.
#[derive(Drop)]
pub struct ChunkBudget<A: BaseAllocator + Drop> {
    inner: A,
    budget: usize,
    out: usize,
}

impl<A: BaseAllocator + Drop> Model for ChunkBudget<A> {
    ghost use Rattle.bb_memory_traits.specs.Chunk.{Chunk};
    ghost use Rattle.layers.specs.Budgets.{Budgeted};
    ghost use Rattle.std.specs.Prelude.{List, length, ◌≡◌, ◌≤◌};

    ghost Value = { Budgeted A };

    ghost view = { λ b. record { inner = b.inner; budget = b.budget; out = b.out } };

    ghost invariant = { λ b. (b.out ≤ b.budget)
        × ((live : List Chunk) × A.stands_for b.inner live × (length live ≡ b.out)) };
}

impl<A: BaseAllocator + Drop> ChunkBudget<A> {
    ghost use Rattle.bb_memory_traits.specs.Chunk.{Chunk};
    ghost use Rattle.std.specs.Prelude.{List, [], length, ◌≡◌, ◌≤◌};

    /// Makes a budget of chunks, over an allocator with no chunk in use.
    pub fn new(inner: A, budget: usize) -> Self
        requires { A.stands_for inner [] }
        ensures value { result ≡ record { inner = inner; budget = budget; out = 0 } }
        ensures empty { ⟦<ChunkBudget<A> as BaseAllocator>⟧.stands_for result [] }
    {
        ChunkBudget {
            inner,
            budget,
            out: 0,
        }
    }

    /// Returns the number of chunks that are in use: the length of each live list that the
    /// allocator stands for, and at most the budget.
    pub fn out(&self) -> usize
        ensures value { result ≡ self.now.out }
        ensures within { result ≤ self.now.budget }
        ensures of_live { (live : List Chunk)
            → ⟦<ChunkBudget<A> as BaseAllocator>⟧.stands_for self.now live
            → length live ≡ result }
    {
        self.out
    }
}

impl<A: BaseAllocator + Drop> BaseAllocator for ChunkBudget<A> {
    ghost use Rattle.bb_memory_traits.specs.Chunk.{Chunk};
    ghost use Rattle.bb_memory_traits.specs.declared.allocator.AllocationError.TheVariants.{OutOfMemory};
    ghost use Rattle.layers.specs.Budgets.{Limited, TakesWithin};
    ghost use Rattle.std.specs.Prelude.{Err, List, Some, length, refl, slice_get, ℕ, ◌<◌, ◌≡◌, ◌≤◌, ◌⊎◌};

    const RELEASE_EMPTIES: bool = A::RELEASE_EMPTIES;

    ghost RELEASE_EMPTIES = { A.RELEASE_EMPTIES };

    ghost Geometry = { Limited A.Geometry };

    ghost geometry = { λ b. record { inner = A.geometry b.inner; budget = b.budget } };

    ghost region_of = { λ g. A.region_of g.inner };

    // If fewer chunks are in use than the budget, the answer is that of the allocator below;
    // otherwise the request is refused.
    ghost may_allocate = { λ g live layout answer.
        ((length live < g.budget) × A.may_allocate g.inner live layout answer)
        ⊎ ((g.budget ≤ length live) × (answer ≡ Err OutOfMemory)) };

    ghost stands_for = { λ b live. A.stands_for b.inner live × (length live ≡ b.out) };

    ghost may_release = { λ b place. (live : List Chunk) × (position : ℕ) × (chunk : Chunk)
        × A.stands_for b.inner live × (length live ≡ b.out)
        × (slice_get live position ≡ Some chunk) × (chunk.place ≡ place) };

    ghost Note = { Unit {0} };

    ghost note = { λ _. tt };

    ghost note_after = { λ _ _ note. note };

    ghost takes = { TakesWithin A.takes };

    ghost frees = { λ old place layout new. A.frees old.inner place layout new.inner };

    /// Allocates from the allocator below. Fails with `OutOfMemory` if the budget is spent, and
    /// then makes no request.
    fn allocate(&mut self, layout: Layout) -> Result<Chunk, AllocationError> {
        if self.out == self.budget {
            return Err(AllocationError::OutOfMemory);
        }
        append_law::<Chunk>();
        let chunk = self.inner.allocate(layout)?;
        self.out += 1;
        Ok(chunk)
    }

    fn deallocate(&mut self, place: usize, layout: Layout) {
        remove_law::<Chunk>();
        self.inner.deallocate(place, layout);
        self.out = if A::RELEASE_EMPTIES { 0 } else { self.out - 1 };
    }

    fn stands_for_some_list(&self) {
        let _ = &self.out;
    }

    fn answers_fit(&self) {
        self.inner.answers_fit();
    }

    ghost releases = { λ b live position chunk stands at.
        (live, position, chunk, stands.0, stands.1, at, refl) };

    ghost sound = { λ b live stands. A.sound b.inner live stands.0 };
}

impl<A: Allocator + Drop> Allocator for ChunkBudget<A> {
    ghost use Rattle.layers.specs.Budgets.{Limited};
    ghost use Rattle.std.proofs.Common.{ap, subst};

    ghost ResizeKey = { A.ResizeKey };

    ghost resize_key = { λ b. A.resize_key b.inner };

    ghost reserved_at = { A.reserved_at };

    ghost may_grow = { A.may_grow };

    ghost may_shrink = { A.may_shrink };

    ghost grows = { λ one place old new answer after.
        A.grows one.inner place old new answer after.inner };

    ghost shrinks = { λ one place old new answer after.
        A.shrinks one.inner place old new answer after.inner };

    fn reserved(&self, place: usize) -> usize {
        self.inner.reserved(place)
    }

    fn grow(
        &mut self,
        place: usize,
        old: Layout,
        new: Layout,
    ) -> Result<Chunk, AllocationGrowError> {
        self.inner.grow(place, old, new)
    }

    fn shrink(
        &mut self,
        place: usize,
        old: Layout,
        new: Layout,
    ) -> Result<Chunk, AllocationShrinkError> {
        self.inner.shrink(place, old, new)
    }

    ghost fixed = { λ one other same. A.fixed one.inner other.inner
        (ap (λ (g : Limited A.Geometry). g.inner) same) };

    ghost closes_up = { A.closes_up };

    ghost distinct = { λ b live stands. A.distinct b.inner live stands.0 };

    ghost covered = { λ b live position chunk stands at.
        A.covered b.inner live position chunk stands.0 at };

    ghost only_live = { λ b live place stands held. A.only_live b.inner live place stands.0
        (subst (A.may_release b.inner) held.6
        (A.releases b.inner held.0 held.1 held.2 held.3 held.5)) };
}
