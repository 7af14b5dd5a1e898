//! An arena of a thread: a bump over a chunk of the bump that threads share, which serves its
//! requests without a step there.
ghost use Rattle.bb_memory_bump.specs.SharedBump.{HaveChunksApart, MayTake};
ghost use Rattle.bb_memory_bump_machine.specs.BumpLogs.{BumpLog, chunks_won};
ghost use Rattle.bb_memory_traits.specs.BumpObject.{chunk_at_or_after};
ghost use Rattle.bb_memory_traits.specs.Chunk.{AreApart, Chunk, IsInside, IsPart, chunk_end};
ghost use Rattle.std.specs.Prelude.{Err, IfErr, IfOk, IsOk, Ok, OnErr, Some, length, slice_get, slice_index_or, ℕ, ◌+◌, ◌<◌, ◌↔◌, ◌≡◌, ◌≤◌};
ghost use Rattle.thread_layers.specs.Threads.{HaveNothingShared, Serves};

use bb_memory_bump::bump_allocator::{AllocationError, BaseAllocator, BumpAllocator};
use bb_memory_bump::shared_bump::{BumpParty, SharedBumpAllocator};
use bb_memory_lists::lists::append_law;
use bb_memory_traits::layout::{Chunk, Layout, parts_law};
use std::marker::Model;

/// A bump over a chunk of a shared bump, for one thread with its party. A request makes no atomic
/// step, and waits for nobody.
#[derive(Drop)]
pub struct ThreadArena {
    party: BumpParty,
    whole: Chunk,
    bump: BumpAllocator,
}

impl Model for ThreadArena {
    ghost use Rattle.bb_memory_bump_machine.specs.BumpLogs.{chunks_won};
    ghost use Rattle.bb_memory_traits.specs.Chunk.{region_at};
    ghost use Rattle.std.specs.Prelude.{Some, slice_get, ℕ, ◌≡◌};
    ghost use Rattle.thread_layers.specs.Threads.{Arena};

    ghost Value = { Arena };

    ghost view = { λ a. record { party = a.party; whole = a.whole; used = a.bump.used } };

    ghost invariant = { λ a. (a.bump.region ≡ region_at a.whole.place a.whole.len)
        × ((index : ℕ) × (slice_get (chunks_won a.party.log) index ≡ Some a.whole)) };
}

impl ThreadArena {
    /// Takes a chunk of this layout for the party's thread. The errors are those of the shared
    /// bump, and return the party.
    pub fn new(
        shared: &SharedBumpAllocator,
        party: BumpParty,
        layout: Layout,
    ) -> Result<ThreadArena, (BumpParty, AllocationError)>
        requires { party.allocator ≡ shared.now }
        ensures theirs { IfOk result (λ arena. arena.party.allocator ≡ shared.now) }
        ensures taken { IfOk result (λ arena. MayTake party layout (Ok arena.whole) arena.party) }
        ensures inside { IfOk result (λ arena. IsInside shared.now.scene.region arena.whole) }
        ensures exact_size { IfOk result (λ arena. arena.whole.len ≡ layout.size) }
        ensures unused { IfOk result (λ arena. arena.used ≡ 0) }
        ensures refused { IfErr result (λ refused. MayTake party layout (Err refused.1) refused.0) }
        ensures handed_back { IfErr result (λ refused. refused.0.allocator ≡ shared.now) }
    {
        let mut party = party;
        append_law::<Chunk>();
        match shared.allocate(&mut party, layout) {
            Ok(whole) => {
                let bump = BumpAllocator::new(whole.place(), whole.len());
                Ok(ThreadArena { party, whole, bump })
            }
            Err(error) => Err((party, error)),
        }
    }

    /// Returns the chunk that contains all chunks of this arena.
    pub fn whole(&self) -> Chunk
        ensures { result ≡ self.now.whole }
    {
        self.whole
    }

    /// Requests a chunk of the arena. Fails, in this order, with `SizeIsZero` if the size is 0, and
    /// with `OutOfMemory` if the chunk would end after the arena's. A refusal changes nothing.
    pub fn allocate(&mut self, layout: Layout) -> Result<Chunk, AllocationError>
        ensures served { IfOk result (Serves self.old layout self.new) }
        ensures unchanged { OnErr result (self.new ≡ self.old) }
        ensures accepted { IsOk result ↔ ((0 < layout.size)
            × (chunk_end (chunk_at_or_after (self.old.whole.place + self.old.used) layout)
            ≤ chunk_end self.old.whole)) }
        ensures size_is_zero { (result ≡ Err AllocationError.SizeIsZero) ↔ (layout.size ≡ 0) }
        ensures out_of_memory { (result ≡ Err AllocationError.OutOfMemory) ↔ ((0 < layout.size)
            × (chunk_end self.old.whole
            < chunk_end (chunk_at_or_after (self.old.whole.place + self.old.used) layout))) }
    {
        self.bump.allocate(layout)
    }

    /// Returns the party. The arena's own chunk stays used.
    pub fn into_party(self) -> BumpParty
        ensures { result ≡ self.party }
    {
        self.party
    }

    /// Gives back all chunks of the arena. Its own chunk stays the thread's.
    pub fn reset(&mut self)
        ensures { self.new ≡ record self.old { used = 0 } }
    {
        self.bump.deallocate(self.whole.place(), Layout::empty());
    }
}

/// Makes two arenas of one shared bump meet: their chunks are apart, so each chunk of one is apart
/// from each of the other.
pub fn meet(shared: &SharedBumpAllocator, one: &mut ThreadArena, other: &mut ThreadArena)
    requires one { one.old.party.allocator ≡ shared.now }
    requires other { other.old.party.allocator ≡ shared.now }
    ensures wholes { AreApart one.old.whole other.old.whole }
    ensures apart { (chunk its : Chunk) → IsPart chunk one.old.whole
        → IsPart its other.old.whole → AreApart chunk its }
    ensures one { (one.new.whole ≡ one.old.whole) × (one.new.used ≡ one.old.used) }
    ensures other { (other.new.whole ≡ other.old.whole) × (other.new.used ≡ other.old.used) }
    ensures theirs { (one.new.party.allocator ≡ shared.now)
        × (other.new.party.allocator ≡ shared.now) }
{
    parts_law();
    won_apart_law();
    shared.meet(&mut one.party, &mut other.party);
}

/// States that two chunks, one of each of two logs whose chunks are apart, are apart. The function
/// does nothing: its contract is the law.
#[tactic(auto, unfolding(crate::specs::Threads::HaveNothingShared))]
fn won_apart_law()
    ensures { (log its_log : BumpLog) (i j : ℕ) (chunk its : Chunk)
        → HaveChunksApart log its_log → slice_get (chunks_won log) i ≡ Some chunk
        → slice_get (chunks_won its_log) j ≡ Some its
        → AreApart chunk its }
{
    contained_law();
}

/// States that two chunks, one of each of two logs whose chunks are apart, share nothing. The
/// function does nothing: its contract is the law.
#[tactic(auto, using(crate::specs::Threads::contained))]
fn contained_law()
    ensures { (log its_log : BumpLog) (i j : ℕ) (chunk its : Chunk)
        → HaveChunksApart log its_log → slice_get (chunks_won log) i ≡ Some chunk
        → slice_get (chunks_won its_log) j ≡ Some its
        → HaveNothingShared chunk its }
{
    index_law();
}

/// States the same for the chunks at two indices of the logs. The function does nothing: its
/// contract is the law.
#[tactic(auto, unfolding(crate::specs::Threads::HaveNothingShared))]
fn index_law()
    ensures { (log its_log : BumpLog) (i j : ℕ) (d e : Chunk) → HaveChunksApart log its_log
        → i < length (chunks_won log) → j < length (chunks_won its_log)
        → HaveNothingShared (slice_index_or (chunks_won log) i d)
        (slice_index_or (chunks_won its_log) j e) }
{}
