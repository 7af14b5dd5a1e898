//! Threads that carve up one bump, and the bump that one owner has afterwards.
ghost use Rattle.bb_memory_bump.specs.SharedBump.{BumpParty, MayTake, scene_at};
ghost use Rattle.std.specs.Prelude.{All, IfOk, [], length, ◌≡◌};
ghost use Rattle.thread_layers.specs.Threads.{Asks, HasAsked, IsCarved};

use bb_memory_bump::bump_allocator::BumpAllocator;
use bb_memory_bump::shared_bump::{BumpParty, SharedBumpAllocator};
use bb_memory_traits::layout::Layout;
use std::alloc::{AllocError, Global};
use std::thread;
use std::thread::Threads;

/// Requests a chunk, and returns the party.
pub fn carve(shared: &SharedBumpAllocator, party: BumpParty, layout: Layout) -> BumpParty
    requires { party.allocator ≡ shared.now }
    ensures party { result.allocator ≡ shared.entry.now }
    ensures number { result.number ≡ party.number }
    ensures once { Asks MayTake layout party result }
    ensures asked { party.log ≡ [] → HasAsked layout result }
{
    let mut party = party;
    let _ = shared.allocate(&mut party, layout);
    party
}

/// Runs four workers at the same time, each of which requests one chunk of a bump. Afterwards the
/// bump has one owner again, and its used part is exactly the greatest position that one of the
/// four has seen. Fails only if memory ran out.
pub fn carved_by_four<R: Threads + Sync>(
    rt: &R,
    alloc: Global,
    bump: BumpAllocator,
    layout: Layout,
) -> Result<BumpAllocator, AllocError>
    ensures region { IfOk result (λ again. again.region ≡ bump.region) }
    ensures carved { IfOk result (λ again. IsCarved bump.region bump.used 4 layout again.used) }
{
    let (shared, parties) = shared_by_four(alloc, bump)?;
    let back = thread::map_vec(rt, parties, &|party| carve(&shared, party, layout))?;
    Ok(shared.into_owner_all(back))
}

/// Shares the bump among four parties, which have made no step. Fails only if memory ran out.
fn shared_by_four(
    alloc: Global,
    bump: BumpAllocator,
) -> Result<(SharedBumpAllocator, Vec<BumpParty>), AllocError>
    ensures scene { IfOk result (λ shared. shared.0.scene ≡ scene_at bump.region bump.used 4) }
    ensures four { IfOk result (λ shared. length shared.1.items ≡ 4) }
    ensures theirs { IfOk result (λ shared.
        All (λ party. party.allocator ≡ shared.0) shared.1.items) }
    ensures none { IfOk result (λ shared. All (λ party. party.log ≡ []) shared.1.items) }
{
    let Ok(made) = bump.share(alloc, 4) else {
        return Err(AllocError);
    };
    Ok(made)
}
