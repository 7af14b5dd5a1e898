//! Arenas of two parties: each serves parts of its own chunk, and takes nothing else from the bump
//! that they share.
ghost use Rattle.std.specs.Prelude.{◌≡◌};

use super::bumps::two;
use super::checks::{chunk, layout, same};
use bb_memory_bump::bump_allocator::AllocationError::{self, OutOfMemory, SizeIsZero};
use bb_memory_bump::shared_bump::{BumpParty, SharedBumpAllocator};
use std::process::Abort;
use thread_layers::thread_arena::{ThreadArena, meet};

/// Makes an arena for a party.
fn arena(
    rt: &impl Abort,
    shared: &SharedBumpAllocator,
    party: BumpParty,
    size: usize,
    align: usize,
) -> ThreadArena
    requires { party.allocator ≡ shared.now }
    ensures { result.party.allocator ≡ shared.entry.now }
{
    let arena = ThreadArena::new(shared, party, layout(rt, size, align)).ok();
    arena.expect(rt, "there is room for an arena")
}

/// Requests a chunk from an arena. Returns its place and length.
fn take(
    rt: &impl Abort,
    arena: &mut ThreadArena,
    size: usize,
    align: usize,
) -> Result<(usize, usize), AllocationError>
    ensures { arena.new.party ≡ arena.old.party }
{
    let chunk = arena.allocate(layout(rt, size, align))?;
    Ok((chunk.place(), chunk.len()))
}

/// One arena is filled, reset and filled by one request. The rest of the bump makes another arena,
/// and an arena one byte larger is refused.
#[test]
fn arenas_of_two_parties(rt: HostRuntime) {
    let (shared, one, other) = two(&rt, (4096, 1024, 0));
    let (rt, shared) = (&rt, &shared);
    let mut one = arena(rt, shared, one, 100, 1);
    let mut other = arena(rt, shared, other, 200, 64);
    same(rt, one.whole(), chunk(rt, 4096, 100));
    same(rt, other.whole(), chunk(rt, 4224, 200));
    same(rt, take(rt, &mut one, 48, 4), Ok((4096, 48)));
    same(rt, take(rt, &mut one, 10, 32), Ok((4160, 10)));
    same(rt, take(rt, &mut one, 0, 1), Err(SizeIsZero));
    same(rt, take(rt, &mut one, 27, 1), Err(OutOfMemory));
    same(rt, take(rt, &mut one, 26, 1), Ok((4170, 26)));
    same(rt, take(rt, &mut one, 1, 1), Err(OutOfMemory));
    one.reset();
    same(rt, take(rt, &mut one, 100, 1), Ok((4096, 100)));
    same(rt, take(rt, &mut other, 1, 1), Ok((4224, 1)));
    meet(shared, &mut one, &mut other);
    same(rt, take(rt, &mut other, 1, 1), Ok((4225, 1)));
    let large = ThreadArena::new(shared, other.into_party(), layout(rt, 697, 1));
    let (party, cause) = large.err().expect(rt, "there is less room");
    same(rt, cause, OutOfMemory);
    let rest = arena(rt, shared, party, 696, 1);
    same(rt, rest.whole(), chunk(rt, 4424, 696));
}
