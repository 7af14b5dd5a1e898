//! Shared bumps, and calls that promise only what a further call needs.
ghost use Rattle.std.specs.Prelude.{All, IfOk, ◌≡◌};

use super::checks::{check, refused, same};
use bb_memory_bump::bump_allocator::{AllocationError, BaseAllocator, BumpAllocator};
use bb_memory_bump::shared_bump::{BumpParty, SharedBumpAllocator};
use bb_memory_traits::layout::Layout;
use std::alloc::Global;
use std::process::Abort;
use test_marks::refuse_memory;

/// A start, a size and the used space.
pub(super) type Of = (usize, usize, usize);

/// Makes a bump, if these numbers describe one.
fn bump_of((start, size, used): Of) -> Option<BumpAllocator> {
    if !BumpAllocator::can_make(start, size) {
        return None;
    }
    let mut bump = BumpAllocator::new(start, size);
    // Size 0 is refused, and uses nothing.
    let _ = bump.allocate(Layout::from_size_align(used, 1).ok()?);
    Some(bump)
}

fn figures_of(bump: &BumpAllocator) -> Of {
    (bump.start_address(), bump.total_space(), bump.used_space())
}

/// Checks that a bump is the one that was made, by its figures and by its text.
fn is_unchanged(rt: &(impl Abort + AllocGlobal), bump: &BumpAllocator, of: Of) {
    same(rt, figures_of(bump), of);
    let (start, size, used) = of;
    let text = format!(in rt.alloc();
        "BumpAllocator {{ start: {start}, size: {size}, current_position: {used} }}"
    );
    let got = format!(in rt.alloc(); "{bump}").expect(rt, "there is memory for a text");
    check(rt, got == text.expect(rt, "there is memory for a text"));
}

/// Shares a bump, a second time if memory ran out: then the bump came back unchanged. From here on,
/// requests for memory may fail.
pub(super) fn share(
    rt: &(impl Abort + AllocGlobal),
    of: Of,
    parties: u32,
) -> (SharedBumpAllocator, Vec<BumpParty>)
    ensures { All (λ party. party.allocator ≡ result.0) result.1.items }
{
    let bump = bump_of(of).expect(rt, "there is such a bump");
    match shared(rt.alloc(), bump, parties) {
        Ok(made) => {
            refuse_memory(rt.alloc());
            made
        }
        Err(bump) => {
            refused(rt);
            is_unchanged(rt, &bump, of);
            let made = shared(rt.alloc(), bump, parties).ok();
            made.expect(rt, "there is memory to share a bump")
        }
    }
}

/// Shares a bump. If that fails, the bump comes back.
fn shared(
    alloc: Global,
    bump: BumpAllocator,
    parties: u32,
) -> Result<(SharedBumpAllocator, Vec<BumpParty>), BumpAllocator>
    ensures { IfOk result (λ made. All (λ party. party.allocator ≡ made.0) made.1.items) }
{
    if parties == 0 {
        return Err(bump);
    }
    bump.share(alloc, parties).map_err(|(bump, _)| bump)
}

/// Removes the last of these parties, and returns it.
pub(super) fn last_of(
    rt: &impl Abort,
    shared: &SharedBumpAllocator,
    parties: &mut Vec<BumpParty>,
) -> BumpParty
    requires { All (λ party. party.allocator ≡ shared.now) parties.old.items }
    ensures others { All (λ party. party.allocator ≡ shared.now) parties.new.items }
    ensures own { result.allocator ≡ shared.now }
{
    let _ = shared;
    parties.pop().expect(rt, "there is a party")
}

/// Adds a party to these parties.
pub(super) fn add(
    rt: &impl Abort,
    shared: &SharedBumpAllocator,
    parties: &mut Vec<BumpParty>,
    party: BumpParty,
)
    requires others { All (λ party. party.allocator ≡ shared.now) parties.old.items }
    requires own { party.allocator ≡ shared.now }
    ensures { All (λ party. party.allocator ≡ shared.now) parties.new.items }
{
    let _ = shared;
    parties
        .push(party)
        .expect(rt, "there is memory for a party");
}

/// Shares a bump between two parties.
pub(super) fn two(
    rt: &(impl Abort + AllocGlobal),
    of: Of,
) -> (SharedBumpAllocator, BumpParty, BumpParty)
    ensures first { result.1.allocator ≡ result.0 }
    ensures second { result.2.allocator ≡ result.0 }
{
    let (shared, mut parties) = share(rt, of, 2);
    let second = last_of(rt, &shared, &mut parties);
    let first = last_of(rt, &shared, &mut parties);
    (shared, first, second)
}

/// Requests a chunk. Returns its place and length. If the numbers make no layout, returns an answer
/// that no bump gives.
pub(super) fn take(
    shared: &SharedBumpAllocator,
    party: &mut BumpParty,
    size: usize,
    align: usize,
) -> Result<(usize, usize), AllocationError>
    requires { party.old.allocator ≡ shared.now }
    ensures { party.new.allocator ≡ shared.now }
{
    let Ok(layout) = Layout::from_size_align(size, align) else {
        return Err(AllocationError::SizeTooLarge);
    };
    let chunk = shared.allocate(party, layout)?;
    Ok((chunk.place(), chunk.len()))
}

/// Returns the used space and the free space.
pub(super) fn spaces(shared: &SharedBumpAllocator, party: &mut BumpParty) -> (usize, usize)
    requires { party.old.allocator ≡ shared.now }
    ensures { party.new.allocator ≡ shared.now }
{
    (shared.used_space(party), shared.free_space(party))
}

/// Ends the sharing by one party, and returns the bump.
pub(super) fn end(shared: SharedBumpAllocator, party: BumpParty) -> Of
    requires { party.allocator ≡ shared }
{
    figures_of(&shared.into_owner(party))
}
