//! A shared bump in handles: one for the bump and the parties that haven't joined, and one for each party that has.
ghost use Rattle.bb_memory_bump.specs.SharedBump.{BumpParty};
ghost use Rattle.bb_memory_c.specs.SharedBumps.{AreFreshOver, AreUnjoined, BumpParties, GivesChunk, IsShareable, Knows, ShowsLoad, TellsDestroy, TellsReset, sharing_bump};
ghost use Rattle.bb_memory_c_calls.specs.Calls.{Answers, AnswersDestroy, AnswersFree, AnswersInfo, AnswersJoin, AnswersLeave, AnswersMake, AnswersRequest, IfBoth, IsThere};
ghost use Rattle.bb_memory_c_calls.specs.declared.code.TheConstants.{UNINITIALIZED as uninitialized};
ghost use Rattle.bb_memory_traits.specs.Chunk.{region_at};
ghost use Rattle.std.specs.Arc.{arc_value};
ghost use Rattle.std.specs.Prelude.{IfSome, vec_capacity, ◌≡◌};

use crate::handle::{BumpPartyHandle, Handle, SharedBumpHandle};
use bb_memory_bump::bump_allocator::{AllocationError, BumpAllocator};
use bb_memory_bump::shared_bump::{BumpParty, SharedBumpAllocator};
use bb_memory_c_calls::answer::{Answer, BumpInfo};
use bb_memory_c_calls::kind::{Ends, Gives, Shares};
use bb_memory_c_calls::{call, code};
use bb_memory_traits::layout::{Chunk, Layout};
use std::alloc::Global;
use std::marker::Model;
use std::sync::Arc;

/// One party of a shared bump.
#[derive(Drop)]
pub struct JoinedBump {
    pub(crate) bump: Arc<SharedBumpAllocator, Global>,
    pub(crate) party: BumpParty,
}

impl Model for JoinedBump {
    ghost Value = { BumpParty };

    ghost view = { λ s. s.party };

    ghost invariant = { λ s. s.party.allocator ≡ arc_value s.bump };
}

impl Gives<BumpInfo> for JoinedBump {
    ghost may_give = { GivesChunk };

    ghost may_show = { ShowsLoad };

    fn give(&mut self, layout: Layout) -> Result<Chunk, AllocationError> {
        self.bump.allocate(&mut self.party, layout)
    }

    fn show(&mut self) -> BumpInfo {
        let bump = &*self.bump;
        let used_space = bump.used_space(&mut self.party);
        let total_space = bump.total_space();
        BumpInfo {
            start_address: bump.start_address(),
            used_space,
            free_space: total_space.saturating_sub(used_space),
            total_space,
        }
    }
}

/// A shared bump, how many parties it has, and those of them that haven't joined.
#[derive(Drop)]
pub struct BumpParties {
    pub(crate) bump: Arc<SharedBumpAllocator, Global>,
    pub(crate) count: u32,
    pub(crate) parties: Vec<BumpParty>,
}

impl Model for BumpParties {
    ghost Value = { BumpParties };

    ghost view = { λ s. record { shared = arc_value s.bump; parties = s.parties.items } };

    ghost invariant = { λ s. AreUnjoined (arc_value s.bump) s.count (vec_capacity s.parties) s.parties.items };
}

impl BumpParties {
    /// Makes a shared bump over the region of `size` bytes at `start`, with no party joined, or `None` if memory ran out.
    pub(crate) fn new(alloc: Global, start: usize, size: usize, count: u32) -> Option<BumpParties>
        requires { IsShareable (region_at start size) count }
        ensures { IfSome result (AreFreshOver (region_at start size) count) }
    {
        let (bump, parties) = BumpAllocator::new(start, size).share(alloc, count).ok()?;
        let bump = Arc::new(alloc, bump).ok()?;
        Some(BumpParties {
            bump,
            count,
            parties,
        })
    }
}

impl Shares<JoinedBump> for BumpParties {
    ghost sharing = { sharing_bump };

    ghost knows = { Knows };

    fn join_last(&mut self, alloc: Global) -> Result<Box<JoinedBump>, u32> {
        let Some(party) = self.parties.pop() else {
            return Err(code::NO_PARTY);
        };
        let Ok(bump) = Arc::try_clone(&self.bump) else {
            self.parties.push_reserved(party);
            return Err(code::MALLOC_REFUSED);
        };
        match Box::new(alloc, JoinedBump { bump, party }) {
            Ok(joined) => Ok(joined),
            Err(refused) => {
                self.parties.push_reserved(refused.value.party);
                Err(code::MALLOC_REFUSED)
            }
        }
    }

    fn has_joined(&self, party: &JoinedBump) -> bool {
        party.bump.start_address() == self.bump.start_address()
            && self.parties.len() < self.count as usize
    }

    fn take_back(&mut self, joined: JoinedBump) {
        self.parties.push_reserved(joined.party);
    }
}

impl Ends for BumpParties {
    ghost ends = { TellsDestroy };

    fn end_code(&mut self) -> u32 {
        if self.parties.len() < self.count as usize {
            code::PARTIES_JOINED
        } else {
            code::OK
        }
    }
}

/// Makes a shared bump over the region of `size` bytes at `start`, in a handle that has to be empty. The start has to be greater
/// than 0, and start plus size at most `SIZE_MAX`. There is at least one party, and each of them can join.
#[unsafe(no_mangle)]
pub extern "C" fn bb_shared_bump_init(
    alloc: Global,
    handle: &mut SharedBumpHandle,
    start: usize,
    size: usize,
    parties: u32,
) -> u32
    ensures { AnswersMake handle.old.value handle.new.value result (IsShareable (region_at start size) parties)
        (IsThere (AreFreshOver (region_at start size) parties)) }
{
    if call::is_made(handle) {
        return code::ALREADY_INITIALIZED;
    }
    if parties == 0 || !BumpAllocator::can_make(start, size) {
        return code::INVALID_ARGUMENT;
    }
    let Some(all) = BumpParties::new(alloc, start, size, parties) else {
        return code::MALLOC_REFUSED;
    };
    call::keep(handle, alloc, all)
}

/// Frees a shared bump and empties its handle. Unless each party has left, it returns `BB_PARTIES_JOINED`, and nothing changes.
#[unsafe(no_mangle)]
pub extern "C" fn bb_shared_bump_destroy(alloc: Global, handle: &mut SharedBumpHandle) -> u32
    ensures { AnswersDestroy handle.old.value handle.new.value result TellsDestroy }
{
    call::destroy(handle, alloc)
}

/// Empties the handle of a shared bump without looking at its parties. The bump exists as long as one of them does.
#[unsafe(no_mangle)]
pub extern "C" fn bb_shared_bump_abandon(alloc: Global, handle: &mut SharedBumpHandle) -> u32
    ensures { AnswersFree handle.old.value handle.new.value result }
{
    call::free(handle, alloc)
}

/// Makes a party that hasn't joined join, in a handle that has to be empty.
#[unsafe(no_mangle)]
pub extern "C" fn bb_shared_bump_join(
    alloc: Global,
    handle: &mut SharedBumpHandle,
    party: &mut BumpPartyHandle,
) -> u32
    ensures { AnswersJoin handle.old.value handle.new.value party.old.value party.new.value result
        sharing_bump }
{
    call::join(handle, alloc, party)
}

/// Ends a party of this bump and empties its handle. The party may join again. For a party of another bump it returns
/// `BB_OTHER_POOL`.
#[unsafe(no_mangle)]
pub extern "C" fn bb_shared_bump_leave(
    alloc: Global,
    handle: &mut SharedBumpHandle,
    party: &mut BumpPartyHandle,
) -> u32
    requires { IfBoth handle.old.value party.old.value Knows }
    ensures { AnswersLeave handle.old.value handle.new.value party.old.value party.new.value result
        sharing_bump }
{
    call::leave(handle, alloc, party)
}

/// Starts again over the same region, with the same number of parties: nothing is used, and each party can join. Each has to have
/// left.
#[unsafe(no_mangle)]
pub extern "C" fn bb_shared_bump_reset(alloc: Global, handle: &mut SharedBumpHandle) -> u32
    ensures { Answers handle.old.value handle.new.value (result ≡ uninitialized) (λ all after. TellsReset all after result) }
{
    let Some(all) = handle.made_mut() else {
        return code::UNINITIALIZED;
    };
    if all.parties.len() < all.count as usize {
        return code::PARTIES_JOINED;
    }
    let start = all.bump.start_address();
    let size = all.bump.total_space();
    let Some(fresh) = BumpParties::new(alloc, start, size, all.count) else {
        return code::MALLOC_REFUSED;
    };
    *all = fresh;
    code::OK
}

/// Frees a party that hasn't left, and empties its handle. The party can't join again, so the bump can be neither reset nor
/// destroyed.
#[unsafe(no_mangle)]
pub extern "C" fn bb_bump_party_abandon(alloc: Global, handle: &mut BumpPartyHandle) -> u32
    ensures { AnswersFree handle.old.value handle.new.value result }
{
    call::free(handle, alloc)
}

/// Allocates a chunk of exactly `size` bytes at a multiple of `align`.
#[unsafe(no_mangle)]
pub extern "C" fn bb_bump_party_allocate(
    handle: &mut BumpPartyHandle,
    size: usize,
    align: usize,
) -> Answer
    ensures { AnswersRequest handle.old.value handle.new.value size align result GivesChunk }
{
    call::request(handle, size, align)
}

/// Fills the struct with the bump's figures. One load finds what is used.
#[unsafe(no_mangle)]
pub extern "C" fn bb_bump_party_info(handle: &mut BumpPartyHandle, to: &mut BumpInfo) -> u32
    ensures { AnswersInfo handle.old.value handle.new.value to.old to.new result ShowsLoad }
{
    call::info(handle, to)
}
