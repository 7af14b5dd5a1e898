//! The bump that threads share: its only word is the position, and each thread steps with a party
//! of its own.
ghost use Rattle.bb_memory_bump.specs.SharedBump.{AgreeAt, AreBothOf, AreFresh, AreInterleaved, BumpParty, HasChunksWithin, HasLoaded, HaveChunksApart, HaveMet, IsAnsweredAt, IsFoundBy, IsInterleaved, IsParty, IsSameParty, IsSharedScene, MayTake, MeetAt, SharedBump, floor_of, greatest_seen, meeting_at, scene_at, seen_by, with_entries};
ghost use Rattle.bb_memory_bump.specs.SharedBumpRule.{IsSharedBump, all_parties};
ghost use Rattle.bb_memory_bump_machine.specs.BumpLogs.{BumpLog, Interleaving, IsCallRun, OpensWith, calls_of, chunks_won, history_of, live_after, losses_in};
ghost use Rattle.bb_memory_seats.specs.Seats.{HasRoomFor};
ghost use Rattle.bb_memory_traits.specs.BumpObject.{StandsFor};
ghost use Rattle.bb_memory_traits.specs.Chunk.{AreApart, Chunk, IsInside, IsRegion, IsSound, region_at};
ghost use Rattle.std.specs.Prelude.{All, Contains, IfOk, List, OnErr, Some, [], length, slice_get, ℕ, ◌%◌, ◌++◌, ◌+◌, ◌-◌, ◌∷◌, ◌≡◌, ◌≢◌, ◌≤◌};

mod all_parties;
mod meeting;
mod party;
mod position;
mod request;
mod rule;
mod stand_in;

use crate::bump_allocator::BumpAllocator;
pub use all_parties::shared_bump_meeting_law;
use atomic_table::Seat;
pub use bb_memory_traits::allocator::AllocationError;
use bb_memory_traits::layout::{Chunk, Layout};
pub use party::BumpParty;
use position::Position;
use rule::{Scene, View};
use stand_in::StandIns;
use std::alloc::{AllocError, Global};
use std::marker::{Brand, Model};

/// A bump that threads share through `&`, made by [`BumpAllocator::share`]. Each call takes the
/// calling thread's party by `&mut`; the party has to be this allocator's, and stays so. No call
/// allocates memory, and none waits for another.
///
/// A party's log has the party's atomic steps on the position, in order, each with what it found.
/// Whatever the threads do, the word and the logs agree: the steps of all parties together form one
/// list that the bump machine allows, and that leaves the position which the word has. A user who
/// has all parties can establish this by [`meet_all`](SharedBumpAllocator::meet_all), and then use
/// [`shared_bump_meeting_law`]. [`shared_bump_law`] states what follows for one party, and for two
/// that met.
///
/// Example: `comments::shared_bump` of `crates/examples`.
#[derive(Drop)]
pub struct SharedBumpAllocator {
    position: Position,
    start: usize,
    size: usize,
    stand_ins: StandIns,
}

impl Model for SharedBumpAllocator {
    ghost Value = { SharedBump };

    ghost view = { λ a. a.position };

    ghost invariant = { λ a. IsSharedBump a.position.scene a.start a.size };
}

impl SharedBumpAllocator {
    /// Makes a shared bump over the region of `size` bytes at `start`, of which `position` bytes
    /// are used, and its parties.
    pub(crate) fn open(
        alloc: Global,
        start: usize,
        size: usize,
        position: usize,
        parties: u32,
    ) -> Result<(SharedBumpAllocator, Vec<BumpParty>), AllocError>
        requires region { IsRegion (region_at start size) }
        requires scene { IsSharedScene (scene_at (region_at start size) position parties) }
        ensures scene { IfOk result (λ made.
            made.0.scene ≡ scene_at (region_at start size) position parties) }
        ensures parties { IfOk result (λ made. AreFresh made.0 parties made.1.items) }
    {
        let mut all = Vec::with_capacity(alloc, parties as usize)?;
        let scene = Scene {
            start,
            size,
            opening: position,
            parties,
        };
        let stand_ins = StandIns::open(alloc)?;
        let (position, seat) = Position::open(alloc, scene)?;
        let shared = SharedBumpAllocator {
            position,
            start,
            size,
            stand_ins,
        };
        shared.seat_parties(seat, parties, &mut all);
        Ok((shared, all))
    }

    /// Allocates a chunk of exactly `layout.size()` bytes, at the first multiple of
    /// `layout.align()` at or after the end of the used bytes.
    ///
    /// Fails with `SizeIsZero` if the size is 0, without a step. Otherwise the party reads the
    /// position. If the layout doesn't fit there, the request fails with `OutOfMemory`. Otherwise
    /// an exchange replaces the position by the end of the chunk, if the position is still the one
    /// that the party has seen. If it isn't, the party tries again from the position that it found,
    /// or fails with `OutOfMemory` if the layout doesn't fit there. The call has no other error.
    /// Each lost exchange raises the position that the party has seen, so a request loses at most
    /// one exchange for each byte of the region. The party has to be this bump's.
    pub fn allocate(&self, party: &mut BumpParty, layout: Layout) -> Result<Chunk, AllocationError>
        requires party { party.old.allocator ≡ self.now }

        // The entries that were added to the party's log decide the answer.
        ensures answer { MayTake party.old layout result party.new }

        // The party stays this allocator's, and some interleaving has its log. So `shared_bump_law`
        // holds for the party.
        ensures party { party.new.allocator ≡ self.now }
        ensures is_party { IsSameParty party.old party.new }

        // The chunk is the one that the log has won since; a refusal wins none.
        ensures won { IfOk result (λ chunk.
            chunks_won party.new.log ≡ chunks_won party.old.log ++ chunk ∷ []) }
        ensures none_won { OnErr result (chunks_won party.new.log ≡ chunks_won party.old.log) }

        // Each position that the call finds is at least the party's floor, and at most the size.
        ensures found { (added : BumpLog) → party.new ≡ with_entries party.old added
            → IsFoundBy party.old added }

        // A chunk begins at or after the party's floor.
        ensures floor { IfOk result (λ chunk.
            self.now.scene.region.start + floor_of party.old ≤ chunk.place) }

        // If the party is the only one, the answer is that of the bump object at the position that
        // the party had seen.
        ensures alone { self.now.scene.parties ≡ 1
            → IsAnsweredAt self.now.scene.region (seen_by party.old) layout result }

        // The call loses at most one exchange for each byte of the region.
        ensures losses { (added : BumpLog) → party.new ≡ with_entries party.old added
            → losses_in added ≤ self.now.scene.region.size }

        ensures inside { IfOk result (IsInside self.now.scene.region) }
        ensures aligned { IfOk result (λ chunk. chunk.place % layout.align ≡ 0) }
        ensures exact_size { IfOk result (λ chunk. chunk.len ≡ layout.size) }
    {
        // Proof hint: brings the party's invariant into scope on the early returns.
        let _ = &party.number;
        if layout.size() == 0 {
            return Err(AllocationError::SizeIsZero);
        }
        match self.claim::<Brand>(&mut party.seat, layout) {
            Some(chunk) => Ok(chunk),
            None => Err(AllocationError::OutOfMemory),
        }
    }

    /// Makes two parties meet: no chunk of one overlaps a chunk of the other. The meeting loads the
    /// position, and no log has the load. The position that it finds raises the floor of both
    /// parties, and nothing else changes. The parties have to be this bump's.
    pub fn meet(&self, a: &mut BumpParty, b: &mut BumpParty)
        requires parties { AreBothOf self.now a.old b.old }
        ensures kept { (a.new ≡ meeting_at a.new.met a.old) × (b.new ≡ meeting_at a.new.met b.old) }
        ensures parties { AreBothOf self.now a.new b.new }
        ensures apart { HaveChunksApart a.old.log b.old.log }

        // The position is at least the one that either party knew, at most the size, and one that
        // an interleaving of both logs leaves.
        ensures met { MeetAt self.now a.old b.old a.new.met }

        // Each chunk of either party ends at or before that position.
        ensures behind { let region = self.now.scene.region in
            HasChunksWithin region a.new.log a.new.met × HasChunksWithin region b.new.log a.new.met }
    {
        self.position.meet(&mut a.seat, &mut b.seat);
    }

    /// Makes all these parties meet: no chunk of one overlaps a chunk of another. One interleaving
    /// has all their logs, and leaves the position that the meeting finds. If these are all the
    /// bump's parties, the interleaving has no other steps, and the position is the greatest that
    /// one of them has seen. The position raises the floor of each party, and nothing else changes.
    /// The meeting loads the position, and no log has the load. The parties have to be this bump's.
    pub fn meet_all(&self, parties: &mut Vec<BumpParty>)
        requires parties { All (λ party. party.allocator ≡ self.now) parties.old.items }
        ensures met { HaveMet self.now.scene parties.old.items parties.new.items }
        ensures apart { (i j : ℕ) (one other : BumpParty)
            → slice_get parties.old.items i ≡ Some one → slice_get parties.old.items j ≡ Some other
            → i ≢ j → HaveChunksApart one.log other.log }
        ensures parties { All (λ party. party.allocator ≡ self.now) parties.new.items }
    {
        let _ = &self.start;
        if let Some(party) = parties.pop() {
            let BumpParty { number, mut seat } = party;
            self.meet_rest(&mut seat, parties);
            parties.push_reserved(BumpParty { number, seat });
        }
    }

    /// Returns the place where the region starts.
    pub fn start_address(&self) -> usize
        ensures value { result ≡ self.now.scene.region.start }
    {
        self.start
    }

    /// Returns the number of used bytes, as one load found it: those from the region's start to the
    /// end of the last chunk, padding included. The party has to be this bump's.
    pub fn used_space(&self, party: &mut BumpParty) -> usize
        requires party { party.old.allocator ≡ self.now }
        ensures party { party.new.allocator ≡ self.now }
        ensures loaded { HasLoaded self.now party.old result party.new }
    {
        self.position.load(&mut party.seat)
    }

    /// Returns the number of bytes after the last chunk: the total minus the used bytes, which one
    /// load found. The party has to be this bump's.
    pub fn free_space(&self, party: &mut BumpParty) -> usize
        requires party { party.old.allocator ≡ self.now }
        ensures party { party.new.allocator ≡ self.now }
        ensures loaded { let used = self.now.scene.region.size - result in
            HasLoaded self.now party.old used party.new }
        ensures within { result ≤ self.now.scene.region.size }
    {
        self.size - self.used_space(party)
    }

    /// Returns the size of the region in bytes. The clauses also state the bump's invariant.
    pub fn total_space(&self) -> usize
        ensures value { result ≡ self.now.scene.region.size }
        ensures region { IsRegion self.now.scene.region }
        ensures scene { IsSharedScene self.now.scene }
    {
        self.size
    }

    /// Turns the shared bump back into a bump with one owner: over the same region, at the position
    /// that the parties' steps left. (If there are several parties, this is tested, and no clause
    /// states it.) The position is at least what this party has seen, and exactly that if the bump
    /// has no other party. The party has to be this bump's.
    pub fn into_owner(self, party: BumpParty) -> BumpAllocator
        requires party { party.allocator ≡ self }
        ensures region { result.region ≡ self.scene.region }
        ensures interleaved { Interleaving self.scene party.number party.log result.used }
        ensures seen { seen_by party ≤ result.used }
        ensures floor { floor_of party ≤ result.used }
        ensures within { result.used ≤ self.scene.region.size }
        ensures exact { self.scene.parties ≡ 1 → result.used ≡ seen_by party }

        // Each chunk that the party's log has won ends at or before that position.
        ensures behind { HasChunksWithin self.scene.region party.log result.used }
    {
        let SharedBumpAllocator {
            position,
            start,
            size,
            stand_ins: _,
        } = self;
        let BumpParty { number: _, seat } = party;
        let used = position.close(seat);
        BumpAllocator::at_position(start, size, used)
    }

    /// Turns the shared bump back into a bump with one owner, who has all its parties: over the
    /// same region, and at exactly the greatest position that one of them has seen. The bump stands
    /// for the list that was live before it was shared, followed by the chunks that were won since,
    /// in the order of an interleaving of all logs. The parties have to be all of this bump's
    /// parties.
    pub fn into_owner_all(self, mut parties: Vec<BumpParty>) -> BumpAllocator
        requires parties { All (λ party. party.allocator ≡ self) parties.items }
        requires all { length parties.items ≡ self.scene.parties }
        ensures region { result.region ≡ self.scene.region }
        ensures agree { AgreeAt self.scene result.used parties.items }
        ensures exact { result.used ≡ greatest_seen parties.items }
        ensures floor { All (λ party. floor_of party ≤ result.used) parties.items }
        ensures stands { (live : List Chunk)
            → OpensWith self.scene live → (all : AgreeAt self.scene result.used parties.items)
            → StandsFor self.scene.region result.used
            (live ++ chunks_won (history_of self.scene all.agree.steps)) }
    {
        let party = parties.pop().unwrap();
        let BumpParty {
            number: _,
            mut seat,
        } = party;
        self.merge_rest(&mut seat, parties);
        let SharedBumpAllocator {
            position,
            start,
            size,
            stand_ins: _,
        } = self;
        let last = position.close(seat);
        BumpAllocator::at_position(start, size, last)
    }

    /// Gives each party a seat of its own.
    fn seat_parties(&self, mut rest: Seat<u8, View>, parties: u32, all: &mut Vec<BumpParty>)
        requires table { rest.table_id ≡ self.now.table }
        requires seat { rest.me ≡ (all_parties self.now.scene, []) }
        requires parties { parties ≡ self.now.scene.parties }
        requires room { HasRoomFor parties all.old }
        ensures { AreFresh self.now parties all.new.items }
    {
        for number in 0..parties {
            let seat = self.position.split_first(&mut rest);
            all.push_reserved(BumpParty { number, seat });
        }
    }
}

/// States what holds for each party of a shared bump, and for two that met, whatever the threads
/// did. The function does nothing: its contract is the law.
///
/// A possible history of a party is an interleaving of its log: a list of allowed steps from the
/// opening, in which the party's steps are exactly its log, and which leaves a position. `IsParty`
/// has one that leaves what the party has seen, and one that leaves its floor, so that one list of
/// steps explains its log and what its last meeting found. The steps of the others in it explain
/// the log, and need not be those that they made. Two parties that met have one such list together:
/// `AreInterleaved`. A list that the opening stands for is one that was live before the bump was
/// shared.
pub fn shared_bump_law()
    // The calls of a party's history are a run of the bump object from that list.
    ensures run { (party : BumpParty) (position : ℕ) (live : List Chunk)
        (history : IsInterleaved party position) → let scene = party.allocator.scene in
        let steps = history.steps in
        OpensWith scene live
        → IsCallRun scene.region live (calls_of scene steps) (live_after scene live steps) }

    // The run leads to that list followed by the chunks that were won since.
    ensures since { (party : BumpParty) (position : ℕ) (live : List Chunk)
        (history : IsInterleaved party position) → let scene = party.allocator.scene in
        let steps = history.steps in
        live_after scene live steps ≡ live ++ chunks_won (history_of scene steps) }

    // Each chunk of the party is in the list that the run leaves.
    ensures held { (party : BumpParty) (position : ℕ) (live : List Chunk)
        (history : IsInterleaved party position) → let scene = party.allocator.scene in
        All (Contains (live_after scene live history.steps)) (chunks_won party.log) }

    // A bump that has used exactly what the history leaves as used stands for that list.
    ensures stands { (party : BumpParty) (position : ℕ) (live : List Chunk)
        (history : IsInterleaved party position) → let scene = party.allocator.scene in
        OpensWith scene live
        → StandsFor scene.region position (live_after scene live history.steps) }

    // The chunks that a party's log has won are a sound list of the region.
    ensures sound { (party : BumpParty)
        → IsParty party
        → IsSound party.allocator.scene.region (chunks_won party.log) }

    // These chunks end at or before the position that the party has seen, and so at or before its
    // floor.
    ensures ends { (party : BumpParty)
        → HasChunksWithin party.allocator.scene.region party.log (seen_by party) }

    // These chunks are apart from each chunk that was live before the bump was shared.
    ensures older { (party : BumpParty) (live : List Chunk)
        → IsParty party → OpensWith party.allocator.scene live
        → All (λ older. All (AreApart older) (chunks_won party.log)) live }

    // Two parties that met have one history together, whose calls are also a run: one run has the
    // calls of both.
    ensures both_run { (a b : BumpParty) (live : List Chunk) (met : AreInterleaved a b)
        → let scene = a.allocator.scene in
        let steps = met.1.steps in
        OpensWith scene live
        → IsCallRun scene.region live (calls_of scene steps) (live_after scene live steps) }

    // Each chunk of either party is in the list that this run leaves.
    ensures both_held { (a b : BumpParty) (live : List Chunk) (met : AreInterleaved a b)
        → let held = Contains (live_after a.allocator.scene live met.1.steps) in
        All held (chunks_won a.log) × All held (chunks_won b.log) }

    // No chunk of one party overlaps a chunk of another that it met.
    ensures apart { (a b : BumpParty)
        → IsParty a → AreInterleaved a b → a.number ≢ b.number
        → HaveChunksApart a.log b.log }

    // So any chunk of one log is apart from any chunk of the other.
    ensures each_apart { (log other_log : BumpLog) (i j : ℕ) (chunk other : Chunk)
        → HaveChunksApart log other_log
        → slice_get (chunks_won log) i ≡ Some chunk
        → slice_get (chunks_won other_log) j ≡ Some other → AreApart chunk other }
{}
