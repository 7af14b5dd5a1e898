//! The position that threads share: its word, and the only calls that touch it.
//!
//! `read`, `exchange` and `load` make one atomic step each, by the seat of the party whose step it
//! is. That party's log then ends with the step and what it found. `split_first`, `merge`,
//! `load_for_meeting` and `meet` only load the word, and add to no log. `open` runs before anything
//! is shared, and `close` afterwards.
ghost use Rattle.bb_memory_bump.specs.Bump.{Layout};
ghost use Rattle.bb_memory_bump.specs.SharedBump.{SharedBump};
ghost use Rattle.bb_memory_bump.specs.SharedBumpRule.{AfterExchange, AfterLoad, AfterMeeting, AfterMeetingLoad, AfterRead, HasOneWord, IsIdleAt, IsSeatAt, MayAsk, StandsAt, all_parties, exchanges, loads, meeting_of, meets, merged, met_by, nobody, reads, scene_of};
ghost use Rattle.bb_memory_bump_machine.specs.BumpLogs.{call_in};
ghost use Rattle.bb_memory_bump_machine.specs.BumpMachine.{chunk_at, position_behind};
ghost use Rattle.bb_memory_seats.specs.Seats.{IsSplit, MayMerge, Stays, first_of, number_of, others_of, view_log};
ghost use Rattle.std.specs.Prelude.{IfOk, None, Option, Some, [], ◌≡◌, ◌≤◌};

use super::rule::{Agreement, Scene, View};
use atomic_table::{Join, Play, Seat, Split, Table};
use bb_memory_traits::layout::Layout;
use std::alloc::{AllocError, Global};
use std::marker::{Brand, Model, PhantomData};

/// Carries a request's layout in a type, since a `Play` takes no arguments.
pub(super) trait Asked {
    ghost layout: { Option Layout };
}

impl Asked for Brand {
    ghost layout = { None };
}

/// A load that begins a request.
struct Reads<L> {
    asked: PhantomData<L>,
}

impl<L: Asked> Play<u8, View> for Reads<L> {
    ghost then = { reads L.layout };
}

/// The exchange of a request in progress.
struct Exchanges;

impl Play<u8, View> for Exchanges {
    ghost then = { exchanges };
}

/// A load that finds how much is used.
struct Loads;

impl Play<u8, View> for Loads {
    ghost then = { loads };
}

/// A load by a seat that represents any number of parties.
struct Meets;

impl Play<u8, View> for Meets {
    ghost then = { meets };
}

/// Moves the first party to the new seat.
struct GiveFirst;

impl Split<View> for GiveFirst {
    ghost left = { others_of };

    ghost right = { first_of };
}

/// Makes one seat represent the parties of two.
struct Merge;

impl Join<View> for Merge {
    ghost both = { merged };

    ghost spent = { nobody };
}

/// The word of the position.
#[derive(Drop)]
pub(super) struct Position {
    table: Table<u8, View, Scene, Agreement, Global>,
}

impl Model for Position {
    ghost Value = { SharedBump };

    ghost view = { λ p. record { table = p.table.shared.table_id; scene = p.table.shared.key } };

    ghost invariant = { λ p. HasOneWord p.table.shared.table_id };
}

impl Position {
    /// Makes the position at a scene's opening, and a seat that represents all its parties.
    pub(super) fn open(
        alloc: Global,
        scene: Scene,
    ) -> Result<(Position, Seat<u8, View>), AllocError>
        requires opening { scene.opening ≤ scene.region.size }
        ensures scene { IfOk result (λ made. made.0.scene ≡ scene) }
        ensures table { IfOk result (λ made. made.1.table_id ≡ made.0.table) }
        ensures seat { IfOk result (λ made. made.1.me ≡ (all_parties scene, [])) }
    {
        let (table, seat) = Table::of_words(alloc, &[scene.opening as u64], &scene)?;
        Ok((Position { table }, seat))
    }

    /// Returns a seat of its own for the first party that a seat represents.
    pub(super) fn split_first(&self, rest: &mut Seat<u8, View>) -> Seat<u8, View>
        requires { rest.old.table_id ≡ self.now.table }
        ensures { IsSplit rest.old.table_id rest.old.me rest.new.table_id rest.new.me
            result.table_id result.me }
    {
        self.table.shared.split_seat::<GiveFirst>(rest)
    }

    /// Makes the read that begins a request. The type of the step has the layout of the request.
    pub(super) fn read<L: Asked>(&self, seat: &mut Seat<u8, View>, _layout: Layout) -> usize
        requires { MayAsk self.now seat.old.table_id seat.old.me L.layout _layout }
        ensures { Stays seat.old.table_id seat.new.table_id (AfterRead self.now.scene
            (number_of seat.old.me.0) (view_log seat.old.me.0) (met_by seat.old.me.0)
            _layout result seat.new.me) }
    {
        self.table.shared.load::<Reads<L>>(seat, 0) as usize
    }

    /// Makes an exchange of the request that the seat's party is in: `behind` is the end of its
    /// chunk at `seen`.
    pub(super) fn exchange(
        &self,
        seat: &mut Seat<u8, View>,
        layout: Layout,
        seen: usize,
        behind: usize,
    ) -> usize
        requires seat { IsSeatAt self.now seat.old.table_id seat.old.me }
        requires call { call_in (view_log seat.old.me.0)
            ≡ Some (record { layout = layout; seen = seen }) }
        requires behind { let region = self.now.scene.region in
            behind ≡ position_behind region (chunk_at region seen layout) }
        ensures { Stays seat.old.table_id seat.new.table_id (AfterExchange self.now.scene
            (number_of seat.old.me.0) (view_log seat.old.me.0) (met_by seat.old.me.0)
            result seat.new.me) }
    {
        let shared = &self.table.shared;
        let found = shared.compare_exchange::<Exchanges>(seat, 0, seen as u64, behind as u64);
        found as usize
    }

    /// Makes a load that finds how much is used.
    pub(super) fn load(&self, seat: &mut Seat<u8, View>) -> usize
        requires { IsIdleAt self.now seat.old.table_id seat.old.me }
        ensures { Stays seat.old.table_id seat.new.table_id (AfterLoad self.now.scene
            (number_of seat.old.me.0) (view_log seat.old.me.0) (met_by seat.old.me.0)
            result seat.new.me) }
    {
        self.table.shared.load::<Loads>(seat, 0) as usize
    }

    /// Moves a guest's parties to this seat, before its own.
    pub(super) fn merge(&self, seat: &mut Seat<u8, View>, guest: Seat<u8, View>)
        requires { MayMerge self.now.table seat.old.table_id guest.table_id guest.me }
        ensures { Stays seat.old.table_id seat.new.table_id
            (seat.new.me ≡ (merged seat.old.me.0 guest.me.0, seat.old.me.1)) }
    {
        self.table.shared.join_seat::<Merge>(seat, guest);
    }

    /// Makes a load that finds the position at which the parties of one seat have met.
    pub(super) fn load_for_meeting(&self, seat: &mut Seat<u8, View>) -> usize
        requires { StandsAt self.now seat.old.table_id seat.old.me }
        ensures table { seat.new.table_id ≡ seat.old.table_id }
        ensures seat { seat.new.me ≡ (meeting_of result seat.old.me.0, []) }
        ensures step { AfterMeetingLoad self.now.scene seat.old.me.0.parties (met_by seat.old.me.0) result }
    {
        self.table.shared.load::<Meets>(seat, 0) as usize
    }

    /// Makes two parties meet at one seat, load the position there, and go back to their own seats.
    pub(super) fn meet(&self, a: &mut Seat<u8, View>, b: &mut Seat<u8, View>) -> usize
        requires a { IsSeatAt self.now a.old.table_id a.old.me }
        requires b { IsSeatAt self.now b.old.table_id b.old.me }
        ensures a { Stays a.old.table_id a.new.table_id
            (a.new.me ≡ (meeting_of result a.old.me.0, [])) }
        ensures b { Stays b.old.table_id b.new.table_id
            (b.new.me ≡ (meeting_of result b.old.me.0, [])) }
        ensures risen { (met_by a.old.me.0 ≤ result) × (met_by b.old.me.0 ≤ result) }
        ensures met { AfterMeeting self.now.scene
            (number_of a.old.me.0) (view_log a.old.me.0)
            (number_of b.old.me.0) (view_log b.old.me.0) result }
    {
        let guest = self.split_first(b);
        self.merge(a, guest);
        let found = self.load_for_meeting(a);
        *b = self.split_first(a);
        found
    }

    /// Returns the last position, once no thread shares it any more.
    pub(super) fn close(self, seat: Seat<u8, View>) -> usize
        requires table { seat.table_id ≡ self.table }
        requires scene { scene_of seat.me.0 ≡ self.scene }
        ensures last { AfterMeetingLoad self.scene seat.me.0.parties (met_by seat.me.0) result }
    {
        let Position { table } = self;
        let closed = table.close_with(seat);
        let position = closed.word(0) as usize;
        closed.free();
        position
    }
}
