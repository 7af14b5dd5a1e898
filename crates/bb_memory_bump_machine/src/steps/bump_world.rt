//! A bump machine that can be run: a region, a position, and for each party the call that it is in.
ghost use Rattle.bb_memory_bump_machine.specs.BumpMachine.{Exchange, IsFitting, Load, OngoingCall, PartyMove, Read, ending, exchange_move, read_move, seeing};
ghost use Rattle.bb_memory_bump_machine.specs.BumpWorld.{BumpWorld, IsBumpWorld, IsMove, IsPositionIn, Replays, Steps, opened, world_of};
ghost use Rattle.bb_memory_traits.specs.Chunk.{IsRegion, Region};
ghost use Rattle.std.specs.Prelude.{IfOk, IsSome, Some, length, slice_get, ◌<◌, ◌≡◌};

use super::{BumpOutcome, BumpStep};
use bb_memory_traits::layout::{Chunk, Layout};
use std::alloc::{AllocError, Global};
use std::marker::Model;

/// A call that a party is in: the layout that it requested, and the position that it has seen.
#[derive(Clone, Copy)]
struct OngoingCall {
    layout: Layout,
    seen: usize,
}

/// A party's step: its outcome, and the position and the party's call afterwards.
#[derive(Clone, Copy)]
struct PartyMove {
    outcome: BumpOutcome,
    position: usize,
    call: Option<OngoingCall>,
}

impl PartyMove {
    /// Returns the move with this outcome and position after which the party is idle.
    fn ending(outcome: BumpOutcome, position: usize) -> PartyMove
        ensures { result ≡ ending outcome position }
    {
        PartyMove {
            outcome,
            position,
            call: None,
        }
    }

    /// Returns the move with this outcome after which the party is in a call for the layout, and
    /// has seen this position.
    fn seeing(outcome: BumpOutcome, position: usize, layout: Layout) -> PartyMove
        ensures { result ≡ seeing outcome position layout }
    {
        let seen = position;
        PartyMove {
            outcome,
            position,
            call: Some(OngoingCall { layout, seen }),
        }
    }

    /// Returns the move of a read that finds this position.
    fn of_read(start: usize, size: usize, position: usize, layout: Layout) -> PartyMove
        requires position { IsPositionIn (record { start = start; size = size }) position }
        requires asks { 0 < layout.size }
        ensures { let region : Region = record { start = start; size = size } in
            IsMove region (read_move region position layout) result }
    {
        match Chunk::at_or_after(start + position, layout, start + size) {
            Some(_) => PartyMove::seeing(BumpOutcome::Sees(position), position, layout),
            None => PartyMove::ending(BumpOutcome::RefusedAtRead(position), position),
        }
    }

    /// Returns the move of an exchange that finds this position, by a party in this call.
    fn of_exchange(start: usize, size: usize, position: usize, call: OngoingCall) -> PartyMove
        requires position { IsPositionIn (record { start = start; size = size }) position }
        requires call { IsFitting (record { start = start; size = size }) call }
        ensures { let region : Region = record { start = start; size = size } in
            IsMove region (exchange_move region position call) result }
    {
        match Chunk::at_or_after(start + position, call.layout, start + size) {
            Some(chunk) if position == call.seen => {
                PartyMove::ending(BumpOutcome::Wins(chunk), chunk.end() - start)
            }
            Some(_) => PartyMove::seeing(BumpOutcome::Loses(position), position, call.layout),
            None => PartyMove::ending(BumpOutcome::RefusedAtLoss(position), position),
        }
    }
}

/// The bump machine over a region, with its parties. No step allocates memory.
///
/// Example: `comments::bump_world` of `crates/examples`.
#[derive(Drop)]
pub struct BumpWorld {
    alloc: Global,
    start: usize,
    size: usize,
    position: usize,
    calls: Vec<Option<OngoingCall>>,
}

impl Model for BumpWorld {
    ghost Value = { BumpWorld };

    ghost view = { λ w. world_of w.start w.size w.position w.calls.items };

    ghost invariant = { λ w. IsBumpWorld (world_of w.start w.size w.position w.calls.items) };
}

impl BumpWorld {
    /// Makes the machine over the region of `size` bytes at `start`, at position 0, with that many
    /// parties, all idle. The start has to be greater than 0, and start plus size at most
    /// `usize::MAX`. Fails only if memory ran out.
    pub fn new(
        alloc: Global,
        start: usize,
        size: usize,
        parties: u32,
    ) -> Result<BumpWorld, AllocError>
        requires region { IsRegion (record { start = start; size = size }) }
        ensures opened { let region : Region = record { start = start; size = size } in
            IfOk result (λ world. world ≡ opened region parties) }
    {
        let calls = vec![in alloc; None; parties as usize]?;
        Ok(BumpWorld {
            alloc,
            start,
            size,
            position: 0,
            calls,
        })
    }

    /// Takes one atomic step, and returns its outcome. The call allocates no memory.
    pub fn step(&mut self, step: BumpStep) -> BumpOutcome
        ensures { Steps self.old step result self.new }
    {
        match step {
            BumpStep::Read { party, layout } => self.read(party as usize, layout),
            BumpStep::Exchange { party } => self.exchange(party as usize),
            BumpStep::Load { party } => self.load(party as usize),
            BumpStep::Clear => {
                self.position = 0;
                BumpOutcome::Cleared
            }
        }
    }

    /// Takes the steps in order, and returns the outcome of each. Memory for the outcomes is
    /// reserved first: if it runs out, no step is taken.
    pub fn replay(&mut self, steps: &[BumpStep]) -> Result<Vec<BumpOutcome>, AllocError>
        ensures { Replays self.old steps.now result self.new }
    {
        let mut outcomes = Vec::with_capacity(self.alloc, steps.len())?;
        for step in steps {
            let outcome = self.step(*step);
            outcomes.push_reserved(outcome);
        }
        Ok(outcomes)
    }

    /// Returns the position: how many bytes are used, from the region's start to the end of the
    /// last chunk, padding included.
    pub fn used_space(&self) -> usize
        ensures { result ≡ self.now.state.position }
    {
        self.position
    }

    /// Returns the call of a party, as [`call_at`] does.
    fn call_of(&self, party: usize) -> Option<Option<OngoingCall>>
        ensures value { result ≡ slice_get self.now.state.calls party }
        ensures fitting { (call : OngoingCall) → result ≡ Some (Some call)
            → IsFitting self.now.region call }
        ensures within { IsSome result → party < length self.now.state.calls }
    {
        call_at(&self.calls, party)
    }

    /// Reads the position for an idle party, which begins a call.
    fn read(&mut self, party: usize, layout: Layout) -> BumpOutcome
        ensures { Steps self.old (Read party layout) result self.new }
    {
        match self.call_of(party) {
            Some(None) if layout.size() != 0 => {
                let turn = PartyMove::of_read(self.start, self.size, self.position, layout);
                self.calls[party] = turn.call;
                turn.outcome
            }
            _ => BumpOutcome::Passed,
        }
    }

    /// Makes an exchange for a party in a call: if the position is the one that the call has seen,
    /// the end of the call's chunk replaces it.
    fn exchange(&mut self, party: usize) -> BumpOutcome
        ensures { Steps self.old (Exchange party) result self.new }
    {
        match self.call_of(party) {
            Some(Some(call)) => {
                let turn = PartyMove::of_exchange(self.start, self.size, self.position, call);
                self.position = turn.position;
                self.calls[party] = turn.call;
                turn.outcome
            }
            Some(None) | None => BumpOutcome::Passed,
        }
    }

    /// Reads how much is used, for an idle party.
    fn load(&self, party: usize) -> BumpOutcome
        ensures { Steps self.now (Load party) result self.now }
    {
        match self.call_of(party) {
            Some(None) => BumpOutcome::Loaded(self.position),
            Some(Some(_)) | None => BumpOutcome::Passed,
        }
    }
}

/// Returns `Some(None)` for an idle party, `Some(Some(call))` for one in a call, and `None` if the
/// machine has no party of this number.
fn call_at(calls: &[Option<OngoingCall>], party: usize) -> Option<Option<OngoingCall>>
    ensures { result ≡ slice_get calls.now party }
{
    calls.get(party).copied()
}
