//! Any number of parties at one seat.
ghost use Rattle.bb_memory_bump.specs.SharedBump.{meeting_at};
ghost use Rattle.bb_memory_bump.specs.SharedBumpRule.{AfterMeetingLoad, HasMet, NumberedLog, StandsAt, meeting_of, met_by, met_of, numbered_of, sight};
ghost use Rattle.bb_memory_seats.specs.Seats.{HasNow, Stays, standing_for, tail_of};
ghost use Rattle.std.specs.Prelude.{All, List, [], map, max, vec_capacity, vec_len, ◌++◌, ◌∷◌, ◌≡◌, ◌≤◌};

use super::rule::View;
use super::{BumpParty, SharedBumpAllocator};
use atomic_table::Seat;
use std::marker::Brand;
use std::mem;

impl SharedBumpAllocator {
    /// Moves the party's seat to this one, as its first. The party has a stand-in then, so its value
    /// is not this bump's.
    fn come(&self, seat: &mut Seat<u8, View>, party: &mut BumpParty)
        requires seat { StandsAt self.now seat.old.table_id seat.old.me }
        requires party { party.old.allocator ≡ self.now }
        ensures table { seat.new.table_id ≡ seat.old.table_id }
        ensures seat { seat.new.me ≡ (
          standing_for (sight self.now.scene (max (met_by seat.old.me.0) party.old.met))
              (numbered_of party.old ∷ seat.old.me.0.parties),
          [],
        ) }
        ensures party { numbered_of party.new ≡ numbered_of party.old }
        ensures scene { party.new.allocator.scene ≡ self.now.scene }
    {
        let stand_in = self.stand_ins.like::<Brand>(&party.seat);
        let guest = mem::replace(&mut party.seat, stand_in);
        self.position.merge(seat, guest);
    }

    /// Moves the first party of this seat, whose parties have met, back to a seat of its own, in place of
    /// its stand-in.
    fn go_back(&self, seat: &mut Seat<u8, View>, party: &mut BumpParty)
        requires seat { StandsAt self.now seat.old.table_id seat.old.me }
        requires first { seat.old.me.0.parties
            ≡ numbered_of party.old ∷ tail_of seat.old.me.0.parties }
        requires scene { party.old.allocator.scene ≡ self.now.scene }
        requires met { HasMet self.now.scene (met_by seat.old.me.0) (numbered_of party.old) }
        ensures table { seat.new.table_id ≡ seat.old.table_id }
        ensures seat { seat.new.me ≡ (
          standing_for (sight self.now.scene (met_by seat.old.me.0))
              (tail_of seat.old.me.0.parties),
          [],
        ) }
        ensures party { party.new
            ≡ met_of self.now (met_by seat.old.me.0) (numbered_of party.old) }
    {
        party.seat = self.position.split_first(seat);
    }

    /// Moves the seats of these parties to this one, in their order and before those that it
    /// represents. Each party has a stand-in then.
    fn gather(&self, seat: &mut Seat<u8, View>, rest: &mut Vec<BumpParty>)
        requires seat { StandsAt self.now seat.old.table_id seat.old.me }
        requires rest { All (λ party. party.allocator ≡ self.now) rest.old.items }
        ensures table { seat.new.table_id ≡ seat.old.table_id }
        ensures seat { seat.new.me ≡ (
          standing_for (sight self.now.scene (met_by seat.new.me.0))
              (map numbered_of rest.old.items ++ seat.old.me.0.parties),
          [],
        ) }
        ensures met { met_by seat.old.me.0 ≤ met_by seat.new.me.0 }
        ensures risen { All (λ party. party.met ≤ met_by seat.new.me.0) rest.old.items }
        ensures parties { map numbered_of rest.new.items ≡ map numbered_of rest.old.items }
        ensures scene { All (λ party. party.allocator.scene ≡ self.now.scene) rest.new.items }
        ensures room { (vec_len rest.new ≡ vec_len rest.old)
            × (vec_capacity rest.new ≡ vec_capacity rest.old) }
    {
        for at in (0..rest.len()).rev() {
            self.come(seat, &mut rest[at]);
        }
    }

    /// Moves these parties, which come first at this seat and have met there, back to seats of their
    /// own, in place of their stand-ins.
    fn part(&self, seat: &mut Seat<u8, View>, rest: &mut Vec<BumpParty>)
        requires seat { StandsAt self.now seat.old.table_id seat.old.me }
        requires first { (others : List NumberedLog)
            × (seat.old.me.0.parties ≡ map numbered_of rest.old.items ++ others) }
        requires scene { All (λ party. party.allocator.scene ≡ self.now.scene) rest.old.items }
        requires met { All (λ party. HasMet self.now.scene (met_by seat.old.me.0) (numbered_of party))
            rest.old.items }
        ensures table { seat.new.table_id ≡ seat.old.table_id }
        ensures seat { (others : List NumberedLog)
            → seat.old.me.0.parties ≡ map numbered_of rest.old.items ++ others
            → seat.new.me ≡ (standing_for (sight self.now.scene (met_by seat.old.me.0)) others, []) }
        ensures parties { HasNow
            (map (met_of self.now (met_by seat.old.me.0)) (map numbered_of rest.old.items))
            rest.old rest.new }
    {
        for at in 0..rest.len() {
            self.go_back(seat, &mut rest[at]);
        }
    }

    /// Makes these parties meet those of the seat. Afterwards each is at its own seat again.
    /// Returns the position that the meeting found.
    pub(super) fn meet_rest(&self, seat: &mut Seat<u8, View>, rest: &mut Vec<BumpParty>) -> usize
        requires seat { StandsAt self.now seat.old.table_id seat.old.me }
        requires rest { All (λ party. party.allocator ≡ self.now) rest.old.items }
        ensures table { seat.new.table_id ≡ seat.old.table_id }
        ensures seat { seat.new.me ≡ (meeting_of result seat.old.me.0, []) }
        ensures step { AfterMeetingLoad self.now.scene
            (map numbered_of rest.old.items ++ seat.old.me.0.parties) (met_by seat.old.me.0) result }
        ensures rest { HasNow (map (meeting_at result) rest.old.items) rest.old rest.new }
        ensures risen { All (λ party. party.met ≤ result) rest.old.items }
    {
        self.gather(seat, rest);
        let found = self.position.load_for_meeting(seat);
        self.part(seat, rest);
        found
    }

    /// Moves these parties to the seat, before its own.
    pub(super) fn merge_rest(&self, seat: &mut Seat<u8, View>, mut rest: Vec<BumpParty>)
        requires seat { StandsAt self.now seat.old.table_id seat.old.me }
        requires rest { All (λ party. party.allocator ≡ self.now) rest.items }
        ensures seat { Stays seat.old.table_id seat.new.table_id (seat.new.me
            ≡ (
              standing_for (sight self.now.scene (met_by seat.new.me.0))
                  (map numbered_of rest.items ++ seat.old.me.0.parties),
              [],
            )) }
        ensures met { met_by seat.old.me.0 ≤ met_by seat.new.me.0 }
        ensures risen { All (λ party. party.met ≤ met_by seat.new.me.0) rest.items }
    {
        while let Some(party) = rest.pop() {
            let BumpParty {
                number: _,
                seat: guest,
            } = party;
            self.position.merge(seat, guest);
        }
    }
}
