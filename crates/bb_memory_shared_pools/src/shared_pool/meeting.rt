//! Any number of parties at one seat.
ghost use Rattle.bb_memory_seats.specs.Seats.{HasNow, standing_for, tail_of};
ghost use Rattle.bb_memory_shared_pools.specs.SharedPool.{SharedPool};
ghost use Rattle.bb_memory_shared_pools.specs.SharedPoolRule.{AfterMeetingLoad, AfterMeetingLooks, NumberedLog, StandsAt, numbered_of, of_pool};
ghost use Rattle.std.specs.Prelude.{All, List, [], map, vec_capacity, vec_len, ◌++◌, ◌∷◌, ◌≡◌};

use super::flags::Flags;
use super::party::PoolParty;
use super::rule::View;
use atomic_table::Seat;
use std::marker::Brand;
use std::mem;

impl Flags {
    /// Loads the flags when the parties of one seat have met, each once, up to the first one of a detached bucket. Returns
    /// whether there is one.
    fn have_detached(&self, seat: &mut Seat<u8, View>) -> bool
        requires { StandsAt self.now seat.old.table_id seat.old.me }
        ensures table { seat.new.table_id ≡ seat.old.table_id }
        ensures seat { seat.new.me ≡ seat.old.me }
        ensures step { AfterMeetingLooks self.now.scene seat.old.me.0.parties result }
    {
        for bucket in 0..self.geometry().count() {
            if self.is_detached_when_met(seat, bucket) {
                return true;
            }
        }
        false
    }

    /// Moves the party's seat to this one, as its first. The party has a stand-in then, so its value is not this pool's.
    fn come(&self, seat: &mut Seat<u8, View>, party: &mut PoolParty)
        requires seat { StandsAt self.now seat.old.table_id seat.old.me }
        requires party { party.old.allocator ≡ self.now }
        ensures table { seat.new.table_id ≡ seat.old.table_id }
        ensures seat { seat.new.me
            ≡ (standing_for self.now.scene (numbered_of party.old ∷ seat.old.me.0.parties), []) }
        ensures party { numbered_of party.new ≡ numbered_of party.old }
        ensures scene { party.new.allocator.scene ≡ self.now.scene }
    {
        let stand_in = self.stand_ins.like::<Brand>(&party.seat);
        let guest = mem::replace(&mut party.seat, stand_in);
        self.merge(seat, guest);
    }

    /// Moves the first party of this seat back to a seat of its own, in place of its stand-in.
    fn go_back(&self, seat: &mut Seat<u8, View>, party: &mut PoolParty)
        requires table { seat.old.table_id ≡ self.now.table }
        requires seat { seat.old.me
            ≡ (standing_for self.now.scene (numbered_of party.old ∷ tail_of seat.old.me.0.parties), []) }
        requires scene { party.old.allocator.scene ≡ self.now.scene }
        ensures table { seat.new.table_id ≡ seat.old.table_id }
        ensures seat { seat.new.me ≡ (standing_for self.now.scene (tail_of seat.old.me.0.parties), []) }
        ensures party { party.new ≡ of_pool self.now (numbered_of party.old) }
    {
        party.seat = self.split_first(seat);
    }

    /// Moves the seats of these parties to this one, in their order and before those that it represents. Each party has a
    /// stand-in then.
    fn gather(&self, seat: &mut Seat<u8, View>, rest: &mut Vec<PoolParty>)
        requires seat { StandsAt self.now seat.old.table_id seat.old.me }
        requires rest { All (λ party. party.allocator ≡ self.now) rest.old.items }
        ensures table { seat.new.table_id ≡ seat.old.table_id }
        ensures seat { seat.new.me
            ≡ (standing_for self.now.scene (map numbered_of rest.old.items ++ seat.old.me.0.parties), []) }
        ensures parties { map numbered_of rest.new.items ≡ map numbered_of rest.old.items }
        ensures scene { All (λ party. party.allocator.scene ≡ self.now.scene) rest.new.items }
        ensures room { (vec_len rest.new ≡ vec_len rest.old) × (vec_capacity rest.new ≡ vec_capacity rest.old) }
    {
        for at in (0..rest.len()).rev() {
            self.come(seat, &mut rest[at]);
        }
    }

    /// Moves these parties, which come first at this seat, back to seats of their own, in place of their stand-ins.
    fn part(&self, seat: &mut Seat<u8, View>, rest: &mut Vec<PoolParty>)
        requires table { seat.old.table_id ≡ self.now.table }
        requires seat { (others : List NumberedLog) × (seat.old.me
            ≡ (standing_for self.now.scene (map numbered_of rest.old.items ++ others), [])) }
        requires scene { All (λ party. party.allocator.scene ≡ self.now.scene) rest.old.items }
        ensures table { seat.new.table_id ≡ seat.old.table_id }
        ensures seat { (others : List NumberedLog) → seat.old.me
            ≡ (standing_for self.now.scene (map numbered_of rest.old.items ++ others), [])
            → seat.new.me ≡ (standing_for self.now.scene others, []) }
        ensures parties { HasNow (map (of_pool self.now) (map numbered_of rest.old.items)) rest.old rest.new }
    {
        for at in 0..rest.len() {
            self.go_back(seat, &mut rest[at]);
        }
    }

    /// Makes these parties meet those of the seat, and go back to their own seats. Returns whether a bucket is detached then.
    pub(super) fn meet_detached(&self, seat: &mut Seat<u8, View>, rest: &mut Vec<PoolParty>) -> bool
        requires seat { StandsAt self.now seat.old.table_id seat.old.me }
        requires rest { All (λ party. party.allocator ≡ self.now) rest.old.items }
        ensures table { seat.new.table_id ≡ seat.old.table_id }
        ensures seat { seat.new.me ≡ seat.old.me }
        ensures step { AfterMeetingLooks self.now.scene
            (map numbered_of rest.old.items ++ seat.old.me.0.parties) result }
        ensures rest { HasNow rest.old.items rest.old rest.new }
    {
        self.gather(seat, rest);
        let told = self.have_detached(seat);
        self.part(seat, rest);
        told
    }

    /// Makes these parties meet those of the seat, and go back to their own seats.
    pub(super) fn meet_rest(&self, seat: &mut Seat<u8, View>, rest: &mut Vec<PoolParty>)
        requires seat { StandsAt self.now seat.old.table_id seat.old.me }
        requires rest { All (λ party. party.allocator ≡ self.now) rest.old.items }
        ensures table { seat.new.table_id ≡ seat.old.table_id }
        ensures seat { seat.new.me ≡ seat.old.me }
        ensures step { AfterMeetingLoad self.now.scene
            (map numbered_of rest.old.items ++ seat.old.me.0.parties) }
        ensures rest { HasNow rest.old.items rest.old rest.new }
    {
        self.gather(seat, rest);
        self.load_for_meeting(seat);
        self.part(seat, rest);
    }
}
