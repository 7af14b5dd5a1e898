//! Parties: each is one user's right to step on a shared bump.
ghost use Rattle.bb_memory_bump.specs.SharedBump.{BumpParty, IsParty};
ghost use Rattle.bb_memory_bump.specs.SharedBumpRule.{IsPartySeat, party_in};
ghost use Rattle.std.specs.Prelude.{◌≡◌};

use super::rule::View;
use atomic_table::Seat;
use std::marker::Model;

/// One user of a shared bump. A party moves with its thread, and each call that steps on the
/// position takes it. The list of the party's steps, its log, exists only in contracts. A dropped
/// party can't meet any more, so no later meeting has all parties.
#[derive(Drop)]
pub struct BumpParty {
    pub(super) number: u32,
    pub(super) seat: Seat<u8, View>,
}

impl Model for BumpParty {
    ghost Value = { BumpParty };

    ghost view = { λ p. party_in p.seat.table_id p.number p.seat.me.0 };

    ghost invariant = { λ p. IsPartySeat p.number p.seat.me };
}

impl BumpParty {
    /// Returns the party's number, from 0 and less than the number of parties.
    pub fn number(&self) -> u32
        ensures value { result ≡ self.now.number }

        // The party is in no call, and some interleaving has its log.
        ensures party { IsParty self.now }
    {
        self.number
    }
}
