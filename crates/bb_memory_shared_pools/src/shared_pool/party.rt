//! Parties: each is one user's right to step on a shared pool.
ghost use Rattle.bb_memory_shared_pools.specs.SharedPool.{IsParty};
ghost use Rattle.std.specs.Prelude.{◌≡◌};

use super::rule::View;
use atomic_table::Seat;
use bb_memory_pool_machine::hint::Hint;
use std::marker::Model;

/// One user of a shared pool. A party moves with its thread, and each call that takes or gives back
/// a bucket needs it. The list of the party's steps, its log, exists only in contracts. A dropped
/// party can't meet any more, so no later meeting has all parties.
#[derive(Drop)]
pub struct PoolParty {
    pub(super) hint: Hint,
    pub(super) number: u32,
    pub(super) seat: Seat<u8, View>,
}

impl Model for PoolParty {
    ghost use Rattle.bb_memory_shared_pools.specs.SharedPool.{PoolParty};
    ghost use Rattle.bb_memory_shared_pools.specs.SharedPoolRule.{IsPartySeat, party_in};

    ghost Value = { PoolParty };

    ghost view = { λ p. party_in p.seat.table_id p.number p.seat.me.0 };

    ghost invariant = { λ p. IsPartySeat p.number p.hint p.seat.me };
}

impl PoolParty {
    /// Returns the party's number, from 0 and less than the number of parties.
    pub fn number(&self) -> u32
        ensures value { result ≡ self.now.number }

        // The party is in no pass, and some interleaving has its log.
        ensures party { IsParty self.now }
    {
        self.number
    }
}
