//! Seats that stand in for those of parties that meet.
ghost use Rattle.bb_memory_shared_pools.specs.SharedPoolRule.{SeatView, nobody};
ghost use Rattle.std.specs.Prelude.{IfOk, [], ◌≡◌};

use super::rule::View;
use atomic_table::{Play, Seat, Table, TableRule};
use std::alloc::{AllocError, Global};
use std::marker::{Brand, Model, PhantomData};

/// Carries the view of a seat in a type, since a `Play` takes no arguments.
pub(super) trait Seen {
    ghost view: { SeatView };
}

impl Seen for Brand {
    ghost view = { nobody };
}

/// The rule of a table whose seats have any views.
struct Anything;

impl TableRule<u8, View, ()> for Anything {
    ghost holds = { λ _ _. Unit {0} };

    ghost first = { λ _. nobody };
}

/// A load that makes a seat with this view.
struct Shows<L> {
    seen: PhantomData<L>,
}

impl<L: Seen> Play<u8, View> for Shows<L> {
    ghost then = { λ _ _ _ new. new ≡ (L.view, []) };
}

/// The table of the seats that stand in for those of parties that meet. A party always has a seat, and
/// the parties of a meeting are all at one seat, so each of them has a stand-in meanwhile. The table is
/// no pool's, and its only word never changes.
#[derive(Drop)]
pub(super) struct StandIns {
    table: Table<u8, View, (), Anything, Global>,
}

impl Model for StandIns {
    ghost Value = { Unit {0} };

    ghost view = { λ _. tt };

    ghost invariant = { λ s. s.table.shared.table_id.words ≡ 1 };
}

impl StandIns {
    /// Makes the table.
    pub(super) fn open(alloc: Global) -> Result<StandIns, AllocError> {
        let (table, _) = Table::of_words(alloc, &[0], &())?;
        Ok(StandIns { table })
    }

    /// Returns a seat of this table with the view of another seat.
    pub(super) fn like<L: Seen>(&self, seat: &Seat<u8, View>) -> Seat<u8, View>
        requires { seat.now.me.0 ≡ L.view }
        ensures { result.me ≡ (seat.now.me.0, []) }
    {
        let _ = seat;
        self.table.shared.load_new_seat::<Shows<L>>(0).1
    }
}
