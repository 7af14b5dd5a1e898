//! Requests: a read, and exchanges until one wins or the layout no longer fits.
ghost use Rattle.bb_memory_bump.specs.SharedBumpRule.{AfterRefusal, AfterWin, IsFor, MayAsk, met_by};
ghost use Rattle.bb_memory_bump_machine.specs.BumpMachine.{fits};
ghost use Rattle.bb_memory_seats.specs.Seats.{Stays, number_of, view_log};
ghost use Rattle.bb_memory_traits.specs.Chunk.{IsInside, IsRegion, region_at};
ghost use Rattle.std.specs.Prelude.{IfSome, MatchOption, false, ◌%◌, ◌≡◌, ◌≤◌};

use super::SharedBumpAllocator;
use super::position::Asked;
use super::rule::View;
use atomic_table::Seat;
use bb_memory_traits::layout::{Chunk, Layout};

impl SharedBumpAllocator {
    /// Tries until an exchange wins a chunk or the layout doesn't fit. The layout's size isn't 0.
    pub(super) fn claim<L: Asked>(&self, seat: &mut Seat<u8, View>, layout: Layout) -> Option<Chunk>
        requires { MayAsk self.now seat.old.table_id seat.old.me L.layout layout }
        ensures call { Stays seat.old.table_id seat.new.table_id (MatchOption result
            (AfterRefusal self.now.scene (number_of seat.old.me.0) (view_log seat.old.me.0)
            (met_by seat.old.me.0) layout seat.new.me)
            (AfterWin self.now.scene (number_of seat.old.me.0) (view_log seat.old.me.0)
            (met_by seat.old.me.0) layout seat.new.me)) }
        ensures aligned { IfSome result (λ chunk. chunk.place % layout.align ≡ 0) }
        ensures inside { IfSome result (IsInside self.now.scene.region) }
    {
        // Copies the fields into locals: otherwise the compiler would load them again after each
        // exchange.
        let (start, size) = (self.start, self.size);
        let mut seen = self.position.read::<L>(seat, layout);
        let mut chunk = match place(start, size, seen, layout) {
            Some(chunk) => chunk,
            None => return None,
        };
        loop {
            let found = self
                .position
                .exchange(seat, layout, seen, chunk.end() - start);
            if found == seen {
                return Some(chunk);
            }
            seen = found;
            match place(start, size, seen, layout) {
                Some(next) => chunk = next,
                None => return None,
            }
        }
    }
}

/// Returns the chunk that a layout gets at a position of the region of `size` bytes at `start`, if
/// it fits there.
fn place(start: usize, size: usize, position: usize, layout: Layout) -> Option<Chunk>
    requires region { IsRegion (region_at start size) }
    requires position { position ≤ size }
    ensures fits { let region = region_at start size in
        MatchOption result (fits region position layout ≡ false) (IsFor region position layout) }
{
    Chunk::at_or_after(start + position, layout, start + size)
}
