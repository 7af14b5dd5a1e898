//! A party of a file.
ghost use Rattle.bb_memory_file.specs.FileFormat.{IsGeometry};
ghost use Rattle.bb_memory_file.specs.FileOperations.{AreMade};
ghost use Rattle.bb_memory_file.specs.Recorded.{IsHand, recorded};
ghost use Rattle.std.specs.Arc.{arc_value};
ghost use Rattle.std.specs.Prelude.{◌<◌};

use crate::geometry::FileGeometry;
use crate::recorded::{Hand, RecordedWords};
use std::alloc::Global;
use std::sync::Arc;

/// A party of a file, which operates on the words by the lock of its number. It records each operation
/// since it was made.
#[derive(Drop)]
pub struct FileParty {
    pub(crate) words: Arc<RecordedWords, Global>,
    pub(crate) hand: Hand,
    pub(crate) geometry: FileGeometry,
    pub(crate) number: u32,
    ghost geometry_is: { IsGeometry geometry (arc_value words).table.shared.table_id.words },
    ghost number_is: { number < geometry.parties },
    ghost hand_is: { IsHand (arc_value words) hand },
    ghost made: { ∥ AreMade geometry number (recorded hand) ∥₁ },
}
