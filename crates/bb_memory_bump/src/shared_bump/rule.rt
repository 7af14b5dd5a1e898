//! The rule of a shared bump's word: it agrees with the logs of the parties.
ghost use Rattle.bb_memory_bump.specs.SharedBump.{scene_at};
ghost use Rattle.bb_memory_bump.specs.SharedBumpRule.{SeatView, WordsAndLogsAgree, all_parties, nobody};
ghost use Rattle.bb_memory_bump_machine.specs.BumpMachine.{BumpScene};
ghost use Rattle.bb_memory_traits.specs.Chunk.{region_at};

use atomic_table::TableRule;
use std::marker::Model;

/// The scene of a shared bump's machine: the state in which it begins.
#[derive(Drop)]
pub(crate) struct Scene {
    pub(crate) start: usize,
    pub(crate) size: usize,
    pub(crate) opening: usize,
    pub(crate) parties: u32,
}

impl Model for Scene {
    ghost Value = { BumpScene };

    ghost view = { λ s. scene_at (region_at s.start s.size) s.opening s.parties };
}

/// The knowledge of a seat: the parties that it represents, each with its log. No value of this
/// type is made.
pub(crate) struct View {}

impl Model for View {
    ghost Value = { SeatView };

    ghost view = { λ v. nobody };
}

/// The word and the logs of the parties agree.
pub(crate) struct Agreement;

impl TableRule<u8, View, Scene> for Agreement {
    ghost holds = { WordsAndLogsAgree };

    ghost first = { all_parties };
}
