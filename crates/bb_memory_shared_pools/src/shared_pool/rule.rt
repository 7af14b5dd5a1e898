//! The rule of a shared pool's words: they agree with the logs of the parties.
use atomic_table::TableRule;
use bb_memory_traits::geometry::Geometry;
use std::marker::Model;

/// The scene of a shared pool's machine: the state in which it begins.
#[derive(Drop)]
pub(crate) struct Scene {
    pub(crate) geometry: Geometry,
    pub(crate) parties: u32,
}

impl Model for Scene {
    ghost use Rattle.bb_memory_pool_machine.specs.PoolMachine.{PoolScene};
    ghost use Rattle.bb_memory_shared_pools.specs.SharedPool.{scene_at};

    ghost Value = { PoolScene };

    ghost view = { λ s. scene_at s.geometry s.parties };
}

/// The knowledge of a seat: the parties that it represents, each with its log. No value of this type is made.
pub(crate) struct View {}

impl Model for View {
    ghost use Rattle.bb_memory_shared_pools.specs.SharedPoolRule.{SeatView, nobody};

    ghost Value = { SeatView };

    ghost view = { λ v. nobody };
}

/// Words and logs agree.
pub(crate) struct Agreement;

impl TableRule<u8, View, Scene> for Agreement {
    ghost use Rattle.bb_memory_shared_pools.specs.SharedPoolRule.{WordsAndLogsAgree, all_parties};

    ghost holds = { WordsAndLogsAgree };

    ghost first = { all_parties };
}
