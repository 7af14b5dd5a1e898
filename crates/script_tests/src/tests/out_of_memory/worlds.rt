//! Replays of steps. A failed replay leaves its world unchanged, and is made again.
use crate::tests::checks::{check, chunk, layout, refused, same};
use bb_memory_base::steps::PoolOutcome::{Gives, Loses, RefusedAtLoss, Takes};
use bb_memory_base::steps::PoolStep::{GiveBack, Try};
use bb_memory_base::steps::{BumpOutcome, BumpStep, BumpWorld, PoolOutcome, PoolStep, PoolWorld};
use std::alloc::AllocError;
use std::process::Abort;

/// Returns a world, or `None` if memory ran out.
pub(super) fn made<W: Drop>(
    rt: &(impl Abort + AllocGlobal),
    world: Result<W, AllocError>,
) -> Option<W> {
    if world.is_err() {
        refused(rt);
    }
    world.ok()
}

/// Replays steps, in a second attempt if memory ran out: then the bump is still fresh.
fn replayed_by_bump(
    rt: &(impl Abort + AllocGlobal),
    world: &mut BumpWorld,
    steps: &[BumpStep],
) -> Vec<BumpOutcome> {
    if let Ok(got) = world.replay(steps) {
        return got;
    }
    refused(rt);
    let loaded = world.step(BumpStep::Load { party: 0 });
    same(rt, loaded, BumpOutcome::Loaded(0));
    world.replay(steps).expect(rt, "there is memory again")
}

// row: steps-bump-race, refused-worlds, refused-replay
#[test]
fn a_bump_is_raced_for(rt: HostRuntime) {
    let layout = layout(&rt, 40, 1);
    let steps = [
        BumpStep::Read { party: 0, layout },
        BumpStep::Read { party: 1, layout },
        BumpStep::Exchange { party: 1 },
        BumpStep::Exchange { party: 0 },
    ];
    let outcomes = [
        BumpOutcome::Sees(0),
        BumpOutcome::Sees(0),
        BumpOutcome::Wins(chunk(&rt, 4096, 40)),
        BumpOutcome::RefusedAtLoss(40),
    ];
    let Some(mut world) = made(&rt, BumpWorld::new(rt.alloc(), 4096, 64, 64)) else {
        return;
    };
    let got = replayed_by_bump(&rt, &mut world, &steps);
    check(&rt, got.as_slice() == outcomes.as_slice());
    same(&rt, world.used_space(), 40);
}

const GIVE: PoolStep = GiveBack {
    party: 0,
    bucket: 0,
};

const STEPS: [PoolStep; 6] = [
    Try { party: 0 },
    Try { party: 1 },
    Try { party: 2 },
    GIVE,
    Try { party: 1 },
    Try { party: 2 },
];

const OUTCOMES: [PoolOutcome; 6] = [
    Takes(0),
    Loses(0),
    Loses(0),
    Gives(0),
    Takes(1),
    RefusedAtLoss(1),
];

/// Replays the steps, in a second attempt if memory ran out: then the pool is still fresh.
fn replayed_by_pool(rt: &(impl Abort + AllocGlobal), world: &mut PoolWorld) -> Vec<PoolOutcome> {
    if let Ok(got) = world.replay(&STEPS) {
        return got;
    }
    refused(rt);
    same(rt, (world.holder(0), world.holder(1)), (None, None));
    same(rt, world.step(GIVE), PoolOutcome::Passed);
    world.replay(&STEPS).expect(rt, "there is memory again")
}

// row: steps-pool-never-full, refused-worlds, refused-replay
#[test]
fn a_pool_is_never_full(rt: HostRuntime) {
    let Some(mut world) = made(&rt, PoolWorld::new(rt.alloc(), 2, 64)) else {
        return;
    };
    let got = replayed_by_pool(&rt, &mut world);
    check(&rt, got.as_slice() == OUTCOMES.as_slice());
    same(&rt, (world.holder(0), world.holder(1)), (None, Some(1)));
}
