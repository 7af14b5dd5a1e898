//! Steps of both machines while no memory is available: in worlds with more parties than a script
//! has, or with steps that no script has.
use super::worlds::made;
use crate::tests::checks::{chunk, layout, none_requested, same};
use bb_memory_base::steps::PoolOutcome::{Attaches, Detaches, Gives, Misses, Passed, Takes};
use bb_memory_base::steps::PoolStep::{
    Attach, AttachFrom, Detach, FindToken, GiveBack, Try, TryAt,
};
use bb_memory_base::steps::{
    BumpOutcome, BumpStep, BumpWorld, PoolWorld, bump_theorem, pool_theorem,
};
use bb_memory_file_machine::order::{queue_order_law, queue_variants_law};
use bb_memory_file_machine::steps::{file_steps_law, file_theorem, file_variants_theorem};
use test_marks::refuse_memory;

/// The last of 1,000 parties takes a chunk.
#[test]
fn a_bump_of_a_thousand_parties(rt: HostRuntime) {
    let Some(mut world) = made(&rt, BumpWorld::new(rt.alloc(), 4096, 64, 1000)) else {
        return;
    };
    refuse_memory(rt.alloc());
    let (party, layout) = (999, layout(&rt, 40, 1));
    let passed = world.step(BumpStep::Load { party: 1000 });
    same(&rt, passed, BumpOutcome::Passed);
    let sees = world.step(BumpStep::Read { party, layout });
    same(&rt, sees, BumpOutcome::Sees(0));
    let wins = world.step(BumpStep::Exchange { party });
    same(&rt, wins, BumpOutcome::Wins(chunk(&rt, 4096, 40)));
    same(&rt, world.used_space(), 40);
    none_requested(&rt);
}

/// A held bucket is missed, and nobody holds a detached one.
#[test]
fn a_bucket_is_detached_and_attached(rt: HostRuntime) {
    let Some(mut world) = made(&rt, PoolWorld::new(rt.alloc(), 2, 1000)) else {
        return;
    };
    refuse_memory(rt.alloc());
    let (bucket, party) = (1, 0);
    same(&rt, world.step(Detach { party, bucket }), Passed);
    same(&rt, world.step(TryAt { party, bucket }), Takes(1));
    same(&rt, world.step(TryAt { party, bucket }), Misses(1));
    same(&rt, world.step(TryAt { party, bucket: 2 }), Passed);
    same(&rt, world.holder(1), Some(0));
    same(&rt, world.step(Detach { party, bucket }), Detaches(1));
    same(&rt, world.holder(1), None);
    same(&rt, world.step(GiveBack { party, bucket }), Passed);
    let party = 999;
    same(&rt, world.step(Attach { party, bucket }), Attaches(1));
    same(&rt, world.step(Attach { party, bucket }), Passed);
    same(&rt, world.step(GiveBack { party, bucket }), Gives(1));
    same(&rt, world.step(Try { party: 1000 }), Passed);
    none_requested(&rt);
}

/// A bucket is attached only from the party that has detached it, and otherwise missed. A token of it
/// is found only while that party has detached it.
#[test]
fn a_bucket_is_attached_from_its_sender(rt: HostRuntime) {
    let Some(mut world) = made(&rt, PoolWorld::new(rt.alloc(), 2, 3)) else {
        return;
    };
    refuse_memory(rt.alloc());
    let (bucket, sender, party) = (1, 2, 0);
    let from_sender = AttachFrom {
        party,
        bucket,
        from: sender,
    };
    let finds_token = FindToken {
        party,
        bucket,
        from: sender,
    };
    same(&rt, world.step(from_sender), Misses(1));
    let taken = world.step(TryAt {
        party: sender,
        bucket,
    });
    same(&rt, taken, Takes(1));
    same(&rt, world.step(from_sender), Misses(1));
    same(&rt, world.step(finds_token), Passed);
    let detached = world.step(Detach {
        party: sender,
        bucket,
    });
    same(&rt, detached, Detaches(1));
    let from_another = world.step(AttachFrom {
        party,
        bucket,
        from: 1,
    });
    same(&rt, from_another, Misses(1));
    let token_of_another = world.step(FindToken {
        party,
        bucket,
        from: 1,
    });
    same(&rt, token_of_another, Passed);
    same(&rt, world.step(finds_token), Misses(1));
    same(&rt, world.holder(1), None);
    same(&rt, world.step(from_sender), Attaches(1));
    same(&rt, world.holder(1), Some(0));
    same(&rt, world.step(from_sender), Misses(1));
    same(&rt, world.step(finds_token), Passed);
    let of_no_bucket = world.step(AttachFrom {
        party,
        bucket: 2,
        from: sender,
    });
    same(&rt, of_no_bucket, Passed);
    none_requested(&rt);
}

/// The theorems do nothing.
#[test]
fn the_theorems_do_nothing(rt: HostRuntime) {
    refuse_memory(rt.alloc());
    bump_theorem();
    pool_theorem();
    file_theorem();
    file_steps_law();
    file_variants_theorem();
    queue_order_law();
    queue_variants_law();
    none_requested(&rt);
}
