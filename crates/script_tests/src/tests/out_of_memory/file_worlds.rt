//! Replays of steps of processes, one of which is killed. A failed replay leaves its world
//! unchanged, and is made again.
use super::worlds::made;
use crate::tests::checks::{check, refused, same};
use bb_memory_base::steps::PoolStep::{AttachFrom, Detach, GiveBack, TryAt};
use bb_memory_file_machine::steps::FileOutcome::{
    Dies, Moves, OnEntry, OnFlag, OnLife, OnLock, OnSlot, Receives, Refused, Sends,
};
use bb_memory_file_machine::steps::FileStep::{
    Allocate, AttachNumber, Count, Deallocate, DetachNumber, Done, Fill, Kill, Leave, Lock, Next,
    Post, PutBack, Recover, Release, Take, Unlock,
};
use bb_memory_file_machine::steps::{
    Entry, FileFlag, FileOutcome, FileStep, FileWorld, Place, Slot,
};
use std::process::Abort;

const GIVE: FileStep = Deallocate {
    process: 1,
    party: 0,
    bucket: 0,
};

const DETACH: FileStep = DetachNumber {
    process: 1,
    party: 0,
    bucket: 0,
};

const TAKE: FileStep = Take {
    process: 1,
    party: 0,
    slot: 0,
    bucket: 0,
    lap: 0,
};

/// Process 0 joins with number 0 and is killed in a post. Process 1 joins with the same number,
/// which settles it, takes the message, puts it back and takes it again. At the end it leaves, and
/// takes back the bucket that it has detached.
const STEPS: [FileStep; 33] = [
    Lock {
        process: 0,
        party: 0,
    },
    Count {
        process: 0,
        life: 1,
    },
    Next { process: 0 },
    Next { process: 0 },
    Next { process: 0 },
    Allocate {
        process: 0,
        party: 0,
        bucket: 0,
    },
    Post {
        process: 0,
        party: 0,
        slot: 0,
        bucket: 0,
        length: 7,
    },
    Fill { process: 0, lap: 1 },
    Fill { process: 0, lap: 0 },
    Kill { process: 0 },
    Lock {
        process: 1,
        party: 0,
    },
    Release {
        process: 0,
        party: 0,
    },
    Lock {
        process: 1,
        party: 0,
    },
    Count {
        process: 1,
        life: 2,
    },
    Next { process: 1 },
    Next { process: 1 },
    Next { process: 1 },
    TAKE,
    GIVE,
    PutBack {
        process: 1,
        party: 0,
        slot: 0,
        bucket: 0,
    },
    TAKE,
    Done {
        process: 1,
        party: 0,
        slot: 0,
        bucket: 0,
        next: 1,
    },
    Next { process: 1 },
    DETACH,
    AttachNumber {
        process: 1,
        party: 0,
        bucket: 0,
        from: 0,
    },
    GIVE,
    Allocate {
        process: 1,
        party: 0,
        bucket: 0,
    },
    DETACH,
    Leave {
        process: 1,
        party: 0,
    },
    Recover { process: 1 },
    Next { process: 1 },
    Next { process: 1 },
    Unlock { process: 1 },
];

const OUTCOMES: [FileOutcome; 33] = [
    OnLock(0),
    OnLife(0),
    Moves,
    Moves,
    Moves,
    OnFlag(TryAt {
        party: 0,
        bucket: 0,
    }),
    OnEntry(0),
    Refused,
    OnSlot(0),
    Dies,
    Refused,
    OnLock(0),
    OnLock(0),
    OnLife(0),
    Sends {
        bucket: 0,
        party: 0,
    },
    Moves,
    Moves,
    Receives {
        slot: 0,
        bucket: 0,
        party: 0,
    },
    Refused,
    Sends {
        bucket: 0,
        party: 0,
    },
    Receives {
        slot: 0,
        bucket: 0,
        party: 0,
    },
    OnSlot(0),
    OnEntry(0),
    OnFlag(Detach {
        party: 0,
        bucket: 0,
    }),
    OnFlag(AttachFrom {
        party: 0,
        bucket: 0,
        from: 0,
    }),
    OnFlag(GiveBack {
        party: 0,
        bucket: 0,
    }),
    OnFlag(TryAt {
        party: 0,
        bucket: 0,
    }),
    OnFlag(Detach {
        party: 0,
        bucket: 0,
    }),
    Moves,
    OnFlag(AttachFrom {
        party: 0,
        bucket: 0,
        from: 0,
    }),
    OnFlag(GiveBack {
        party: 0,
        bucket: 0,
    }),
    Moves,
    OnLock(0),
];

/// Replays the steps, in a second attempt if memory ran out: then the world is still fresh.
fn replayed(rt: &(impl Abort + AllocGlobal), world: &mut FileWorld) -> Vec<FileOutcome> {
    if let Ok(told) = world.replay(&STEPS) {
        return told;
    }
    refused(rt);
    same(rt, world.step(Next { process: 0 }), Refused);
    same(rt, world.lock(0), Some(None));
    world.replay(&STEPS).expect(rt, "there is memory again")
}

#[test]
fn a_message_survives_a_kill(rt: HostRuntime) {
    let Some(mut world) = made(&rt, FileWorld::new(rt.alloc(), 1, 1, 1, 2)) else {
        return;
    };
    let told = replayed(&rt, &mut world);
    check(&rt, told.as_slice() == OUTCOMES.as_slice());
    same(&rt, world.flag(0), Some(FileFlag::Free));
    same(&rt, world.entry(0), Some(Entry::Nowhere));
    same(&rt, world.slot(0), Some(Slot::Empty { lap: 1 }));
    same(&rt, world.life(0), Some(2));
    same(&rt, world.life(1), None);
    same(&rt, world.lock(0), Some(None));
    same(&rt, world.place(0), Some(Place::Dead));
    same(&rt, world.place(1), Some(Place::Outside));
    same(&rt, world.place(2), None);
}
