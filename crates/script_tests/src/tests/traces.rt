//! Tests of which word of a pool's file is which flag, entry or slot, and of traces that the
//! machine of such a pool allows, or refuses at a line.
use crate::tests::checks::{check, same};
use bb_memory_file_machine::steps::{Entry, FileFlag, FileOutcome, FileStep, Place, Slot};
use file_traces::replay::Difference;
use file_traces::traces::{End, end_of};
use file_traces::which_word::{entry_of, flag_of, slot_of};
use std::process::Abort;

#[test]
fn words_of_flags(rt: HostRuntime) {
    check(&rt, flag_of(0) == Some(FileFlag::Free));
    check(&rt, flag_of(1) == Some(FileFlag::HeldBy(0)));
    check(&rt, flag_of(2) == Some(FileFlag::DetachedBy(0)));
    check(&rt, flag_of(13) == Some(FileFlag::HeldBy(3)));
    check(&rt, flag_of(14) == Some(FileFlag::DetachedBy(3)));
    check(&rt, flag_of(4) == None);
    check(&rt, flag_of(17_179_869_185) == None);
    check(&rt, flag_of(17_179_869_186) == None);
}

/// The lap counts in steps of 2^34.
#[test]
fn words_of_flags_that_name_a_slot(rt: HostRuntime) {
    let at_first = FileFlag::SentTo { slot: 0, lap: 0 };
    let last = FileFlag::SentTo { slot: 2, lap: 0 };
    let next = FileFlag::SentTo { slot: 0, lap: 1 };
    let later = FileFlag::SentTo { slot: 1, lap: 5 };
    check(&rt, flag_of(3) == Some(at_first));
    check(&rt, flag_of(11) == Some(last));
    check(&rt, flag_of(17_179_869_187) == Some(next));
    check(&rt, flag_of(85_899_345_927) == Some(later));
}

#[test]
fn words_of_entries(rt: HostRuntime) {
    let entry = Entry::In { slot: 3, length: 8 };
    check(&rt, entry_of(0) == Some(Entry::Nowhere));
    check(&rt, entry_of(34_359_738_372) == Some(entry));
    check(&rt, entry_of(34_359_738_368) == None);
}

#[test]
fn words_of_slots(rt: HostRuntime) {
    let first = Slot::Message { lap: 0, bucket: 3 };
    let later = Slot::Message { lap: 8, bucket: 3 };
    check(&rt, slot_of(0) == Some(Slot::Empty { lap: 0 }));
    check(&rt, slot_of(4) == Some(first));
    check(&rt, slot_of(34_359_738_368) == Some(Slot::Empty { lap: 8 }));
    check(&rt, slot_of(34_359_738_372) == Some(later));
}

/// A party joins and posts a message, as the machine has it.
const POSTED: &[u8] = b"file 2 1 1 1
join 0
lock 0 0
life 0 0 0 2
life 0 0 2 3
ok 0
allocate 0 0
flag 0 0 0 1
ok 0 0
post 0 0 0 0 8
entry 0 0 0 34359738369
slot 0 0 0 1
flag 0 0 1 3
ok 0
";

#[test]
fn each_change_is_allowed(rt: HostRuntime) {
    let end = End::Same {
        lines: 14,
        changes: 7,
    };
    same(&rt, end_of(rt.alloc(), POSTED), end);
}

/// Two parties post into a slot that is two cells deep, which are slots of the machine. The first one
/// finds that the second one has filled the first cell, and fills the second cell. The messages are
/// taken in the order of the cells.
#[test]
fn a_post_that_tries_the_next_cell_is_allowed(rt: HostRuntime) {
    let text = b"file 2 2 2 2
join 0
lock 0 0
life 0 0 0 2
life 0 0 2 3
ok 0
join 1
lock 1 1
life 1 1 0 2
life 1 1 2 3
ok 1
allocate 0 0
flag 0 0 0 1
ok 0 0
allocate 1 1
flag 1 1 0 5
ok 1 1
post 0 0 0 0 8
entry 0 0 0 34359738369
post 1 1 0 1 8
entry 1 1 0 34359738369
slot 1 0 0 2
flag 1 1 5 3
ok 1
entry 0 0 34359738369 0
refused 0
post 0 0 1 0 8
entry 0 0 0 34359738370
slot 0 1 0 1
flag 0 0 1 7
ok 0
take 1 1 0
flag 1 1 3 5
ok 1 1 8
take 1 1 1
flag 1 0 7 5
ok 1 0 8
";
    let end = End::Same {
        lines: 37,
        changes: 18,
    };
    same(&rt, end_of(rt.alloc(), text), end);
}

#[test]
fn a_post_that_fills_the_slot_first_is_refused(rt: HostRuntime) {
    let text = b"file 2 1 1 1
join 0
lock 0 0
life 0 0 0 2
ok 0
allocate 0 0
flag 0 0 0 1
ok 0 0
post 0 0 0 0 8
slot 0 0 0 1
";
    let difference = Difference::OtherStep {
        place: Place::Outside,
        step: FileStep::Post {
            process: 0,
            party: 0,
            slot: 0,
            bucket: 0,
            length: 8,
        },
        outcome: FileOutcome::OnEntry(0),
    };
    differs(&rt, text, 10, difference);
}

/// A post finds its slot full, and the bucket's entry still says that the bucket is in the slot.
#[test]
fn a_refused_post_that_leaves_the_entry_is_refused(rt: HostRuntime) {
    let text = b"file 2 1 1 1
join 0
lock 0 0
life 0 0 0 2
ok 0
allocate 0 0
flag 0 0 0 1
ok 0 0
post 0 0 0 0 8
entry 0 0 0 34359738369
refused 0
";
    let posting = Place::Posting {
        party: 0,
        slot: 0,
        bucket: 0,
    };
    differs(&rt, text, 11, Difference::OtherReturn(posting));
}

/// A take from slot 1 gets the bucket that is sent to slot 0.
#[test]
fn a_take_from_another_slot_is_refused(rt: HostRuntime) {
    let text = b"file 2 1 1 2
join 0
lock 0 0
life 0 0 0 2
ok 0
allocate 0 0
flag 0 0 0 1
ok 0 0
post 0 0 0 0 8
entry 0 0 0 34359738369
slot 0 0 0 1
flag 0 0 1 3
ok 0
take 0 0 1
flag 0 0 3 1
";
    let difference = Difference::OtherStep {
        place: Place::Outside,
        step: FileStep::Take {
            process: 0,
            party: 0,
            slot: 1,
            bucket: 0,
            lap: 0,
        },
        outcome: FileOutcome::Refused,
    };
    differs(&rt, text, 15, difference);
}

/// A process is killed in a post that has filled the slot, and whoever settles its number gives
/// back the bucket.
#[test]
fn a_settler_that_frees_a_message_is_refused(rt: HostRuntime) {
    let text = b"file 2 1 1 1
join 0
lock 0 0
life 0 0 0 2
ok 0
allocate 0 0
flag 0 0 0 1
ok 0 0
post 0 0 0 0 8
entry 0 0 0 34359738369
slot 0 0 0 1
kill 0
unlock 0 0
gone 0
reap 1
lock 1 0
life 1 0 2 4
flag 1 0 1 0
";
    let difference = Difference::OtherStep {
        place: Place::Flags {
            party: 0,
            bucket: 0,
        },
        step: FileStep::Next { process: 1 },
        outcome: FileOutcome::Sends {
            bucket: 0,
            party: 0,
        },
    };
    differs(&rt, text, 18, difference);
}

/// A party takes the message of `POSTED`. Then it gets another length, or isn't allowed to be done,
/// or clears the entry first, or gives all back but the message.
#[test]
fn calls_after_a_post_that_are_refused(rt: HostRuntime) {
    let outside = Difference::OtherReturn(Place::Outside);
    differs_after(&rt, b"take 0 0 0\nflag 0 0 3 1\nok 0 0 9\n", 17, outside);
    differs_after(
        &rt,
        b"take 0 0 0\nflag 0 0 3 1\nok 0 0 8\ndone 0 0 0\nrefused 0\n",
        19,
        outside,
    );
    let cleared_first = Difference::OtherStep {
        place: Place::Outside,
        step: FileStep::Next { process: 0 },
        outcome: FileOutcome::Refused,
    };
    differs_after(
        &rt,
        b"take 0 0 0\nflag 0 0 3 1\nok 0 0 8\ndone 0 0 0\nentry 0 0 34359738369 0\n",
        19,
        cleared_first,
    );
    let kept = Difference::OtherStep {
        place: Place::Flags {
            party: 0,
            bucket: 0,
        },
        step: FileStep::Next { process: 0 },
        outcome: FileOutcome::Sends {
            bucket: 0,
            party: 0,
        },
    };
    differs_after(
        &rt,
        b"take 0 0 0\nflag 0 0 3 1\nok 0 0 8\ngive_all_back 0 0\nok 0\n",
        19,
        kept,
    );
}

#[test]
fn a_join_without_a_lock_is_refused(rt: HostRuntime) {
    differs(
        &rt,
        b"file 2 1 1 1\njoin 0\nok 0\n",
        3,
        Difference::OtherReturn(Place::Outside),
    );
}

#[test]
fn a_join_that_counts_no_life_is_refused(rt: HostRuntime) {
    let uncounted = Difference::OtherStep {
        place: Place::Counting { party: 0 },
        step: FileStep::Next { process: 0 },
        outcome: FileOutcome::Refused,
    };
    differs(&rt, b"file 2 1 1 1\njoin 0\nlock 0 0\nok 0\n", 4, uncounted);
    let unlocked = Difference::OtherStep {
        place: Place::Outside,
        step: FileStep::Next { process: 0 },
        outcome: FileOutcome::Refused,
    };
    differs(&rt, b"file 2 1 1 1\njoin 0\nlife 0 0 0 2\n", 3, unlocked);
    differs(
        &rt,
        b"file 2 1 1 1\njoin 0\nlock 0 0\nlife 0 0 1 2\n",
        4,
        Difference::OtherBefore,
    );
}

#[test]
fn a_lock_of_another_process_is_refused(rt: HostRuntime) {
    differs(
        &rt,
        b"file 2 1 1 1\njoin 0\nlock 0 0\nlife 0 0 0 2\nok 0\nreap 1\nlock 1 0\n",
        7,
        Difference::OtherBefore,
    );
}

#[test]
fn a_lock_that_outlives_its_process_is_refused(rt: HostRuntime) {
    differs(
        &rt,
        b"file 2 1 1 1\njoin 0\nlock 0 0\nlife 0 0 0 2\nok 0\nkill 0\ngone 0\n",
        7,
        Difference::KeepsLock(0),
    );
}

#[test]
fn a_line_of_no_process_is_refused(rt: HostRuntime) {
    differs(&rt, b"file 2 1 1 1\njoin 2\n", 2, Difference::NotInTurn);
    differs(&rt, b"file 2 1 1 1\nok 1\n", 2, Difference::NotInTurn);
}

#[test]
fn unreadable_lines(rt: HostRuntime) {
    same(&rt, end_of(rt.alloc(), b""), End::Unreadable(1));
    same(&rt, end_of(rt.alloc(), b"file 2 1 1\n"), End::Unreadable(1));
    same(
        &rt,
        end_of(rt.alloc(), b"file 2 1 1 1\nfile 2 1 1 1\n"),
        End::Unreadable(2),
    );
}

/// Checks that the machine differs from a trace at this line.
fn differs(rt: &(impl Abort + AllocGlobal), text: &[u8], line: usize, difference: Difference) {
    same(
        rt,
        end_of(rt.alloc(), text),
        End::Difference { line, difference },
    );
}

/// Checks that the machine differs, at this line, from `POSTED` with more lines.
fn differs_after(
    rt: &(impl Abort + AllocGlobal),
    more: &[u8],
    line: usize,
    difference: Difference,
) {
    let mut text = Vec::new(rt.alloc());
    text.extend_from_slice(POSTED).expect(rt, "there is memory");
    text.extend_from_slice(more).expect(rt, "there is memory");
    differs(rt, &text, line, difference);
}
