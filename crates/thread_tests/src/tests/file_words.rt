//! The words of a file as parties load, exchange and store them.
ghost use Rattle.bb_memory_file.specs.FileLog.{IsLap, IsSaid};
ghost use Rattle.bb_memory_file.specs.FileParties.{log_of};
ghost use Rattle.std.specs.Prelude.{IfOk, [], ◌<◌, ◌≡◌};

use super::checks::{check, same};
use bb_memory_file::geometry::FileGeometry;
use bb_memory_file::joined::{Joined, reap};
use bb_memory_file::party::FileParty;
use bb_memory_file::table::FileTable;
use bb_memory_file::words::Words;
use bb_memory_file_machine::steps::{Entry, FileFlag, Slot};
use bb_memory_pool_machine::hint::Hint;
use std::alloc::{AllocError, Global};
use std::process::Abort;

/// Three buckets, two slots and two parties, whose words are next to each other.
pub(super) const GEOMETRY: FileGeometry = FileGeometry {
    buckets: 3,
    slots: 2,
    parties: 2,
    first_flag: 16,
    first_life: 19,
    first_entry: 21,
    first_slot: 24,
};

/// Makes the words of a file that begins with these flags, lives, entries and slots.
pub(super) fn table(alloc: Global, words: [u64; 10]) -> Result<FileTable, AllocError>
    ensures { IfOk result (λ table. table.geometry.parties ≡ 2) }
{
    let [a, b, c, d, e, f, g, h, i, j] = words;
    let row = [
        0, 0, 0, 0, 0, 0, 0, 0, 0, 0, 0, 0, 0, 0, 0, 0, a, b, c, d, e, f, g, h, i, 0, 0, 0, 0, 0,
        0, 0, 0, 0, 0, 0, 0, 0, 0, 0, j, 0, 0, 0, 0, 0, 0, 0, 0, 0, 0, 0, 0, 0, 0, 0,
    ];
    FileTable::new(alloc, &row, GEOMETRY)
}

/// Makes the words of a file.
fn made(rt: &(impl Abort + AllocGlobal), words: [u64; 10]) -> FileTable
    ensures { result.geometry.parties ≡ 2 }
{
    let table = table(rt.alloc(), words).ok();
    table.expect(rt, "there is memory for the words")
}

/// Makes a party of this number.
fn party(rt: &impl Abort, table: &FileTable, number: u32) -> FileParty
    requires { number < table.now.geometry.parties }
    ensures { (log_of result).events ≡ [] }
{
    let party = table.party(number);
    party.expect(rt, "there are few parties")
}

/// Loads the flag of a bucket, if there is one.
fn flag(party: &mut FileParty, bucket: u32) -> Option<FileFlag> {
    if bucket >= party.buckets() {
        return None;
    }
    Some(party.load_flag(bucket))
}

/// Exchanges the flag of a bucket, if there is one.
fn exchange_flag(party: &mut FileParty, bucket: u32, from: FileFlag, to: FileFlag) -> Option<bool>
    requires from { IsSaid from }
    requires to { IsSaid to }
{
    if bucket >= party.buckets() {
        return None;
    }
    Some(party.exchange_flag(bucket, from, to))
}

/// Loads the entry of a bucket, if there is one.
fn entry(party: &mut FileParty, bucket: u32) -> Option<Entry> {
    if bucket >= party.buckets() {
        return None;
    }
    Some(party.load_entry(bucket))
}

/// Loads the word of a slot, if there is one.
fn slot(party: &mut FileParty, slot: u32) -> Option<Slot> {
    if slot >= party.slots() {
        return None;
    }
    Some(party.load_slot(slot))
}

/// Exchanges the word of an empty slot for that of a bucket, if there are such a slot and bucket.
fn fill_slot(party: &mut FileParty, slot: u32, lap: u32, bucket: u32) -> Option<bool>
    requires { IsLap lap }
{
    if slot >= party.slots() || bucket >= party.buckets() {
        return None;
    }
    Some(party.exchange_slot(slot, Slot::Empty { lap }, Slot::Message { lap, bucket }))
}

/// Counts the life of the party.
fn count(party: &mut FileParty) -> u64 {
    let life = party.load_life();
    if life == u64::MAX {
        return life;
    }
    party.store_life(life + 1);
    life
}

/// Takes a value that may go to another thread.
fn send<T: Send>(_value: &T) {}

#[test]
fn a_geometry_is_in_a_row_with_room(rt: HostRuntime) {
    let rt = &rt;
    check(rt, GEOMETRY.is_in(56));
    check(rt, !GEOMETRY.is_in(55));
    check(
        rt,
        !FileGeometry {
            first_flag: 15,
            ..GEOMETRY
        }
        .is_in(56),
    );
    check(
        rt,
        !FileGeometry {
            first_flag: 17,
            first_life: 20,
            ..GEOMETRY
        }
        .is_in(56),
    );
    check(
        rt,
        !FileGeometry {
            first_life: 18,
            ..GEOMETRY
        }
        .is_in(56),
    );
    check(
        rt,
        !FileGeometry {
            first_entry: 20,
            ..GEOMETRY
        }
        .is_in(56),
    );
    check(
        rt,
        !FileGeometry {
            first_slot: 23,
            ..GEOMETRY
        }
        .is_in(56),
    );
}

#[test]
fn words_say_what_the_format_says(rt: HostRuntime) {
    let rt = &rt;
    let held_by_1 = 5;
    let detached_by_0 = 2;
    let sent_to_2_at_lap_3 = 51539607563;
    let in_slot_0_with_7_bytes = 30064771073;
    let in_slot_2 = 3;
    let empty_at_lap_5 = 21474836480;
    let bucket_1_at_lap_5 = 21474836482;
    let flags = [held_by_1, detached_by_0, sent_to_2_at_lap_3];
    let entries = [0, in_slot_0_with_7_bytes, in_slot_2];
    let table = made(
        rt,
        [
            flags[0],
            flags[1],
            flags[2],
            8,
            9,
            entries[0],
            entries[1],
            entries[2],
            empty_at_lap_5,
            bucket_1_at_lap_5,
        ],
    );
    let mut party = party(rt, &table, 1);
    same(rt, flag(&mut party, 0), Some(FileFlag::HeldBy(1)));
    same(rt, flag(&mut party, 1), Some(FileFlag::DetachedBy(0)));
    same(
        rt,
        flag(&mut party, 2),
        Some(FileFlag::SentTo { slot: 2, lap: 3 }),
    );
    same(rt, party.load_life(), 9);
    same(rt, entry(&mut party, 0), Some(Entry::Nowhere));
    same(
        rt,
        entry(&mut party, 1),
        Some(Entry::In { slot: 0, length: 7 }),
    );
    same(rt, entry(&mut party, 2), Some(Entry::Nowhere));
    same(rt, slot(&mut party, 0), Some(Slot::Empty { lap: 5 }));
    same(
        rt,
        slot(&mut party, 1),
        Some(Slot::Message { lap: 5, bucket: 1 }),
    );
}

#[test]
fn a_word_that_is_no_flags_is_never_exchanged(rt: HostRuntime) {
    let rt = &rt;
    let kind_0_of_number_1 = 4;
    let held_by_a_33_bit_number = 17179869185;
    let detached_by_a_33_bit_number = 17179869186;
    let flags = [
        kind_0_of_number_1,
        held_by_a_33_bit_number,
        detached_by_a_33_bit_number,
    ];
    let table = made(rt, [flags[0], flags[1], flags[2], 0, 0, 0, 0, 0, 0, 0]);
    let mut party = party(rt, &table, 0);
    let none = FileFlag::SentTo {
        slot: 0,
        lap: 1 << 30,
    };
    let (held, detached) = (FileFlag::HeldBy(0), FileFlag::DetachedBy(0));
    for bucket in 0..3u32 {
        same(rt, flag(&mut party, bucket), Some(none));
        same(
            rt,
            exchange_flag(&mut party, bucket, FileFlag::Free, held),
            Some(false),
        );
        same(
            rt,
            exchange_flag(&mut party, bucket, held, FileFlag::Free),
            Some(false),
        );
        same(
            rt,
            exchange_flag(&mut party, bucket, detached, held),
            Some(false),
        );
    }
}

#[test]
fn a_word_that_is_no_slots_is_never_exchanged(rt: HostRuntime) {
    let rt = &rt;
    let empty_at_lap_2_to_30 = 4611686018427387904;
    let bucket_1_at_lap_2_to_30_and_5 = 4611686039902224386;
    let table = made(
        rt,
        [
            0,
            0,
            0,
            0,
            0,
            0,
            0,
            0,
            empty_at_lap_2_to_30,
            bucket_1_at_lap_2_to_30_and_5,
        ],
    );
    let mut party = party(rt, &table, 0);
    let none = Slot::Message {
        lap: 0,
        bucket: u32::MAX,
    };
    for number in 0..2u32 {
        same(rt, slot(&mut party, number), Some(none));
        same(rt, fill_slot(&mut party, number, 0, 1), Some(false));
        same(rt, fill_slot(&mut party, number, 5, 1), Some(false));
    }
}

#[test]
fn a_bucket_goes_to_another_party(rt: HostRuntime) {
    let rt = &rt;
    let table = made(rt, [0; 10]);
    let mut sender = party(rt, &table, 0);
    let mut taker = party(rt, &table, 1);
    let (held, taken) = (FileFlag::HeldBy(0), FileFlag::HeldBy(1));
    let sent = FileFlag::SentTo { slot: 0, lap: 0 };
    same(
        rt,
        exchange_flag(&mut sender, 2, FileFlag::Free, held),
        Some(true),
    );
    same(
        rt,
        exchange_flag(&mut taker, 2, FileFlag::Free, taken),
        Some(false),
    );
    same(rt, fill_slot(&mut sender, 0, 0, 2), Some(true));
    same(rt, fill_slot(&mut sender, 0, 0, 1), Some(false));
    same(rt, exchange_flag(&mut taker, 2, sent, taken), Some(false));
    same(rt, exchange_flag(&mut sender, 2, held, sent), Some(true));
    same(
        rt,
        slot(&mut taker, 0),
        Some(Slot::Message { lap: 0, bucket: 2 }),
    );
    same(rt, exchange_flag(&mut taker, 2, sent, taken), Some(true));
    same(rt, exchange_flag(&mut sender, 2, sent, held), Some(false));
    same(rt, flag(&mut sender, 2), Some(taken));
}

#[test]
fn a_new_file_is_empty(rt: HostRuntime) {
    let rt = &rt;
    let table = FileTable::of_zeros(rt.alloc(), 56, GEOMETRY).ok();
    let table = table.expect(rt, "there is memory for the words");
    same(rt, table.geometry().buckets, 3);
    let mut last = party(rt, &table, 1);
    same(rt, last.party(), 1);
    same(rt, (last.buckets(), last.slots()), (3, 2));
    same(rt, flag(&mut last, 2), Some(FileFlag::Free));
    same(rt, entry(&mut last, 2), Some(Entry::Nowhere));
    same(rt, slot(&mut last, 1), Some(Slot::Empty { lap: 0 }));
    same(rt, last.load_life(), 0);
}

/// Party 0 holds bucket 0, whose entry names a slot that doesn't have the bucket, and bucket 1, which is
/// in its slot. It has detached bucket 2, and is settled then. The next party joins.
#[test]
fn a_reap_frees_what_a_party_held(rt: HostRuntime) {
    let rt = &rt;
    let (held_by_0, detached_by_0) = (1, 2);
    let (in_slot_0, in_slot_1) = (30064771073, 30064771074);
    let bucket_1_at_lap_5 = 21474836482;
    let table = made(
        rt,
        [
            held_by_0,
            held_by_0,
            detached_by_0,
            3,
            0,
            in_slot_1,
            in_slot_0,
            0,
            bucket_1_at_lap_5,
            0,
        ],
    );
    same(rt, reap(party(rt, &table, 0), false, false).ok(), Some(1));
    same(rt, party(rt, &table, 0).load_life(), 5);
    let joined = Joined::join(party(rt, &table, 1), rt.alloc(), Hint::first(3, 1, 8, 0), 1);
    check(rt, matches!(joined, Ok(Ok(_))));
    let mut other = party(rt, &table, 1);
    same(rt, other.load_life(), 3);
    same(rt, flag(&mut other, 0), Some(FileFlag::Free));
    same(rt, entry(&mut other, 0), Some(Entry::Nowhere));
    same(
        rt,
        flag(&mut other, 1),
        Some(FileFlag::SentTo { slot: 0, lap: 5 }),
    );
    same(
        rt,
        entry(&mut other, 1),
        Some(Entry::In { slot: 0, length: 7 }),
    );
    same(rt, flag(&mut other, 2), Some(FileFlag::DetachedBy(0)));
}

#[test]
fn a_party_has_its_own_life(rt: HostRuntime) {
    let rt = &rt;
    let table = made(rt, [0, 0, 0, 6, 0, 0, 0, 0, 0, 0]);
    let mut one = party(rt, &table, 1);
    same(rt, count(&mut one), 0);
    same(rt, count(&mut one), 1);
    same(rt, count(&mut party(rt, &table, 0)), 6);
}

#[test]
fn threads_share_the_words(rt: HostRuntime) {
    let table = made(&rt, [0; 10]);
    send(&table);
    send(&party(&rt, &table, 0));
}
