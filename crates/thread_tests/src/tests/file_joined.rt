//! Parties that have joined a file, and what each has noted of its buckets.
ghost use Rattle.std.specs.Prelude.{◌<◌, ◌≡◌};

use super::checks::{check, same};
use bb_memory_file::geometry::FileGeometry;
use bb_memory_file::joined::{Joined, Refusal, Taken};
use bb_memory_file::party::FileParty;
use bb_memory_file::queues::Sending;
use bb_memory_file::table::FileTable;
use bb_memory_pool_machine::hint::Hint;
use std::process::Abort;

/// Three buckets, one slot and two parties.
const GEOMETRY: FileGeometry = FileGeometry {
    buckets: 3,
    slots: 1,
    parties: 2,
    first_flag: 16,
    first_life: 19,
    first_entry: 21,
    first_slot: 24,
};

/// Four buckets, three slots and two parties.
pub(super) const DEEP: FileGeometry = FileGeometry {
    buckets: 4,
    slots: 3,
    parties: 2,
    first_flag: 16,
    first_life: 20,
    first_entry: 22,
    first_slot: 26,
};

/// Makes the words of a new file, which are zeros.
fn made(rt: &(impl Abort + AllocGlobal)) -> FileTable
    ensures { result.geometry.parties ≡ 2 }
{
    let table = FileTable::new(rt.alloc(), &[0; 40], GEOMETRY).ok();
    table.expect(rt, "there is memory for the words")
}

/// Makes the words of a new file with three slots.
fn made_deep(rt: &(impl Abort + AllocGlobal)) -> FileTable
    ensures { result.geometry.parties ≡ 2 }
{
    let table = FileTable::new(rt.alloc(), &[0; 74], DEEP).ok();
    table.expect(rt, "there is memory for the words")
}

/// Joins as this number of a file with queues of this depth. The party's first search begins at bucket 0.
fn joined(
    rt: &(impl Abort + AllocGlobal),
    table: &FileTable,
    number: u32,
    depth: u32,
) -> Joined<FileParty>
    requires number { number < table.now.geometry.parties }
    requires depth { 0 < depth }
{
    let party = table.party(number).expect(rt, "there are few parties");
    let hint = Hint::first(3, 1, 8, 0);
    let joined = Joined::join(party, rt.alloc(), hint, depth).ok();
    let joined = joined.expect(rt, "there is memory for the notes").ok();
    joined.expect(rt, "the number's life isn't over")
}

/// Posts a message of 7 bytes, if there is such a single slot.
fn post(party: &mut Joined<FileParty>, slot: u32, bucket: u32) -> Option<Result<bool, Refusal>> {
    if party.depth() != 1 || slot >= party.slots() {
        return None;
    }
    Some(party.post(slot, bucket, 7))
}

/// Takes the message in a slot, if there is such a single slot. A bucket has 7 bytes.
fn take(party: &mut Joined<FileParty>, slot: u32) -> Option<Taken> {
    if party.depth() != 1 || slot >= party.slots() {
        return None;
    }
    Some(party.take(slot, 7))
}

/// Says that the party is done with the message in a slot, if there is such a single slot.
fn done(party: &mut Joined<FileParty>, slot: u32) -> Option<bool> {
    if party.depth() != 1 || slot >= party.slots() {
        return None;
    }
    Some(party.done(slot))
}

/// Posts a message of this many bytes into a queue, if there is such a queue.
pub(super) fn send(
    party: &mut Joined<FileParty>,
    queue: u32,
    bucket: u32,
    length: u32,
) -> Option<Result<Sending, Refusal>> {
    if queue >= party.queues() {
        return None;
    }
    Some(party.send(queue, bucket, length))
}

/// Takes the oldest message of a queue, if there is such a queue. A bucket has 7 bytes.
pub(super) fn receive(party: &mut Joined<FileParty>, queue: u32) -> Option<Taken> {
    if queue >= party.queues() {
        return None;
    }
    Some(party.receive(queue, 7))
}

#[test]
fn a_party_refuses_what_it_does_not_hold(rt: HostRuntime) {
    let rt = &rt;
    let table = made(rt);
    let mut one = joined(rt, &table, 0, 1);
    let mut other = joined(rt, &table, 1, 1);
    same(rt, one.allocate(), Some(0));
    same(rt, other.allocate(), Some(1));
    same(rt, other.deallocate(0), Err(Refusal::NotHeld));
    same(rt, other.deallocate(3), Err(Refusal::NotABucket));
    same(rt, other.detach(1), Ok(None));
    same(rt, other.attach(0), Ok(false));
    same(rt, one.attach(1), Ok(true));
    same(rt, other.attach(1), Ok(false));
    same(rt, one.give_all_back(), 2);
    same(rt, one.deallocate(1), Err(Refusal::NotHeld));
}

#[test]
fn a_message_is_undone_until_its_taker_is_done(rt: HostRuntime) {
    let rt = &rt;
    let table = made(rt);
    let mut sender = joined(rt, &table, 0, 1);
    let mut taker = joined(rt, &table, 1, 1);
    let message = Taken::Message {
        bucket: 0,
        length: 7,
    };
    same(rt, take(&mut taker, 0), Some(Taken::Empty));
    same(rt, sender.allocate(), Some(0));
    same(rt, post(&mut sender, 0, 0), Some(Ok(true)));
    same(rt, sender.deallocate(0), Err(Refusal::NotHeld));
    same(rt, take(&mut taker, 0), Some(message));
    same(rt, take(&mut taker, 0), Some(Taken::NotSent));
    same(rt, taker.deallocate(0), Err(Refusal::NotDone));
    same(rt, taker.detach(0), Ok(Some(0)));
    same(rt, take(&mut taker, 0), Some(message));
    same(rt, done(&mut sender, 0), Some(false));
    same(rt, done(&mut taker, 0), Some(true));
    same(rt, done(&mut taker, 0), Some(false));
    same(rt, taker.deallocate(0), Ok(()));
    same(rt, sender.leave(), 0);
}

#[test]
fn a_queue_gives_its_messages_in_order(rt: HostRuntime) {
    let rt = &rt;
    let table = made_deep(rt);
    let mut sender = joined(rt, &table, 0, 2);
    let mut receiver = joined(rt, &table, 1, 2);
    let first = Taken::Message {
        bucket: 0,
        length: 5,
    };
    let second = Taken::Message {
        bucket: 1,
        length: 6,
    };
    same(rt, sender.queues(), 1);
    same(rt, receive(&mut receiver, 0), Some(Taken::Empty));
    same(rt, sender.allocate(), Some(0));
    same(rt, sender.allocate(), Some(1));
    same(rt, sender.allocate(), Some(2));
    same(
        rt,
        send(&mut sender, 0, 0, 5),
        Some(Ok(Sending::Sent { slot: 0 })),
    );
    same(
        rt,
        send(&mut sender, 0, 1, 6),
        Some(Ok(Sending::Sent { slot: 1 })),
    );
    same(rt, send(&mut sender, 0, 2, 7), Some(Ok(Sending::Full)));
    same(rt, receive(&mut receiver, 0), Some(first));
    same(rt, receive(&mut receiver, 0), Some(second));
    same(rt, receive(&mut receiver, 0), Some(Taken::NotSent));
    same(rt, receiver.detach(0), Ok(Some(0)));
    same(rt, receive(&mut receiver, 0), Some(first));
}

#[test]
fn a_queue_has_room_again_in_the_order_of_its_posts(rt: HostRuntime) {
    let rt = &rt;
    let table = made_deep(rt);
    let mut sender = joined(rt, &table, 0, 2);
    let mut receiver = joined(rt, &table, 1, 2);
    let third = Taken::Message {
        bucket: 2,
        length: 7,
    };
    same(rt, sender.allocate(), Some(0));
    same(rt, sender.allocate(), Some(1));
    same(rt, sender.allocate(), Some(2));
    check(rt, send(&mut sender, 0, 0, 5).is_some());
    check(rt, send(&mut sender, 0, 1, 6).is_some());
    check(rt, receive(&mut receiver, 0).is_some());
    check(rt, receive(&mut receiver, 0).is_some());
    same(rt, receiver.done_with(1), Ok(1));
    same(rt, send(&mut sender, 0, 2, 7), Some(Ok(Sending::Full)));
    same(rt, receiver.done_with(0), Ok(0));
    same(
        rt,
        send(&mut sender, 0, 2, 7),
        Some(Ok(Sending::Sent { slot: 0 })),
    );
    same(rt, receiver.done_with(0), Err(Refusal::NotHeld));
    same(rt, receiver.done_with(2), Err(Refusal::NotHeld));
    same(rt, receiver.done_with(4), Err(Refusal::NotABucket));
    same(rt, receive(&mut receiver, 0), Some(third));
    same(rt, receiver.done_with(2), Ok(0));
    same(rt, receiver.held(), 3);
    same(rt, receive(&mut receiver, 0), Some(Taken::Empty));
}
