//! A party of a file whose slots are queues, with ample memory and with any one failing request: only
//! `join` and `cache` allocate memory.
ghost use Rattle.std.specs.Prelude.{◌≡◌};

use crate::tests::checks::{refused, same};
use crate::tests::file_joined::{DEEP, receive, send};
use bb_memory_file::joined::{Joined, Taken};
use bb_memory_file::party::FileParty;
use bb_memory_file::queues::Sending;
use bb_memory_file::table::FileTable;
use bb_memory_pool_machine::hint::Hint;
use std::process::Abort;

/// Joins as number 0 of a file with queues of depth 2. Returns None if memory ran out.
fn joined(rt: &(impl Abort + AllocGlobal), table: &FileTable) -> Option<Joined<FileParty>>
    requires { table.now.geometry.parties ≡ 2 }
{
    let party = table.party(0).expect(rt, "there are few parties");
    let Ok(joined) = Joined::join(party, rt.alloc(), Hint::first(3, 1, 8, 0), 2) else {
        refused(rt);
        return None;
    };
    Some(joined.ok().expect(rt, "the number's life isn't over"))
}

/// Returns the life of number 0.
fn life(table: &mut FileTable) -> u64
    requires { table.old.geometry.parties ≡ 2 }
    ensures { table.new.geometry.parties ≡ 2 }
{
    table.life(0)
}

/// Checks that the party's only queue gives its message.
fn goes_on(rt: &impl Abort, party: &mut Joined<FileParty>) {
    let message = Taken::Message {
        bucket: 0,
        length: 5,
    };
    same(rt, party.queues(), 1);
    same(rt, party.allocate(), Some(0));
    same(
        rt,
        send(party, 0, 0, 5),
        Some(Ok(Sending::Sent { slot: 0 })),
    );
    same(rt, receive(party, 0), Some(message));
    same(rt, receive(party, 0), Some(Taken::NotSent));
}

#[test]
fn a_party_with_queues_joins_or_is_refused(rt: HostRuntime) {
    let rt = &rt;
    let Ok(mut table) = FileTable::new(rt.alloc(), &[0; 74], DEEP) else {
        return refused(rt);
    };
    let Some(mut party) = joined(rt, &table) else {
        // The number's lock was counted, and nothing else was done.
        same(rt, life(&mut table), 2);
        let again = joined(rt, &table);
        same(rt, life(&mut table), 5);
        return goes_on(rt, &mut again.expect(rt, "there is memory now"));
    };
    same(rt, life(&mut table), 3);
    goes_on(rt, &mut party);
}

#[test]
fn a_party_caches_or_is_refused(rt: HostRuntime) {
    let rt = &rt;
    let Ok(table) = FileTable::new(rt.alloc(), &[0; 74], DEEP) else {
        return refused(rt);
    };
    let Some(mut party) = joined(rt, &table) else {
        return;
    };
    let cached = match party.cache(rt.alloc(), 2) {
        Ok(()) => 1,
        Err(_) => {
            refused(rt);
            0
        }
    };
    same(rt, party.allocate(), Some(0));
    same(rt, party.deallocate(0), Ok(()));
    same(rt, party.number_of_cached(), cached);
}
