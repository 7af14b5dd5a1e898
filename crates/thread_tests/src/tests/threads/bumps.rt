//! Threads over one shared bump.
ghost use Rattle.std.specs.Arc.{arc_value};
ghost use Rattle.std.specs.Prelude.{All, IfOk, ◌≡◌};

use crate::tests::bumps::{Of, add, last_of, share, spaces, take as request};
use crate::tests::checks::{check, layout, same};
use crate::tests::slots::Slots;
use bb_memory_bump::bump_allocator::AllocationError::OutOfMemory;
use bb_memory_bump::shared_bump::{BumpParty, SharedBumpAllocator};
use bb_memory_traits::layout::Layout;
use std::alloc::AllocError;
use std::process::Abort;
use std::snapshot::Snapshot;
use std::sync::Arc;
use std::thread;
use std::thread::{Promise, PromisedHandle, Threads};

/// The work of each thread: it makes at most a fixed number of requests, until one is refused, and
/// then reads the used space until that is `until`. The party of number `i` requests layout `i` of
/// these, or `i - 3`.
#[derive(Drop)]
struct Work {
    layouts: [Layout; 3],
    times: u32,
    /// A word for each byte of the region.
    bytes: Slots,
    until: Option<usize>,
}

/// The outcome of a request for a chunk.
#[derive(Clone, Copy, PartialEq)]
enum Found {
    /// A chunk as requested. Its bytes belong to nobody else, and are used.
    Chunk,
    Refused,
    Wrong,
}

/// Requests a chunk, and marks its bytes.
fn take_one(
    shared: &SharedBumpAllocator,
    work: &Work,
    party: &mut BumpParty,
    layout: Layout,
) -> Found
    requires { party.old.allocator ≡ shared.now }
    ensures { party.new.allocator ≡ shared.now }
{
    let Ok(chunk) = shared.allocate(party, layout) else {
        return Found::Refused;
    };
    let (place, len, start) = (chunk.place(), chunk.len(), shared.start_address());
    let fits = place % layout.align() == 0 && len == layout.size() && start <= place;
    let marked = work.bytes.mark_all(place.saturating_sub(start), len);
    let used = shared.used_space(party);
    if fits && marked && chunk.end() <= start.saturating_add(used) {
        Found::Chunk
    } else {
        Found::Wrong
    }
}

/// Reads the used space until it is `used`, at most 100,000,000 times. Returns whether it was.
fn watch(shared: &SharedBumpAllocator, party: &mut BumpParty, used: usize) -> bool
    requires { party.old.allocator ≡ shared.now }
    ensures { party.new.allocator ≡ shared.now }
{
    for _ in 0..100_000_000u32 {
        if shared.used_space(party) == used {
            return true;
        }
    }
    false
}

/// Makes requests until one is refused, at most as often as the work says. Returns whether each
/// chunk was as requested.
fn take_all(shared: &SharedBumpAllocator, work: &Work, party: &mut BumpParty) -> bool
    requires { party.old.allocator ≡ shared.now }
    ensures { party.new.allocator ≡ shared.now }
{
    let layout = work.layouts[party.number() as usize % 3];
    for _ in 0..work.times {
        match take_one(shared, work, party, layout) {
            Found::Chunk => {}
            Found::Refused => return true,
            Found::Wrong => return false,
        }
    }
    true
}

/// Does the work of a thread. Returns its party, and whether all results were correct.
fn take(shared: &SharedBumpAllocator, work: &Work, mut party: BumpParty) -> (BumpParty, bool)
    requires { party.allocator ≡ shared.now }
    ensures { result.0.allocator ≡ shared.entry.now }
{
    let taken = take_all(shared, work, &mut party);
    let seen = match work.until {
        Some(used) => watch(shared, &mut party, used),
        None => true,
    };
    (party, taken && seen)
}

/// The promise that the party that a thread returns is one of this bump.
#[derive(Drop)]
struct PartyOf(Snapshot<Arc<SharedBumpAllocator>>);

impl Promise<(BumpParty, bool)> for PartyOf {
    ghost kept_by = { λ promise back. back.0.allocator ≡ arc_value promise.0.value };
}

/// A thread, which returns a party of a bump.
type Thread = PromisedHandle<(BumpParty, bool), PartyOf>;

/// Starts a thread that owns this party, and shares the bump.
fn start(
    rt: &impl Threads,
    shared: &Arc<SharedBumpAllocator>,
    work: &Arc<Work>,
    party: BumpParty,
) -> Result<Thread, AllocError>
    requires { party.allocator ≡ arc_value shared.now }
    ensures { IfOk result (λ thread. arc_value thread.promise.0.value ≡ arc_value shared.now) }
{
    let shared = Arc::try_clone(shared)?;
    let work = Arc::try_clone(work)?;
    let promise = PartyOf(Snapshot::of(&shared));
    Ok(thread::spawn_with(rt, promise, move || take(&shared, &work, party))?)
}

/// Starts a thread for the last of these parties.
fn start_last(
    rt: &(impl Threads + Abort),
    shared: &Arc<SharedBumpAllocator>,
    work: &Arc<Work>,
    parties: &mut Vec<BumpParty>,
) -> Thread
    requires { All (λ party. party.allocator ≡ arc_value shared.now) parties.old.items }
    ensures others { All (λ party. party.allocator ≡ arc_value shared.now) parties.new.items }
    ensures own { arc_value result.promise.0.value ≡ arc_value shared.now }
{
    let party = last_of(rt, shared, parties);
    start(rt, shared, work, party).expect(rt, "there is memory for a thread")
}

/// Joins the last of these threads. Returns its party.
fn join_last(
    rt: &(impl Threads + Abort),
    shared: &Arc<SharedBumpAllocator>,
    threads: &mut Vec<Thread>,
) -> BumpParty
    requires { All (λ thread. arc_value thread.promise.0.value ≡ arc_value shared.now) threads.old.items }
    ensures others { All (λ thread. arc_value thread.promise.0.value ≡ arc_value shared.now) threads.new.items }
    ensures own { result.allocator ≡ arc_value shared.now }
{
    let _ = shared;
    let thread = threads.pop().expect(rt, "there is a thread");
    let (party, well) = thread.join(rt);
    check(rt, well);
    party
}

/// Starts a thread for each party, joins them all, and returns their parties.
fn in_threads(
    rt: &(impl Threads + Abort + AllocGlobal),
    shared: &Arc<SharedBumpAllocator>,
    work: &Arc<Work>,
    mut parties: Vec<BumpParty>,
) -> Vec<BumpParty>
    requires { All (λ party. party.allocator ≡ arc_value shared.now) parties.items }
    ensures { All (λ party. party.allocator ≡ arc_value shared.entry.now) result.items }
{
    let mut threads = Vec::new(rt.alloc());
    for _ in 0..parties.len() {
        let thread = start_last(rt, shared, work, &mut parties);
        threads
            .push(thread)
            .expect(rt, "there is memory for its handle");
    }
    for _ in 0..threads.len() {
        let party = join_last(rt, shared, &mut threads);
        add(rt, shared, &mut parties, party);
    }
    parties
}

/// Shares a bump of this start, size and used space, with a thread for each of its parties. Returns
/// the bump, its parties after their work, and how many bytes are marked.
fn worked(
    rt: &(impl Threads + Abort + AllocGlobal),
    of: Of,
    parties: u32,
    work: Work,
) -> (Arc<SharedBumpAllocator>, Vec<BumpParty>, usize)
    ensures { All (λ party. party.allocator ≡ arc_value result.0) result.1.items }
{
    let (shared, parties) = share(rt, of, parties);
    let shared = Arc::new(rt.alloc(), shared).expect(rt, "there is memory for a bump");
    let work = Arc::new(rt.alloc(), work).expect(rt, "there is memory for the work");
    let back = in_threads(rt, &shared, &work, parties);
    let marked = work.bytes.count();
    (shared, back, marked)
}

/// Each of four threads takes ten bytes a hundred times, and finds them used.
// row: threads-bump-exact-places, threads-used-space-seen
#[test]
fn four_take_ten_bytes(rt: HostRuntime) {
    let rt = &rt;
    let work = Work {
        layouts: [layout(rt, 10, 1); 3],
        times: 100,
        bytes: Slots::new(rt, 4096),
        until: None,
    };
    let (shared, mut back, marked) = worked(rt, (4096, 4096, 0), 4, work);
    same(rt, marked, 4000);
    let mut last = last_of(rt, &shared, &mut back);
    same(rt, spaces(&shared, &mut last), (4000, 96));
    same(rt, request(&shared, &mut last, 97, 1), Err(OutOfMemory));
    same(rt, request(&shared, &mut last, 96, 1), Ok((8096, 96)));
}

/// Each of three threads takes chunks as long as there is room, by a layout of its own. Each pair
/// of parties meets.
// row: threads-bump-mixed-layouts
#[test]
fn three_take_all(rt: HostRuntime) {
    let rt = &rt;
    let work = Work {
        layouts: [layout(rt, 24, 16), layout(rt, 5, 1), layout(rt, 8, 8)],
        times: 1000,
        bytes: Slots::new(rt, 1000),
        until: None,
    };
    let (shared, mut back, _) = worked(rt, (4097, 1000, 0), 3, work);
    let mut a = last_of(rt, &shared, &mut back);
    let mut b = last_of(rt, &shared, &mut back);
    let mut c = last_of(rt, &shared, &mut back);
    same(rt, request(&shared, &mut a, 24, 16), Err(OutOfMemory));
    same(rt, request(&shared, &mut b, 5, 1), Err(OutOfMemory));
    same(rt, request(&shared, &mut c, 8, 8), Err(OutOfMemory));
    shared.meet(&mut a, &mut b);
    shared.meet(&mut b, &mut c);
    shared.meet(&mut a, &mut c);
}

/// Each of two threads takes a chunk and watches for what the other takes, so threads that ran one
/// after the other would fail.
// row: threads-really-at-once
#[test]
fn two_at_once(rt: HostRuntime) {
    let rt = &rt;
    let work = Work {
        layouts: [layout(rt, 8, 1); 3],
        times: 1,
        bytes: Slots::new(rt, 64),
        until: Some(16),
    };
    let (_, back, marked) = worked(rt, (4096, 64, 0), 2, work);
    same(rt, (back.len(), marked), (2, 16));
}
