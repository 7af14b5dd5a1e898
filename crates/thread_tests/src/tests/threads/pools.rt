//! Threads over one shared pool of at most eight buckets.
ghost use Rattle.std.specs.Arc.{arc_value};
ghost use Rattle.std.specs.Prelude.{All, IfOk, ◌≡◌};

use crate::tests::buckets::{add, last_of, pool_at_last, request, take as found};
use crate::tests::checks::{check, layout, same};
use crate::tests::slots::Slots;
use bb_memory_shared_pools::shared_pool::AllocationError::OutOfMemory;
use bb_memory_shared_pools::shared_pool::{PoolParty, SharedPoolAllocator};
use bb_memory_traits::layout::Layout;
use std::alloc::AllocError;
use std::process::Abort;
use std::snapshot::Snapshot;
use std::sync::Arc;
use std::thread;
use std::thread::{Promise, PromisedHandle, Threads};

/// The work of each thread: it takes a bucket a fixed number of times, by a next-fit search or by a
/// pass, and goes on after a refusal.
#[derive(Drop)]
struct Work {
    /// A word for each bucket.
    buckets: Slots,
    next_fit: bool,
    layout: Layout,
    times: u32,
    /// True if each bucket is given back, false if its token is dropped.
    returns: bool,
}

/// Takes a bucket, if one is free. Returns false if somebody else marked it before it was given
/// back.
fn take_one(pool: &SharedPoolAllocator, work: &Work, party: &mut PoolParty) -> bool
    requires { party.old.allocator ≡ pool.now }
    ensures { party.new.allocator ≡ pool.now }
{
    let Ok(bucket) = request(pool, party, work.layout, work.next_fit) else {
        return true;
    };
    let at = bucket.number() as usize;
    let marked = work.buckets.mark(at);
    if !work.returns {
        return marked;
    }
    let unmarked = work.buckets.unmark(at);
    pool.deallocate_bucket(party, bucket);
    marked && unmarked
}

/// Does the work of a thread. Returns its party, and whether each bucket belonged to nobody else.
fn take(pool: &SharedPoolAllocator, work: &Work, mut party: PoolParty) -> (PoolParty, bool)
    requires { party.allocator ≡ pool.now }
    ensures { result.0.allocator ≡ pool.entry.now }
{
    let mut well = true;
    for _ in 0..work.times {
        well = take_one(pool, work, &mut party) && well;
    }
    (party, well)
}

/// The promise that the party that a thread returns is one of this pool.
#[derive(Drop)]
struct PartyOf(Snapshot<Arc<SharedPoolAllocator>>);

impl Promise<(PoolParty, bool)> for PartyOf {
    ghost kept_by = { λ promise back. back.0.allocator ≡ arc_value promise.0.value };
}

/// A thread, which returns a party of a pool.
type Thread = PromisedHandle<(PoolParty, bool), PartyOf>;

/// Starts a thread that owns this party, and shares the pool.
fn start(
    rt: &impl Threads,
    pool: &Arc<SharedPoolAllocator>,
    work: &Arc<Work>,
    party: PoolParty,
) -> Result<Thread, AllocError>
    requires { party.allocator ≡ arc_value pool.now }
    ensures { IfOk result (λ thread. arc_value thread.promise.0.value ≡ arc_value pool.now) }
{
    let pool = Arc::try_clone(pool)?;
    let work = Arc::try_clone(work)?;
    let promise = PartyOf(Snapshot::of(&pool));
    Ok(thread::spawn_with(rt, promise, move || take(&pool, &work, party))?)
}

/// Starts a thread for the last of these parties.
fn start_last(
    rt: &(impl Threads + Abort),
    pool: &Arc<SharedPoolAllocator>,
    work: &Arc<Work>,
    parties: &mut Vec<PoolParty>,
) -> Thread
    requires { All (λ party. party.allocator ≡ arc_value pool.now) parties.old.items }
    ensures others { All (λ party. party.allocator ≡ arc_value pool.now) parties.new.items }
    ensures own { arc_value result.promise.0.value ≡ arc_value pool.now }
{
    let party = last_of(rt, pool, parties);
    start(rt, pool, work, party).expect(rt, "there is memory for a thread")
}

/// Joins the last of these threads. Returns its party.
fn join_last(
    rt: &(impl Threads + Abort),
    pool: &Arc<SharedPoolAllocator>,
    threads: &mut Vec<Thread>,
) -> PoolParty
    requires { All (λ thread. arc_value thread.promise.0.value ≡ arc_value pool.now) threads.old.items }
    ensures others { All (λ thread. arc_value thread.promise.0.value ≡ arc_value pool.now) threads.new.items }
    ensures own { result.allocator ≡ arc_value pool.now }
{
    let _ = pool;
    let thread = threads.pop().expect(rt, "there is a thread");
    let (party, well) = thread.join(rt);
    check(rt, well);
    party
}

/// Starts a thread for each party, joins them all, and returns their parties.
fn in_threads(
    rt: &(impl Threads + Abort + AllocGlobal),
    pool: &Arc<SharedPoolAllocator>,
    work: &Arc<Work>,
    mut parties: Vec<PoolParty>,
) -> Vec<PoolParty>
    requires { All (λ party. party.allocator ≡ arc_value pool.now) parties.items }
    ensures { All (λ party. party.allocator ≡ arc_value pool.entry.now) result.items }
{
    let mut threads = Vec::new(rt.alloc());
    for _ in 0..parties.len() {
        let thread = start_last(rt, pool, work, &mut parties);
        threads
            .push(thread)
            .expect(rt, "there is memory for its handle");
    }
    for _ in 0..threads.len() {
        let party = join_last(rt, pool, &mut threads);
        add(rt, pool, &mut parties, party);
    }
    parties
}

/// Moves the last `count` parties from one list to another.
fn move_parties(
    rt: &impl Abort,
    pool: &SharedPoolAllocator,
    count: usize,
    from: &mut Vec<PoolParty>,
    to: &mut Vec<PoolParty>,
)
    requires from { All (λ party. party.allocator ≡ pool.now) from.old.items }
    requires to { All (λ party. party.allocator ≡ pool.now) to.old.items }
    ensures from { All (λ party. party.allocator ≡ pool.now) from.new.items }
    ensures to { All (λ party. party.allocator ≡ pool.now) to.new.items }
{
    for _ in 0..count {
        let party = last_of(rt, pool, from);
        add(rt, pool, to, party);
    }
}

/// Makes a pool of this size for four parties. `threads` of them do the work, each in a thread.
/// Then all four meet, and one takes all buckets that are left: those from `left` on. Returns how
/// many buckets are marked.
fn all_take(
    rt: &(impl Threads + Abort + AllocGlobal),
    size: usize,
    threads: usize,
    work: Work,
    left: u32,
) -> usize {
    let (pool, mut parties) = pool_at_last(rt, size, 4);
    let pool = Arc::new(rt.alloc(), pool).expect(rt, "there is memory for a pool");
    let work = Arc::new(rt.alloc(), work).expect(rt, "there is memory for the work");
    let mut busy = Vec::new(rt.alloc());
    move_parties(rt, &pool, threads, &mut parties, &mut busy);
    let mut back = in_threads(rt, &pool, &work, busy);
    move_parties(rt, &pool, threads, &mut back, &mut parties);
    pool.meet_all(&mut parties);
    let mut party = last_of(rt, &pool, &mut parties);
    for number in left..pool.number_of_buckets() {
        let place = (number as usize).saturating_mul(128).saturating_add(4096);
        let got = found(&pool, &mut party, work.layout);
        same(rt, got, Ok((number, place, 48)));
    }
    same(rt, found(&pool, &mut party, work.layout), Err(OutOfMemory));
    work.buckets.count()
}

/// Takes a bucket 1,000 times and gives it back, in each of four threads.
fn take_and_return(rt: &(impl Threads + Abort + AllocGlobal), size: usize, next_fit: bool) {
    let work = Work {
        buckets: Slots::new(rt, 8),
        next_fit,
        layout: layout(rt, 48, 4),
        times: 1000,
        returns: true,
    };
    same(rt, all_take(rt, size, 4, work, 0), 0);
}

/// The pools have as many buckets as there are threads, or fewer, so that next-fit searches collide
/// at each bucket.
// row: threads-pool-take-and-return
#[test]
fn four_take_and_return(rt: HostRuntime) {
    take_and_return(&rt, 1024, false);
    take_and_return(&rt, 1024, true);
    take_and_return(&rt, 384, true);
}

/// Each of two threads takes a bucket and drops the token.
// row: threads-pool-dropped-tokens
#[test]
fn two_drop_their_tokens(rt: HostRuntime) {
    let work = Work {
        buckets: Slots::new(&rt, 8),
        next_fit: false,
        layout: layout(&rt, 48, 4),
        times: 1,
        returns: false,
    };
    same(&rt, all_take(&rt, 1024, 2, work, 2), 2);
}
