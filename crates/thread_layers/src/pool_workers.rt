//! Threads that take buckets of one pool, and what is known once all of them have returned.
ghost use Rattle.bb_memory_shared_pools.specs.SharedPool.{AreFresh, PoolParty};
ghost use Rattle.bb_memory_shared_pools.specs.SharedPoolMeetings.{HaveMet, HoldApart};
ghost use Rattle.bb_memory_traits.specs.Chunk.{region_at};
ghost use Rattle.bb_memory_traits.specs.PoolObject.{IsCut, PoolGeometry};
ghost use Rattle.std.specs.Prelude.{All, IfOk, [], length, ◌≡◌};
ghost use Rattle.thread_layers.specs.Threads.{AllComeBack, Asks, HasAskedNextFit, KeepsBuckets, MayTakeNextFit};

use bb_memory_owned::pool_allocator::pool_count_law;
use bb_memory_shared_pools::shared_pool::{PoolParty, SharedPoolAllocator};
use bb_memory_traits::layout::Layout;
use std::alloc::{AllocError, Global};
use std::thread;
use std::thread::Threads;

/// Takes a bucket by next fit, if one is free, and returns the party. The token is dropped here, so
/// the party keeps the bucket, in addition to those that it had.
pub fn take_one(pool: &SharedPoolAllocator, party: PoolParty, layout: Layout) -> PoolParty
    requires { party.allocator ≡ pool.now }
    ensures party { result.allocator ≡ pool.entry.now }
    ensures number { result.number ≡ party.number }
    ensures keeps { KeepsBuckets party result }
    ensures once { Asks MayTakeNextFit layout party result }
    ensures asked { party.log ≡ [] → HasAskedNextFit layout result }
{
    let mut party = party;
    ask_next_fit(pool, &mut party, layout);
    party
}

/// Requests a bucket by next fit.
fn ask_next_fit(pool: &SharedPoolAllocator, worker: &mut PoolParty, layout: Layout)
    requires { worker.old.allocator ≡ pool.now }
    ensures party { worker.new.allocator ≡ pool.now }
    ensures number { worker.new.number ≡ worker.old.number }
    ensures keeps { KeepsBuckets worker.old worker.new }
    ensures asked { Asks MayTakeNextFit layout worker.old worker.new }
{
    let _ = pool.allocate_next_fit(worker, layout);
}

/// Runs four workers at the same time, each of which requests one bucket. They meet when they have
/// returned: one list of steps has all their logs and nothing else, and a flag is taken exactly if
/// one of them holds the bucket, or it is detached. Fails only if memory ran out.
pub fn four_workers<R: Threads + Sync>(
    rt: &R,
    alloc: Global,
    layout: Layout,
) -> Result<(SharedPoolAllocator, Vec<PoolParty>), AllocError>
    ensures four { IfOk result (λ made. made.0.scene.parties ≡ 4) }
    ensures buckets { IfOk result (λ made. made.0.scene.geometry.buckets ≡ 8) }
    ensures all { IfOk result (λ made. length made.1.items ≡ made.0.scene.parties) }
    ensures theirs { IfOk result (λ made. All (λ party. party.allocator ≡ made.0) made.1.items) }
    ensures met { IfOk result (λ made. HaveMet made.0.scene made.1.items) }
    ensures apart { IfOk result (λ made. HoldApart made.1.items) }
    ensures asked { IfOk result (λ made. All (HasAskedNextFit layout) made.1.items) }
{
    let (pool, parties) = pool_of_four(alloc)?;
    let mut back = take_one_each(rt, &pool, parties, layout)?;
    pool.meet_all(&mut back);
    Ok((pool, back))
}

/// Runs a thread for each party, in which the party takes a bucket, and joins all threads.
fn take_one_each<R: Threads + Sync>(
    rt: &R,
    pool: &SharedPoolAllocator,
    parties: Vec<PoolParty>,
    layout: Layout,
) -> Result<Vec<PoolParty>, AllocError>
    requires theirs { All (λ party. party.allocator ≡ pool.now) parties.items }
    requires none { All (λ party. party.log ≡ []) parties.items }
    ensures { IfOk result (λ back. AllComeBack layout pool.now parties.items back.items) }
{
    thread::map_vec(rt, parties, &|party| take_one(pool, party, layout))
}

/// Makes a pool of eight buckets for four parties. Fails only if memory ran out, since this region
/// and this bucket make a pool.
#[tactic(auto, using(std::proofs::lemmas::Option::get_or_from_slice_get), unfolding(bb_memory_traits::specs::LeastPlace::least_place))]
fn pool_of_four(alloc: Global) -> Result<(SharedPoolAllocator, Vec<PoolParty>), AllocError>
    ensures parties { IfOk result (λ made. AreFresh made.0 4 made.1.items) }
    ensures none { IfOk result (λ made. All (λ party. party.log ≡ []) made.1.items) }
    ensures buckets { IfOk result (λ made. made.0.scene.geometry.buckets ≡ 8) }
{
    let Ok(made) = SharedPoolAllocator::new(alloc, bucket_128(), 4096, 1024, 4) else {
        return Err(AllocError);
    };
    Ok(made)
}

/// Returns the layout of a bucket: 128 bytes at multiples of 8. The region of 1024 bytes at 4096
/// has room for eight.
#[tactic(auto, unfolding(bb_memory_traits::specs::LeastPlace::least_place))]
fn bucket_128() -> Layout
    ensures size { result.size ≡ 128 }
    ensures align { result.align ≡ 8 }
    ensures eight { (geometry : PoolGeometry) → IsCut (region_at 4096 1024) result geometry
        → geometry.buckets ≡ 8 }
{
    pool_count_law();
    Layout::from_size_align(128, 8).unwrap()
}
