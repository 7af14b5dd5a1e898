//! The examples that the doc comments of the libraries name. Each `prove!` follows only from
//! contracts.
#![tactic(auto, unfolding(bb_memory_traits::specs::LeastPlace::least_place))]

ghost use Rattle.bb_memory.specs.Chunk.{region_at};
ghost use Rattle.bb_memory.specs.Geometry.{IsCutAtMost, MayBeCut};
ghost use Rattle.bb_memory.specs.OneChunk.{StandsFor};
ghost use Rattle.bb_memory.specs.PoolLogs.{IsHeldAfter};
ghost use Rattle.bb_memory.specs.PoolObject.{IsCut, PoolGeometry};
ghost use Rattle.bb_memory.specs.SharedPoolLeaving.{GivesAllBack, HoldsSome};
ghost use Rattle.bb_memory.specs.SharedPoolMeetings.{AreBothOf};
ghost use Rattle.std.specs.Prelude.{IfOk, [], ℕ, ◌<◌, ◌≡◌, ◌≤◌};

use super::bump::forty_eight;
use bb_memory::allocator::{
    AllocationError, Allocator, BaseAllocator, Command, run_base, run_full,
};
use bb_memory::bump_allocator::BumpAllocator;
use bb_memory::heap_allocator::HeapAllocator;
use bb_memory::layout::{Chunk, Layout, LayoutError, round_up};
use bb_memory::one_chunk_allocator::OneChunkAllocator;
use bb_memory::pool_allocator::{FixedSizePoolAllocator, PoolAllocator, pool_count_law};
use bb_memory::region::Region;
use bb_memory::shared_pool::{
    Bucket, CachingParty, PoolParty, SharedFixedSizePoolAllocator, SharedPoolAllocator, by_number,
};
use bb_memory::steps::{BumpOutcome, BumpStep, BumpWorld, PoolOutcome, PoolStep, PoolWorld};
use loan_book::{LoanBook, LoanError};
use std::alloc::{AllocError, Global};

pub fn layout() -> Result<(), LayoutError> {
    let layout = Layout::from_size_align(48, 4)?;
    prove!(layout.size() == 48 && layout.align() == 4);
    Ok(())
}

pub fn rounding() -> Result<(), LayoutError> {
    let eight = Layout::from_size_align(16, 8)?;
    prove!(round_up(4097, eight.align()) == Some(4104));
    Ok(())
}

pub fn parts_of_a_chunk() {
    let chunk = Chunk::new(4096, 64).unwrap();
    let (head, body) = (chunk.first(16), chunk.behind(16));
    prove!(head.len() == 16 && body.place() == 4112);
}

pub fn region(alloc: Global) -> Result<(), AllocError> {
    let chunk = Chunk::new(4100, 4).unwrap();
    let mut region = Region::new(4096, vec![in alloc; 7; 1024]?);
    region.write(chunk, &[1, 2, 3, 4]);
    prove!(region.chunk(chunk)[0] == 1);
    region.zero(chunk);
    prove!(region.chunk(chunk)[0] == 0);
    Ok(())
}

pub fn run_of_a_bump(alloc: Global) -> Result<(), AllocError> {
    let (mut bump, mut live) = (BumpAllocator::new(4096, 1024), Vec::new(alloc));
    let commands = [Command::Allocate(forty_eight()), Command::Release(0)];
    let _replies = run_base(&mut bump, &mut live, &commands)?;
    prove!(bump.total_space() == 1024);
    Ok(())
}

pub fn run_of_one_chunk(alloc: Global) -> Result<(), AllocError> {
    let (mut one, mut live) = (OneChunkAllocator::new(4096, 1024), Vec::new(alloc));
    let old = Layout::empty();
    let commands = [Command::Allocate(old), Command::Grow(0, old, forty_eight())];
    let _replies = run_full(&mut one, &mut live, &commands)?;
    prove!(one.size() == 1024);
    Ok(())
}

pub fn bump() -> Result<(), AllocationError> {
    let mut bump = BumpAllocator::new(4096, 1024);
    let chunk = bump.allocate(forty_eight())?;
    prove!(chunk.place() == 4096 && chunk.len() == 48 && bump.used_space() == 48);
    bump.deallocate(chunk.place(), forty_eight());
    prove!(bump.free_space() == 1024);
    Ok(())
}

pub fn one_chunk() -> Result<(), AllocationError> {
    let mut one = OneChunkAllocator::new(4096, 1024);
    let chunk = one.allocate(forty_eight())?;
    prove!(chunk.place() == 4096 && chunk.len() == 1024);
    one.deallocate(chunk.place(), forty_eight());
    prove!(one.has_chunk_available());
    Ok(())
}

pub fn one_chunk_held() -> Result<(), AllocationError> {
    let mut one = OneChunkAllocator::new(4096, 1024);
    let chunk = one.allocate(Layout::empty())?;
    prove!(one.holds(chunk.place()) && !one.holds(4097));
    Ok(())
}

/// Returns the layout of a bucket: 128 bytes at multiples of 8. The region of 1024 bytes at 4096
/// has room for eight.
pub(super) fn bucket_128() -> Layout
    ensures cut { MayBeCut (region_at 4096 1024) result }
    ensures eight { (geometry : PoolGeometry) → IsCut (region_at 4096 1024) result geometry
        → geometry.buckets ≡ 8 }
    ensures at_most { (most : ℕ) (geometry : PoolGeometry) → most ≤ 8
        → IsCutAtMost most (region_at 4096 1024) result geometry → geometry.buckets ≡ most }
    ensures size { result.size ≡ 128 }
    ensures align { result.align ≡ 8 }
{
    pool_count_law();
    Layout::from_size_align(128, 8).unwrap()
}

pub fn pool(alloc: Global) -> Result<(), AllocationError> {
    let Ok(mut pool) = PoolAllocator::new_uninit(bucket_128(), 4096, 1024).init(alloc) else {
        return Err(AllocationError::OutOfMemory);
    };
    let chunk = pool.allocate(forty_eight())?;
    prove!(chunk.len() == 48);
    pool.deallocate_bucket(chunk.place());
    Ok(())
}

pub fn pool_held(pool: &mut PoolAllocator<Global>) -> Result<(), AllocationError> {
    let chunk = pool.allocate(Layout::empty())?;
    prove!(pool.holds(chunk.place()));
    Ok(())
}

pub fn fixed_pool() -> Result<(), AllocationError> {
    let bucket = bucket_128();
    let mut pool = FixedSizePoolAllocator::<512>::new(bucket, 4096, 1024);
    let chunk = pool.allocate(forty_eight())?;
    let grown = pool.grow(chunk.place(), forty_eight(), bucket).unwrap();
    prove!(grown.place() == chunk.place() && grown.len() == 128);
    pool.deallocate(grown.place(), bucket);
    Ok(())
}

pub fn heap(alloc: Global) -> Result<(), AllocationError> {
    let four = Layout::from_size_align(4, 1).unwrap();
    let heap = HeapAllocator::new(alloc);
    let mut block = heap.allocate(four)?;
    block.as_mut_slice()[0] = 7;
    let Ok(block) = heap.grow(block, four, forty_eight()) else {
        return Err(AllocationError::OutOfMemory);
    };
    prove!(block.as_slice()[0] == 7 && block.as_slice()[5] == 0);
    Ok(())
}

pub fn shared_bump(alloc: Global) -> Result<(), AllocationError> {
    let Ok((shared, mut parties)) = BumpAllocator::new(4096, 64).share(alloc, 1) else {
        return Err(AllocationError::OutOfMemory);
    };
    let mut party = parties.pop().unwrap();
    if let Ok(chunk) = shared.allocate(&mut party, forty_eight()) {
        prove!(4096 <= chunk.place() && chunk.len() == 48);
    }
    let bump = shared.into_owner(party);
    prove!(bump.total_space() == 64);
    Ok(())
}

pub fn shared_pool(alloc: Global) -> Result<(), AllocationError> {
    let (pool, mut parties) = SharedPoolAllocator::new(alloc, bucket_128(), 4096, 1024, 1)?;
    let party = &mut parties[0];
    let taken = pool.allocate(party, forty_eight())?;
    prove!(taken.number() < 8 && taken.chunk().len() == 48);
    pool.deallocate_bucket(party, taken);
    Ok(())
}

/// Gives back a bucket that a caller holds, and takes another one. The caller has to meet the
/// conditions of `deallocate_bucket`.
pub fn shared_pool_exchanged<'p>(
    pool: &'p SharedPoolAllocator,
    party: &mut PoolParty,
    bucket: Bucket<'p>,
) -> Result<Bucket<'p>, AllocationError>
    requires party { party.old.allocator ≡ pool.now }
    requires bucket { bucket.allocator ≡ pool.now }
    requires held { IsHeldAfter party.old.log bucket.number }
    ensures held { IfOk result (λ taken. IsHeldAfter party.new.log taken.number) }
{
    pool.deallocate_bucket(party, bucket);
    pool.allocate_next_fit(party, forty_eight())
}

/// Two parties meet, and one of them gives back all that it holds.
pub fn shared_pool_left(pool: &SharedPoolAllocator, party: &mut PoolParty, other: &mut PoolParty)
    requires { AreBothOf pool.now party.old other.old }
    ensures returned { GivesAllBack party.old party.new }
    ensures idle { ¬ HoldsSome party.new }
{
    pool.meet(party, other);
    prove!(party.number() != other.number());
    pool.give_all_back(party);
}

pub fn shared_pool_by_number(
    pool: &SharedPoolAllocator,
    party: &mut PoolParty,
) -> Result<(), AllocationError>
    requires { party.old.allocator ≡ pool.now }
{
    let taken = pool.allocate(party, forty_eight())?;
    let number = taken.number();
    let again = by_number::bucket(pool, party, number, 48);
    pool.deallocate_bucket(party, again);
    Ok(())
}

pub fn shared_pool_detached(
    pool: &SharedPoolAllocator,
    sender: &mut PoolParty,
    receiver: &mut PoolParty,
) -> Result<(), AllocationError>
    requires { (1 < pool.now.scene.parties) × (sender.old.allocator ≡ pool.now)
        × (receiver.old.allocator ≡ pool.now) }
{
    let taken = pool.allocate(sender, forty_eight())?;
    let message = pool.detach(sender, taken);
    let (number, len) = (message.number(), message.len());
    let received = pool.attach(receiver, message);
    prove!(received.number() == number && received.chunk().len() == len && len == 48);
    pool.deallocate_bucket(receiver, received);
    Ok(())
}

pub fn shared_pool_sent_by_number(
    pool: &SharedPoolAllocator,
    sender: &mut PoolParty,
    receiver: &mut PoolParty,
) -> Result<bool, AllocationError>
    requires { (1 < pool.now.scene.parties) × (sender.old.allocator ≡ pool.now)
        × (receiver.old.allocator ≡ pool.now) }
{
    let taken = pool.allocate(sender, forty_eight())?;
    let from = sender.number();
    let number = pool.detach_number(sender, taken);
    let won = pool.attach_number(receiver, number, from);
    if won {
        let received = by_number::bucket(pool, receiver, number, 48);
        prove!(received.number() == number && received.chunk().len() == 48);
        pool.deallocate_bucket(receiver, received);
    }
    Ok(won)
}

pub fn shared_pool_holder(
    pool: &SharedPoolAllocator,
    party: &mut PoolParty,
) -> Result<(), AllocationError>
    requires { party.old.allocator ≡ pool.now }
{
    let taken = pool.allocate(party, forty_eight())?;
    let number = taken.number();
    prove!(pool.is_held_by(party, number));
    pool.deallocate_bucket(party, taken);
    prove!(!pool.is_held_by(party, number));
    Ok(())
}

pub fn shared_pool_caching(
    alloc: Global,
    pool: &SharedPoolAllocator,
    party: PoolParty,
) -> Result<PoolParty, PoolParty>
    requires { party.allocator ≡ pool.now }
{
    let mut caching = CachingParty::new(alloc, party, 4)?;
    let _ = taken_again(pool, &mut caching);
    Ok(caching.into_party(pool))
}

/// The bucket that was cached last is taken first.
fn taken_again(
    pool: &SharedPoolAllocator,
    caching: &mut CachingParty,
) -> Result<(), AllocationError>
    requires party { caching.old.party.allocator ≡ pool.now }
    requires room { (caching.old.cached ≡ []) × (0 < caching.old.most) }
    ensures party { caching.new.party.allocator ≡ pool.now }
{
    let taken = caching.allocate(pool, forty_eight())?;
    let number = taken.number();
    caching.deallocate(pool, taken);
    let again = caching.allocate(pool, forty_eight())?;
    prove!(again.number() == number);
    caching.deallocate(pool, again);
    Ok(())
}

pub fn shared_fixed_pool(alloc: Global) -> Result<(), AllocationError> {
    let made = SharedFixedSizePoolAllocator::<4>::new(alloc, bucket_128(), 4096, 1024, 2);
    let Ok((pool, _parties)) = made else {
        return Err(AllocationError::OutOfMemory);
    };
    prove!(pool.number_of_buckets() == 4);
    Ok(())
}

pub fn bump_world(alloc: Global) -> Result<(), AllocError> {
    let mut world = BumpWorld::new(alloc, 4096, 64, 2)?;
    let layout = Layout::from_size_align(40, 1).unwrap();
    let seen = world.step(BumpStep::Read { party: 0, layout });
    prove!(seen == BumpOutcome::Sees(0));
    world.step(BumpStep::Exchange { party: 0 });
    prove!(world.used_space() == 40);
    Ok(())
}

pub fn pool_world(alloc: Global) -> Result<(), AllocError> {
    let mut world = PoolWorld::new(alloc, 2, 3)?;
    let taken = world.step(PoolStep::Try { party: 2 });
    prove!(taken == PoolOutcome::Takes(0));
    prove!(world.holder(0) == Some(2));
    Ok(())
}

pub fn loans(alloc: Global, allocator: OneChunkAllocator) -> Result<(), LoanError>
    requires { StandsFor allocator [] }
{
    let mut book = LoanBook::new(alloc, allocator);
    let (id, _) = book.loan(48)?;
    prove!(id == 0);
    book.publish(id, 2)?;
    let first = book.give_back(id)?;
    let second = book.give_back(id)?;
    prove!(!first && second);
    Ok(())
}
