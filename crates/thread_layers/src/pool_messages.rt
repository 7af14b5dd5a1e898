//! Messages between threads, each in a bucket of one shared pool: the sender takes it, and the
//! receiver gives it back.
ghost use Rattle.bb_memory_pool_machine.specs.PoolLogs.{IsHeldAfter};
ghost use Rattle.bb_memory_shared_pools.specs.SharedPool.{MayTakeBucket, chunk_of};
ghost use Rattle.std.specs.Prelude.{Err, IfErr, IfOk, ◌<◌, ◌≡◌};
ghost use Rattle.thread_layers.specs.Threads.{KeepsBuckets, MayTakeNextFit, Sends, having_received};

use bb_memory_shared_pools::shared_pool::{DetachedBucket, PoolParty, SharedPoolAllocator};
use bb_memory_traits::allocator::AllocationError;
use bb_memory_traits::layout::{Chunk, Layout};

/// Takes a bucket for a message, and detaches it. The token may go to any thread.
pub fn send(
    pool: &SharedPoolAllocator,
    sender: &mut PoolParty,
    layout: Layout,
) -> Result<DetachedBucket, AllocationError>
    requires others { 1 < pool.now.scene.parties }
    requires sender { sender.old.allocator ≡ pool.now }
    ensures sender { sender.new.allocator ≡ pool.now }
    ensures message { IfOk result (λ message. message.allocator ≡ pool.now) }
    ensures taken { IfOk result
        (λ message. MayTakeBucket sender.old layout message.number) }
    ensures long_enough { IfOk result (λ message. message.len ≡ layout.size) }
    ensures was_detached { IfOk result
        (λ message. ¬ IsHeldAfter sender.new.log message.number) }
    ensures sent { IfOk result (λ message. Sends sender.old layout message sender.new) }
    ensures keeps { KeepsBuckets sender.old sender.new }
    ensures others { KeepsBuckets sender.new sender.old }
    ensures refused { IfErr result
        (λ error. MayTakeNextFit sender.old layout (Err error) sender.new) }
{
    let bucket = pool.allocate_next_fit(sender, layout)?;
    Ok(pool.detach(sender, bucket))
}

/// Attaches the bucket of a message, reads the place and length of its chunk, and gives the bucket
/// back.
pub fn receive(
    pool: &SharedPoolAllocator,
    receiver: &mut PoolParty,
    message: DetachedBucket,
) -> Chunk
    requires receiver { receiver.old.allocator ≡ pool.now }
    requires message { message.allocator ≡ pool.now }
    ensures receiver { receiver.new.allocator ≡ pool.now }
    ensures chunk { result ≡ chunk_of message }
    ensures given_back { receiver.new ≡ having_received message.number receiver.old }
{
    let bucket = pool.attach(receiver, message);
    let chunk = bucket.chunk();
    pool.deallocate_bucket(receiver, bucket);
    chunk
}
