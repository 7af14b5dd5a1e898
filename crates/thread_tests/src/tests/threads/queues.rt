//! A queue from one thread to another, each of whose messages is a bucket of one shared pool: the
//! receiver gives it back.
ghost use Rattle.std.specs.Prelude.{IfOk, Some, ◌<◌, ◌≡◌};

use crate::tests::buckets::{take, two};
use crate::tests::checks::{layout, same};
use bb_memory_shared_pools::shared_pool::{
    AllocationError, DetachedBucket, PoolParty, SharedPoolAllocator,
};
use bb_memory_traits::layout::Layout;
use rtrb::{Consumer, Producer, Protocol, PushError, RingBuffer};
use std::alloc::{AllocError, Global};
use std::marker::{Brand, PhantomData};
use std::thread;
use std::thread::Threads;
use thread_layers::pool_messages::{receive, send};

/// The number of messages that are sent.
const MESSAGES: u32 = 1000;

/// The number of times that an end tries to make progress, and lets others run if it can't.
const TRIES: u32 = 10_000_000;

/// The pool of a queue's messages, which a type names.
trait MessagePool {
    ghost use Rattle.bb_memory_shared_pools.specs.SharedPool.{SharedPool};
    ghost use Rattle.std.specs.Prelude.{Option};

    ghost pool: { Option SharedPool };
}

impl MessagePool for Brand {
    ghost use Rattle.std.specs.Prelude.{None};

    ghost pool = { None };
}

/// The promise of a queue to its receiver: each message is a bucket of that pool.
struct OfPool<P: MessagePool> {
    of: PhantomData<P>,
}

impl<P: MessagePool> Protocol<DetachedBucket> for OfPool<P> {
    ghost use Rattle.std.specs.Prelude.{Some, ◌≡◌};

    ghost allows = { λ before message. P.pool ≡ Some message.allocator };
}

/// Sends a message, if there is a bucket for it and room in the queue. If the queue has no room,
/// the bucket is given back.
fn send_one<P: MessagePool>(
    pool: &SharedPoolAllocator,
    party: &mut PoolParty,
    queue: &mut Producer<DetachedBucket, Global, OfPool<P>>,
    requested: Layout,
) -> bool
    requires pool { P.pool ≡ Some pool.now }
    requires others { 1 < pool.now.scene.parties }
    requires party { party.old.allocator ≡ pool.now }
    ensures { party.new.allocator ≡ pool.now }
{
    let Ok(message) = send(pool, party, requested) else {
        return false;
    };
    match queue.push(message) {
        Ok(()) => true,
        Err(PushError::Full(message)) => {
            receive(pool, party, message);
            false
        }
    }
}

/// Sends `MESSAGES` messages.
fn send_all<P: MessagePool>(
    pool: &SharedPoolAllocator,
    mut party: PoolParty,
    mut queue: Producer<DetachedBucket, Global, OfPool<P>>,
    requested: Layout,
) -> (PoolParty, u32)
    requires pool { P.pool ≡ Some pool.now }
    requires others { 1 < pool.now.scene.parties }
    requires party { party.allocator ≡ pool.now }
    ensures { result.0.allocator ≡ pool.entry.now }
{
    let mut sent = 0u32;
    for _ in 0..TRIES {
        if sent == MESSAGES {
            break;
        }
        if send_one::<P>(pool, &mut party, &mut queue, requested) {
            sent = sent.saturating_add(1);
        } else {
            thread::yield_now();
        }
    }
    (party, sent)
}

/// Receives `MESSAGES` messages.
fn receive_all<P: MessagePool>(
    pool: &SharedPoolAllocator,
    mut party: PoolParty,
    mut queue: Consumer<DetachedBucket, Global, OfPool<P>>,
) -> (PoolParty, u32)
    requires pool { P.pool ≡ Some pool.now }
    requires party { party.allocator ≡ pool.now }
    ensures { result.0.allocator ≡ pool.entry.now }
{
    let mut received = 0u32;
    for _ in 0..TRIES {
        if received == MESSAGES {
            break;
        }
        match queue.pop() {
            Ok(message) => {
                receive(pool, &mut party, message);
                received = received.saturating_add(1);
            }
            Err(_) => thread::yield_now(),
        }
    }
    (party, received)
}

/// Makes one thread send while another receives. Returns how many messages each counted, and the
/// receiver's party.
fn send_and_receive<P: MessagePool + Send, R: Threads + Sync + AllocGlobal>(
    rt: &R,
    pool: &SharedPoolAllocator,
    sender: PoolParty,
    receiver: PoolParty,
    requested: Layout,
) -> Result<(PoolParty, u32, u32), AllocError>
    requires pool { P.pool ≡ Some pool.now }
    requires others { 1 < pool.now.scene.parties }
    requires sender { sender.allocator ≡ pool.now }
    requires receiver { receiver.allocator ≡ pool.now }
    ensures { IfOk result (λ got. got.0.allocator ≡ pool.entry.now) }
{
    let (producer, consumer) = RingBuffer::with_protocol::<Global, OfPool<P>>(rt.alloc(), 4)?;
    let ((_, sent), (receiver, received)) = thread::join(
        rt,
        move || -> (PoolParty, u32)
            requires { (P.pool ≡ Some pool.now) × (sender.allocator ≡ pool.now)
                × (1 < pool.now.scene.parties) }
        { send_all::<P>(pool, sender, producer, requested) },
        move || -> (PoolParty, u32)
            requires { (P.pool ≡ Some pool.now) × (receiver.allocator ≡ pool.now) }
            ensures { result.0.allocator ≡ pool.entry.now }
        { receive_all::<P>(pool, receiver, consumer) },
    );
    Ok((receiver, sent, received))
}

/// Sends a thousand messages in two buckets: each arrives, both buckets are free in the end, and
/// there is no third bucket. The call's brand names the pool.
#[test]
fn threads_pool_queue(rt: HostRuntime) {
    let (small, (pool, sender, receiver)) = (layout(&rt, 48, 4), two(&rt, 256));
    let (rt, pool) = (&rt, &pool);
    let got = send_and_receive::<Brand, HostRuntime>(rt, pool, sender, receiver, small);
    let (mut receiver, sent, received) = got.expect(rt, "there is memory for a queue");
    same(rt, (sent, received), (MESSAGES, MESSAGES));
    same(rt, take(pool, &mut receiver, small), Ok((0, 4096, 48)));
    same(rt, take(pool, &mut receiver, small), Ok((1, 4224, 48)));
    let third = take(pool, &mut receiver, small);
    same(rt, third, Err(AllocationError::OutOfMemory));
}
