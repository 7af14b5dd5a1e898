//! Detached buckets, which go from one party of a shared pool to another: in handles, or only by their numbers.
ghost use Rattle.bb_memory_c.specs.SharedPools.{Detached, HasOthers, KnowsInside, RefusesTaking, ReturnsMany, TakesDetached, TakesInside, TakesManyDetached, TellsAttach, TellsAttachNumber, TellsDetach, TellsDetachNumber, TellsLen, TellsReturnDetached, TellsReturnNumber, TellsTakesDetached, start_of};
ghost use Rattle.bb_memory_c_calls.specs.Answers.{figure_of, no_figure, refused};
ghost use Rattle.bb_memory_c_calls.specs.Calls.{Answers, AnswersFree, AnswersMake, AnswersOfBoth, IfBoth};
ghost use Rattle.bb_memory_c_calls.specs.declared.code.TheConstants.{UNINITIALIZED as uninitialized};
ghost use Rattle.std.specs.Prelude.{IfNone, IfOk, IfSome, None, Some, ◌≡◌};

use crate::handle::{DetachedHandle, Handle, PoolPartyHandle};
use crate::shared_pool::{JoinedPool, note};
use bb_memory_c_calls::answer::{Answer, Figure};
use bb_memory_c_calls::{call, code};
use bb_memory_shared_pools::shared_pool::{DetachedBucket, by_number};
use bb_memory_traits::layout::Chunk;
use std::alloc::Global;
use std::marker::Model;

/// A detached bucket with the place at which its pool begins, or none. A gap keeps what the calls of its sender and its receiver
/// write off the cache lines of its neighbours.
#[derive(Drop)]
pub struct Detached {
    inside: Option<DetachedBucket>,
    start: usize,
    gap: [u64; 10],
}

impl Model for Detached {
    ghost Value = { Detached };

    ghost view = { λ d. d.inside };

    ghost invariant = { λ d. IfSome d.inside (λ token. d.start ≡ start_of token.allocator) };
}

impl JoinedPool {
    /// Detaches the bucket at this place, with a chunk of `len` bytes, into `detached`, which must not have a bucket yet.
    #[tactic(auto, unfolding(bb_memory_shared_pools::specs::SharedPoolCaching::IsOut))]
    pub(crate) fn detach(&mut self, place: usize, len: usize, detached: &mut Detached) -> u32
        ensures { TellsDetach self.old detached.old place len result self.new detached.new }
    {
        if self.pool.number_of_parties() < 2 {
            return code::ONE_PARTY;
        }
        let Some(number) = self.held_at(place) else {
            return code::NOT_HELD;
        };
        if len > self.pool.bucket_size() {
            return code::SIZE_TOO_LARGE;
        }
        if detached.inside.is_some() {
            return code::DETACHED_FULL;
        }
        let bucket = by_number::bucket(&*self.pool, self.party.party(), number, len);
        let token = self.party.detach(&*self.pool, bucket);
        note(&mut self.in_use, number, false);
        detached.inside = Some(token);
        detached.start = self.pool.start_address();
        code::OK
    }

    /// Takes the bucket out of `detached` if it is of the party's pool. Otherwise returns the code of the error.
    fn take_inside(&self, detached: &mut Detached) -> Result<DetachedBucket, u32>
        requires { KnowsInside self.now detached.old }
        ensures takes { TakesInside self.now detached.old result detached.new }
        ensures its { IfOk result (λ token. token.allocator ≡ self.now.party.allocator) }
    {
        if detached.inside.is_none() {
            return Err(code::DETACHED_EMPTY);
        }
        if detached.start != self.pool.start_address() {
            return Err(code::OTHER_POOL);
        }
        detached.inside.take().ok_or(code::DETACHED_EMPTY)
    }

    /// Detaches the bucket at this place, and returns its number.
    #[tactic(auto, unfolding(bb_memory_shared_pools::specs::SharedPoolCaching::IsOut))]
    fn detach_number(&mut self, place: usize) -> Figure
        ensures { TellsDetachNumber self.old place result self.new }
    {
        if self.pool.number_of_parties() < 2 {
            return Figure::refusal(code::ONE_PARTY);
        }
        let Some(number) = self.held_at(place) else {
            return Figure::refusal(code::NOT_HELD);
        };
        let bucket = by_number::bucket(&*self.pool, self.party.party(), number, 0);
        let told = self.party.detach_number(&*self.pool, bucket);
        note(&mut self.in_use, number, false);
        Figure::of(told as usize)
    }

    /// Attaches the bucket of this number, if the party of number `from` has detached it by its number.
    #[tactic(auto, unfolding(bb_memory_shared_pools::specs::SharedPoolCaching::IsOut))]
    fn attach_number(&mut self, number: u32, from: u32) -> Answer
        ensures { TellsAttachNumber self.old number from result self.new }
    {
        let buckets = self.pool.number_of_buckets();
        if buckets <= number {
            return Answer::refusal(code::NOT_A_BUCKET);
        }
        if !self.party.attach_number(&*self.pool, number, from) {
            return Answer::refusal(code::NOT_HELD);
        }
        note(&mut self.in_use, number, true);
        let size = self.pool.bucket_size();
        let bucket = by_number::bucket(&*self.pool, self.party.party(), number, size);
        Answer::of(Ok(bucket.chunk()))
    }

    /// Gives back the bucket of this number, if the party of number `from` has detached it by its number.
    fn return_number(&mut self, number: u32, from: u32) -> u32
        ensures { TellsReturnNumber self.old number from result self.new }
    {
        if number >= self.pool.number_of_buckets() {
            return code::NOT_A_BUCKET;
        }
        if self.party.return_number(&*self.pool, number, from) {
            code::OK
        } else {
            code::NOT_HELD
        }
    }

    /// Gives back the buckets of these numbers, one after another, up to the first one that is refused. Returns how many were
    /// given back.
    fn return_each(&mut self, numbers: &[u32], from: u32) -> usize
        ensures { ReturnsMany self.old numbers.now from result self.new }
    {
        let mut returned = 0;
        for number in numbers {
            if self.return_number(*number, from) != code::OK {
                return returned;
            }
            returned += 1;
        }
        returned
    }

    /// Takes a whole bucket and detaches it, by one step on its flag. Returns its number, or `None` if no bucket was found.
    fn take_detached(&mut self) -> Option<u32>
        requires others { HasOthers self.old }
        ensures taken { IfSome result (λ number. TakesDetached self.old number self.new) }
        ensures refused { IfNone result (RefusesTaking self.old self.new) }
    {
        self.party.take_detached(&*self.pool)
    }

    /// Takes whole buckets and detaches them, one after another, until each slot has the number of one or none can be taken.
    /// Returns how many were taken.
    fn take_each_detached(&mut self, numbers: &mut [u32]) -> usize
        requires others { HasOthers self.old }
        ensures { TakesManyDetached self.old self.new numbers.old numbers.new result }
    {
        let mut taken = 0;
        for slot in numbers.iter_mut() {
            let Some(number) = self.take_detached() else {
                return taken;
            };
            *slot = number;
            taken += 1;
        }
        taken
    }

    /// Takes whole buckets and detaches them, at most one for each slot, and writes their numbers into the first slots.
    fn take_many_detached(&mut self, numbers: &mut [u32]) -> Figure
        ensures { TellsTakesDetached self.old numbers.old result self.new numbers.new }
    {
        if self.pool.number_of_parties() < 2 {
            return Figure::refusal(code::ONE_PARTY);
        }
        Figure::of(self.take_each_detached(numbers))
    }

    /// Attaches the bucket that is in `detached`, which has none then.
    pub(crate) fn attach(&mut self, detached: &mut Detached) -> Answer
        requires { KnowsInside self.old detached.old }
        ensures { TellsAttach self.old detached.old result self.new detached.new }
    {
        match self.take_inside(detached) {
            Ok(token) => {
                let bucket = self.party.attach(&*self.pool, token);
                note(&mut self.in_use, bucket.number(), true);
                Answer::of(Ok(bucket.chunk()))
            }
            Err(code) => Answer::refusal(code),
        }
    }

    /// Gives back the bucket that is in `detached`, which has none then.
    fn return_detached(&mut self, detached: &mut Detached) -> u32
        requires { KnowsInside self.old detached.old }
        ensures { TellsReturnDetached self.old detached.old result self.new detached.new }
    {
        match self.take_inside(detached) {
            Ok(token) => {
                self.party.return_detached(&*self.pool, token);
                code::OK
            }
            Err(code) => code,
        }
    }
}

/// Makes a `bb_detached` with no bucket in it, in a handle that has to be empty.
#[unsafe(no_mangle)]
pub extern "C" fn bb_detached_init(alloc: Global, detached: &mut DetachedHandle) -> u32
    ensures { AnswersMake detached.old.value detached.new.value result (Unit {0}) (λ new. new ≡ Some None) }
{
    if call::is_made(detached) {
        return code::ALREADY_INITIALIZED;
    }
    let none = Detached {
        inside: None,
        start: 0,
        gap: [0; 10],
    };
    call::keep(detached, alloc, none)
}

/// Frees a `bb_detached` and empties its handle. A bucket that is in it stays detached for good.
#[unsafe(no_mangle)]
pub extern "C" fn bb_detached_destroy(alloc: Global, detached: &mut DetachedHandle) -> u32
    ensures { AnswersFree detached.old.value detached.new.value result }
{
    call::free(detached, alloc)
}

/// Returns the length in bytes of the chunk that was in the bucket when the bucket was detached, or
/// `BB_DETACHED_EMPTY` if the `bb_detached` has no bucket.
#[unsafe(no_mangle)]
pub extern "C" fn bb_detached_len(detached: &mut DetachedHandle) -> Figure
    ensures { Answers detached.old.value detached.new.value (result ≡ no_figure uninitialized)
        (λ inside after. TellsLen inside result × (after ≡ inside)) }
{
    let Some(inside) = detached.made_mut() else {
        return Figure::refusal(code::UNINITIALIZED);
    };
    match &inside.inside {
        Some(token) => Figure::of(token.len()),
        None => Figure::refusal(code::DETACHED_EMPTY),
    }
}

/// Detaches the bucket at this place, which this party holds, with a chunk of `len` bytes. The bucket goes into a `bb_detached`
/// that has none, and the party doesn't hold it then. The call takes no memory, and waits for nothing.
#[unsafe(no_mangle)]
pub extern "C" fn bb_pool_party_detach(
    handle: &mut PoolPartyHandle,
    place: usize,
    len: usize,
    detached: &mut DetachedHandle,
) -> u32
    ensures { AnswersOfBoth handle.old.value handle.new.value detached.old.value detached.new.value (result ≡ uninitialized)
        (λ party inside. TellsDetach party inside place len result) }
{
    let Some(joined) = handle.made_mut() else {
        return code::UNINITIALIZED;
    };
    let Some(inside) = detached.made_mut() else {
        return code::UNINITIALIZED;
    };
    joined.detach(place, len, inside)
}

/// Detaches the bucket at this place, which this party holds, and returns the bucket's number. The party doesn't hold it then.
/// Another party attaches it by that number and this party's number. The call takes no memory, and waits for nothing.
#[unsafe(no_mangle)]
pub extern "C" fn bb_pool_party_detach_number(handle: &mut PoolPartyHandle, place: usize) -> Figure
    ensures { Answers handle.old.value handle.new.value (result ≡ no_figure uninitialized)
        (λ party after. TellsDetachNumber party place result after) }
{
    match handle.made_mut() {
        Some(joined) => joined.detach_number(place),
        None => Figure::refusal(code::UNINITIALIZED),
    }
}

/// Attaches the bucket of this number, if the party of number `from` has detached it by its number: this party holds it then.
/// Returns its place. The call makes one exchange of the bucket's flag, so if several parties call it, at most one gets the bucket.
/// The others get `BB_NOT_HELD`, and nothing changes. If no bucket has the number, it returns `BB_NOT_A_BUCKET`. The call takes no
/// memory, and waits for nothing.
#[unsafe(no_mangle)]
pub extern "C" fn bb_pool_party_attach_number(
    handle: &mut PoolPartyHandle,
    number: u32,
    from: u32,
) -> Answer
    ensures { Answers handle.old.value handle.new.value (result ≡ refused uninitialized)
        (λ party after. TellsAttachNumber party number from result after) }
{
    match handle.made_mut() {
        Some(joined) => joined.attach_number(number, from),
        None => Answer::refusal(code::UNINITIALIZED),
    }
}

/// Frees the bucket of this number, if the party of number `from` has detached it by its number. The call makes one exchange of
/// the bucket's flag, from "detached by `from`" to free. If the exchange loses, it returns `BB_NOT_HELD`, and if no bucket has
/// the number, `BB_NOT_A_BUCKET`. The call takes no memory, and waits for nothing.
#[unsafe(no_mangle)]
pub extern "C" fn bb_pool_party_return_number(
    handle: &mut PoolPartyHandle,
    number: u32,
    from: u32,
) -> u32
    ensures { Answers handle.old.value handle.new.value (result ≡ uninitialized)
        (λ party after. TellsReturnNumber party number from result after) }
{
    match handle.made_mut() {
        Some(joined) => joined.return_number(number, from),
        None => code::UNINITIALIZED,
    }
}

/// Frees the buckets of these numbers, as that many calls of `bb_pool_party_return_number` do, up to the first one that is
/// refused. Returns how many it freed.
#[unsafe(no_mangle)]
pub extern "C" fn bb_pool_party_return_many(
    handle: &mut PoolPartyHandle,
    numbers: &[u32],
    from: u32,
) -> Figure
    ensures { Answers handle.old.value handle.new.value (result ≡ no_figure uninitialized)
        (λ party after. (result ≡ figure_of result.number)
        × ReturnsMany party numbers.now from result.number after) }
{
    match handle.made_mut() {
        Some(joined) => Figure::of(joined.return_each(numbers, from)),
        None => Figure::refusal(code::UNINITIALIZED),
    }
}

/// Takes whole buckets and detaches each of them by its number, as that many calls of `bb_pool_party_take` and
/// `bb_pool_party_detach_number` do, until each slot has a bucket's number or no bucket is found. Returns how many buckets it
/// took. Their numbers are in the first slots.
#[unsafe(no_mangle)]
pub extern "C" fn bb_pool_party_take_many_detached(
    handle: &mut PoolPartyHandle,
    numbers: &mut [u32],
) -> Figure
    ensures { Answers handle.old.value handle.new.value
        ((result ≡ no_figure uninitialized) × (numbers.new ≡ numbers.old))
        (λ party after. TellsTakesDetached party numbers.old result after numbers.new) }
{
    match handle.made_mut() {
        Some(joined) => joined.take_many_detached(numbers),
        None => Figure::refusal(code::UNINITIALIZED),
    }
}

/// Attaches the bucket that is in the `bb_detached`, which has none then: this party holds it. Returns the place of the chunk. If
/// the bucket's pool begins at another place, it returns `BB_OTHER_POOL`. The call takes no memory, and waits for nothing.
#[unsafe(no_mangle)]
pub extern "C" fn bb_pool_party_attach(
    handle: &mut PoolPartyHandle,
    detached: &mut DetachedHandle,
) -> Answer
    requires { IfBoth handle.old.value detached.old.value KnowsInside }
    ensures { AnswersOfBoth handle.old.value handle.new.value
        detached.old.value detached.new.value (result ≡ refused uninitialized) (λ party inside. TellsAttach party inside result) }
{
    let Some(joined) = handle.made_mut() else {
        return Answer::refusal(code::UNINITIALIZED);
    };
    let Some(inside) = detached.made_mut() else {
        return Answer::refusal(code::UNINITIALIZED);
    };
    joined.attach(inside)
}

/// Gives back the bucket that is in the `bb_detached`, which has none then, by one store and without attaching it. If the bucket's
/// pool begins at another place, it returns `BB_OTHER_POOL`. The call takes no memory, and waits for nothing.
#[unsafe(no_mangle)]
pub extern "C" fn bb_pool_party_return_detached(
    handle: &mut PoolPartyHandle,
    detached: &mut DetachedHandle,
) -> u32
    requires { IfBoth handle.old.value detached.old.value KnowsInside }
    ensures { AnswersOfBoth handle.old.value handle.new.value detached.old.value detached.new.value (result ≡ uninitialized)
        (λ party inside. TellsReturnDetached party inside result) }
{
    let Some(joined) = handle.made_mut() else {
        return code::UNINITIALIZED;
    };
    let Some(inside) = detached.made_mut() else {
        return code::UNINITIALIZED;
    };
    joined.return_detached(inside)
}
