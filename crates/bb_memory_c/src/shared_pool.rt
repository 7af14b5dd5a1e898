//! A shared pool in handles: one for the pool and the parties that haven't joined, and one for each party that has.
ghost use Rattle.bb_memory_c.specs.SharedPools.{AnswersJoinNumber, AreListed, AreUnjoined, CountsOut, GivesBack, GivesChunk, HasGivenAllBack, HasUnjoined, HoldsAt, HoldsPlace, IsAt, IsJoinedAt, IsNumberAt, Knows, PoolParties, ShowsParty, ShowsShared, TakesNumber, TellsCache, TellsDestroy, TellsHolder, as_joined, cutting_shared_pool, emptied, forgetting_pool, geometry_of, shared_pool_info, sharing_pool, with_last, with_unjoined};
ghost use Rattle.bb_memory_c_calls.specs.Answers.{figure_of, no_figure};
ghost use Rattle.bb_memory_c_calls.specs.Calls.{Answers, AnswersDestroy, AnswersFree, AnswersInfo, AnswersJoin, AnswersLeave, AnswersNumber, AnswersPlace, AnswersPoolMake, AnswersRequest, AnswersReturn, AnswersReturns, AnswersTake, AnswersTakings, AnswersWhether, IfBoth};
ghost use Rattle.bb_memory_c_calls.specs.declared.code.TheConstants.{OK as ok, UNINITIALIZED as uninitialized};
ghost use Rattle.bb_memory_pool_machine.specs.PoolLogs.{IsHeldAfter};
ghost use Rattle.bb_memory_shared_pools.specs.SharedPool.{IsParty, chunk_of, taken_bucket};
ghost use Rattle.bb_memory_shared_pools.specs.SharedPoolCaching.{CachingParty, IsOut, MissesFirst, ReturnsCaching};
ghost use Rattle.bb_memory_traits.specs.Chunk.{region_at};
ghost use Rattle.bb_memory_traits.specs.PoolObject.{bucket_place};
ghost use Rattle.std.specs.Arc.{arc_value};
ghost use Rattle.std.specs.Prelude.{Contains, IfErr, IfNone, IfOk, IfSome, IsFalse, IsTrue, Some, false, length, slice_get, slice_set, true, vec_capacity, ℕ, ◌<◌, ◌↔◌, ◌≡◌, ◌≤◌};

use crate::handle::{Handle, PoolPartyHandle, SharedPoolHandle};
use bb_memory_c_calls::answer::{Answer, Figure, Holder, SharedPoolInfo};
use bb_memory_c_calls::kind::{Bucketed, Ends, Gives, Keeps, Shares};
use bb_memory_c_calls::layout::cut_into;
use bb_memory_c_calls::{call, code};
use bb_memory_owned::pool_allocator::AllocationError;
use bb_memory_shared_pools::shared_pool::{
    CachingParty, PoolParty, SharedPoolAllocator, by_number,
};
use bb_memory_traits::layout::{Chunk, Layout};
use std::alloc::{AllocError, Global};
use std::marker::Model;
use std::sync::Arc;

/// The bytes of two cache lines.
const GAP: usize = 128;

/// One party. The pool's flags say which buckets it holds. If it caches some of them, `in_use` says for each of the pool's buckets
/// whether the party has it in use: holds it, and doesn't cache it. Gaps keep what different parties write on separate cache lines.
#[derive(Drop)]
pub struct JoinedPool {
    pub(crate) party: CachingParty,
    pub(crate) pool: Arc<SharedPoolAllocator, Global>,
    pub(crate) in_use: Vec<bool>,
    gap: [u64; 16],
}

impl Model for JoinedPool {
    ghost Value = { CachingParty };

    ghost view = { λ s. s.party };

    ghost invariant = { λ s. IsJoinedAt (arc_value s.pool) s.party s.in_use.items };
}

/// Returns the figures of `pool`, with this number of held buckets.
fn figures_of(pool: &SharedPoolAllocator, held: usize) -> SharedPoolInfo
    ensures { result ≡ shared_pool_info pool.now.scene.geometry held }
{
    SharedPoolInfo {
        start_address: pool.start_address(),
        size: pool.size(),
        bucket_size: pool.bucket_size(),
        max_alignment: pool.max_alignment(),
        number_of_buckets: pool.number_of_buckets() as usize,
        held_buckets: held,
    }
}

/// Returns how many entries the list of a party has if it caches at most `most` of `buckets` buckets: none if `most` is 0.
fn room_for(most: u32, buckets: u32) -> usize
    ensures none { most ≡ 0 → result ≡ 0 }
    ensures some { 0 < most → (buckets ≤ result) × (0 < result) }
{
    if most == 0 { 0 } else { buckets as usize + GAP }
}

/// Returns the entry of the bucket of this number, if there is one.
fn entry(in_use: &[bool], number: u32) -> Option<bool>
    ensures { result ≡ slice_get in_use.now number }
{
    in_use.get(number as usize).copied()
}

/// Writes the entry of the bucket of this number, if there is one.
pub(crate) fn note(in_use: &mut Vec<bool>, number: u32, is_in_use: bool)
    ensures { in_use.new.items ≡ slice_set in_use.old.items number is_in_use }
{
    if (number as usize) < in_use.len() {
        in_use[number as usize] = is_in_use;
    }
}

/// Clears the entry of the bucket of this number. Returns what it was, if there is one.
fn clear(in_use: &mut Vec<bool>, number: u32) -> Option<bool>
    ensures was { result ≡ slice_get in_use.old.items number }
    ensures cleared { in_use.new.items ≡ slice_set in_use.old.items number false }
{
    if number as usize >= in_use.len() {
        return None;
    }
    let was_in_use = in_use[number as usize];
    in_use[number as usize] = false;
    Some(was_in_use)
}

/// Notes that the party has the bucket of this number in use. Returns the chunk of `len` bytes in the
/// bucket. If the bucket was cached, its entry is written without a test, since a party that caches
/// has an entry for each bucket.
///
/// The caller borrows the pool anew for this call, and not across the search that took the bucket, so
/// that no register has to keep the pool's address during the search.
#[inline(always)]
fn begin_use(
    party: &CachingParty,
    pool: &SharedPoolAllocator,
    in_use: &mut Vec<bool>,
    number: u32,
    was_cached: bool,
    len: usize,
) -> Chunk
    requires theirs { party.now.party.allocator ≡ pool.now }
    requires held { IsHeldAfter party.now.party.log number }
    requires short { len ≤ pool.now.scene.geometry.bucket.size }
    requires listed { IsTrue was_cached → number < length in_use.old.items }
    ensures chunk { result ≡ chunk_of (taken_bucket pool.now number len) }
    ensures noted { in_use.new.items ≡ slice_set in_use.old.items number true }
{
    if was_cached || (number as usize) < in_use.len() {
        in_use[number as usize] = true;
    }
    by_number::bucket(pool, party.party(), number, len).chunk()
}

/// Returns whether the party has the bucket of this number in use, and clears its entry. If the party caches no bucket, this loads
/// the bucket's flag.
#[inline(always)]
fn end_use(
    party: &mut CachingParty,
    pool: &SharedPoolAllocator,
    in_use: &mut Vec<bool>,
    number: u32,
) -> bool
    requires theirs { party.old.party.allocator ≡ pool.now }
    requires few { length party.old.cached ≤ party.old.most }
    requires listed { AreListed party.old party.old.most in_use.old.items }
    requires below { number < (geometry_of party.old).buckets }
    ensures value { IsTrue result ↔ IsOut party.old number }
    ensures unchanged { party.new ≡ party.old }
    ensures cleared { in_use.new.items ≡ slice_set in_use.old.items number false }
{
    match clear(in_use, number) {
        Some(was_in_use) => was_in_use,
        None => party.is_held(pool, number),
    }
}

impl JoinedPool {
    /// Boxes the party as one that has joined. Returns the party as it was if memory ran out.
    fn new(
        alloc: Global,
        pool: &Arc<SharedPoolAllocator, Global>,
        party: PoolParty,
    ) -> Result<Box<JoinedPool>, PoolParty>
        requires { party.allocator ≡ arc_value pool.now }
        ensures joined { IfOk result (λ joined. joined.value ≡ as_joined party) }
        ensures refused { IfErr result (λ back. back ≡ party) }
    {
        let Ok(pool) = Arc::try_clone(pool) else {
            return Err(party);
        };
        let party = CachingParty::new(alloc, party, 0)?;
        let joined = JoinedPool {
            pool,
            party,
            in_use: Vec::new(alloc),
            gap: [0; 16],
        };
        Box::new(alloc, joined).map_err(|refused| refused.value.party.into_inner())
    }

    /// Proof hint: brings into scope what holds for every party.
    fn invariant(&self)
        ensures party { IsParty self.now.party }
        ensures few { length self.now.cached ≤ self.now.most }
    {
        let _ = self.party.party().number();
        let _ = self.party.number_of_cached();
    }

    /// Returns whether the party has the bucket of this number in use. If the party caches no bucket, this loads the bucket's flag.
    pub(crate) fn is_out(&mut self, number: u32) -> bool
        requires { number < (geometry_of self.old).buckets }
        ensures value { IsTrue result ↔ IsOut self.old number }
        ensures unchanged { self.new ≡ self.old }
    {
        self.invariant();
        match entry(&self.in_use, number) {
            Some(is_in_use) => is_in_use,
            None => self.party.is_held(&*self.pool, number),
        }
    }

    /// Returns the number of the bucket at this place. If no bucket begins there, the party has none in use there.
    fn numbered(&self, place: usize) -> Option<u32>
        ensures below { IfSome result (λ number. number < (geometry_of self.now).buckets) }
        ensures there { IfSome result (λ number. place ≡ bucket_place (geometry_of self.now) number) }
        ensures one { IfSome result (λ number. (other : ℕ)
            → place ≡ bucket_place (geometry_of self.now) other → other ≡ number) }
        ensures none { IfNone result (¬ HoldsPlace self.now place) }
    {
        self.invariant();
        self.pool.number_at(place)
    }

    /// Returns the number of the bucket at this place, if the party has it in use.
    pub(crate) fn held_at(&mut self, place: usize) -> Option<u32>
        ensures held { IfSome result (HoldsAt self.old place) }
        ensures none { IfNone result (¬ HoldsPlace self.old place) }
        ensures unchanged { self.new ≡ self.old }
    {
        let number = self.numbered(place)?;
        if self.is_out(number) {
            Some(number)
        } else {
            None
        }
    }

    /// Returns the list of buckets in use that the party needs if it caches at most `most` buckets.
    fn list_in_use(&mut self, alloc: Global, most: u32) -> Result<Vec<bool>, AllocError>
        ensures listed { IfOk result (λ list. AreListed self.old most list.items) }
        ensures unchanged { self.new ≡ self.old }
    {
        self.invariant();
        let buckets = self.pool.number_of_buckets();
        let mut list = Vec::from_elem(alloc, false, room_for(most, buckets))?;
        if most == 0 {
            return Ok(list);
        }
        for number in 0..buckets {
            let is_out = self.is_out(number);
            note(&mut list, number, is_out);
        }
        Ok(list)
    }

    /// Has the party cache at most `most` buckets. What it caches already is given back first.
    fn cache_at_most(&mut self, alloc: Global, most: u32) -> Result<(), AllocationError>
        ensures done { IfOk result (λ done. self.new ≡ emptied self.old most) }
        ensures refused { IfErr result (λ error. self.new ≡ self.old) }
    {
        let Ok(in_use) = self.list_in_use(alloc, most) else {
            return Err(AllocationError::OutOfMemory);
        };
        self.party.cache_at_most(alloc, &*self.pool, most)?;
        self.in_use = in_use;
        Ok(())
    }

    /// Gives back each bucket whose flag says that the party holds it.
    fn give_all_back(&mut self)
        ensures { HasGivenAllBack self.old self.new }
    {
        self.party.give_all_back(&*self.pool);
        self.in_use.fill(false);
    }

    /// Counts the buckets that the party has in use.
    fn count_out(&mut self) -> usize
        ensures count { CountsOut self.old result }
        ensures unchanged { self.new ≡ self.old }
    {
        self.invariant();
        let mut count = 0;
        for number in 0..self.pool.number_of_buckets() {
            let is_out = self.is_out(number);
            if is_out {
                count += 1;
            }
        }
        count
    }

    /// Gives back the bucket of this number if the party has it in use, and returns whether it had.
    #[tactic(auto, unfolding(bb_memory_shared_pools::specs::SharedPoolCaching::IsOut))]
    fn give_back_if_out(&mut self, number: u32) -> bool
        requires { number < (geometry_of self.old).buckets }
        ensures out { IsTrue result ↔ IsOut self.old number }
        ensures returned { IsTrue result → ReturnsCaching self.old number self.new }
        ensures unchanged { IsFalse result → self.new ≡ self.old }
    {
        self.invariant();
        let pool = &*self.pool;
        let was_in_use = end_use(&mut self.party, pool, &mut self.in_use, number);
        if !was_in_use {
            return false;
        }
        let bucket = by_number::bucket(pool, self.party.party(), number, 0);
        self.party.deallocate(pool, bucket);
        true
    }
}

impl Gives<SharedPoolInfo> for JoinedPool {
    ghost may_give = { GivesChunk };

    ghost may_show = { ShowsParty };

    #[inline(always)]
    fn give(&mut self, layout: Layout) -> Result<Chunk, AllocationError> {
        self.invariant();
        let is_cached = !self.party.cached().is_empty();
        let number = self.party.allocate(&*self.pool, layout)?.number();
        let pool = &*self.pool;
        let len = layout.size();
        Ok(begin_use(&self.party, pool, &mut self.in_use, number, is_cached, len))
    }

    fn show(&mut self) -> SharedPoolInfo {
        let held = self.count_out();
        figures_of(&*self.pool, held)
    }
}

impl Keeps for JoinedPool {
    ghost holds = { HoldsPlace };

    ghost may_free = { HoldsPlace };

    ghost frees = { GivesBack };

    fn is_held(&mut self, place: usize) -> bool {
        self.held_at(place).is_some()
    }

    // Inlined into both of its callers, which makes a single return quicker.
    #[inline(always)]
    fn give_back(&mut self, place: usize) -> bool {
        match self.numbered(place) {
            Some(number) => self.give_back_if_out(number),
            None => false,
        }
    }
}

impl Bucketed for JoinedPool {
    ghost geometry = { geometry_of };

    ghost may_take = { λ joined. GivesChunk joined (geometry_of joined).bucket };

    ghost misses_first = { MissesFirst };

    #[inline(always)]
    fn take_first(&mut self) -> Option<Chunk> {
        self.invariant();
        let is_cached = !self.party.cached().is_empty();
        let number = self.party.take_first(&*self.pool)?.number();
        let pool = &*self.pool;
        let len = pool.bucket_layout().size();
        Some(begin_use(&self.party, pool, &mut self.in_use, number, is_cached, len))
    }

    fn take_later(&mut self) -> Result<Chunk, AllocationError> {
        self.invariant();
        let number = self.party.take_later(&*self.pool)?.number();
        let pool = &*self.pool;
        let len = pool.bucket_layout().size();
        Ok(begin_use(&self.party, pool, &mut self.in_use, number, false, len))
    }

    fn limit(&self) -> Layout {
        self.pool.bucket_layout()
    }

    fn place_of(&self, number: u32) -> Option<usize> {
        self.pool.place_at(number)
    }

    fn number_of(&self, place: usize) -> Option<u32> {
        self.pool.number_at(place)
    }
}

/// A shared pool, and those of its parties that haven't joined. None of them holds a bucket, except one that was forgotten.
#[derive(Drop)]
pub struct PoolParties {
    pub(crate) pool: Arc<SharedPoolAllocator, Global>,
    pub(crate) parties: Vec<PoolParty>,
}

impl Model for PoolParties {
    ghost Value = { PoolParties };

    ghost view = { λ s. record { shared = arc_value s.pool; parties = s.parties.items } };

    ghost invariant = { λ s. AreUnjoined (arc_value s.pool) (vec_capacity s.parties) s.parties.items };
}

impl PoolParties {
    /// Returns the position of the party of this number among those that haven't joined.
    fn place_of(&self, number: u32) -> Option<usize>
        ensures there { IfSome result (λ at. IsNumberAt self.now.parties at number) }
        ensures none { IfNone result (¬ HasUnjoined self.now number) }
    {
        for at in 0..self.parties.len() {
            if self.parties[at].number() == number {
                return Some(at);
            }
        }
        None
    }

    /// Swaps the last party that hasn't joined with the one at this position.
    fn swap_with_last(&mut self, at: usize)
        requires { at < length self.old.parties }
        ensures { self.new ≡ with_last self.old at }
    {
        let last = self.parties.len() - 1;
        self.parties.swap(at, last);
    }

    /// Makes the party of this number join, in memory of its own.
    fn join_number(&mut self, alloc: Global, number: u32) -> Result<Box<JoinedPool>, u32>
        ensures { TakesNumber (λ joined. joined.value) self.old number result self.new }
    {
        let Some(at) = self.place_of(number) else {
            return Err(code::NO_PARTY);
        };
        self.swap_with_last(at);
        match self.join_last(alloc) {
            Ok(joined) => Ok(joined),
            Err(code) => {
                self.swap_with_last(at);
                Err(code)
            }
        }
    }

    /// Takes the party back as it is, after those that haven't joined.
    fn take_back_as_it_is(&mut self, joined: JoinedPool)
        requires { IsAt self.old joined }
        ensures { self.new ≡ with_unjoined self.old joined }
    {
        let JoinedPool { pool: _, party, .. } = joined;
        self.parties.push_reserved(party.into_inner());
    }
}

impl Shares<JoinedPool> for PoolParties {
    ghost sharing = { sharing_pool };

    ghost knows = { Knows };

    fn join_last(&mut self, alloc: Global) -> Result<Box<JoinedPool>, u32> {
        let Some(party) = self.parties.pop() else {
            return Err(code::NO_PARTY);
        };
        match JoinedPool::new(alloc, &self.pool, party) {
            Ok(joined) => Ok(joined),
            Err(party) => {
                self.parties.push_reserved(party);
                Err(code::MALLOC_REFUSED)
            }
        }
    }

    fn has_joined(&self, party: &JoinedPool) -> bool {
        let pool = &*self.pool;
        party.pool.start_address() == pool.start_address()
            && self.parties.len() < pool.number_of_parties() as usize
    }

    fn take_back(&mut self, joined: JoinedPool) {
        let JoinedPool { pool, party, .. } = joined;
        let mut party = party.into_inner();
        pool.give_all_back(&mut party);
        self.parties.push_reserved(party);
    }
}

impl Ends for PoolParties {
    ghost ends = { TellsDestroy };

    fn end_code(&mut self) -> u32 {
        if self.parties.len() < self.pool.number_of_parties() as usize {
            return code::PARTIES_JOINED;
        }
        if self.pool.has_detached(&mut self.parties) {
            code::BUCKET_DETACHED
        } else {
            code::OK
        }
    }
}

/// Makes a shared pool over the region of `size` bytes at `start`, in a handle that has to be empty. The region is cut into buckets
/// of `bucket_size` bytes at multiples of `bucket_align`, and has to have room for one. There is at least one party, and each of
/// them can join.
#[unsafe(no_mangle)]
pub extern "C" fn bb_shared_pool_init(
    alloc: Global,
    handle: &mut SharedPoolHandle,
    bucket_size: usize,
    bucket_align: usize,
    start: usize,
    size: usize,
    parties: u32,
) -> u32
    ensures { AnswersPoolMake handle.old.value handle.new.value bucket_size bucket_align result
        (cutting_shared_pool (region_at start size) parties) }
{
    if call::is_made(handle) {
        return code::ALREADY_INITIALIZED;
    }
    let bucket = match cut_into(bucket_size, bucket_align, start, size, parties) {
        Ok(bucket) => bucket,
        Err(code) => return code,
    };
    let Ok((pool, parties)) = SharedPoolAllocator::new(alloc, bucket, start, size, parties) else {
        return code::MALLOC_REFUSED;
    };
    let Ok(pool) = Arc::new(alloc, pool) else {
        return code::MALLOC_REFUSED;
    };
    call::keep(handle, alloc, PoolParties { pool, parties })
}

/// Frees a shared pool and empties its handle. Unless each party has left, it returns `BB_PARTIES_JOINED`; if a bucket is detached,
/// `BB_BUCKET_DETACHED`. Nothing changes then.
#[unsafe(no_mangle)]
pub extern "C" fn bb_shared_pool_destroy(alloc: Global, handle: &mut SharedPoolHandle) -> u32
    ensures { AnswersDestroy handle.old.value handle.new.value result TellsDestroy }
{
    call::destroy(handle, alloc)
}

/// Empties the handle of a shared pool without looking at its parties and buckets. The pool exists as long as one of its parties
/// does.
#[unsafe(no_mangle)]
pub extern "C" fn bb_shared_pool_abandon(alloc: Global, handle: &mut SharedPoolHandle) -> u32
    ensures { AnswersFree handle.old.value handle.new.value result }
{
    call::free(handle, alloc)
}

/// Fills the struct with the pool's figures, while parties may call: each flag is read at a moment of its own.
#[unsafe(no_mangle)]
pub extern "C" fn bb_shared_pool_info(handle: &mut SharedPoolHandle, to: &mut SharedPoolInfo) -> u32
    ensures { AnswersInfo handle.old.value handle.new.value to.old to.new result ShowsShared }
{
    let Some(all) = handle.made_mut() else {
        return code::UNINITIALIZED;
    };
    let held = all.pool.held_buckets() as usize;
    *to = figures_of(&*all.pool, held);
    code::OK
}

/// Fills the struct with the flag of the bucket of this number, as one load found it: whether the bucket is free, held or detached,
/// and by which party. Parties may call meanwhile.
#[unsafe(no_mangle)]
pub extern "C" fn bb_shared_pool_holder(
    handle: &mut SharedPoolHandle,
    number: u32,
    to: &mut Holder,
) -> u32
    ensures { Answers handle.old.value handle.new.value ((result ≡ uninitialized) × (to.new ≡ to.old))
        (λ all after. TellsHolder all number result to.old to.new × (after ≡ all)) }
{
    let Some(all) = handle.made_mut() else {
        return code::UNINITIALIZED;
    };
    if number >= all.pool.number_of_buckets() {
        return code::NOT_A_BUCKET;
    }
    *to = Holder::of(all.pool.holder(number));
    code::OK
}

/// Makes a party that hasn't joined join, in a handle that has to be empty.
#[unsafe(no_mangle)]
pub extern "C" fn bb_shared_pool_join(
    alloc: Global,
    handle: &mut SharedPoolHandle,
    party: &mut PoolPartyHandle,
) -> u32
    ensures { AnswersJoin handle.old.value handle.new.value party.old.value party.new.value result
        sharing_pool }
{
    call::join(handle, alloc, party)
}

/// Makes the party of this number join, in a handle that has to be empty. Returns `BB_NO_PARTY` if that party has joined, or if no
/// party has that number.
#[unsafe(no_mangle)]
pub extern "C" fn bb_shared_pool_join_number(
    alloc: Global,
    handle: &mut SharedPoolHandle,
    number: u32,
    party: &mut PoolPartyHandle,
) -> u32
    ensures { AnswersJoinNumber handle.old.value handle.new.value party.old.value party.new.value number result }
{
    if call::is_made(party) {
        return code::ALREADY_INITIALIZED;
    }
    let Some(all) = handle.made_mut() else {
        return code::UNINITIALIZED;
    };
    let joined = match all.join_number(alloc, number) {
        Ok(joined) => joined,
        Err(code) => return code,
    };
    party.put(joined);
    code::OK
}

/// Forgets a party of this pool and empties its handle. No flag changes: what the party holds stays held, and the next party that
/// joins by its number holds that. If the party's pool begins at another place, it returns `BB_OTHER_POOL`.
#[unsafe(no_mangle)]
pub extern "C" fn bb_shared_pool_forget(
    alloc: Global,
    handle: &mut SharedPoolHandle,
    party: &mut PoolPartyHandle,
) -> u32
    requires { IfBoth handle.old.value party.old.value Knows }
    ensures { AnswersLeave handle.old.value handle.new.value party.old.value party.new.value result forgetting_pool }
{
    let Some(all) = handle.made_mut() else {
        return code::UNINITIALIZED;
    };
    let Some(joined) = party.take(alloc) else {
        return code::UNINITIALIZED;
    };
    if !all.has_joined(&joined) {
        party.put(joined);
        return code::OTHER_POOL;
    }
    all.take_back_as_it_is(Box::into_inner(joined));
    code::OK
}

/// Ends a party of this pool and empties its handle. Each bucket that the party holds is given back, and the party may join again.
/// If the party's pool begins at another place, it returns `BB_OTHER_POOL`.
#[unsafe(no_mangle)]
pub extern "C" fn bb_shared_pool_leave(
    alloc: Global,
    handle: &mut SharedPoolHandle,
    party: &mut PoolPartyHandle,
) -> u32
    requires { IfBoth handle.old.value party.old.value Knows }
    ensures { AnswersLeave handle.old.value handle.new.value party.old.value party.new.value result sharing_pool }
{
    call::leave(handle, alloc, party)
}

/// Frees a party that hasn't left, and empties its handle. The party can't join again, what it holds stays held, and the pool can't
/// be destroyed.
#[unsafe(no_mangle)]
pub extern "C" fn bb_pool_party_abandon(alloc: Global, handle: &mut PoolPartyHandle) -> u32
    ensures { AnswersFree handle.old.value handle.new.value result }
{
    call::free(handle, alloc)
}

/// Has the party cache at most `most` of the buckets that it gives back, and never more than the pool has, for its next requests.
/// The buckets that it caches already are given back first. A cached bucket stays held, so other parties are refused if each bucket
/// is cached or in use.
#[unsafe(no_mangle)]
pub extern "C" fn bb_pool_party_cache(alloc: Global, handle: &mut PoolPartyHandle, most: u32) -> u32
    ensures { Answers handle.old.value handle.new.value (result ≡ uninitialized)
        (λ joined after. TellsCache joined most result after) }
{
    let Some(joined) = handle.made_mut() else {
        return code::UNINITIALIZED;
    };
    let most = most.min(joined.pool.number_of_buckets());
    match joined.cache_at_most(alloc, most) {
        Ok(()) => code::OK,
        Err(_) => code::MALLOC_REFUSED,
    }
}

/// Gives back the buckets that the party caches.
#[unsafe(no_mangle)]
pub extern "C" fn bb_pool_party_flush(handle: &mut PoolPartyHandle) -> u32
    ensures { Answers handle.old.value handle.new.value (result ≡ uninitialized)
        (λ joined after. (result ≡ ok) × (after ≡ emptied joined joined.most)) }
{
    let Some(joined) = handle.made_mut() else {
        return code::UNINITIALIZED;
    };
    joined.party.flush(&*joined.pool);
    code::OK
}

/// Gives back each bucket whose flag says that the party holds it, cached or not. The party stays.
#[unsafe(no_mangle)]
pub extern "C" fn bb_pool_party_give_all_back(handle: &mut PoolPartyHandle) -> u32
    ensures { Answers handle.old.value handle.new.value (result ≡ uninitialized)
        (λ joined after. (result ≡ ok) × HasGivenAllBack joined after) }
{
    let Some(joined) = handle.made_mut() else {
        return code::UNINITIALIZED;
    };
    joined.give_all_back();
    code::OK
}

/// Allocates a chunk of `size` bytes at a multiple of `align`, in the bucket that the party cached last, otherwise in one that a
/// next fit finds.
#[unsafe(no_mangle)]
pub extern "C" fn bb_pool_party_allocate(
    handle: &mut PoolPartyHandle,
    size: usize,
    align: usize,
) -> Answer
    ensures { AnswersRequest handle.old.value handle.new.value size align result GivesChunk }
{
    call::request_bucket(handle, size, align)
}

/// Takes a whole bucket: the one that the party cached last, otherwise one that a next fit finds.
#[unsafe(no_mangle)]
pub extern "C" fn bb_pool_party_take(handle: &mut PoolPartyHandle) -> Answer
    ensures { AnswersTake handle.old.value handle.new.value result
        (λ joined. GivesChunk joined (geometry_of joined).bucket) }
{
    call::take(handle)
}

/// Takes back the bucket at this place. If this party has no bucket in use there, it returns `BB_NOT_HELD`, and nothing changes.
#[unsafe(no_mangle)]
pub extern "C" fn bb_pool_party_deallocate(handle: &mut PoolPartyHandle, place: usize) -> u32
    ensures { AnswersReturn handle.old.value handle.new.value result
        (λ party. HoldsPlace party place) (λ party. GivesBack party place) }
{
    call::give_back(handle, place)
}

/// Takes whole buckets, as that many calls of `bb_pool_party_take` do, until each slot has a bucket's place or a call is refused.
/// Returns how many buckets it took. Their places are in the first slots.
#[unsafe(no_mangle)]
pub extern "C" fn bb_pool_party_take_many(
    handle: &mut PoolPartyHandle,
    slots: &mut [usize],
) -> Figure
    ensures { AnswersTakings handle.old.value handle.new.value slots.old slots.new result
        (λ joined. GivesChunk joined (geometry_of joined).bucket) }
{
    call::take_many(handle, slots)
}

/// Takes back the buckets at these places, as that many calls of `bb_pool_party_deallocate` do, up to the first one that is refused.
/// Returns how many it took back.
#[unsafe(no_mangle)]
pub extern "C" fn bb_pool_party_deallocate_many(
    handle: &mut PoolPartyHandle,
    places: &[usize],
) -> Figure
    ensures { AnswersReturns handle.old.value handle.new.value places.now result HoldsPlace GivesBack }
{
    call::give_back_many(handle, places)
}

/// Returns 1 if a bucket that this party has in use begins at this place, otherwise 0.
#[unsafe(no_mangle)]
pub extern "C" fn bb_pool_party_holds(handle: &mut PoolPartyHandle, place: usize) -> Figure
    ensures { AnswersWhether handle.old.value handle.new.value result (λ party. HoldsPlace party place) }
{
    call::holds(handle, place)
}

/// Fills the struct with the pool's figures, and with how many buckets this party has in use: holds, and doesn't cache.
#[unsafe(no_mangle)]
pub extern "C" fn bb_pool_party_info(handle: &mut PoolPartyHandle, to: &mut SharedPoolInfo) -> u32
    ensures { AnswersInfo handle.old.value handle.new.value to.old to.new result ShowsParty }
{
    call::info(handle, to)
}

/// Returns where the bucket of this number begins, held or not, or `BB_NOT_A_BUCKET` if there is no such bucket.
#[unsafe(no_mangle)]
pub extern "C" fn bb_pool_party_place_at(handle: &mut PoolPartyHandle, number: u32) -> Figure
    ensures { AnswersPlace handle.old.value handle.new.value result number geometry_of }
{
    call::place(handle, number)
}

/// Returns the number of the bucket at this place, held or not, or `BB_NOT_A_BUCKET` if no bucket begins there.
#[unsafe(no_mangle)]
pub extern "C" fn bb_pool_party_number_at(handle: &mut PoolPartyHandle, place: usize) -> Figure
    ensures { AnswersNumber handle.old.value handle.new.value result place geometry_of }
{
    call::number(handle, place)
}

/// Returns the number by which the pool's flags name this party.
#[unsafe(no_mangle)]
pub extern "C" fn bb_pool_party_number(handle: &mut PoolPartyHandle) -> Figure
    ensures { Answers handle.old.value handle.new.value (result ≡ no_figure uninitialized)
        (λ joined after. (result ≡ figure_of joined.party.number) × (after ≡ joined)) }
{
    match handle.made_mut() {
        Some(joined) => Figure::of(joined.party.party().number() as usize),
        None => Figure::refusal(code::UNINITIALIZED),
    }
}
