//! The calls of C, each written once over any handle.
ghost use Rattle.bb_memory_c_calls.specs.Answers.{malloc_refused, ok};
ghost use Rattle.bb_memory_c_calls.specs.Calls.{AnswersDestroy, AnswersFree, AnswersInfo, AnswersJoin, AnswersLeave, AnswersNumber, AnswersPlace, AnswersRequest, AnswersReturn, AnswersReturns, AnswersTake, AnswersTakings, AnswersWhether, FreesMany, IfBoth, TakesMany, TellsRequest, TellsTake};
ghost use Rattle.std.specs.Prelude.{IsFalse, IsTrue, None, Some, ◌≡◌, ◌≢◌};

use crate::answer::{Answer, Figure};
use crate::code;
use crate::handle::Handle;
use crate::kind::{Bucketed, Ends, Gives, Keeps, Shares};
use crate::layout::{layout_of, within};
use std::alloc::Global;

/// Returns whether the handle holds a value. The handle doesn't change.
pub fn is_made<M: Drop, H: Handle<M>>(handle: &mut H) -> bool
    ensures made { IsTrue result → H.made handle.old ≢ None }
    ensures empty { IsFalse result → H.made handle.old ≡ None }
    ensures unchanged { H.made handle.new ≡ H.made handle.old }
{
    match handle.made_mut() {
        Some(_) => true,
        None => false,
    }
}

/// Moves a value into memory of its own. The handle, which has to be empty, then holds it. If `malloc` fails, the call returns
/// `BB_MALLOC_REFUSED`, and the handle stays empty.
pub fn keep<M: Drop, H: Handle<M>>(handle: &mut H, alloc: Global, made: M) -> u32
    requires { H.made handle.old ≡ None }
    ensures ok { result ≡ ok → H.made handle.new ≡ Some made }
    ensures refused { result ≢ ok → (result ≡ malloc_refused) × (H.made handle.new ≡ None) }
{
    let Ok(made) = Box::new(alloc, made) else {
        return code::MALLOC_REFUSED;
    };
    handle.put(made);
    code::OK
}

/// Frees the value that the handle holds. Afterwards the handle is empty.
pub fn free<M: Drop, H: Handle<M>>(handle: &mut H, alloc: Global) -> u32
    ensures { AnswersFree (H.made handle.old) (H.made handle.new) result }
{
    let Some(made) = handle.take(alloc) else {
        return code::UNINITIALIZED;
    };
    drop(made);
    code::OK
}

/// Frees the value that the handle holds, if nothing of it is in use. Afterwards the handle is empty.
pub fn destroy<M: Ends, H: Handle<M>>(handle: &mut H, alloc: Global) -> u32
    ensures { AnswersDestroy (H.made handle.old) (H.made handle.new) result M.ends }
{
    let Some(made) = handle.made_mut() else {
        return code::UNINITIALIZED;
    };
    let code = made.end_code();
    if code != code::OK {
        return code;
    }
    free(handle, alloc)
}

/// Fills C's struct with the figures of the value.
pub fn info<I: Copy, M: Gives<I>, H: Handle<M>>(handle: &mut H, to: &mut I) -> u32
    ensures { AnswersInfo (H.made handle.old) (H.made handle.new) to.old to.new result M.may_show }
{
    let Some(made) = handle.made_mut() else {
        return code::UNINITIALIZED;
    };
    *to = made.show();
    code::OK
}

/// Requests a chunk of `size` bytes at a multiple of `align`.
pub fn request<I, M: Gives<I>, H: Handle<M>>(handle: &mut H, size: usize, align: usize) -> Answer
    ensures { AnswersRequest (H.made handle.old) (H.made handle.new) size align result M.may_give }
{
    let Some(made) = handle.made_mut() else {
        return Answer::refusal(code::UNINITIALIZED);
    };
    ask(made, size, align)
}

/// Requests a chunk of `size` bytes at a multiple of `align` from the value of a handle, inlined into the caller.
#[inline(always)]
fn ask<I, M: Gives<I>>(made: &mut M, size: usize, align: usize) -> Answer
    ensures { TellsRequest made.old made.new size align result M.may_give }
{
    match layout_of(size, align) {
        Some(layout) => Answer::of(made.give(layout)),
        None => Answer::refusal(code::INVALID_LAYOUT),
    }
}

/// Does what `ask` does, and is never inlined, so that the fast path of its caller stays straight-line code.
#[inline(never)]
fn ask_apart<I, M: Gives<I>>(made: &mut M, size: usize, align: usize) -> Answer
    ensures { TellsRequest made.old made.new size align result M.may_give }
{
    ask(made, size, align)
}

/// Requests a chunk of `size` bytes at a multiple of `align`, in a bucket.
pub fn request_bucket<I, M: Gives<I> + Bucketed, H: Handle<M>>(
    handle: &mut H,
    size: usize,
    align: usize,
) -> Answer
    ensures { AnswersRequest (H.made handle.old) (H.made handle.new) size align result M.may_give }
{
    let Some(made) = handle.made_mut() else {
        return Answer::refusal(code::UNINITIALIZED);
    };
    match within(made.limit(), size, align) {
        Some(layout) => Answer::of(made.give(layout)),
        None => ask_apart(made, size, align),
    }
}

/// Goes on with a taking that has missed its first bucket. The function is never inlined, so that a taking that gets that bucket is
/// short.
#[inline(never)]
fn take_later<M: Bucketed>(made: &mut M) -> Answer
    requires { (before : M) × M.misses_first before made.old }
    ensures { (before : M) → M.misses_first before made.old → TellsTake before made.new result M.may_take }
{
    Answer::of(made.take_later())
}

/// Takes a whole bucket. A taking that gets the first bucket that it tries is straight-line code.
#[inline(always)]
fn take_one<M: Bucketed>(made: &mut M) -> Answer
    ensures { TellsTake made.old made.new result M.may_take }
{
    match made.take_first() {
        Some(chunk) => Answer::of(Ok(chunk)),
        None => take_later(made),
    }
}

/// Takes a whole bucket.
pub fn take<M: Bucketed, H: Handle<M>>(handle: &mut H) -> Answer
    ensures { AnswersTake (H.made handle.old) (H.made handle.new) result M.may_take }
{
    match handle.made_mut() {
        Some(made) => take_one(made),
        None => Answer::refusal(code::UNINITIALIZED),
    }
}

/// Gives back the chunk at this place, if it may be given back. Otherwise the call returns `BB_NOT_HELD`.
pub fn give_back<M: Keeps, H: Handle<M>>(handle: &mut H, place: usize) -> u32
    ensures { AnswersReturn (H.made handle.old) (H.made handle.new) result
        (λ made. M.may_free made place) (λ made after. M.frees made place after) }
{
    let Some(made) = handle.made_mut() else {
        return code::UNINITIALIZED;
    };
    if made.give_back(place) {
        code::OK
    } else {
        code::NOT_HELD
    }
}

/// Takes whole buckets, one after another, until each slot has the place of one or none can be taken. Returns how many were
/// taken.
fn take_each<M: Bucketed>(made: &mut M, slots: &mut [usize]) -> usize
    ensures { TakesMany made.old made.new slots.old slots.new result M.may_take }
{
    let mut taken = 0;
    for slot in slots.iter_mut() {
        let answer = take_one(made);
        if answer.code != code::OK as usize {
            return taken;
        }
        *slot = answer.place;
        taken += 1;
    }
    taken
}

/// Takes whole buckets, at most one for each slot, and writes their places into the first slots.
pub fn take_many<M: Bucketed, H: Handle<M>>(handle: &mut H, slots: &mut [usize]) -> Figure
    ensures { AnswersTakings (H.made handle.old) (H.made handle.new) slots.old slots.new result M.may_take }
{
    match handle.made_mut() {
        Some(made) => Figure::of(take_each(made, slots)),
        None => Figure::refusal(code::UNINITIALIZED),
    }
}

/// Gives back the chunks at these places, one after another, up to the first one that may not be given back. Returns how many were
/// given back.
fn give_back_each<M: Keeps>(made: &mut M, places: &[usize]) -> usize
    ensures { FreesMany made.old made.new places.now result M.may_free M.frees }
{
    let mut returned = 0;
    for place in places {
        if !made.give_back(*place) {
            return returned;
        }
        returned += 1;
    }
    returned
}

/// Gives back the chunks at these places, up to the first one that may not be given back.
pub fn give_back_many<M: Keeps, H: Handle<M>>(handle: &mut H, places: &[usize]) -> Figure
    ensures { AnswersReturns (H.made handle.old) (H.made handle.new) places.now result M.may_free M.frees }
{
    match handle.made_mut() {
        Some(made) => Figure::of(give_back_each(made, places)),
        None => Figure::refusal(code::UNINITIALIZED),
    }
}

/// Returns 1 if a chunk is held at this place, otherwise 0.
pub fn holds<M: Keeps, H: Handle<M>>(handle: &mut H, place: usize) -> Figure
    ensures { AnswersWhether (H.made handle.old) (H.made handle.new) result (λ made. M.holds made place) }
{
    match handle.made_mut() {
        Some(made) => Figure::of(if made.is_held(place) { 1 } else { 0 }),
        None => Figure::refusal(code::UNINITIALIZED),
    }
}

/// Returns where the bucket of this number begins.
pub fn place<M: Bucketed, H: Handle<M>>(handle: &mut H, number: u32) -> Figure
    ensures { AnswersPlace (H.made handle.old) (H.made handle.new) result number M.geometry }
{
    let Some(made) = handle.made_mut() else {
        return Figure::refusal(code::UNINITIALIZED);
    };
    match made.place_of(number) {
        Some(place) => Figure::of(place),
        None => Figure::refusal(code::NOT_A_BUCKET),
    }
}

/// Returns the number of the bucket at this place.
pub fn number<M: Bucketed, H: Handle<M>>(handle: &mut H, place: usize) -> Figure
    ensures { AnswersNumber (H.made handle.old) (H.made handle.new) result place M.geometry }
{
    let Some(made) = handle.made_mut() else {
        return Figure::refusal(code::UNINITIALIZED);
    };
    match made.number_of(place) {
        Some(number) => Figure::of(number as usize),
        None => Figure::refusal(code::NOT_A_BUCKET),
    }
}

/// Makes the last party that hasn't joined join. Its handle has to be empty.
pub fn join<M: Shares<P>, P: Drop, H: Handle<M>, S: Handle<P>>(
    handle: &mut H,
    alloc: Global,
    joined: &mut S,
) -> u32
    ensures { AnswersJoin (H.made handle.old) (H.made handle.new) (S.made joined.old) (S.made joined.new)
        result M.sharing }
{
    if is_made(joined) {
        return code::ALREADY_INITIALIZED;
    }
    let Some(shared) = handle.made_mut() else {
        return code::UNINITIALIZED;
    };
    let party = match shared.join_last(alloc) {
        Ok(party) => party,
        Err(code) => return code,
    };
    joined.put(party);
    code::OK
}

/// Makes a party leave. It may join again. Afterwards its handle is empty.
pub fn leave<M: Shares<P>, P: Drop, H: Handle<M>, S: Handle<P>>(
    handle: &mut H,
    alloc: Global,
    joined: &mut S,
) -> u32
    requires { IfBoth (H.made handle.old) (S.made joined.old) M.knows }
    ensures { AnswersLeave (H.made handle.old) (H.made handle.new) (S.made joined.old)
        (S.made joined.new) result M.sharing }
{
    let Some(shared) = handle.made_mut() else {
        return code::UNINITIALIZED;
    };
    let Some(party) = joined.take(alloc) else {
        return code::UNINITIALIZED;
    };
    if !shared.has_joined(&party) {
        joined.put(party);
        return code::OTHER_POOL;
    }
    shared.take_back(Box::into_inner(party));
    code::OK
}
