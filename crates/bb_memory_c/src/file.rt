//! Pools in files: the exported functions of a party of a file, and of the words that the parties share. Those whose names begin
//! with `file_` are hidden, and `bb_pool_file.c` calls them, which keeps the file, its locks and those who wait.
ghost use Rattle.bb_memory_c.specs.Files.{AnswersJoin, AnswersLeave, GivesBack, GivesChunk, HasQueue, HasSingle, HoldsPlace, MayFree, PostsQueued, PostsSingle, ShowsParty, TakesQueued, TakesSingle, TellsAttach, TellsCache, TellsDeallocate, TellsDetach, TellsDone, TellsDoneWith, TellsEntry, TellsFlag, TellsFlush, TellsFreed, TellsLife, TellsMessage, TellsPost, TellsReap, TellsSlot, TellsWords, cutting_file, no_message, none_detached, number_of, posted_as, shown_entry, shown_flag, shown_slot};
ghost use Rattle.bb_memory_c_calls.specs.Answers.{figure_of, no_figure, refused};
ghost use Rattle.bb_memory_c_calls.specs.Calls.{Answers, AnswersFree, AnswersInfo, AnswersNumber, AnswersPlace, AnswersPoolMake, AnswersRequest, AnswersReturns, AnswersTake, AnswersTakings, AnswersWhether};
ghost use Rattle.bb_memory_c_calls.specs.declared.code.TheConstants.{UNINITIALIZED as uninitialized};
ghost use Rattle.bb_memory_file_machine.specs.declared.steps.file.Entry.TheVariants.{Nowhere};
ghost use Rattle.bb_memory_file_machine.specs.declared.steps.file.FileFlag.TheVariants.{Free};
ghost use Rattle.bb_memory_file_machine.specs.declared.steps.file.Slot.TheVariants.{Empty};
ghost use Rattle.bb_memory_traits.specs.Chunk.{region_at};
ghost use Rattle.std.specs.Prelude.{◌≡◌};

use crate::file_answer::{
    DetachedNumber, Message, PostedMessage, ShownEntry, ShownFlag, ShownSlot,
};
use crate::file_party::{OpenFile, cut_file};
use crate::handle::{FilePartyHandle, FileTableHandle, Handle};
use bb_memory_c_calls::answer::{Answer, Figure, SharedPoolInfo};
use bb_memory_c_calls::{call, code};
use bb_memory_file::geometry::FileGeometry;
use bb_memory_file::table::FileTable;
use bb_memory_file_machine::steps::{Entry, FileFlag, Slot};
use std::alloc::Global;

/// Returns how many words the row of a file with these numbers of buckets, slots and parties has. If no file has that many buckets or
/// slots, it returns `BB_INVALID_ARGUMENT`.
#[unsafe(no_mangle)]
pub extern "C" fn file_words(buckets: u32, slots: u32, parties: u32) -> Figure
    ensures { TellsWords buckets slots parties result }
{
    match FileGeometry::of(buckets, slots, parties) {
        Some(geometry) => Figure::of(geometry.words()),
        None => Figure::refusal(code::INVALID_ARGUMENT),
    }
}

/// Makes the words of a file, all of which are 0, in a handle that has to be empty. The region of `size` bytes at `start` is cut
/// into buckets of `bucket_size` bytes at multiples of `bucket_align`, and has to have room for all of them. The first request for
/// memory is for a list of zeros of the row's size, and the second is for the row.
#[unsafe(no_mangle)]
pub extern "C" fn file_table_init(
    alloc: Global,
    handle: &mut FileTableHandle,
    bucket_size: usize,
    bucket_align: usize,
    start: usize,
    size: usize,
    buckets: u32,
    slots: u32,
    parties: u32,
) -> u32
    ensures { AnswersPoolMake handle.old.value handle.new.value bucket_size bucket_align result
        (cutting_file (region_at start size) buckets slots parties) }
{
    if call::is_made(handle) {
        return code::ALREADY_INITIALIZED;
    }
    let cut = cut_file(
        bucket_size,
        bucket_align,
        start,
        size,
        buckets,
        slots,
        parties,
    );
    let (bucket, geometry) = match cut {
        Ok(cut) => cut,
        Err(code) => return code,
    };
    let Ok(table) = FileTable::of_zeros(alloc, geometry.words(), geometry) else {
        return code::MALLOC_REFUSED;
    };
    let file = OpenFile {
        table,
        bucket,
        start,
        size,
    };
    call::keep(handle, alloc, file)
}

/// Empties the handle of the words of a file. The words exist as long as one of the parties does.
#[unsafe(no_mangle)]
pub extern "C" fn file_table_abandon(alloc: Global, handle: &mut FileTableHandle) -> u32
    ensures { AnswersFree handle.old.value handle.new.value result }
{
    call::free(handle, alloc)
}

/// Joins as this number, whose lock the caller has just taken, in a handle that has to be empty. If memory runs out, it returns
/// `BB_MALLOC_REFUSED`, and the caller frees the lock right after. It returns `BB_NO_PARTY` if there is no such number or if the
/// number's life can't become greater, and `BB_PARTIES_JOINED` if no more parties can be counted: then the caller keeps the lock.
#[unsafe(no_mangle)]
pub extern "C" fn file_party_join(
    alloc: Global,
    handle: &mut FileTableHandle,
    number: u32,
    depth: u32,
    party: &mut FilePartyHandle,
) -> u32
    ensures { AnswersJoin handle.old.value handle.new.value party.old.value party.new.value number depth result }
{
    if call::is_made(party) {
        return code::ALREADY_INITIALIZED;
    }
    let Some(file) = handle.made_mut() else {
        return code::UNINITIALIZED;
    };
    let joined = match file.join(alloc, number, depth) {
        Ok(joined) => joined,
        Err(code) => return code,
    };
    party.put(joined);
    code::OK
}

/// Makes a party leave and empties its handle: frees what the party holds, and counts its number's life. Returns how many buckets
/// were freed. The caller frees the number's lock right after.
#[unsafe(no_mangle)]
pub extern "C" fn file_party_leave(alloc: Global, handle: &mut FilePartyHandle) -> Figure
    ensures { AnswersLeave handle.old.value handle.new.value result }
{
    let Some(party) = handle.take(alloc) else {
        return Figure::refusal(code::UNINITIALIZED);
    };
    Figure::of(Box::into_inner(party).leave() as usize)
}

/// Settles this number, whose lock the caller has just taken and frees right after. If whoever had the number was killed and `dead`
/// is true, or has left and `left` is true, the call also frees what it has detached. Returns how many buckets were freed. It
/// returns `BB_NO_PARTY` and `BB_PARTIES_JOINED` as `file_party_join` does: then the caller keeps the lock.
#[unsafe(no_mangle)]
pub extern "C" fn file_reap(
    handle: &mut FileTableHandle,
    number: u32,
    dead: bool,
    left: bool,
) -> Figure
    ensures { Answers handle.old.value handle.new.value (result ≡ no_figure uninitialized)
        (λ file after. TellsReap file number dead left result × (after ≡ file)) }
{
    match handle.made_mut() {
        Some(file) => file.reap(number, dead, left),
        None => Figure::refusal(code::UNINITIALIZED),
    }
}

/// Frees each bucket that the party holds, in use or cached, except those of its messages, which are put back. The party stays.
/// Returns how many were freed.
#[unsafe(no_mangle)]
pub extern "C" fn file_party_give_all_back(handle: &mut FilePartyHandle) -> Figure
    ensures { Answers handle.old.value handle.new.value (result ≡ no_figure uninitialized)
        (λ party after. TellsFreed party result after) }
{
    match handle.made_mut() {
        Some(party) => Figure::of(party.give_all_back() as usize),
        None => Figure::refusal(code::UNINITIALIZED),
    }
}

/// Frees the bucket at this place, or caches it. The number is 1 if the bucket is free then, and 0 if the party caches it. If this
/// party has no bucket in use there, it returns `BB_NOT_HELD`, and if the party isn't done with the bucket's message,
/// `BB_FILE_NOT_DONE`. Nothing changes then.
#[unsafe(no_mangle)]
pub extern "C" fn bb_file_party_give_back(handle: &mut FilePartyHandle, place: usize) -> Figure
    ensures { Answers handle.old.value handle.new.value (result ≡ no_figure uninitialized)
        (λ party after. TellsDeallocate party place result after) }
{
    match handle.made_mut() {
        Some(party) => party.deallocate(place),
        None => Figure::refusal(code::UNINITIALIZED),
    }
}

/// Frees the buckets at these places, as that many calls of `bb_file_party_give_back` do, up to the first one that is refused. Returns
/// how many it freed.
#[unsafe(no_mangle)]
pub extern "C" fn file_party_deallocate_many(
    handle: &mut FilePartyHandle,
    places: &[usize],
) -> Figure
    ensures { AnswersReturns handle.old.value handle.new.value places.now result MayFree GivesBack }
{
    call::give_back_many(handle, places)
}

/// Posts the bucket at this place, which the party has in use, with a message of `len` bytes, in a slot of a file of single slots.
/// The party doesn't hold the bucket then. If several of these errors apply, the first one is returned: `BB_INVALID_ARGUMENT` if
/// there is no such slot, or if the file has queues, `BB_NOT_HELD` and `BB_FILE_NOT_DONE` as `bb_file_party_give_back` does,
/// `BB_SIZE_TOO_LARGE` if `len` is greater than a bucket's size or than `UINT32_MAX`, and `BB_DETACHED_FULL` if the slot is full.
#[unsafe(no_mangle)]
pub extern "C" fn file_post(
    handle: &mut FilePartyHandle,
    slot: u32,
    place: usize,
    len: usize,
) -> PostedMessage
    ensures { Answers handle.old.value handle.new.value (result ≡ posted_as uninitialized)
        (λ party after. TellsPost (HasSingle party slot) (PostsSingle party slot) party place len result after) }
{
    match handle.made_mut() {
        Some(party) => party.post(slot, place, len),
        None => PostedMessage::of(code::UNINITIALIZED),
    }
}

/// Posts the bucket at this place as `file_post` does, but in a queue. It returns `BB_INVALID_ARGUMENT` if there is no such queue, or
/// if the file has single slots. If other senders were faster, the code is `BB_DETACHED_FULL`, and the caller may try again.
#[unsafe(no_mangle)]
pub extern "C" fn file_send(
    handle: &mut FilePartyHandle,
    queue: u32,
    place: usize,
    len: usize,
) -> PostedMessage
    ensures { Answers handle.old.value handle.new.value (result ≡ posted_as uninitialized)
        (λ party after. TellsPost (HasQueue party queue) (PostsQueued party queue) party place len result after) }
{
    match handle.made_mut() {
        Some(party) => party.send(queue, place, len),
        None => PostedMessage::of(code::UNINITIALIZED),
    }
}

/// Takes the message in this slot of a file of single slots: the party holds its bucket then. If several parties call it, at most
/// one gets the message. It returns `BB_INVALID_ARGUMENT` if there is no such slot, or if the file has queues, `BB_DETACHED_EMPTY`
/// if the slot is empty, `BB_NOT_HELD` if the message isn't sent, and `BB_NOT_A_BUCKET` if what is in the slot is none that a message
/// of the file has.
#[unsafe(no_mangle)]
pub extern "C" fn file_take(handle: &mut FilePartyHandle, slot: u32) -> Message
    ensures { Answers handle.old.value handle.new.value (result ≡ no_message uninitialized)
        (λ party after. TellsMessage (HasSingle party slot) (TakesSingle party slot) party result after) }
{
    match handle.made_mut() {
        Some(party) => party.take_single(slot),
        None => Message::refusal(code::UNINITIALIZED),
    }
}

/// Takes a message in this queue as `file_take` does from a single slot. It returns `BB_INVALID_ARGUMENT` if there is no such queue,
/// or if the file has single slots.
#[unsafe(no_mangle)]
pub extern "C" fn file_receive(handle: &mut FilePartyHandle, queue: u32) -> Message
    ensures { Answers handle.old.value handle.new.value (result ≡ no_message uninitialized)
        (λ party after. TellsMessage (HasQueue party queue) (TakesQueued party queue) party result after) }
{
    match handle.made_mut() {
        Some(party) => party.receive(queue),
        None => Message::refusal(code::UNINITIALIZED),
    }
}

/// Empties the slot whose message this party has taken. The party goes on holding the bucket. It returns `BB_INVALID_ARGUMENT` if
/// there is no such slot, and `BB_NOT_HELD` if the slot has no message that the party has taken and isn't done with.
#[unsafe(no_mangle)]
pub extern "C" fn file_done(handle: &mut FilePartyHandle, slot: u32) -> u32
    ensures { Answers handle.old.value handle.new.value (result ≡ uninitialized)
        (λ party after. TellsDone party slot result after) }
{
    match handle.made_mut() {
        Some(party) => party.done(slot),
        None => code::UNINITIALIZED,
    }
}

/// Empties the slot of the message in the bucket at this place, which the party has taken, and returns the slot. The party goes on
/// holding the bucket. It returns `BB_NOT_HELD` if the party has no message there with which it isn't done, and `BB_NOT_A_BUCKET` if
/// no slot has the bucket.
#[unsafe(no_mangle)]
pub extern "C" fn file_done_with(handle: &mut FilePartyHandle, place: usize) -> Figure
    ensures { Answers handle.old.value handle.new.value (result ≡ no_figure uninitialized)
        (λ party after. TellsDoneWith party place result after) }
{
    match handle.made_mut() {
        Some(party) => party.done_with(place),
        None => Figure::refusal(code::UNINITIALIZED),
    }
}

/// Detaches the bucket at this place, and returns its number. If the party isn't done with the bucket's message, the message is put
/// back instead. If this party has no bucket in use there, it returns `BB_NOT_HELD`, and if the message can't be put back,
/// `BB_NOT_A_BUCKET`.
#[unsafe(no_mangle)]
pub extern "C" fn file_detach(handle: &mut FilePartyHandle, place: usize) -> DetachedNumber
    ensures { Answers handle.old.value handle.new.value (result ≡ none_detached uninitialized)
        (λ party after. TellsDetach party place result after) }
{
    match handle.made_mut() {
        Some(party) => party.detach(place),
        None => DetachedNumber::refusal(code::UNINITIALIZED),
    }
}

/// Attaches the bucket of this number, if a party has detached it and it is in no slot: this party holds it then. Returns its place.
/// If no bucket has the number, it returns `BB_NOT_A_BUCKET`, and otherwise `BB_NOT_HELD`.
#[unsafe(no_mangle)]
pub extern "C" fn file_attach(handle: &mut FilePartyHandle, number: u32) -> Answer
    ensures { Answers handle.old.value handle.new.value (result ≡ refused uninitialized)
        (λ party after. TellsAttach party number result after) }
{
    match handle.made_mut() {
        Some(party) => party.attach(number),
        None => Answer::refusal(code::UNINITIALIZED),
    }
}

/// Returns the flag of the bucket of this number, as one load found it. If there is no such bucket, it is free. Others may call
/// meanwhile.
#[unsafe(no_mangle)]
pub extern "C" fn file_flag(handle: &mut FileTableHandle, bucket: u32) -> ShownFlag
    ensures { Answers handle.old.value handle.new.value (result ≡ shown_flag Free)
        (λ file after. TellsFlag file bucket result after) }
{
    match handle.made_mut() {
        Some(file) => file.flag(bucket),
        None => ShownFlag::of(FileFlag::Free),
    }
}

/// Returns the word of this slot, as one load found it. If there is no such slot, it is empty. Others may call meanwhile.
#[unsafe(no_mangle)]
pub extern "C" fn file_slot(handle: &mut FileTableHandle, slot: u32) -> ShownSlot
    ensures { Answers handle.old.value handle.new.value (result ≡ shown_slot (Empty 0))
        (λ file after. TellsSlot file slot result after) }
{
    match handle.made_mut() {
        Some(file) => file.slot(slot),
        None => ShownSlot::of(Slot::Empty { lap: 0 }),
    }
}

/// Returns the entry of the bucket of this number, as one load found it. If there is no such bucket, it is in no slot. Others may
/// call meanwhile.
#[unsafe(no_mangle)]
pub extern "C" fn file_entry(handle: &mut FileTableHandle, bucket: u32) -> ShownEntry
    ensures { Answers handle.old.value handle.new.value (result ≡ shown_entry Nowhere)
        (λ file after. TellsEntry file bucket result after) }
{
    match handle.made_mut() {
        Some(file) => file.entry(bucket),
        None => ShownEntry::of(Entry::Nowhere),
    }
}

/// Returns the life of the party of this number, as one load found it. If there is no such party, it is 0. Others may call
/// meanwhile.
#[unsafe(no_mangle)]
pub extern "C" fn file_life(handle: &mut FileTableHandle, party: u32) -> u64
    ensures { Answers handle.old.value handle.new.value (result ≡ 0)
        (λ file after. TellsLife file party result after) }
{
    match handle.made_mut() {
        Some(file) => file.life(party),
        None => 0,
    }
}

/// Allocates a chunk of `size` bytes at a multiple of `align`, in the bucket that the party cached last, otherwise in one that a
/// search from the party's hint finds.
#[unsafe(no_mangle)]
pub extern "C" fn bb_file_party_allocate(
    handle: &mut FilePartyHandle,
    size: usize,
    align: usize,
) -> Answer
    ensures { AnswersRequest handle.old.value handle.new.value size align result GivesChunk }
{
    call::request_bucket(handle, size, align)
}

/// Takes a whole bucket: the one that the party cached last, otherwise one that a search from the party's hint finds.
#[unsafe(no_mangle)]
pub extern "C" fn bb_file_party_take(handle: &mut FilePartyHandle) -> Answer
    ensures { AnswersTake handle.old.value handle.new.value result (λ party. GivesChunk party party.places.bucket) }
{
    call::take(handle)
}

/// Takes whole buckets, as that many calls of `bb_file_party_take` do, until each slot has a bucket's place or a call is refused.
/// Returns how many buckets it took. Their places are in the first slots.
#[unsafe(no_mangle)]
pub extern "C" fn bb_file_party_take_many(
    handle: &mut FilePartyHandle,
    slots: &mut [usize],
) -> Figure
    ensures { AnswersTakings handle.old.value handle.new.value slots.old slots.new result
        (λ party. GivesChunk party party.places.bucket) }
{
    call::take_many(handle, slots)
}

/// Has the party cache at most `most` of the buckets that it gives back, and never more than the file has, for its next requests.
/// The buckets that it caches already are given back first. A cached bucket stays held, so other parties are refused if each bucket
/// is cached or in use.
#[unsafe(no_mangle)]
pub extern "C" fn bb_file_party_cache(alloc: Global, handle: &mut FilePartyHandle, most: u32) -> u32
    ensures { Answers handle.old.value handle.new.value (result ≡ uninitialized)
        (λ party after. TellsCache party most result after) }
{
    match handle.made_mut() {
        Some(party) => party.cache(alloc, most),
        None => code::UNINITIALIZED,
    }
}

/// Gives back the buckets that the party caches.
#[unsafe(no_mangle)]
pub extern "C" fn bb_file_party_flush(handle: &mut FilePartyHandle) -> u32
    ensures { Answers handle.old.value handle.new.value (result ≡ uninitialized)
        (λ party after. TellsFlush party result after) }
{
    let Some(party) = handle.made_mut() else {
        return code::UNINITIALIZED;
    };
    party.flush();
    code::OK
}

/// Fills the struct with the figures of the file's pool, and with how many buckets this party has in use: holds, and doesn't cache.
#[unsafe(no_mangle)]
pub extern "C" fn bb_file_party_info(handle: &mut FilePartyHandle, to: &mut SharedPoolInfo) -> u32
    ensures { AnswersInfo handle.old.value handle.new.value to.old to.new result ShowsParty }
{
    call::info(handle, to)
}

/// Returns 1 if a bucket that this party has in use begins at this place, otherwise 0.
#[unsafe(no_mangle)]
pub extern "C" fn bb_file_party_holds(handle: &mut FilePartyHandle, place: usize) -> Figure
    ensures { AnswersWhether handle.old.value handle.new.value result (λ party. HoldsPlace party place) }
{
    call::holds(handle, place)
}

/// Returns the number by which the file's flags name this party.
#[unsafe(no_mangle)]
pub extern "C" fn bb_file_party_number(handle: &mut FilePartyHandle) -> Figure
    ensures { Answers handle.old.value handle.new.value (result ≡ no_figure uninitialized)
        (λ party after. (result ≡ figure_of (number_of party)) × (after ≡ party)) }
{
    match handle.made_mut() {
        Some(party) => Figure::of(party.number() as usize),
        None => Figure::refusal(code::UNINITIALIZED),
    }
}

/// Returns the number of the bucket at this place, held or not, or `BB_NOT_A_BUCKET` if no bucket begins there.
#[unsafe(no_mangle)]
pub extern "C" fn bb_file_party_number_at(handle: &mut FilePartyHandle, place: usize) -> Figure
    ensures { AnswersNumber handle.old.value handle.new.value result place (λ party. party.places) }
{
    call::number(handle, place)
}

/// Returns where the bucket of this number begins, held or not, or `BB_NOT_A_BUCKET` if there is no such bucket.
#[unsafe(no_mangle)]
pub extern "C" fn bb_file_party_place_at(handle: &mut FilePartyHandle, number: u32) -> Figure
    ensures { AnswersPlace handle.old.value handle.new.value result number (λ party. party.places) }
{
    call::place(handle, number)
}
