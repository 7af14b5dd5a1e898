//! A party of a file, and the words that the parties share, as kinds.
ghost use Rattle.bb_memory_c.specs.Files.{Becomes, Fits, GivesBack, GivesChunk, GivesUp, HasBucketOf, HasNoParty, HasQueue, HasSingle, HoldsPlace, IsNoted, IsNotedAt, IsOpen, IsPlaced, JoinedFile, JoinsAt, LeavesFrom, MayFree, MayNotPost, MissesFirstAt, OpenFile, PostsQueued, PostsSingle, ShowsParty, TakesQueued, TakesSingle, TellsAttach, TellsCache, TellsDeallocate, TellsDetach, TellsDone, TellsDoneWith, TellsEntry, TellsFlag, TellsJoin, TellsLife, TellsMessage, TellsPost, TellsReap, TellsSlot, cutting_file, fresh_of, message_of, number_of, size_of};
ghost use Rattle.bb_memory_c_calls.specs.Calls.{FailsOf, IsOf, LacksRoomOf};
ghost use Rattle.bb_memory_c_calls.specs.declared.code.TheConstants.{FILE_NOT_DONE as file_not_done, INVALID_ARGUMENT as invalid_argument, INVALID_LAYOUT as invalid_layout, MALLOC_REFUSED as malloc_refused, NOT_HELD as not_held, NO_BUCKET as no_bucket, NO_PARTY as no_party, OK as ok, PARTIES_JOINED as parties_joined};
ghost use Rattle.bb_memory_file.specs.FileFormat.{IsGeometry, geometry_of, words_of};
ghost use Rattle.bb_memory_file.specs.FileNotes.{AreCached, Flushes, GivesAllBack};
ghost use Rattle.bb_memory_file.specs.FileParties.{log_of};
ghost use Rattle.bb_memory_file.specs.declared.joined.Note.TheVariants.{InUse, Undone};
ghost use Rattle.bb_memory_traits.specs.Chunk.{region_at};
ghost use Rattle.bb_memory_traits.specs.PoolObject.{bucket_place};
ghost use Rattle.std.specs.Align.{IsLayout};
ghost use Rattle.std.specs.Prelude.{Err, IfErr, IfNone, IfOk, IfSome, IsTrue, None, Some, length, slice_get, ℕ, ◌<◌, ◌↔◌, ◌≡◌, ◌≢◌, ◌≤◌};

use crate::file_answer::{
    DetachedNumber, Message, PostedMessage, ShownEntry, ShownFlag, ShownSlot,
};
use bb_memory_c_calls::answer::{Answer, Figure, SharedPoolInfo};
use bb_memory_c_calls::code;
use bb_memory_c_calls::kind::{Bucketed, Gives, Keeps};
use bb_memory_c_calls::layout::{cut_into, layout_of};
use bb_memory_file::geometry::FileGeometry;
use bb_memory_file::joined;
use bb_memory_file::joined::{Joined, Note, Refusal, Taken};
use bb_memory_file::party::FileParty;
use bb_memory_file::queues::Sending;
use bb_memory_file::table::FileTable;
use bb_memory_file_machine::steps::{Entry, FileFlag, Slot};
use bb_memory_pool_machine::hint::Hint;
use bb_memory_traits::allocator::AllocationError;
use bb_memory_traits::geometry::Geometry;
use bb_memory_traits::layout::{Chunk, Layout};
use std::alloc::Global;
use std::marker::Model;

/// A party of a file that has joined, and where this process has the buckets. A gap keeps what different parties write on separate
/// cache lines.
#[derive(Drop)]
pub struct JoinedFile {
    party: Joined<FileParty>,
    places: Geometry,
    gap: [u64; 16],
}

impl Model for JoinedFile {
    ghost use Rattle.bb_memory_c.specs.Files.{IsPlaced, JoinedFile};

    ghost Value = { JoinedFile };

    ghost view = { λ f. record { party = f.party; places = f.places } };

    ghost invariant = { λ f. IsPlaced f.party f.places };
}

impl JoinedFile {
    /// Proof hint: brings into scope what holds for every party.
    #[inline(always)]
    fn invariant(&self)
        ensures noted { length self.now.party.notes ≡ self.now.places.buckets }
        ensures cached { AreCached self.now.party.notes self.now.party.cached }
    {
        let _ = self.party.buckets();
        let _ = self.party.number_of_cached();
    }

    /// Returns the number of the bucket at this place. If no bucket begins there, the party has none in use there.
    #[inline(always)]
    fn numbered(&self, place: usize) -> Option<u32>
        ensures below { IfSome result (λ number. number < length self.now.party.notes) }
        ensures there { IfSome result (λ number. place ≡ bucket_place self.now.places number) }
        ensures one { IfSome result (λ number. (other : ℕ)
            → place ≡ bucket_place self.now.places other → other ≡ number) }
        ensures none { IfNone result (¬ HoldsPlace self.now place) }
    {
        self.invariant();
        self.places.number_at(place)
    }

    /// Returns the number of the bucket at this place, which the party has in use and which is in no slot, or the code of the reason
    /// why there is none.
    #[inline(always)]
    fn in_use_at(&self, place: usize) -> Result<u32, u32>
        ensures there { IfOk result (λ number. IsNoted self.now place number InUse) }
        ensures done { IfOk result (λ number. ¬ IsNotedAt self.now place Undone) }
        ensures refused { IfErr result (λ code. ¬ MayFree self.now place) }
        ensures not_held { IfErr result (λ code. code ≢ file_not_done
            → (code ≡ not_held) × (¬ HoldsPlace self.now place)) }
        ensures not_done { IfErr result (λ code. code ≡ file_not_done → IsNotedAt self.now place Undone) }
    {
        self.invariant();
        let Some(number) = self.numbered(place) else {
            return Err(self.refusal_at(place));
        };
        if let Note::InUse = self.party.note_of(number) {
            return Ok(number);
        }
        Err(self.refusal_at(place))
    }

    /// Returns the code of the reason why the party has no bucket in use at this place that is in no slot.
    #[inline(never)]
    fn refusal_at(&self, place: usize) -> u32
        ensures not_held { ¬ MayFree self.now place → result ≢ file_not_done
            → (result ≡ not_held) × (¬ HoldsPlace self.now place) }
        ensures not_done { result ≡ file_not_done → IsNotedAt self.now place Undone }
    {
        self.invariant();
        let Some(number) = self.numbered(place) else {
            return code::NOT_HELD;
        };
        match self.party.note_of(number) {
            Note::Undone => code::FILE_NOT_DONE,
            _ => code::NOT_HELD,
        }
    }

    /// Gives back the bucket at this place. The number is 1 if the bucket is free then, and 0 if the party caches it.
    #[inline(always)]
    pub(crate) fn deallocate(&mut self, place: usize) -> Figure
        ensures { TellsDeallocate self.old place result self.new }
    {
        match self.in_use_at(place) {
            Ok(number) => {
                let is_free = self.party.give_back(number);
                let free = if is_free { 1 } else { 0 };
                Figure::of(free)
            }
            Err(code) => Figure::refusal(code),
        }
    }

    /// Has the party cache at most `most` buckets. What it caches already is given back first.
    pub(crate) fn cache(&mut self, alloc: Global, most: u32) -> u32
        ensures { TellsCache self.old most result self.new }
    {
        match self.party.cache(alloc, most) {
            Ok(()) => code::OK,
            Err(_) => code::MALLOC_REFUSED,
        }
    }

    /// Gives back the buckets that the party caches.
    pub(crate) fn flush(&mut self)
        ensures { Becomes (Flushes log_of) self.old self.new }
    {
        self.party.flush();
    }

    /// Returns the party's number.
    pub(crate) fn number(&self) -> u32
        ensures { result ≡ number_of self.now }
    {
        self.party.number()
    }

    /// Gives back each bucket that the party holds, and returns how many were freed.
    pub(crate) fn give_all_back(&mut self) -> u32
        ensures { Becomes (λ old new. GivesAllBack log_of old result new) self.old self.new }
    {
        self.party.give_all_back()
    }

    /// Leaves. Returns how many buckets were freed.
    pub(crate) fn leave(self) -> u32
        ensures { LeavesFrom (log_of self.party.words) result }
    {
        let JoinedFile { party, .. } = self;
        party.leave()
    }

    /// Returns whether the slots of the file are single, and this is one of them.
    #[inline(always)]
    fn has_single(&self, slot: u32) -> bool
        ensures { IsTrue result ↔ HasSingle self.now slot }
    {
        self.party.depth() == 1 && slot < self.party.slots()
    }

    /// Returns whether the file has this queue.
    #[inline(always)]
    fn has_queue(&self, queue: u32) -> bool
        ensures { IsTrue result ↔ HasQueue self.now queue }
    {
        queue < self.party.queues()
    }

    /// Returns the number of the bucket at this place, which the party may post with a message of `len` bytes, or the code of the
    /// reason why it may not.
    #[inline(always)]
    fn to_post(&self, place: usize, len: usize) -> Result<u32, u32>
        ensures there { IfOk result (λ number. IsNoted self.now place number InUse) }
        ensures done { IfOk result (λ number. ¬ IsNotedAt self.now place Undone) }
        ensures fits { IfOk result (λ number. Fits self.now len) }
        ensures refused { IfErr result (λ code. MayNotPost self.now place len code) }
    {
        let number = self.in_use_at(place)?;
        if len > self.places.bucket().size() || len > u32::MAX as usize {
            return Err(code::SIZE_TOO_LARGE);
        }
        Ok(number)
    }

    /// Posts the bucket at this place, with a message of `len` bytes, in a single slot.
    pub(crate) fn post(&mut self, slot: u32, place: usize, len: usize) -> PostedMessage
        ensures { TellsPost (HasSingle self.old slot) (PostsSingle self.old slot) self.old place len
            result self.new }
    {
        if !self.has_single(slot) {
            return PostedMessage::of(code::INVALID_ARGUMENT);
        }
        let number = match self.to_post(place, len) {
            Ok(number) => number,
            Err(code) => return PostedMessage::of(code),
        };
        self.post_single(slot, number, len as u32)
    }

    /// Posts a bucket that the party has in use in a single slot.
    #[inline(always)]
    fn post_single(&mut self, slot: u32, number: u32, length: u32) -> PostedMessage
        requires slot { HasSingle self.old slot }
        requires noted { slice_get self.old.party.notes number ≡ Some InUse }
        ensures { PostsSingle self.old slot number length result self.new }
    {
        match self.party.post(slot, number, length) {
            Ok(true) => PostedMessage::of(code::OK),
            Ok(false) => PostedMessage::of(code::DETACHED_FULL),
            Err(_) => PostedMessage::of(code::NOT_HELD),
        }
    }

    /// Posts the bucket at this place, with a message of `len` bytes, in a queue.
    pub(crate) fn send(&mut self, queue: u32, place: usize, len: usize) -> PostedMessage
        ensures { TellsPost (HasQueue self.old queue) (PostsQueued self.old queue) self.old place len
            result self.new }
    {
        if !self.has_queue(queue) {
            return PostedMessage::of(code::INVALID_ARGUMENT);
        }
        let number = match self.to_post(place, len) {
            Ok(number) => number,
            Err(code) => return PostedMessage::of(code),
        };
        self.send_queued(queue, number, len as u32)
    }

    /// Posts a bucket that the party has in use in a queue.
    #[inline(always)]
    fn send_queued(&mut self, queue: u32, number: u32, length: u32) -> PostedMessage
        requires queue { HasQueue self.old queue }
        requires noted { slice_get self.old.party.notes number ≡ Some InUse }
        ensures { PostsQueued self.old queue number length result self.new }
    {
        match self.party.send(queue, number, length) {
            Ok(Sending::Sent { slot: _ }) => PostedMessage::of(code::OK),
            Ok(Sending::Full) => PostedMessage::of(code::DETACHED_FULL),
            Ok(Sending::Overtaken) => PostedMessage::overtaken(),
            Err(_) => PostedMessage::of(code::NOT_HELD),
        }
    }

    /// Takes the message in a single slot.
    pub(crate) fn take_single(&mut self, slot: u32) -> Message
        ensures { TellsMessage (HasSingle self.old slot) (TakesSingle self.old slot) self.old result self.new }
    {
        self.invariant();
        if !self.has_single(slot) {
            return Message::refusal(code::INVALID_ARGUMENT);
        }
        let size = self.size();
        let taken = self.party.take(slot, size);
        self.message_of(taken)
    }

    /// Takes a message from a queue.
    pub(crate) fn receive(&mut self, queue: u32) -> Message
        ensures { TellsMessage (HasQueue self.old queue) (TakesQueued self.old queue) self.old result self.new }
    {
        self.invariant();
        if !self.has_queue(queue) {
            return Message::refusal(code::INVALID_ARGUMENT);
        }
        let size = self.size();
        let taken = self.party.receive(queue, size);
        self.message_of(taken)
    }

    /// Returns the size of a bucket, or the greatest length of a message if that is less.
    #[inline(always)]
    fn size(&self) -> u32
        ensures { result ≡ size_of self.now }
    {
        self.places.bucket().size().min(u32::MAX as usize) as u32
    }

    /// Returns C's answer to the taking of a message.
    #[inline(always)]
    fn message_of(&self, taken: Taken) -> Message
        requires { HasBucketOf self.now taken }
        ensures { result ≡ message_of self.now.places taken }
    {
        match taken {
            Taken::Empty => Message::refusal(code::DETACHED_EMPTY),
            Taken::NotSent => Message::refusal(code::NOT_HELD),
            Taken::Wrong => Message::refusal(code::NOT_A_BUCKET),
            Taken::Message { bucket, length } => Message {
                code: code::OK,
                number: bucket,
                place: self.places.chunk(bucket as usize, 0).place(),
                len: length as usize,
            },
        }
    }

    /// Says that the party is done with the message in a single slot.
    pub(crate) fn done(&mut self, slot: u32) -> u32
        ensures { TellsDone self.old slot result self.new }
    {
        if !self.has_single(slot) {
            return code::INVALID_ARGUMENT;
        }
        if self.party.done(slot) {
            code::OK
        } else {
            code::NOT_HELD
        }
    }

    /// Says that the party is done with the message in the bucket at this place, and returns the slot that it has emptied.
    pub(crate) fn done_with(&mut self, place: usize) -> Figure
        ensures { TellsDoneWith self.old place result self.new }
    {
        let Some(number) = self.numbered(place) else {
            return Figure::refusal(code::NOT_HELD);
        };
        match self.party.done_with(number) {
            Ok(slot) => Figure::of(slot as usize),
            Err(Refusal::NotHeld) => Figure::refusal(code::NOT_HELD),
            Err(Refusal::NotDone) => Figure::refusal(code::NOT_A_BUCKET),
            Err(Refusal::NotABucket) => Figure::refusal(code::NOT_A_BUCKET),
        }
    }

    /// Detaches the bucket at this place, or puts back its message.
    pub(crate) fn detach(&mut self, place: usize) -> DetachedNumber
        ensures { TellsDetach self.old place result self.new }
    {
        let Some(number) = self.numbered(place) else {
            return DetachedNumber::refusal(code::NOT_HELD);
        };
        match self.party.detach(number) {
            Ok(None) => DetachedNumber::detached(number),
            Ok(Some(slot)) => DetachedNumber::put_back(number, slot),
            Err(Refusal::NotHeld) => DetachedNumber::refusal(code::NOT_HELD),
            Err(Refusal::NotDone) => DetachedNumber::refusal(code::NOT_A_BUCKET),
            Err(Refusal::NotABucket) => DetachedNumber::refusal(code::NOT_A_BUCKET),
        }
    }

    /// Attaches the bucket of this number.
    pub(crate) fn attach(&mut self, number: u32) -> Answer
        ensures { TellsAttach self.old number result self.new }
    {
        self.invariant();
        match self.party.attach(number) {
            Ok(true) => Answer {
                code: code::OK as usize,
                place: self.places.chunk(number as usize, 0).place(),
            },
            Ok(false) => Answer::refusal(code::NOT_HELD),
            Err(_) => Answer::refusal(code::NOT_A_BUCKET),
        }
    }
}

impl Gives<SharedPoolInfo> for JoinedFile {
    ghost may_give = { GivesChunk };

    ghost may_show = { ShowsParty };

    #[inline(always)]
    fn give(&mut self, layout: Layout) -> Result<Chunk, AllocationError> {
        self.invariant();
        self.places.admit(layout)?;
        let Some(number) = self.party.allocate() else {
            return Err(AllocationError::OutOfMemory);
        };
        Ok(self.places.chunk(number as usize, layout.size()))
    }

    fn show(&mut self) -> SharedPoolInfo {
        let bucket = self.places.bucket();
        SharedPoolInfo {
            start_address: self.places.first(),
            size: self.places.region_size(),
            bucket_size: bucket.size(),
            max_alignment: bucket.align(),
            number_of_buckets: self.places.count() as usize,
            held_buckets: self.party.held() as usize,
        }
    }
}

impl Keeps for JoinedFile {
    ghost holds = { HoldsPlace };

    ghost may_free = { MayFree };

    ghost frees = { GivesBack };

    fn is_held(&mut self, place: usize) -> bool {
        let Some(number) = self.numbered(place) else {
            return false;
        };
        matches!(self.party.note(number), Some(Note::InUse | Note::Undone))
    }

    fn give_back(&mut self, place: usize) -> bool {
        self.deallocate(place).code == code::OK as usize
    }
}

impl Bucketed for JoinedFile {
    ghost geometry = { λ file. file.places };

    ghost may_take = { λ file. GivesChunk file file.places.bucket };

    ghost misses_first = { MissesFirstAt };

    #[inline(always)]
    fn take_first(&mut self) -> Option<Chunk> {
        self.invariant();
        let number = self.party.allocate_first()?;
        let len = self.places.bucket().size();
        Some(self.places.chunk(number as usize, len))
    }

    fn take_later(&mut self) -> Result<Chunk, AllocationError> {
        self.invariant();
        let Some(number) = self.party.allocate_later() else {
            return Err(AllocationError::OutOfMemory);
        };
        let len = self.places.bucket().size();
        Ok(self.places.chunk(number as usize, len))
    }

    fn limit(&self) -> Layout {
        self.places.bucket()
    }

    fn place_of(&self, number: u32) -> Option<usize> {
        self.places.place_at(number)
    }

    fn number_of(&self, place: usize) -> Option<u32> {
        self.places.number_at(place)
    }
}

/// The words of a file, and where this process has the buckets: in the region of `size` bytes at `start`.
#[derive(Drop)]
pub struct OpenFile {
    pub(crate) table: FileTable,
    pub(crate) bucket: Layout,
    pub(crate) start: usize,
    pub(crate) size: usize,
}

impl Model for OpenFile {
    ghost use Rattle.bb_memory_c.specs.Files.{IsOpen, OpenFile};
    ghost use Rattle.bb_memory_traits.specs.Chunk.{region_at};
    ghost use Rattle.bb_memory_traits.specs.PoolObject.{pool_geometry};

    ghost Value = { OpenFile };

    ghost view = { λ f. record {
      table = f.table;
      places = pool_geometry (region_at f.start f.size) f.bucket f.table.geometry.buckets;
    } };

    ghost invariant = { λ f. IsOpen f.table (region_at f.start f.size) f.bucket };
}

/// Returns the layout of a bucket and the geometry of a file with these numbers, if there is such a file whose buckets have room in
/// the region. Otherwise returns the code of the first reason why there is none.
pub(crate) fn cut_file(
    bucket_size: usize,
    bucket_align: usize,
    start: usize,
    size: usize,
    buckets: u32,
    slots: u32,
    parties: u32,
) -> Result<(Layout, FileGeometry), u32>
    ensures cut { IfOk result (λ cut. IsOf bucket_size bucket_align cut.0
        × (cutting_file (region_at start size) buckets slots parties).may cut.0
        × (cutting_file (region_at start size) buckets slots parties).room cut.0) }
    ensures geometry { IfOk result (λ cut. cut.1 ≡ geometry_of buckets slots parties) }
    ensures row { IfOk result (λ cut. IsGeometry cut.1 (words_of cut.1)) }
    ensures invalid_layout { (result ≡ Err invalid_layout) ↔ (¬ IsLayout bucket_size bucket_align) }
    ensures invalid_argument { (result ≡ Err invalid_argument)
        ↔ FailsOf bucket_size bucket_align (cutting_file (region_at start size) buckets slots parties).may }
    ensures no_bucket { (result ≡ Err no_bucket) ↔ LacksRoomOf bucket_size bucket_align
        (cutting_file (region_at start size) buckets slots parties).may
        (cutting_file (region_at start size) buckets slots parties).room }
    ensures others { IfErr result (λ code. code ≢ invalid_layout → code ≢ invalid_argument → code ≡ no_bucket) }
{
    let Some(geometry) = FileGeometry::of(buckets, slots, parties) else {
        return Err(match layout_of(bucket_size, bucket_align) {
            Some(_) => code::INVALID_ARGUMENT,
            None => code::INVALID_LAYOUT,
        });
    };
    let bucket = cut_into(bucket_size, bucket_align, start, size, parties)?;
    if Geometry::new(bucket, start, size).count() < buckets {
        return Err(code::NO_BUCKET);
    }
    Ok((bucket, geometry))
}

impl OpenFile {
    /// Returns where the buckets are.
    fn places(&self) -> Geometry
        ensures { result ≡ self.now.places }
    {
        let buckets = self.table.geometry().buckets;
        Geometry::cut_at_most(self.bucket, self.start, self.size, buckets)
    }

    /// Makes a party of this number, whose log is empty. Returns `BB_NO_PARTY` if there is no such number, and `BB_PARTIES_JOINED` if
    /// no more parties can be counted.
    fn party(&self, number: u32) -> Result<FileParty, u32>
        ensures fresh { IfOk result (λ party. log_of party ≡ fresh_of self.now number) }
        ensures none_such { (result ≡ Err no_party) ↔ (self.now.table.geometry.parties ≤ number) }
        ensures no_other { IfErr result (λ code. code ≢ no_party → code ≡ parties_joined) }
    {
        if number >= self.table.geometry().parties {
            return Err(code::NO_PARTY);
        }
        match self.table.party(number) {
            Some(party) => Ok(party),
            None => Err(code::PARTIES_JOINED),
        }
    }

    /// Joins as this number, whose lock the caller has just taken. The file's slots are queues of this depth; 0 counts as 1.
    pub(crate) fn join(
        &self,
        alloc: Global,
        number: u32,
        depth: u32,
    ) -> Result<Box<JoinedFile>, u32>
        ensures joins { IfOk result (λ joined. JoinsAt self.now number depth joined.value) }
        ensures none_such { self.now.table.geometry.parties ≤ number → result ≡ Err no_party }
        ensures over { result ≡ Err no_party → HasNoParty self.now number }
        ensures no_memory { result ≡ Err malloc_refused → GivesUp (fresh_of self.now number) }
        ensures no_other { IfErr result (λ code. code ≢ no_party → code ≢ malloc_refused → code ≡ parties_joined) }
    {
        let words = match self.party(number) {
            Ok(words) => words,
            Err(code) => return Err(code),
        };
        let geometry = self.table.geometry();
        let hint = Hint::first(
            geometry.buckets,
            geometry.parties,
            self.bucket.size(),
            number,
        );
        let party = match Joined::join(words, alloc, hint, depth.max(1)) {
            Ok(Ok(party)) => party,
            Ok(Err(_)) => return Err(code::NO_PARTY),
            Err(_) => return Err(code::MALLOC_REFUSED),
        };
        let joined = JoinedFile {
            party,
            places: self.places(),
            gap: [0; 16],
        };
        match Box::new(alloc, joined) {
            Ok(joined) => Ok(joined),
            Err(refused) => {
                refused.value.leave();
                Err(code::MALLOC_REFUSED)
            }
        }
    }

    /// Settles this number, whose lock the caller has just taken.
    pub(crate) fn reap(&self, number: u32, dead: bool, left: bool) -> Figure
        ensures { TellsReap self.now number dead left result }
    {
        let words = match self.party(number) {
            Ok(words) => words,
            Err(code) => return Figure::refusal(code),
        };
        match joined::reap(words, dead, left) {
            Ok(freed) => Figure::of(freed as usize),
            Err(_) => Figure::refusal(code::NO_PARTY),
        }
    }

    /// Loads the flag of the bucket of this number. If there is none, it is free.
    pub(crate) fn flag(&mut self, bucket: u32) -> ShownFlag
        ensures { TellsFlag self.old bucket result self.new }
    {
        if bucket >= self.table.geometry().buckets {
            return ShownFlag::of(FileFlag::Free);
        }
        ShownFlag::of(self.table.flag(bucket))
    }

    /// Loads the word of this slot. If there is none, it is empty.
    pub(crate) fn slot(&mut self, slot: u32) -> ShownSlot
        ensures { TellsSlot self.old slot result self.new }
    {
        if slot >= self.table.geometry().slots {
            return ShownSlot::of(Slot::Empty { lap: 0 });
        }
        ShownSlot::of(self.table.slot(slot))
    }

    /// Loads the entry of the bucket of this number. If there is none, it is in no slot.
    pub(crate) fn entry(&mut self, bucket: u32) -> ShownEntry
        ensures { TellsEntry self.old bucket result self.new }
    {
        if bucket >= self.table.geometry().buckets {
            return ShownEntry::of(Entry::Nowhere);
        }
        ShownEntry::of(self.table.entry(bucket))
    }

    /// Loads the life of the party of this number. If there is none, it is 0.
    pub(crate) fn life(&mut self, party: u32) -> u64
        ensures { TellsLife self.old party result self.new }
    {
        if party >= self.table.geometry().parties {
            return 0;
        }
        self.table.life(party)
    }
}
