//! A party that has joined: the words of its file, and what it has noted of each bucket, so that a
//! call knows without a look at the file whether the party holds a bucket, and whether it is done with
//! the bucket's message. A party may cache the buckets that it gave back last for its next requests.
//!
//! The slots of a file are queues of one depth, and the party notes where it goes on at each of them. At
//! depth 1 each slot is single: it has no order to keep, and calls name the slot.
ghost use Rattle.bb_memory_file.specs.FileCalls.{IsLeave};
ghost use Rattle.bb_memory_file.specs.FileLog.{FileLog};
ghost use Rattle.bb_memory_file.specs.FileNotes.{Allocates, AreCached, Attaches, Caches, CachesAll, Deallocates, Detaches, Finishes, Flushes, FreesLast, GivesAllBack, InUse, IsDoneWith, IsRefusal, JoinedParty, Joins, JoinsNot, MissesFirst, Posts, Reaps, Receives, Returns, Sends, Takes, Undone, Unheld, no_ends, queues_of, used_in};
ghost use Rattle.bb_memory_file.specs.FileQueueCalls.{AllObey};
ghost use Rattle.std.specs.Prelude.{IfErr, IfNone, IfOk, IfSome, IsOk, IsTrue, Some, [], length, replicate, slice_get, vec_capacity, ℕ, ◌<◌, ◌↔◌, ◌≡◌, ◌≤◌};

use crate::calls::{Received, Whereabouts};
use crate::queues::{Position, Queue, Sending};
use crate::words::Words;
use crate::{calls, queues};
use bb_memory_file_machine::steps::Slot;
use bb_memory_pool_machine::hint::Hint;
use std::alloc::{AllocError, Global};
use std::marker::Model;

/// The number of notes that fill two cache lines.
const GAP: usize = 128;

/// The number of `u32` that fill two cache lines.
const CACHE_GAP: usize = 32;

/// A party's note of a bucket.
#[derive(Debug, Clone, Copy, PartialEq, Eq)]
pub enum Note {
    /// The party doesn't hold the bucket.
    Unheld,
    /// The party holds the bucket, which is in no slot, and caches it for its next requests.
    Cached,
    /// The party holds the bucket, which is in no slot.
    InUse,
    /// The party holds the bucket of a message, and isn't done with the message.
    Undone,
}

/// Why a call refuses a bucket.
#[derive(Debug, Clone, Copy, PartialEq, Eq)]
pub enum Refusal {
    /// The file has no bucket of this number.
    NotABucket,
    /// The party doesn't hold the bucket, or caches it.
    NotHeld,
    /// The bucket is in a slot, since the party isn't done with its message.
    NotDone,
}

/// The answer of `take`.
#[derive(Debug, Clone, Copy, PartialEq, Eq)]
pub enum Taken {
    /// The slot is empty.
    Empty,
    /// The slot's word, or its bucket's entry, is none that a message of this file has.
    Wrong,
    /// The bucket isn't sent: a party has the message already, or its sender hasn't finished.
    NotSent,
    /// The party has received this message, and holds its bucket. The length is in bytes.
    Message { bucket: u32, length: u32 },
}

/// Where a party goes on at a queue: a sender at the tail, and a receiver at the head. It is None if the
/// party hasn't been there.
#[derive(Debug, Clone, Copy, PartialEq, Eq)]
pub struct Ends {
    pub tail: Option<Position>,
    pub head: Option<Position>,
}

/// Returns the notes of a party that holds none of this many buckets. Each call of a party writes the
/// notes, and a gap after them keeps them off the cache lines that other threads' calls write.
fn notes_of(alloc: Global, buckets: u32) -> Result<Vec<Note>, AllocError>
    ensures { IfOk result (λ notes. notes.items ≡ replicate buckets Unheld) }
{
    let mut notes = Vec::from_elem(alloc, Note::Unheld, buckets as usize + GAP)?;
    notes.truncate(buckets as usize);
    Ok(notes)
}

/// Returns an empty list with room for `most` numbers and a gap after them, as that of the notes. If
/// `most` is 0, the list takes no memory.
fn list_of(alloc: Global, most: u32) -> Result<Vec<u32>, AllocError>
    ensures items { IfOk result (λ list. list.items ≡ []) }
    ensures room { IfOk result (λ list. most ≤ vec_capacity list) }
    ensures none { most ≡ 0 → IsOk result }
{
    let gap = if most == 0 { 0 } else { CACHE_GAP };
    Vec::with_capacity(alloc, most as usize + gap)
}

/// Returns how many queues of this depth a file of this many slots has. At depth 1 its slots are single.
fn queues_of(slots: u32, depth: u32) -> u32
    requires { 0 < depth }
    ensures { result ≡ queues_of slots depth }
{
    if depth == 1 { 0 } else { slots / depth }
}

/// Returns the ends of a party that has been at no queue, for a file whose slots are queues of this depth.
fn ends_of(alloc: Global, slots: u32, depth: u32) -> Result<Vec<Ends>, AllocError>
    requires { 0 < depth }
    ensures { IfOk result (λ ends. ends.items ≡ replicate (queues_of slots depth) no_ends) }
{
    let none = Ends {
        tail: None,
        head: None,
    };
    Vec::from_elem(alloc, none, queues_of(slots, depth) as usize)
}

/// Settles the number whose lock this process has just taken, and gives up the words: the caller frees
/// the lock right after. If whoever had the number was killed and `dead` is true, or has left and `left`
/// is true, also frees what it has detached. Returns how many buckets were freed.
///
/// Returns the words if the number's life can't become greater any more: then the process keeps the
/// lock.
pub fn reap<W: Words + Drop>(mut words: W, dead: bool, left: bool) -> Result<u32, W>
    requires { (W.log words).events ≡ [] }
    ensures { Reaps W.log W.unlocked words dead left result }
{
    let Some(freed) = calls::reap(&mut words, dead, left) else {
        return Err(words);
    };
    words.unlock();
    Ok(freed)
}

/// A party that has joined. It caches at most `most` of the buckets that it gave back last, and its next
/// requests take these buckets first, without an operation on the words.
///
/// A cached bucket stays held, so the other parties' requests fail if each bucket is cached or in use.
///
/// Whatever it does obeys the rules of each queue of its depth.
#[derive(Drop)]
pub struct Joined<W: Words + Drop> {
    words: W,
    notes: Vec<Note>,
    hint: Hint,
    cached: Vec<u32>,
    most: u32,
    depth: u32,
    ends: Vec<Ends>,
}

impl<W: Words + Drop> Model for Joined<W> {
    ghost use Rattle.bb_memory_file.specs.FileNotes.{AreCached, IsJoined, JoinedParty, KeepsQueues};
    ghost use Rattle.std.specs.Prelude.{length, vec_capacity, ◌<◌, ◌^◌, ◌≤◌};

    ghost Value = { JoinedParty W };

    ghost view = { λ p. record {
      words = p.words;
      notes = p.notes.items;
      hint = p.hint;
      cached = p.cached.items;
      most = p.most;
      depth = p.depth;
      ends = p.ends.items;
    } };

    ghost invariant = { λ p. IsJoined (W.log p.words) p.notes.items
        × AreCached p.notes.items p.cached.items
        × (length p.cached.items ≤ p.most) × (p.most ≤ vec_capacity p.cached)
        × (p.most < 2 ^ 32) × KeepsQueues (W.log p.words) p.depth p.ends.items };
}

impl<W: Words + Drop> Joined<W> {
    /// Joins as the number whose lock this process has just taken. The party's first search begins at
    /// this hint, it caches no bucket, and the file's slots are queues of this depth. Returns the words if
    /// the number's life can't become greater any more: then the process keeps the lock, so that nobody
    /// joins as this number.
    ///
    /// Fails if memory runs out. Then the number's life is counted, the words are given up, and nothing
    /// else is done to the file: the caller frees the lock right after.
    pub fn join(
        mut words: W,
        alloc: Global,
        hint: Hint,
        depth: u32,
    ) -> Result<Result<Joined<W>, W>, AllocError>
        requires fresh { (W.log words).events ≡ [] }
        requires deep { 0 < depth }
        ensures joined { IfOk result (λ joined. Joins W.log words hint depth joined) }
        ensures failed { IfErr result (λ _. JoinsNot W.unlocked (W.log words)) }
    {
        let Some(_) = calls::count_lock(&mut words) else {
            return Ok(Err(words));
        };
        let Ok(notes) = notes_of(alloc, words.buckets()) else {
            words.unlock();
            return Err(AllocError);
        };
        let Ok(ends) = ends_of(alloc, words.slots(), depth) else {
            words.unlock();
            return Err(AllocError);
        };
        calls::join(&mut words);
        let cached = Vec::new(alloc);
        Ok(Ok(Joined {
            words,
            notes,
            hint,
            cached,
            most: 0,
            depth,
            ends,
        }))
    }

    /// Returns the party's number.
    #[inline(always)]
    pub fn number(&self) -> u32
        ensures { result ≡ (W.log self.now.words).party }
    {
        self.words.party()
    }

    /// Returns how many buckets the file has.
    #[inline(always)]
    pub fn buckets(&self) -> u32
        ensures value { result ≡ (W.log self.now.words).scene.buckets }
        ensures noted { length self.now.notes ≡ result }
    {
        self.words.buckets()
    }

    /// Returns how many slots the file has.
    #[inline(always)]
    pub fn slots(&self) -> u32
        ensures { result ≡ (W.log self.now.words).scene.slots }
    {
        self.words.slots()
    }

    /// Returns the depth of the file's queues. What the party has done obeys the rules of each of them.
    #[inline(always)]
    pub fn depth(&self) -> u32
        ensures value { result ≡ self.now.depth }
        ensures obeys { AllObey self.now.depth (W.log self.now.words) }
    {
        self.depth
    }

    /// Returns how many queues the file has. At depth 1 it has none, but single slots.
    #[inline(always)]
    pub fn queues(&self) -> u32
        ensures value { result ≡ queues_of (W.log self.now.words).scene.slots self.now.depth }
        ensures noted { length self.now.ends ≡ result }
    {
        queues_of(self.words.slots(), self.depth)
    }

    /// Returns how many buckets the party caches.
    pub fn number_of_cached(&self) -> u32
        ensures value { result ≡ length self.now.cached }
        ensures within { result ≤ self.now.most }
        ensures cached { AreCached self.now.notes self.now.cached }
    {
        self.cached.len() as u32
    }

    /// Returns how many buckets the party has in use: those that it has allocated, attached or taken with
    /// a message, and has not given away since. It doesn't count those that it caches.
    pub fn held(&self) -> u32
        ensures { result ≡ used_in self.now.notes }
    {
        let mut used = 0;
        for bucket in 0..self.words.buckets() {
            if let Note::InUse | Note::Undone = self.notes[bucket as usize] {
                used += 1;
            }
        }
        used
    }

    /// Returns the note of a bucket, or None if the file has no such bucket.
    #[inline(always)]
    pub fn note(&self, bucket: u32) -> Option<Note>
        ensures { result ≡ slice_get self.now.notes bucket }
    {
        self.notes.get(bucket as usize).copied()
    }

    /// Returns the note of one of the file's buckets.
    #[inline(always)]
    pub fn note_of(&self, bucket: u32) -> Note
        requires { bucket < length self.now.notes }
        ensures { slice_get self.now.notes bucket ≡ Some result }
    {
        let at = bucket as usize;
        self.notes[at]
    }

    /// Takes a bucket: the one that was cached last, or if none is cached, a free one. For that it tries
    /// each bucket once, from the hint on and then from bucket 0 on, until one is free. Returns None if
    /// none was free when the search came there.
    #[inline(always)]
    pub fn allocate(&mut self) -> Option<u32>
        ensures { Allocates W.log self.old result self.new }
    {
        match self.allocate_first() {
            Some(bucket) => Some(bucket),
            None => self.allocate_later(),
        }
    }

    /// Takes a bucket as `allocate` does, but tries only the first bucket of a search. If no bucket is
    /// cached and that one isn't free, the search isn't over, and `allocate_later` goes on with it.
    #[inline(always)]
    pub fn allocate_first(&mut self) -> Option<u32>
        ensures taken { IfSome result (λ bucket. Allocates W.log self.old (Some bucket) self.new) }
        ensures missed { IfNone result (MissesFirst W.log self.old self.new) }
    {
        match self.cached.pop() {
            Some(bucket) => {
                self.notes[bucket as usize] = Note::InUse;
                Some(bucket)
            }
            None => self.search_first(),
        }
    }

    /// Goes on with a search whose first bucket `allocate_first` has not taken. The clause holds for each
    /// party with which the taking may have begun.
    #[inline(never)]
    pub fn allocate_later(&mut self) -> Option<u32>
        requires { (before : JoinedParty W) × MissesFirst W.log before self.old }
        ensures { (before : JoinedParty W) → MissesFirst W.log before self.old
            → Allocates W.log before result self.new }
    {
        let Some(bucket) = calls::allocate_later(&mut self.words, self.hint.bucket) else {
            return None;
        };
        self.notes[bucket as usize] = Note::InUse;
        self.hint.follow_taking(bucket);
        Some(bucket)
    }

    /// Gives back a bucket as `give_back` does.
    ///
    /// Fails with the first of these errors that applies, and does nothing then: `NotABucket` if the
    /// file has no such bucket, `NotHeld` if the party doesn't hold it or caches it, and `NotDone` if the
    /// party isn't done with its message.
    #[inline(always)]
    pub fn deallocate(&mut self, bucket: u32) -> Result<(), Refusal>
        ensures { Deallocates W.log self.old bucket result self.new }
    {
        self.check(bucket)?;
        let _ = self.give_back(bucket);
        Ok(())
    }

    /// Gives back a bucket that the party has in use and that is in no slot. The bucket is cached, without
    /// an operation on the words, if the party caches fewer than it may. Returns whether the bucket is free
    /// instead, so that other parties may take it.
    #[inline(always)]
    pub fn give_back(&mut self, bucket: u32) -> bool
        requires { slice_get self.old.notes bucket ≡ Some InUse }
        ensures free { IsTrue result ↔ CachesAll self.old }
        ensures returned { Returns W.log self.old bucket self.new }
    {
        if self.cached.len() < self.most as usize {
            self.notes[bucket as usize] = Note::Cached;
            self.cached.push_reserved(bucket);
            false
        } else {
            self.notes[bucket as usize] = Note::Unheld;
            calls::deallocate(&mut self.words, bucket);
            self.hint.follow_return(bucket);
            true
        }
    }

    /// Gives back all cached buckets as `flush` does, and caches at most `most` from then on, or as many
    /// as the file has if those are fewer. The list of the cached buckets takes memory, unless `most` is
    /// 0. Fails if memory runs out, and does nothing then.
    pub fn cache(&mut self, alloc: Global, most: u32) -> Result<(), AllocError>
        ensures caches { Caches W.log self.old most result self.new }
        ensures none { most ≡ 0 → IsOk result }
    {
        let buckets = self.words.buckets();
        let most = if most < buckets { most } else { buckets };
        let room = list_of(alloc, most)?;
        self.flush();
        self.cached = room;
        self.most = most;
        Ok(())
    }

    /// Gives back each cached bucket by a store of its flag, beginning with the bucket that was cached
    /// last. Each of them moves the hint.
    pub fn flush(&mut self)
        ensures { Flushes W.log self.old self.new }
    {
        while self.free_last() {}
    }

    /// Detaches a bucket, so that its number can go to another party by a channel outside the file, or
    /// puts back its message. Returns the slot in which a message was put back. Fails as `deallocate` does,
    /// but for a message.
    pub fn detach(&mut self, bucket: u32) -> Result<Option<u32>, Refusal>
        ensures { Detaches W.log self.old bucket result self.new }
    {
        match self.note(bucket) {
            Some(Note::Undone) => self.put_back(bucket),
            _ => {
                self.check(bucket)?;
                calls::detach(&mut self.words, bucket);
                self.notes[bucket as usize] = Note::Unheld;
                Ok(None)
            }
        }
    }

    /// Attaches a bucket by its number. Returns whether a party had detached it. Fails with
    /// `NotABucket` if the file has no such bucket.
    pub fn attach(&mut self, bucket: u32) -> Result<bool, Refusal>
        ensures { Attaches W.log self.old bucket result self.new }
    {
        match self.note(bucket) {
            None => Err(Refusal::NotABucket),
            Some(Note::Unheld) => {
                let is_attached = calls::attach(&mut self.words, bucket);
                if is_attached {
                    self.notes[bucket as usize] = Note::InUse;
                }
                Ok(is_attached)
            }
            _ => Ok(false),
        }
    }

    /// Posts a message of `length` bytes in a bucket into a single slot. Returns whether the slot was empty.
    /// Fails as `deallocate` does.
    pub fn post(&mut self, slot: u32, bucket: u32, length: u32) -> Result<bool, Refusal>
        requires single { self.old.depth ≡ 1 }
        requires slot { slot < (W.log self.old.words).scene.slots }
        ensures { Posts W.log self.old slot bucket length result self.new }
    {
        self.check(bucket)?;
        let is_posted = calls::post(&mut self.words, slot, bucket, length);
        if is_posted {
            self.notes[bucket as usize] = Note::Unheld;
        }
        Ok(is_posted)
    }

    /// Takes the message in a single slot. `size` is the size of a bucket in bytes.
    pub fn take(&mut self, slot: u32, size: u32) -> Taken
        requires single { self.old.depth ≡ 1 }
        requires slot { slot < (W.log self.old.words).scene.slots }
        ensures { Takes W.log self.old slot size result self.new }
    {
        let Slot::Message { lap, bucket } = self.words.load_slot(slot) else {
            return Taken::Empty;
        };
        match self.note(bucket) {
            None => Taken::Wrong,
            Some(Note::Unheld) => match calls::receive(&mut self.words, slot, lap, bucket, size) {
                Received::NotSent => Taken::NotSent,
                Received::Wrong => Taken::Wrong,
                Received::Message(length) => {
                    self.notes[bucket as usize] = Note::Undone;
                    Taken::Message { bucket, length }
                }
            },
            _ => Taken::NotSent,
        }
    }

    /// Says that the party is done with the message in a single slot, which it has taken: empties the slot.
    /// Returns whether the party was at work on it. The party goes on holding the bucket.
    pub fn done(&mut self, slot: u32) -> bool
        requires slot { slot < (W.log self.old.words).scene.slots }
        ensures { IsDoneWith W.log self.old slot result self.new }
    {
        let Slot::Message { lap, bucket } = self.words.load_slot(slot) else {
            return false;
        };
        let Some(Note::Undone) = self.note(bucket) else {
            return false;
        };
        calls::done(&mut self.words, slot, bucket, lap);
        self.notes[bucket as usize] = Note::InUse;
        true
    }

    /// Posts a message of `length` bytes in a bucket into a queue, in the slot whose turn it is. Fails as
    /// `deallocate` does.
    pub fn send(&mut self, queue: u32, bucket: u32, length: u32) -> Result<Sending, Refusal>
        requires { queue < queues_of (W.log self.old.words).scene.slots self.old.depth }
        ensures { Sends W.log self.old queue bucket length result self.new }
    {
        self.check(bucket)?;
        let ends = self.ends[queue as usize];
        let its = self.queue(queue);
        let sender = queues::send(&mut self.words, its, ends.tail, bucket, length);
        self.ends[queue as usize].tail = Some(sender.tail);
        if let Sending::Sent { slot: _ } = sender.sending {
            self.notes[bucket as usize] = Note::Unheld;
        }
        Ok(sender.sending)
    }

    /// Takes the oldest message of a queue that is sent. `size` is the size of a bucket in bytes. A message
    /// that another party has taken is left out, and one whose sender hasn't finished.
    pub fn receive(&mut self, queue: u32, size: u32) -> Taken
        requires { queue < queues_of (W.log self.old.words).scene.slots self.old.depth }
        ensures { Receives W.log self.old queue size result self.new }
    {
        let ends = self.ends[queue as usize];
        let its = self.queue(queue);
        let receiver = queues::receive(&mut self.words, &self.notes, its, ends.head, size);
        self.ends[queue as usize].head = receiver.head;
        if let Taken::Message { bucket, length: _ } = receiver.taken {
            self.notes[bucket as usize] = Note::Undone;
        }
        receiver.taken
    }

    /// Says that the party is done with the message in a bucket, and empties its slot, which it returns.
    /// The party goes on holding the bucket. Fails with `NotABucket` if the file has no such bucket, with
    /// `NotHeld` if the party has no message in it, and with `NotDone` if the message's slot hasn't the
    /// bucket, which no file shows in which only these calls write.
    pub fn done_with(&mut self, bucket: u32) -> Result<u32, Refusal>
        ensures { Finishes W.log self.old bucket result self.new }
    {
        match self.note(bucket) {
            None => Err(Refusal::NotABucket),
            Some(Note::Undone) => match calls::done_with(&mut self.words, bucket) {
                Whereabouts::In { slot, lap: _ } => {
                    self.notes[bucket as usize] = Note::InUse;
                    Ok(slot)
                }
                Whereabouts::Entered => Err(Refusal::NotDone),
                Whereabouts::Nowhere => {
                    self.notes[bucket as usize] = Note::InUse;
                    Err(Refusal::NotDone)
                }
            },
            _ => Err(Refusal::NotHeld),
        }
    }

    /// Returns the queue of this number.
    #[inline(always)]
    fn queue(&self, number: u32) -> Queue
        ensures number { result.number ≡ number }
        ensures depth { result.depth ≡ self.now.depth }
    {
        Queue {
            number,
            depth: self.depth,
        }
    }

    /// Gives back all buckets that the party holds, in use or cached, but for its messages, which are put
    /// back. Returns how many these were.
    pub fn give_all_back(&mut self) -> u32
        ensures { GivesAllBack W.log self.old result self.new }
    {
        let freed = calls::give_all_back(&mut self.words);
        self.notes.fill(Note::Unheld);
        self.cached.clear();
        freed
    }

    /// Leaves: gives back all that the party holds, as `give_all_back` does, counts the number's life, and
    /// gives up the words. The caller frees the number's lock right after. Returns how many buckets were
    /// given back.
    pub fn leave(self) -> u32
        ensures { (after : FileLog) × W.unlocked after
            × ((process : ℕ) → IsLeave process (W.log self.words) result after) }
    {
        let mut words = self.words;
        let freed = calls::leave(&mut words);
        words.unlock();
        freed
    }

    /// Tries the first bucket of a search, and returns it if that took it.
    #[inline(always)]
    fn search_first(&mut self) -> Option<u32>
        requires { self.old.cached ≡ [] }
        ensures taken { IfSome result (λ bucket. Allocates W.log self.old (Some bucket) self.new) }
        ensures missed { IfNone result (MissesFirst W.log self.old self.new) }
    {
        let bucket = self.hint.bucket;
        if !calls::allocate_first(&mut self.words, bucket) {
            return None;
        }
        self.notes[bucket as usize] = Note::InUse;
        self.hint.follow_first(bucket);
        Some(bucket)
    }

    /// Gives back the bucket that was cached last, if one is cached, and returns whether one was.
    fn free_last(&mut self) -> bool
        ensures { FreesLast W.log self.old result self.new }
    {
        let Some(bucket) = self.cached.pop() else {
            return false;
        };
        calls::deallocate(&mut self.words, bucket);
        self.notes[bucket as usize] = Note::Unheld;
        self.hint.follow_return(bucket);
        true
    }

    /// Puts back the message in a bucket, with which the party isn't done. Returns the slot of the message.
    fn put_back(&mut self, bucket: u32) -> Result<Option<u32>, Refusal>
        requires { slice_get self.old.notes bucket ≡ Some Undone }
        ensures { Detaches W.log self.old bucket result self.new }
    {
        match calls::put_back(&mut self.words, bucket) {
            Whereabouts::In { slot, lap: _ } => {
                self.notes[bucket as usize] = Note::Unheld;
                Ok(Some(slot))
            }
            Whereabouts::Entered => Err(Refusal::NotDone),
            Whereabouts::Nowhere => {
                self.notes[bucket as usize] = Note::InUse;
                Err(Refusal::NotDone)
            }
        }
    }

    /// Returns whether the party holds the bucket, which is in no slot, or why not.
    #[inline(always)]
    fn check(&self, bucket: u32) -> Result<(), Refusal>
        ensures held { IfOk result (λ _. slice_get self.now.notes bucket ≡ Some InUse) }
        ensures refused { IfErr result (λ refusal. IsRefusal (slice_get self.now.notes bucket) refusal) }
    {
        match self.note(bucket) {
            None => Err(Refusal::NotABucket),
            Some(Note::Unheld | Note::Cached) => Err(Refusal::NotHeld),
            Some(Note::Undone) => Err(Refusal::NotDone),
            Some(Note::InUse) => Ok(()),
        }
    }
}
