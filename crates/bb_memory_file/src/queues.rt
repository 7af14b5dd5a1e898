//! Queues over the slots of a file: where a sender fills a slot, and which message a receiver takes.
//!
//! A queue of `depth` messages is `depth` slots in a row, which are used in turn. No word of the file says
//! where it begins and ends: a party finds that by looks at the slots, and goes on from there the next
//! time.
ghost use Rattle.bb_memory_file.specs.FileLog.{FileLog, IsLap, LoadSlot, is_clear, known_of, lap_in, told};
ghost use Rattle.bb_memory_file.specs.FileNames.{Empty};
ghost use Rattle.bb_memory_file.specs.FileNotes.{AreNoted};
ghost use Rattle.bb_memory_file.specs.FileQueueCalls.{AllObey, Grows, IsFar, IsLastFilled, IsOver, IsReceipt, IsSend, KnowsOthers, Looks, Loses, SeesLast, SendsBy, noted_after};
ghost use Rattle.bb_memory_file.specs.FileQueueLooks.{IsPosition, KnowsHead, KnowsTail, Look, last_lap, position_after, queue_in};
ghost use Rattle.bb_memory_file.specs.FileQueueSteps.{FindsHead, FindsOldest, FindsTurn, HasBegun, IsTurn, KnowsSame, LooksAt, SeesBefore, StopsAt, Walks, noted_if};
ghost use Rattle.bb_memory_file.specs.FileQueueSteps.oldest.{At};
ghost use Rattle.bb_memory_file_machine.specs.FileMachine.{FileScene};
ghost use Rattle.bb_memory_file_machine.specs.FileQueues.{IsFilled, IsLater, IsWhole, lap_said};
ghost use Rattle.std.specs.Prelude.{IfSome, IsTrue, MatchBool, MatchOption, slice_get, true, ℕ, ◌*◌, ◌+◌, ◌/◌, ◌<◌, ◌^◌, ◌≡◌, ◌≢◌};

use crate::calls;
use crate::calls::Received;
use crate::joined::{Note, Taken};
use crate::words::Words;
use bb_memory_file_machine::steps::{FileFlag, Slot};

/// The laps of a slot are less than this.
const LAPS: u32 = 1 << 30;

/// How often a call tries again after another party was faster. Each time, that party has posted or
/// taken a message of the queue.
const ATTEMPTS: u32 = 1 << 16;

/// A queue of a file.
#[derive(Debug, Clone, Copy, PartialEq, Eq)]
pub struct Queue {
    /// The number of the queue, from 0 on.
    pub number: u32,
    /// How many messages it has room for.
    pub depth: u32,
}

/// A position in a queue: one of its slots, and a lap of the slot.
#[derive(Debug, Clone, Copy, PartialEq, Eq)]
pub struct Position {
    pub slot: u32,
    pub lap: u32,
}

/// The answer of a sender.
#[derive(Debug, Clone, Copy, PartialEq, Eq)]
pub enum Sending {
    /// It has posted the message into this slot.
    Sent { slot: u32 },
    /// The slot whose turn it is still has the message of the lap before.
    Full,
    /// Other senders were faster, as often as it has tried.
    Overtaken,
}

/// A sender's answer, and the position at which it goes on.
#[derive(Debug, Clone, Copy, PartialEq, Eq)]
pub struct Sender {
    pub sending: Sending,
    pub tail: Position,
}

/// A receiver's answer, and the position at which it goes on.
#[derive(Debug, Clone, Copy, PartialEq, Eq)]
pub struct Receiver {
    pub taken: Taken,
    pub head: Option<Position>,
}

/// A slot at which a walk has stopped: its position, and the word that it had there.
#[derive(Debug, Clone, Copy, PartialEq, Eq)]
struct Stop {
    position: Position,
    word: Slot,
}

/// The answer of a search for the oldest message of a queue.
#[derive(Debug, Clone, Copy, PartialEq, Eq)]
enum Oldest {
    /// The oldest message with which no party is done, or the empty slot whose turn it is.
    At(Stop),
    /// Words that no queue has.
    Wrong,
    /// Others were done with each message while it looked at them, as often as it has tried.
    Overtaken,
}

/// The answer of a walk over the messages of a queue.
#[derive(Debug, Clone, Copy, PartialEq, Eq)]
enum Walked {
    /// A message that is sent, at this position, which is this many slots after the walk's beginning.
    Sent {
        position: Position,
        bucket: u32,
        passed: u32,
    },
    /// None that is sent in all of these slots.
    Passed,
    /// None that is sent, before a slot that is empty.
    End,
    /// Words that no queue has.
    Wrong,
}

/// The answer of a look at a message of a queue.
#[derive(Debug, Clone, Copy, PartialEq, Eq)]
enum Looked {
    /// A message in this bucket, which is sent.
    Sent { bucket: u32 },
    /// A message that isn't sent, or that the party has itself.
    Unsent,
    /// An empty slot.
    Empty,
    /// A word that no queue has there.
    Wrong,
}

impl Queue {
    /// Returns the queue's first slot.
    fn first(self) -> u32
        requires { self.number * self.depth + self.depth < 2 ^ 32 }
        ensures { result ≡ self.number * self.depth }
    {
        self.number * self.depth
    }

    /// Returns the slot after the queue's last one.
    fn end(self) -> u32
        requires { self.number * self.depth + self.depth < 2 ^ 32 }
        ensures { result ≡ self.number * self.depth + self.depth }
    {
        self.number * self.depth + self.depth
    }

    /// Returns the position after this one.
    fn after(self, position: Position) -> Position
        requires depth { 0 < self.depth }
        requires fits { self.number * self.depth + self.depth < 2 ^ 32 }
        requires slot { position.slot / self.depth ≡ self.number }
        requires lap { IsLap position.lap }
        ensures { (scene : FileScene) → result ≡ position_after (queue_in scene self) position }
    {
        let slot = position.slot + 1;
        if slot < self.end() {
            Position {
                slot,
                lap: position.lap,
            }
        } else {
            Position {
                slot: self.first(),
                lap: calls::next_lap(position.lap),
            }
        }
    }
}

// SENDERS

/// Posts a message of `length` bytes in a bucket that the party holds, and that is in no slot, into the
/// slot of the queue whose turn it is. Begins at `tail`, if the party has been at the queue before.
pub fn send<W: Words>(
    words: &mut W,
    queue: Queue,
    tail: Option<Position>,
    bucket: u32,
    length: u32,
) -> Sender
    requires whole { IsWhole (queue_in (W.log words.old).scene queue) }
    requires depth { 0 < queue.depth }
    requires fits { queue.number * queue.depth + queue.depth < 2 ^ 32 }
    requires tail { IfSome tail (λ position. KnowsTail (queue_in (W.log words.old).scene queue) (W.log words.old).events position) }
    requires below { bucket < (W.log words.old).scene.buckets }
    requires clear { is_clear (known_of (W.log words.old) bucket) ≡ true }
    ensures sends { (process : ℕ) → IsSend process (W.log words.old) (queue_in (W.log words.old).scene queue) bucket length
        result.sending (W.log words.new) }
    ensures tail { KnowsTail (queue_in (W.log words.old).scene queue) (W.log words.new).events result.tail }
    ensures obeys { AllObey queue.depth (W.log words.old) → AllObey queue.depth (W.log words.new) }
    ensures others { KnowsOthers (W.log words.old) bucket (W.log words.new) }
    ensures grows { Grows (W.log words.old) (W.log words.new) }
{
    let mut tail = match tail {
        Some(tail) => tail,
        None => find_tail(words, queue),
    };
    for _attempt in 0..ATTEMPTS {
        let sender = try_to_send(words, queue, tail, bucket, length);
        match sender.sending {
            Sending::Overtaken => tail = sender.tail,
            _ => return sender,
        }
    }
    Sender {
        sending: Sending::Overtaken,
        tail,
    }
}

/// Tries once to post a message, into the slot whose turn it is from `tail` on.
fn try_to_send<W: Words>(
    words: &mut W,
    queue: Queue,
    tail: Position,
    bucket: u32,
    length: u32,
) -> Sender
    requires whole { IsWhole (queue_in (W.log words.old).scene queue) }
    requires depth { 0 < queue.depth }
    requires fits { queue.number * queue.depth + queue.depth < 2 ^ 32 }
    requires tail { KnowsTail (queue_in (W.log words.old).scene queue) (W.log words.old).events tail }
    requires below { bucket < (W.log words.old).scene.buckets }
    requires clear { is_clear (known_of (W.log words.old) bucket) ≡ true }
    ensures sends { (process : ℕ) → SendsBy 1 process (W.log words.old) (queue_in (W.log words.old).scene queue) bucket length result.sending (W.log words.new) }
    ensures tail { KnowsTail (queue_in (W.log words.old).scene queue) (W.log words.new).events result.tail }
    ensures obeys { AllObey queue.depth (W.log words.old) → AllObey queue.depth (W.log words.new) }
    ensures others { KnowsOthers (W.log words.old) bucket (W.log words.new) }
    ensures grows { Grows (W.log words.old) (W.log words.new) }
{
    let Stop { position, word } = find_turn(words, queue, tail);
    if is_filled(position.lap, word) {
        return Sender {
            sending: Sending::Overtaken,
            tail: position,
        };
    }
    if !is_empty_at(position.lap, word) {
        return Sender {
            sending: Sending::Full,
            tail: position,
        };
    }
    if !calls::fill(words, position.slot, position.lap, bucket, length) {
        return Sender {
            sending: Sending::Overtaken,
            tail: position,
        };
    }
    Sender {
        sending: Sending::Sent {
            slot: position.slot,
        },
        tail: queue.after(position),
    }
}

/// Finds the slot whose turn it is, from `tail` on. If the slots' laps have come round since the party was
/// at `tail`, begins anew.
fn find_turn<W: Words>(words: &mut W, queue: Queue, tail: Position) -> Stop
    requires whole { IsWhole (queue_in (W.log words.old).scene queue) }
    requires depth { 0 < queue.depth }
    requires fits { queue.number * queue.depth + queue.depth < 2 ^ 32 }
    requires tail { KnowsTail (queue_in (W.log words.old).scene queue) (W.log words.old).events tail }
    ensures turn { FindsTurn (queue_in (W.log words.old).scene queue) (W.log words.old) result (W.log words.new) }
    ensures same { KnowsSame (W.log words.old) (W.log words.new) }
{
    let stop = pass_filled(words, queue, tail);
    if is_turn(stop.position.lap, stop.word) {
        return stop;
    }
    let tail = find_tail(words, queue);
    pass_filled(words, queue, tail)
}

/// Finds a position that a sender may fill, by a look at the queue's first slot.
fn find_tail<W: Words>(words: &mut W, queue: Queue) -> Position
    requires whole { IsWhole (queue_in (W.log words.old).scene queue) }
    requires depth { 0 < queue.depth }
    requires fits { queue.number * queue.depth + queue.depth < 2 ^ 32 }
    ensures before { SeesBefore (queue_in (W.log words.old).scene queue) (W.log words.old).events (W.log words.new).events result }
    ensures last { SeesLast (queue_in (W.log words.old).scene queue) (W.log words.old).events (W.log words.new).events result }
    ensures position { IsPosition (queue_in (W.log words.old).scene queue) result }
    ensures looks { Looks (W.log words.old) (W.log words.new) }
    ensures same { KnowsSame (W.log words.old) (W.log words.new) }
{
    let slot = queue.first();
    let lap = lap_filled(words.load_slot(slot));
    queue.after(Position { slot, lap })
}

/// Goes on from a position to the first slot that isn't filled there, or over as many slots as the queue
/// has. Returns where it stopped, and what word it found there.
fn pass_filled<W: Words>(words: &mut W, queue: Queue, from: Position) -> Stop
    requires whole { IsWhole (queue_in (W.log words.old).scene queue) }
    requires depth { 0 < queue.depth }
    requires fits { queue.number * queue.depth + queue.depth < 2 ^ 32 }
    requires from { IsPosition (queue_in (W.log words.old).scene queue) from }
    ensures { StopsAt IsFilled (queue_in (W.log words.old).scene queue) (W.log words.old) from result (W.log words.new) }
{
    let mut position = from;
    for _passed in 0..queue.depth {
        let word = words.load_slot(position.slot);
        if !is_filled(position.lap, word) {
            return Stop { position, word };
        }
        position = queue.after(position);
    }
    let word = words.load_slot(position.slot);
    Stop { position, word }
}

// RECEIVERS

/// Takes the oldest message of the queue that is sent. Begins at `head`, if the party has been at the
/// queue before. `notes` are what the party has noted of the buckets, and `size` is the size of a bucket
/// in bytes.
pub fn receive<W: Words>(
    words: &mut W,
    notes: &[Note],
    queue: Queue,
    head: Option<Position>,
    size: u32,
) -> Receiver
    requires whole { IsWhole (queue_in (W.log words.old).scene queue) }
    requires depth { 0 < queue.depth }
    requires fits { queue.number * queue.depth + queue.depth < 2 ^ 32 }
    requires head { IfSome head (λ position. KnowsHead (queue_in (W.log words.old).scene queue) (W.log words.old).events position) }
    requires noted { AreNoted (W.log words.old) notes.now }
    ensures receives { (process : ℕ) → IsReceipt process (W.log words.old) notes.now (queue_in (W.log words.old).scene queue) size
        result.taken (W.log words.new) }
    ensures head { IfSome result.head
        (λ position. KnowsHead (queue_in (W.log words.old).scene queue) (W.log words.new).events position) }
    ensures obeys { AllObey queue.depth (W.log words.old) → AllObey queue.depth (W.log words.new) }
    ensures noted { AreNoted (W.log words.new) (noted_after notes.now result.taken) }
    ensures grows { Grows (W.log words.old) (W.log words.new) }
{
    let stop = match find_oldest(words, queue, head) {
        Oldest::At(stop) => stop,
        Oldest::Wrong => {
            return Receiver {
                taken: Taken::Wrong,
                head: None,
            };
        }
        Oldest::Overtaken => {
            return Receiver {
                taken: Taken::NotSent,
                head: None,
            };
        }
    };
    Receiver {
        taken: receive_from(words, notes, queue, stop, size),
        head: Some(stop.position),
    }
}

/// Takes the oldest message that is sent. The oldest one of the queue, or the empty slot whose turn it is,
/// has been found at `oldest`.
fn receive_from<W: Words>(
    words: &mut W,
    notes: &[Note],
    queue: Queue,
    oldest: Stop,
    size: u32,
) -> Taken
    requires whole { IsWhole (queue_in (W.log words.old).scene queue) }
    requires depth { 0 < queue.depth }
    requires fits { queue.number * queue.depth + queue.depth < 2 ^ 32 }
    requires noted { AreNoted (W.log words.old) notes.now }
    requires head { KnowsHead (queue_in (W.log words.old).scene queue) (W.log words.old).events oldest.position }
    requires look { Look (W.log words.old).events oldest.position.slot oldest.word }
    requires lap { lap_said oldest.word ≡ oldest.position.lap }
    ensures receives { (begun : FileLog) → FindsOldest (queue_in (W.log words.old).scene queue) begun (At oldest) (W.log words.old) → (process : ℕ) → IsReceipt process begun notes.now (queue_in (W.log words.old).scene queue) size result (W.log words.new) }
    ensures obeys { AllObey queue.depth (W.log words.old) → AllObey queue.depth (W.log words.new) }
    ensures noted { AreNoted (W.log words.new) (noted_after notes.now result) }
    ensures grows { Grows (W.log words.old) (W.log words.new) }
{
    let Stop { position, word } = oldest;
    let Slot::Message { lap: _, bucket } = word else {
        return Taken::Empty;
    };
    match note_of(notes, bucket) {
        Some(Note::Unheld) => {
            match calls::receive(words, position.slot, position.lap, bucket, size) {
                Received::NotSent => receive_later(words, notes, queue, position, size),
                Received::Wrong => Taken::Wrong,
                Received::Message(length) => Taken::Message { bucket, length },
            }
        }
        Some(Note::Undone) => receive_later(words, notes, queue, position, size),
        _ => Taken::Wrong,
    }
}

/// Takes the first message that is sent, from the position `head` on, if the oldest one wasn't.
#[inline(never)]
fn receive_later<W: Words>(
    words: &mut W,
    notes: &[Note],
    queue: Queue,
    head: Position,
    size: u32,
) -> Taken
    requires whole { IsWhole (queue_in (W.log words.old).scene queue) }
    requires depth { 0 < queue.depth }
    requires fits { queue.number * queue.depth + queue.depth < 2 ^ 32 }
    requires noted { AreNoted (W.log words.old) notes.now }
    requires head { KnowsHead (queue_in (W.log words.old).scene queue) (W.log words.old).events head }
    ensures receives { (begun : FileLog) → HasBegun (queue_in (W.log words.old).scene queue) begun head (W.log words.old) → (process : ℕ) → IsReceipt process begun notes.now (queue_in (W.log words.old).scene queue) size result (W.log words.new) }
    ensures obeys { AllObey queue.depth (W.log words.old) → AllObey queue.depth (W.log words.new) }
    ensures noted { AreNoted (W.log words.new) (noted_after notes.now result) }
    ensures grows { Grows (W.log words.old) (W.log words.new) }
{
    for _attempt in 0..ATTEMPTS {
        if let Some(taken) = try_to_receive(words, notes, queue, head, size) {
            return taken;
        }
    }
    Taken::NotSent
}

/// Tries once to take the first message that is sent, from the position `head` on. Messages before it that
/// weren't sent are looked at again once it is found, since they may have been sent before it was posted.
/// Returns None if another party was faster, or has sent an older message meanwhile.
fn try_to_receive<W: Words>(
    words: &mut W,
    notes: &[Note],
    queue: Queue,
    head: Position,
    size: u32,
) -> Option<Taken>
    requires whole { IsWhole (queue_in (W.log words.old).scene queue) }
    requires depth { 0 < queue.depth }
    requires fits { queue.number * queue.depth + queue.depth < 2 ^ 32 }
    requires noted { AreNoted (W.log words.old) notes.now }
    requires head { KnowsHead (queue_in (W.log words.old).scene queue) (W.log words.old).events head }
    ensures receives { MatchOption result (Loses (queue_in (W.log words.old).scene queue) (W.log words.old) 1 (W.log words.new))
        (λ taken. (begun : FileLog) → HasBegun (queue_in (W.log words.old).scene queue) begun head (W.log words.old)
        → (process : ℕ)
        → IsReceipt process begun notes.now (queue_in (W.log words.old).scene queue) size taken (W.log words.new)) }
    ensures obeys { AllObey queue.depth (W.log words.old) → AllObey queue.depth (W.log words.new) }
    ensures noted { AreNoted (W.log words.new) (noted_if notes.now result) }
    ensures grows { Grows (W.log words.old) (W.log words.new) }
{
    let (position, bucket, passed) = match walk_on(words, notes, queue, head, queue.depth) {
        Walked::Sent {
            position,
            bucket,
            passed,
        } => (position, bucket, passed),
        Walked::Passed => return Some(Taken::NotSent),
        Walked::End => return Some(Taken::NotSent),
        Walked::Wrong => return Some(Taken::Wrong),
    };
    match walk_on(words, notes, queue, head, passed) {
        Walked::Passed => {}
        Walked::Sent {
            position: _,
            bucket: _,
            passed: _,
        } => return None,
        Walked::End => return Some(Taken::NotSent),
        Walked::Wrong => return Some(Taken::Wrong),
    }
    match calls::receive(words, position.slot, position.lap, bucket, size) {
        Received::NotSent => None,
        Received::Wrong => Some(Taken::Wrong),
        Received::Message(length) => Some(Taken::Message { bucket, length }),
    }
}

/// Walks over at most this many slots from the position `head` on, to the first message that is sent.
fn walk_on<W: Words>(
    words: &mut W,
    notes: &[Note],
    queue: Queue,
    head: Position,
    slots: u32,
) -> Walked
    requires whole { IsWhole (queue_in (W.log words.old).scene queue) }
    requires depth { 0 < queue.depth }
    requires fits { queue.number * queue.depth + queue.depth < 2 ^ 32 }
    requires noted { AreNoted (W.log words.old) notes.now }
    requires head { IsPosition (queue_in (W.log words.old).scene queue) head }
    ensures walks { Walks (W.log words.old).party (queue_in (W.log words.old).scene queue) notes.now (W.log words.old) head slots result (W.log words.new) }
    ensures looks { Looks (W.log words.old) (W.log words.new) }
    ensures noted { AreNoted (W.log words.new) notes.now }
{
    let mut position = head;
    for passed in 0..slots {
        let word = words.load_slot(position.slot);
        if !is_over(position.lap, word) {
            match look_at(words, notes, position, word) {
                Looked::Unsent => {}
                Looked::Sent { bucket } => {
                    return Walked::Sent {
                        position,
                        bucket,
                        passed,
                    };
                }
                Looked::Empty => return Walked::End,
                Looked::Wrong => return Walked::Wrong,
            }
        }
        position = queue.after(position);
    }
    Walked::Passed
}

/// Looks whether the message is sent that a load has found at this position, in a slot that isn't over.
fn look_at<W: Words>(words: &mut W, notes: &[Note], position: Position, word: Slot) -> Looked
    requires noted { AreNoted (W.log words.old) notes.now }
    requires look { Look (W.log words.old).events position.slot word }
    ensures finds { LooksAt notes.now (W.log words.old) position word result (W.log words.new) }
    ensures looks { Looks (W.log words.old) (W.log words.new) }
    ensures noted { AreNoted (W.log words.new) notes.now }
{
    let Position { slot, lap } = position;
    if lap_said(word) != lap {
        return Looked::Wrong;
    }
    let Slot::Message { lap: _, bucket } = word else {
        return Looked::Empty;
    };
    match note_of(notes, bucket) {
        Some(Note::Unheld) => {
            if calls::is_same(words.load_flag(bucket), FileFlag::SentTo { slot, lap }) {
                Looked::Sent { bucket }
            } else {
                Looked::Unsent
            }
        }
        Some(Note::Undone) => Looked::Unsent,
        _ => Looked::Wrong,
    }
}

/// Returns the party's note of the bucket, or None if the file has no such bucket.
fn note_of(notes: &[Note], bucket: u32) -> Option<Note>
    ensures { result ≡ slice_get notes.now bucket }
{
    notes.get(bucket as usize).copied()
}

/// Finds the oldest message of the queue with which no party is done, or the empty slot whose turn it is,
/// from `head` on. If the slots' laps have come round since the party was at `head`, begins anew.
fn find_oldest<W: Words>(words: &mut W, queue: Queue, head: Option<Position>) -> Oldest
    requires whole { IsWhole (queue_in (W.log words.old).scene queue) }
    requires depth { 0 < queue.depth }
    requires fits { queue.number * queue.depth + queue.depth < 2 ^ 32 }
    requires head { IfSome head (λ position. KnowsHead (queue_in (W.log words.old).scene queue) (W.log words.old).events position) }
    ensures oldest { FindsOldest (queue_in (W.log words.old).scene queue) (W.log words.old) result (W.log words.new) }
    ensures same { KnowsSame (W.log words.old) (W.log words.new) }
{
    if let Some(head) = head {
        let stop = pass_over(words, queue, head);
        if lap_said(stop.word) == stop.position.lap {
            return Oldest::At(stop);
        }
    }
    find_anew(words, queue)
}

/// Finds the oldest message of the queue, or the empty slot whose turn it is, by looks at all slots.
#[inline(never)]
fn find_anew<W: Words>(words: &mut W, queue: Queue) -> Oldest
    requires whole { IsWhole (queue_in (W.log words.old).scene queue) }
    requires depth { 0 < queue.depth }
    requires fits { queue.number * queue.depth + queue.depth < 2 ^ 32 }
    ensures oldest { FindsOldest (queue_in (W.log words.old).scene queue) (W.log words.old) result (W.log words.new) }
    ensures same { KnowsSame (W.log words.old) (W.log words.new) }
{
    for _attempt in 0..ATTEMPTS {
        let Some(head) = find_head(words, queue) else {
            return Oldest::Wrong;
        };
        let stop = pass_over(words, queue, head);
        if lap_said(stop.word) == stop.position.lap {
            return Oldest::At(stop);
        }
        if !is_over(stop.position.lap, stop.word) {
            return Oldest::Wrong;
        }
    }
    Oldest::Overtaken
}

/// Goes on from a position to the first slot that isn't over there, or over as many slots as the queue
/// has. Returns where it stopped, and what word it found there.
fn pass_over<W: Words>(words: &mut W, queue: Queue, from: Position) -> Stop
    requires whole { IsWhole (queue_in (W.log words.old).scene queue) }
    requires depth { 0 < queue.depth }
    requires fits { queue.number * queue.depth + queue.depth < 2 ^ 32 }
    requires from { IsPosition (queue_in (W.log words.old).scene queue) from }
    ensures { StopsAt IsOver (queue_in (W.log words.old).scene queue) (W.log words.old) from result (W.log words.new) }
{
    let mut position = from;
    for _passed in 0..queue.depth {
        let word = words.load_slot(position.slot);
        if !is_over(position.lap, word) {
            return Stop { position, word };
        }
        position = queue.after(position);
    }
    let word = words.load_slot(position.slot);
    Stop { position, word }
}

/// Finds the slot whose lap comes first. Returns None if a lap is far from that of the first slot.
fn find_head<W: Words>(words: &mut W, queue: Queue) -> Option<Position>
    requires whole { IsWhole (queue_in (W.log words.old).scene queue) }
    requires depth { 0 < queue.depth }
    requires fits { queue.number * queue.depth + queue.depth < 2 ^ 32 }
    ensures head { FindsHead (queue_in (W.log words.old).scene queue) (W.log words.old) result (W.log words.new) }
    ensures looks { Looks (W.log words.old) (W.log words.new) }
    ensures same { KnowsSame (W.log words.old) (W.log words.new) }
{
    let first = queue.first();
    let lap = lap_said(words.load_slot(first));
    let mut head = Position { slot: first, lap };
    for slot in first + 1..queue.end() {
        let found = lap_said(words.load_slot(slot));
        if is_far(lap, found) {
            return None;
        }
        if is_later(found, head.lap) {
            head = Position { slot, lap: found };
        }
    }
    Some(head)
}

// LAPS

/// Returns whether the other lap is later: whether it is in the half of all laps that follows this one.
fn is_later(lap: u32, other: u32) -> bool
    requires lap { IsLap lap }
    requires other { IsLap other }
    ensures { MatchBool result (IsLater lap other) (¬ IsLater lap other) }
{
    let more = (other + LAPS - lap) % LAPS;
    more > 0 && more < LAPS / 2
}

/// Returns whether the other lap is far from this one: a quarter of all laps before it or after it.
fn is_far(lap: u32, other: u32) -> bool
    requires lap { IsLap lap }
    requires other { IsLap other }
    ensures { MatchBool result (IsFar lap other) (¬ IsFar lap other) }
{
    (other + LAPS / 4 + (LAPS - lap)) % LAPS + 1 >= LAPS / 2
}

/// Returns whether a slot with this word was filled at this lap.
fn is_filled(lap: u32, word: Slot) -> bool
    requires lap { IsLap lap }
    requires word { IsLap (lap_in word) }
    ensures { MatchBool result (IsFilled lap word) (¬ IsFilled lap word) }
{
    match word {
        Slot::Empty { lap: found } => is_later(lap, found),
        Slot::Message {
            lap: found,
            bucket: _,
        } => found == lap || is_later(lap, found),
    }
}

/// Returns whether the slot with this word is empty at this lap.
fn is_empty_at(lap: u32, word: Slot) -> bool
    ensures { MatchBool result (word ≡ Empty lap) (word ≢ Empty lap) }
{
    match word {
        Slot::Empty { lap: found } => found == lap,
        Slot::Message { lap: _, bucket: _ } => false,
    }
}

/// Returns whether it is a sender's turn at this lap, if the slot has this word: whether the slot is empty
/// at the lap, or has the message of the lap before.
fn is_turn(lap: u32, word: Slot) -> bool
    requires lap { IsLap lap }
    ensures { IsTrue result → IsTurn lap word }
{
    match word {
        Slot::Empty { lap: found } => found == lap,
        Slot::Message {
            lap: found,
            bucket: _,
        } => found == last_lap(lap),
    }
}

/// Returns whether a slot with this word is at a later lap.
fn is_over(lap: u32, word: Slot) -> bool
    requires lap { IsLap lap }
    requires word { IsLap (lap_in word) }
    ensures { MatchBool result (IsOver lap word) (¬ IsOver lap word) }
{
    is_later(lap, lap_said(word))
}

/// Returns the lap that a slot's word says.
fn lap_said(word: Slot) -> u32
    ensures said { result ≡ lap_said word }
    ensures lap { result ≡ lap_in word }
{
    match word {
        Slot::Empty { lap } => lap,
        Slot::Message { lap, bucket: _ } => lap,
    }
}

/// Returns the last lap at which a slot with this word was filled.
fn lap_filled(word: Slot) -> u32
    requires { IsLap (lap_in word) }
    ensures filled { IsFilled result word }
    ensures last { IsLastFilled result word }
    ensures lap { IsLap result }
{
    match word {
        Slot::Empty { lap } => last_lap(lap),
        Slot::Message { lap, bucket: _ } => lap,
    }
}

/// Returns the lap before this one.
fn last_lap(lap: u32) -> u32
    requires { IsLap lap }
    ensures last { result ≡ last_lap lap }
    ensures lap { IsLap result }
{
    (lap + (LAPS - 1)) % LAPS
}
