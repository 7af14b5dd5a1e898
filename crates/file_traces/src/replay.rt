//! A replay: the machine follows the lines of a trace.
//!
//! If a line has a change of a word, of a lock or of a life, the process takes steps of the machine
//! until one changes something, and that has to be the same change.

use crate::lines::{Call, Change, Event, Figures, Line, Returned};
use bb_memory_file_machine::steps::{
    Entry, FileFlag, FileOutcome, FileStep, FileWorld, Place, Slot,
};
use std::alloc::{AllocError, Global};

/// The most steps without a change that a process takes in a row. A settler takes one for each
/// bucket.
const MOST_MOVES: u32 = 100_000;

/// The difference between a line and what the machine allows.
#[derive(Debug, Clone, Copy, PartialEq, Eq)]
pub enum Difference {
    /// There is no such process, or the event doesn't fit the call that the process is in, or it is
    /// in no call.
    NotInTurn,
    /// Before the change, the word, the lock or the life wasn't as the line says.
    OtherBefore,
    /// The machine's process, which is at this place, takes this step with this outcome. The compiled
    /// code did something else.
    OtherStep {
        place: Place,
        step: FileStep,
        outcome: FileOutcome,
    },
    /// The machine's process takes no step that changes a word, a lock or a life.
    NoChange,
    /// The call returned, but the machine's process is at this place.
    OtherReturn(Place),
    /// The process is dead, but still has the lock of this number.
    KeepsLock(u32),
}

/// A process: the call that it is in, and the last change that it has made in that call.
#[derive(Debug, Clone, Copy, PartialEq, Eq)]
struct Process {
    call: Option<Call>,
    last: Option<Change>,
}

impl Process {
    /// Returns whether the process has changed something in its call.
    fn has_changed(self) -> bool {
        self.last.is_some()
    }
}

/// The machine, and the calls that its processes are in.
#[derive(Drop)]
pub struct Replay {
    world: FileWorld,
    processes: Vec<Process>,
    parties: u32,
}

impl Replay {
    /// Makes the machine of a trace with these figures.
    pub fn new(alloc: Global, figures: Figures) -> Result<Replay, AllocError> {
        let Figures {
            processes,
            parties,
            buckets,
            slots,
        } = figures;
        let idle = Process {
            call: None,
            last: None,
        };
        Ok(Replay {
            world: FileWorld::new(alloc, buckets, slots, parties, processes)?,
            processes: vec![in alloc; idle; processes as usize]?,
            parties,
        })
    }

    /// Follows a line. Fails if the line differs from what the machine allows.
    pub fn follow(&mut self, line: Line) -> Result<(), Difference> {
        let Line { process, event } = line;
        let Some(found) = self.processes.get(process as usize).copied() else {
            return Err(Difference::NotInTurn);
        };
        match (event, found.call) {
            (Event::Begins(call), None) => {
                self.note(process, Some(call), None);
                Ok(())
            }
            (Event::Changes(change), call) => {
                self.change(process, found, change)?;
                self.note(process, call, Some(change));
                Ok(())
            }
            (Event::Returns(returned), Some(call)) => {
                self.end(process, call, found.last, returned)?;
                self.note(process, None, None);
                Ok(())
            }
            (Event::IsKilled, _) => {
                let _ = self.world.step(FileStep::Kill { process });
                self.note(process, None, None);
                Ok(())
            }
            (Event::IsGone, None) => self.expect_no_lock(process),
            _ => Err(Difference::NotInTurn),
        }
    }

    /// Notes the call that a process is in, and the last change that it has made there.
    fn note(&mut self, process: u32, call: Option<Call>, last: Option<Change>) {
        if let Some(found) = self.processes.get_mut(process as usize) {
            *found = Process { call, last };
        }
    }

    /// Has a process take steps until one makes this change.
    fn change(&mut self, process: u32, found: Process, change: Change) -> Result<(), Difference> {
        if !self.is_before(process, change) {
            return Err(Difference::OtherBefore);
        }
        for _ in 0..MOST_MOVES {
            let place = self.place(process)?;
            let step = step_for(process, found, place, change);
            let outcome = self.world.step(step);
            if self.is_after(process, change) {
                return Ok(());
            }
            if outcome != FileOutcome::Moves {
                return Err(Difference::OtherStep {
                    place,
                    step,
                    outcome,
                });
            }
        }
        Err(Difference::NoChange)
    }

    /// Ends a call: the process takes steps that change nothing, until it is in no call.
    fn end(
        &mut self,
        process: u32,
        call: Call,
        last: Option<Change>,
        returned: Returned,
    ) -> Result<(), Difference> {
        let has_changed = last.is_some();
        let is_refused = returned == Returned::Refused;
        match call {
            Call::Looks => self.expect_outside(process, !has_changed),
            Call::Close => {
                self.expect_outside(process, !is_refused)?;
                self.expect_no_lock(process)
            }
            Call::Reap | Call::Recover | Call::Flush { .. } => {
                self.expect_outside(process, !is_refused)
            }
            Call::GiveAllBack { party } => {
                if !is_refused && !has_changed {
                    self.expect_moves(process, FileStep::Leave { process, party })?;
                }
                self.move_on(process)?;
                self.expect_outside(process, !has_changed || !is_refused)
            }
            Call::Deallocate { .. } => { self.expect_outside(process, !is_refused || !has_changed) }
            Call::Leave { .. } | Call::Detach { .. } | Call::Attach { .. } => {
                self.expect_outside(process, has_changed != is_refused)
            }
            Call::Join => {
                self.move_on(process)?;
                self.expect_outside(process, has_changed != is_refused)
            }
            Call::Post { .. } => self.expect_outside(process, has_sent(last) != is_refused),
            Call::Allocate { party } => match returned {
                Returned::Bucket(bucket) => {
                    let is_held = self.world.flag(bucket) == Some(FileFlag::HeldBy(party));
                    self.expect_outside(process, is_held)
                }
                _ => self.expect_outside(process, !has_changed),
            },
            Call::Take { party, slot } => match returned {
                Returned::Message { bucket, length } => {
                    let is_held = self.world.flag(bucket) == Some(FileFlag::HeldBy(party));
                    let is_entered = self.world.entry(bucket) == Some(Entry::In { slot, length });
                    self.expect_outside(process, has_changed && is_held && is_entered)
                }
                _ => self.expect_outside(process, !has_changed),
            },
            Call::Done { party, slot } => {
                let holds = if is_refused {
                    !has_changed && !self.has_taken(party, slot)
                } else {
                    has_changed
                };
                self.expect_outside(process, holds)
            }
        }
    }

    /// Returns whether the slot has a message whose bucket the party holds.
    fn has_taken(&self, party: u32, slot: u32) -> bool {
        match self.world.slot(slot) {
            Some(Slot::Message { bucket, .. }) => self.world.flag(bucket)
                == Some(FileFlag::HeldBy(party)),
            _ => false,
        }
    }

    /// Has a process take steps that change nothing, until it is in no call.
    fn move_on(&mut self, process: u32) -> Result<(), Difference> {
        for _ in 0..MOST_MOVES {
            if self.place(process)? == Place::Outside {
                return Ok(());
            }
            self.expect_moves(process, FileStep::Next { process })?;
        }
        Err(Difference::NoChange)
    }

    /// Has a process take a step that changes nothing.
    fn expect_moves(&mut self, process: u32, step: FileStep) -> Result<(), Difference> {
        let place = self.place(process)?;
        let outcome = self.world.step(step);
        if outcome == FileOutcome::Moves {
            return Ok(());
        }
        Err(Difference::OtherStep {
            place,
            step,
            outcome,
        })
    }

    /// Tests that a process is in no call, and that `holds` is true.
    fn expect_outside(&self, process: u32, holds: bool) -> Result<(), Difference> {
        let place = self.place(process)?;
        if holds && place == Place::Outside {
            Ok(())
        } else {
            Err(Difference::OtherReturn(place))
        }
    }

    /// Tests that a process has no lock.
    fn expect_no_lock(&self, process: u32) -> Result<(), Difference> {
        for party in 0..self.parties {
            if self.world.lock(party) == Some(Some(process)) {
                return Err(Difference::KeepsLock(party));
            }
        }
        Ok(())
    }

    fn place(&self, process: u32) -> Result<Place, Difference> {
        self.world.place(process).ok_or(Difference::NotInTurn)
    }

    /// Returns whether the word, the lock or the life is as it was before the change.
    fn is_before(&self, process: u32, change: Change) -> bool {
        match change {
            Change::Flag { bucket, from, .. } => self.world.flag(bucket) == Some(from),
            Change::Entry { bucket, from, .. } => self.world.entry(bucket) == Some(from),
            Change::Slot { slot, from, .. } => self.world.slot(slot) == Some(from),
            Change::Life { party, from, .. } => self.world.life(party) == Some(from),
            Change::Lock { party } => self.world.lock(party) == Some(None),
            Change::Unlock { party } => self.world.lock(party) == Some(Some(process)),
        }
    }

    /// Returns whether the word, the lock or the life is as it is after the change.
    fn is_after(&self, process: u32, change: Change) -> bool {
        match change {
            Change::Flag { bucket, to, .. } => self.world.flag(bucket) == Some(to),
            Change::Entry { bucket, to, .. } => self.world.entry(bucket) == Some(to),
            Change::Slot { slot, to, .. } => self.world.slot(slot) == Some(to),
            Change::Life { party, to, .. } => self.world.life(party) == Some(to),
            Change::Lock { party } => self.world.lock(party) == Some(Some(process)),
            Change::Unlock { party } => self.world.lock(party) == Some(None),
        }
    }
}

/// Returns whether a post whose last change was this one has sent its message.
fn has_sent(last: Option<Change>) -> bool {
    match last {
        Some(Change::Flag { .. }) => true,
        _ => false,
    }
}

/// Returns the step that a process takes next, on the way to this change.
fn step_for(process: u32, found: Process, place: Place, change: Change) -> FileStep {
    match place {
        Place::Outside => first_step(process, found, change),
        Place::Dead => released(process, change),
        Place::Posting { .. } => filled(process, change),
        Place::Counting { .. } => counted(process, change),
        Place::Flags { bucket, .. } => recovered(process, found, bucket, change),
        Place::Settled { .. } => settled(process, found, change),
        Place::Sending { .. } | Place::Clearing { .. } => FileStep::Next { process },
    }
}

/// Returns the first step of a call. A call that makes one step, and has made it, takes no other
/// one.
fn first_step(process: u32, found: Process, change: Change) -> FileStep {
    let none = FileStep::Next { process };
    let Some(call) = found.call else {
        return none;
    };
    match (call, change) {
        (Call::Join, Change::Lock { party }) if !found.has_changed() => {
            FileStep::Lock { process, party }
        }
        (Call::Reap | Call::Recover, Change::Lock { party }) => FileStep::Lock { process, party },
        (Call::Close, _) => leaving(process, change),
        (Call::Leave { party } | Call::GiveAllBack { party }, _) if !found.has_changed() =>
            FileStep::Leave { process, party },
        (Call::Allocate { party }, Change::Flag { bucket, .. }) => FileStep::Allocate {
            process,
            party,
            bucket,
        },
        (Call::Deallocate { party, .. } | Call::Flush { party }, Change::Flag { bucket, .. }) =>
            FileStep::Deallocate {
                process,
                party,
                bucket,
            },
        (
            Call::Detach { party, bucket },
            Change::Flag {
                to: FileFlag::SentTo { slot, .. },
                ..
            },
        ) if !found.has_changed() => FileStep::PutBack {
            process,
            party,
            slot,
            bucket,
        },
        (Call::Detach { party, bucket }, _) if !found.has_changed() => FileStep::DetachNumber {
            process,
            party,
            bucket,
        },
        (
            Call::Attach { party, bucket },
            Change::Flag {
                from: FileFlag::DetachedBy(from),
                ..
            },
        ) if !found.has_changed() => FileStep::AttachNumber {
            process,
            party,
            bucket,
            from,
        },
        (
            Call::Post {
                party,
                slot,
                bucket,
                length,
            },
            _,
        ) if !found.has_changed() => FileStep::Post {
            process,
            party,
            slot,
            bucket,
            length,
        },
        (
            Call::Take { party, slot },
            Change::Flag {
                bucket,
                from: FileFlag::SentTo { lap, .. },
                ..
            },
        ) if !found.has_changed() => FileStep::Take {
            process,
            party,
            slot,
            bucket,
            lap,
        },
        (
            Call::Done { party, slot },
            Change::Slot {
                from: Slot::Message { bucket, .. },
                to: Slot::Empty { lap },
                ..
            },
        ) if !found.has_changed() => FileStep::Done {
            process,
            party,
            slot,
            bucket,
            next: lap,
        },
        _ => none,
    }
}

/// Returns the step by which a process that closes the file begins to leave: with the number that
/// the change names.
fn leaving(process: u32, change: Change) -> FileStep {
    match change {
        Change::Life { party, .. } | Change::Unlock { party } => {
            FileStep::Leave { process, party }
        }
        Change::Flag {
            from: FileFlag::HeldBy(party),
            ..
        } => FileStep::Leave { process, party },
        _ => FileStep::Next { process },
    }
}

/// Returns the step by which the lock of a dead process becomes free.
fn released(process: u32, change: Change) -> FileStep {
    match change {
        Change::Unlock { party } => FileStep::Release { process, party },
        _ => FileStep::Next { process },
    }
}

/// Returns the step of a post that has written the bucket's entry: it fills the slot, or clears the
/// entry.
fn filled(process: u32, change: Change) -> FileStep {
    match change {
        Change::Slot {
            from: Slot::Empty { lap },
            ..
        } => FileStep::Fill { process, lap },
        _ => FileStep::Next { process },
    }
}

/// Returns the step of a settler that has come to this bucket. Only a reap with detached buckets
/// attaches one.
fn recovered(process: u32, found: Process, at: u32, change: Change) -> FileStep {
    match (found.call, change) {
        (
            Some(Call::Recover),
            Change::Flag {
                bucket,
                from: FileFlag::DetachedBy(_),
                ..
            },
        ) if bucket == at => FileStep::Recover { process },
        _ => FileStep::Next { process },
    }
}

/// Returns the step of a process that has taken the lock of a number: it counts.
fn counted(process: u32, change: Change) -> FileStep {
    match change {
        Change::Life { to, .. } => FileStep::Count { process, life: to },
        _ => FileStep::Next { process },
    }
}

/// Returns the step of a settler that is done: one that joins or leaves counts, and one that joins
/// or gives all back keeps the lock.
fn settled(process: u32, found: Process, change: Change) -> FileStep {
    let next = FileStep::Next { process };
    let Some(call) = found.call else {
        return next;
    };
    match change {
        Change::Unlock { .. } if unlocks(call) => FileStep::Unlock { process },
        Change::Life { to, .. } if counts(call) => FileStep::Count { process, life: to },
        _ => next,
    }
}

/// Returns whether a call frees the lock of a number that it has settled.
fn unlocks(call: Call) -> bool {
    match call {
        Call::Leave { .. } => true,
        Call::Close => true,
        Call::Reap => true,
        Call::Recover => true,
        _ => false,
    }
}

/// Returns whether a call counts when it has settled a number.
fn counts(call: Call) -> bool {
    match call {
        Call::Join => true,
        Call::Leave { .. } => true,
        Call::Close => true,
        _ => false,
    }
}
