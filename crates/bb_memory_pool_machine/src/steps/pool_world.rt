//! A pool machine that can be run: for each bucket its flag, and for each party the bucket that its
//! pass tries next.
ghost use Rattle.bb_memory_pool_machine.specs.PoolMachine.{Attach, AttachFrom, Detach, FindToken, GiveBack, GiveBackDetached, Try, TryAt, all_free, holder_of};
ghost use Rattle.bb_memory_pool_machine.specs.PoolWorld.{IsPoolWorld, PoolWorld, Replays, Steps, world_of};
ghost use Rattle.std.specs.Prelude.{IfOk, IsSome, length, slice_get, ◌<◌, ◌≡◌};

use super::{Flag, PoolOutcome, PoolStep};
use std::alloc::{AllocError, Global};
use std::marker::Model;

/// The pool machine over some buckets, with its parties. No step allocates memory.
///
/// Example: `comments::pool_world` of `crates/examples`.
#[derive(Drop)]
pub struct PoolWorld {
    alloc: Global,
    flags: Vec<Flag>,
    calls: Vec<Option<u32>>,
}

impl Model for PoolWorld {
    ghost Value = { PoolWorld };

    ghost view = { λ w. world_of w.flags.items w.calls.items };

    ghost invariant = { λ w. IsPoolWorld (world_of w.flags.items w.calls.items) };
}

impl PoolWorld {
    /// Makes the machine over that many buckets, all flags free, with that many parties, all idle.
    /// Fails only if memory ran out.
    pub fn new(alloc: Global, buckets: u32, parties: u32) -> Result<PoolWorld, AllocError>
        ensures opened { IfOk result (λ world. world ≡ all_free buckets parties) }
    {
        let flags = vec![in alloc; Flag::Free; buckets as usize]?;
        let calls = vec![in alloc; None; parties as usize]?;
        Ok(PoolWorld {
            alloc,
            flags,
            calls,
        })
    }

    /// Takes one atomic step, and returns its outcome. The call allocates no memory.
    pub fn step(&mut self, step: PoolStep) -> PoolOutcome
        ensures { Steps self.old step result self.new }
    {
        match step {
            PoolStep::Try { party } => self.try_next(party),
            PoolStep::GiveBack { party, bucket } => self.give_back(party, bucket),
            PoolStep::TryAt { party, bucket } => self.try_at(party, bucket),
            PoolStep::Detach { party, bucket } => self.detach(party, bucket),
            PoolStep::Attach { party, bucket } => self.attach(party, bucket),
            PoolStep::AttachFrom {
                party,
                bucket,
                from,
            } => self.attach_from(party, bucket, from),
            PoolStep::FindToken {
                party,
                bucket,
                from,
            } => self.find_token(party, bucket, from),
            PoolStep::GiveBackDetached { party, bucket } => self.give_detached(party, bucket),
        }
    }

    /// Takes the steps in order, and returns the outcome of each. Memory for the outcomes is
    /// reserved first: if it runs out, no step is taken.
    pub fn replay(&mut self, steps: &[PoolStep]) -> Result<Vec<PoolOutcome>, AllocError>
        ensures { Replays self.old steps.now result self.new }
    {
        let mut outcomes = Vec::with_capacity(self.alloc, steps.len())?;
        for step in steps {
            let outcome = self.step(*step);
            outcomes.push_reserved(outcome);
        }
        Ok(outcomes)
    }

    /// Returns the number of buckets.
    pub fn number_of_buckets(&self) -> u32
        ensures { result ≡ length self.now.flags }
    {
        self.flags.len() as u32
    }

    /// Returns the party that holds the bucket, or `None` if its flag is free, if it is detached,
    /// or if the machine has no bucket of this number.
    pub fn holder(&self, bucket: u32) -> Option<u32>
        ensures { result ≡ holder_of self.now bucket }
    {
        match found_at(&self.flags, bucket as usize) {
            Some(Flag::HeldBy(party)) => Some(party),
            Some(Flag::Free | Flag::DetachedBy(_)) | None => None,
        }
    }

    /// Makes a party try the next bucket of its pass.
    fn try_next(&mut self, party: u32) -> PoolOutcome
        ensures { Steps self.old (Try party) result self.new }
    {
        let Some(pass) = found_at(&self.calls, party as usize) else {
            return PoolOutcome::Passed;
        };
        let bucket = pass.unwrap_or(0);
        match found_at(&self.flags, bucket as usize) {
            Some(Flag::Free) => {
                self.flags[bucket as usize] = Flag::HeldBy(party);
                self.calls[party as usize] = None;
                PoolOutcome::Takes(bucket)
            }
            Some(Flag::HeldBy(_) | Flag::DetachedBy(_)) => {
                if bucket as usize + 1 < self.flags.len() {
                    self.calls[party as usize] = Some(bucket + 1);
                    PoolOutcome::Loses(bucket)
                } else {
                    self.calls[party as usize] = None;
                    PoolOutcome::RefusedAtLoss(bucket)
                }
            }
            None => PoolOutcome::Passed,
        }
    }

    /// Makes a party give back a bucket.
    fn give_back(&mut self, party: u32, bucket: u32) -> PoolOutcome
        ensures { Steps self.old (GiveBack party bucket) result self.new }
    {
        match found_at(&self.flags, bucket as usize) {
            Some(Flag::HeldBy(holder)) if holder == party => {
                self.flags[bucket as usize] = Flag::Free;
                PoolOutcome::Gives(bucket)
            }
            _ => PoolOutcome::Passed,
        }
    }

    /// Makes a party try one bucket, which it may if it is in no pass.
    fn try_at(&mut self, party: u32, bucket: u32) -> PoolOutcome
        ensures { Steps self.old (TryAt party bucket) result self.new }
    {
        let Some(None) = found_at(&self.calls, party as usize) else {
            return PoolOutcome::Passed;
        };
        match found_at(&self.flags, bucket as usize) {
            Some(Flag::Free) => {
                self.flags[bucket as usize] = Flag::HeldBy(party);
                self.calls[party as usize] = None;
                PoolOutcome::Takes(bucket)
            }
            Some(Flag::HeldBy(_) | Flag::DetachedBy(_)) => PoolOutcome::Misses(bucket),
            None => PoolOutcome::Passed,
        }
    }

    /// Makes a party detach a bucket, which it may if it holds the bucket and there is another
    /// party.
    fn detach(&mut self, party: u32, bucket: u32) -> PoolOutcome
        ensures { Steps self.old (Detach party bucket) result self.new }
    {
        match found_at(&self.flags, bucket as usize) {
            Some(Flag::HeldBy(holder)) if holder == party && 1 < self.calls.len() => {
                self.flags[bucket as usize] = Flag::DetachedBy(party);
                PoolOutcome::Detaches(bucket)
            }
            _ => PoolOutcome::Passed,
        }
    }

    /// Makes a party attach a bucket, which it may if it is in no pass and the bucket is detached.
    fn attach(&mut self, party: u32, bucket: u32) -> PoolOutcome
        ensures { Steps self.old (Attach party bucket) result self.new }
    {
        let Some(None) = found_at(&self.calls, party as usize) else {
            return PoolOutcome::Passed;
        };
        match found_at(&self.flags, bucket as usize) {
            Some(Flag::DetachedBy(_)) => {
                self.flags[bucket as usize] = Flag::HeldBy(party);
                PoolOutcome::Attaches(bucket)
            }
            _ => PoolOutcome::Passed,
        }
    }

    /// Makes a party try to attach a bucket from the party `from`, which it may if it is in no
    /// pass.
    fn attach_from(&mut self, party: u32, bucket: u32, from: u32) -> PoolOutcome
        ensures { Steps self.old (AttachFrom party bucket from) result self.new }
    {
        let Some(None) = found_at(&self.calls, party as usize) else {
            return PoolOutcome::Passed;
        };
        match found_at(&self.flags, bucket as usize) {
            Some(Flag::DetachedBy(sender)) if sender == from => {
                self.flags[bucket as usize] = Flag::HeldBy(party);
                PoolOutcome::Attaches(bucket)
            }
            Some(_) => PoolOutcome::Misses(bucket),
            None => PoolOutcome::Passed,
        }
    }

    /// Makes a party find a token of a bucket that the party `from` has detached, which it may if it
    /// is in no pass.
    fn find_token(&mut self, party: u32, bucket: u32, from: u32) -> PoolOutcome
        ensures { Steps self.old (FindToken party bucket from) result self.new }
    {
        let Some(None) = found_at(&self.calls, party as usize) else {
            return PoolOutcome::Passed;
        };
        match found_at(&self.flags, bucket as usize) {
            Some(Flag::DetachedBy(sender)) if sender == from => PoolOutcome::Misses(bucket),
            _ => PoolOutcome::Passed,
        }
    }

    /// Makes a party give back a detached bucket, which it may if it is in no pass.
    fn give_detached(&mut self, party: u32, bucket: u32) -> PoolOutcome
        ensures { Steps self.old (GiveBackDetached party bucket) result self.new }
    {
        let Some(None) = found_at(&self.calls, party as usize) else {
            return PoolOutcome::Passed;
        };
        match found_at(&self.flags, bucket as usize) {
            Some(Flag::DetachedBy(_)) => {
                self.flags[bucket as usize] = Flag::Free;
                PoolOutcome::Gives(bucket)
            }
            _ => PoolOutcome::Passed,
        }
    }
}

/// Returns the flag of a bucket, or the pass of a party, if the list has one of this number.
fn found_at<T: Copy>(all: &[T], number: usize) -> Option<T>
    ensures value { result ≡ slice_get all.now number }
    ensures within { IsSome result → number < length all.now }
{
    all.get(number).copied()
}
