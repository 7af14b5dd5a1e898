//! The bump machine's steps, and the theorem about every list of them.
ghost use Rattle.bb_memory_bump_machine.specs.BumpLogs.{HasNoClear, IsCallRun, IsLossAt, OpensWith, calls_after, calls_begun_in, calls_of, chunks_won, entries_by, history_of, live_after, losses_in, outcome_after, stretch_after};
ghost use Rattle.bb_memory_bump_machine.specs.BumpMachine.{BumpScene, BumpStep, Exchange, IsIdle, IsInCall, Layout, Load, Loaded, OngoingCall, Read, left_by};
ghost use Rattle.bb_memory_traits.specs.BumpObject.{StandsFor, used_space};
ghost use Rattle.bb_memory_traits.specs.Chunk.{Chunk, IsSound};
ghost use Rattle.std.specs.Prelude.{List, ℕ, ◌++◌, ◌+◌, ◌<◌, ◌≡◌, ◌≤◌};

use bb_memory_traits::layout::{Chunk, Layout};

/// One atomic step on the bump's position. A party is named by its number, from 0.
#[derive(Debug, Clone, Copy, PartialEq, Eq)]
pub enum BumpStep {
    /// An idle party begins a call: it reads the position. The step isn't allowed if the size is 0.
    Read { party: u32, layout: Layout },
    /// A party in a call replaces the position by the end of its chunk, if the position is still
    /// what it has seen.
    Exchange { party: u32 },
    /// An idle party reads how much is used.
    Load { party: u32 },
    /// All chunks are given back in one step, by no particular party.
    Clear,
}

/// The outcome of a step: what the step found, and what it did. Each number is the position that
/// the step found.
#[derive(Debug, Clone, Copy, PartialEq, Eq)]
pub enum BumpOutcome {
    /// A read at which the layout fits.
    Sees(usize),
    /// A read at which the layout doesn't fit. The call is refused, and the party is idle again.
    RefusedAtRead(usize),
    /// An exchange that found what the party had seen. The chunk is the party's, which is idle
    /// again.
    Wins(Chunk),
    /// An exchange that found another position, at which the layout fits. The party has now seen
    /// that one.
    Loses(usize),
    /// An exchange that found another position, at which the layout doesn't fit. The call is
    /// refused, and the party is idle again.
    RefusedAtLoss(usize),
    /// A load, which found how much is used.
    Loaded(usize),
    /// A clear. The position is now 0.
    Cleared,
    /// The step isn't allowed, or the machine has no party of this number. Nothing changed.
    Passed,
}

/// States what holds for every list of steps, by any number of parties, from any position at which
/// the machine opens, with clears anywhere. The function does nothing: its contract is the theorem.
///
/// A scene is the state in which a machine begins: its region, its opening and its parties. What
/// holds for every list of steps holds for each beginning of one, and so at every step. A stretch
/// is a list of steps that comes after a beginning. A step decides a call if it wins, if it is
/// refused at a read or a loss, or if it clears. Nothing is stated about who wins, or about time.
pub fn bump_theorem()
    // Each opening up to the region's size stands for some live list.
    ensures some_list { (scene : BumpScene) → scene.opening ≤ scene.region.size
        → (live : List Chunk) × OpensWith scene live }

    // The calls at their deciding steps are a run of the bump object, from each live list that the
    // opening stands for.
    ensures run { (scene : BumpScene) (live : List Chunk) (steps : List BumpStep)
        → OpensWith scene live
        → IsCallRun scene.region live (calls_of scene steps) (live_after scene live steps) }

    // The calls of a beginning come first, so that what holds for every list of steps holds for
    // every step of one run.
    ensures beginning { (scene : BumpScene) (before stretch : List BumpStep)
        → calls_of scene (before ++ stretch)
        ≡ calls_of scene before ++ calls_after scene before stretch }

    // Each such run has a list at every step: the steps of the beginning are a run that leaves this
    // list, and the others are a run from it.
    ensures every_step { (scene : BumpScene) (live : List Chunk) (before stretch : List BumpStep)
        → OpensWith scene live
        → IsCallRun scene.region (live_after scene live before) (calls_after scene before stretch)
        (live_after scene live (before ++ stretch)) }

    // At every step a bump at the machine's position stands for the object's list there.
    ensures stands { (scene : BumpScene) (live : List Chunk) (steps : List BumpStep)
        → OpensWith scene live
        → StandsFor scene.region (left_by scene steps).position (live_after scene live steps) }

    // At every step the position is the number of bytes that this list uses.
    ensures position { (scene : BumpScene) (live : List Chunk) (steps : List BumpStep)
        → OpensWith scene live
        → (left_by scene steps).position ≡ used_space scene.region (live_after scene live steps) }

    // A load finds the number of bytes that the list uses.
    ensures load { (scene : BumpScene) (live : List Chunk) (steps : List BumpStep) (party : ℕ)
        → OpensWith scene live → IsIdle (left_by scene steps) party
        → outcome_after scene steps (Load party)
        ≡ Loaded (used_space scene.region (live_after scene live steps)) }

    // At every step the position is at most the size, and so is what a call has seen.
    ensures within { (scene : BumpScene) (steps : List BumpStep)
        → scene.opening ≤ scene.region.size
        → (left_by scene steps).position ≤ scene.region.size }
    ensures seen_within { (scene : BumpScene) (steps : List BumpStep)
        (party : ℕ) (call : OngoingCall)
        → scene.opening ≤ scene.region.size → IsInCall (left_by scene steps) party call
        → call.seen ≤ scene.region.size }

    // At every step the list is sound: its chunks are inside the region, and no two overlap.
    ensures sound { (scene : BumpScene) (live : List Chunk) (steps : List BumpStep)
        → OpensWith scene live
        → IsSound scene.region (live_after scene live steps) }

    // While no clear comes, the chunks that are won are a sound list.
    ensures won { (scene : BumpScene) (before stretch : List BumpStep)
        → scene.opening ≤ scene.region.size → HasNoClear stretch
        → IsSound scene.region (chunks_won (stretch_after scene before stretch)) }

    // So the object's list is the earlier one followed by the chunks won.
    ensures since { (scene : BumpScene) (live : List Chunk) (steps : List BumpStep)
        → HasNoClear steps
        → live_after scene live steps ≡ live ++ chunks_won (history_of scene steps) }

    // Each loss raises what a call has seen: if no clear came since the call began, an exchange
    // that is lost finds a greater position than the call has seen.
    ensures raised { (scene : BumpScene) (before stretch : List BumpStep)
        (party position : ℕ) (call : OngoingCall)
        → scene.opening ≤ scene.region.size
        → IsIdle (left_by scene before) party → HasNoClear stretch
        → IsInCall (left_by scene (before ++ stretch)) party call
        → IsLossAt position (outcome_after scene (before ++ stretch) (Exchange party))
        → call.seen < position }

    // A call during which no clear comes loses at most one exchange for each byte of the region. So
    // does a party that is idle and begins at most one call while no clear comes.
    ensures losses { (scene : BumpScene) (before stretch : List BumpStep) (party : ℕ)
        → scene.opening ≤ scene.region.size
        → IsIdle (left_by scene before) party → HasNoClear stretch
        → calls_begun_in (entries_by party (stretch_after scene before stretch)) ≤ 1
        → losses_in (entries_by party (stretch_after scene before stretch)) ≤ scene.region.size }
{}
