//! The law of parties of a shared bump that met.
ghost use Rattle.bb_memory_bump.specs.SharedBump.{AgreeAt, BumpParty, HaveChunksApart, IsSharedScene};
ghost use Rattle.bb_memory_bump_machine.specs.BumpLogs.{IsCallRun, OpensWith, calls_of, chunks_won, history_of, live_after, log_of};
ghost use Rattle.bb_memory_bump_machine.specs.BumpMachine.{BumpScene};
ghost use Rattle.bb_memory_traits.specs.BumpObject.{StandsFor};
ghost use Rattle.bb_memory_traits.specs.Chunk.{Chunk};
ghost use Rattle.std.specs.Prelude.{All, Any, Contains, List, Some, length, slice_get, ℕ, ◌++◌, ◌≡◌, ◌≢◌};

/// States what holds for parties of a shared bump that met
/// ([`meet_all`](super::SharedBumpAllocator::meet_all)), above all if these are all its parties,
/// whatever the threads did. The function does nothing: its contract is the law.
///
/// A meeting has one list of steps from the opening, each of which the machine allows
/// (`agree.steps`). In it, the steps of each party that met are exactly its log, and the list
/// leaves the position that the meeting found. If all the bump's parties met, it has no other
/// steps. A list that the opening stands for is one that was live before the bump was shared.
pub fn shared_bump_meeting_law()
    // The calls at their deciding steps are a run of the bump object, from the list that was live
    // before the bump was shared to the one that the position found stands for.
    ensures run { (scene : BumpScene) (position : ℕ) (parties : List BumpParty) (live : List Chunk)
        (met : AgreeAt scene position parties) → let steps = met.agree.steps in
        OpensWith scene live
        → IsCallRun scene.region live (calls_of scene steps) (live_after scene live steps) }
    ensures stands { (scene : BumpScene) (position : ℕ) (parties : List BumpParty)
        (live : List Chunk) (met : AgreeAt scene position parties) → OpensWith scene live
        → StandsFor scene.region position (live_after scene live met.agree.steps) }

    // The final list is the older list followed by the chunks that were won since.
    ensures since { (scene : BumpScene) (position : ℕ) (parties : List BumpParty)
        (live : List Chunk) (met : AgreeAt scene position parties) → let steps = met.agree.steps in
        live_after scene live steps ≡ live ++ chunks_won (history_of scene steps) }

    // The final list has each chunk of each party that met.
    ensures held { (scene : BumpScene) (position : ℕ) (parties : List BumpParty)
        (live : List Chunk) (met : AgreeAt scene position parties)
        → let held = Contains (live_after scene live met.agree.steps) in
        All (λ party. All held (chunks_won party.log)) parties }

    // The steps of each party in the list of steps are its log.
    ensures logged { (scene : BumpScene) (position : ℕ) (parties : List BumpParty)
        (met : AgreeAt scene position parties)
        → All (λ party. log_of scene met.agree.steps party.number ≡ party.log) parties }

    // No chunk of one of them overlaps a chunk of another.
    ensures apart { (scene : BumpScene) (position : ℕ) (parties : List BumpParty)
        (met : AgreeAt scene position parties) (i j : ℕ) (one other : BumpParty)
        → IsSharedScene scene → slice_get parties i ≡ Some one → slice_get parties j ≡ Some other
        → i ≢ j → HaveChunksApart one.log other.log }

    // If all parties met, each step is in the log of one of them: nobody else made a step.
    ensures nobody_else { (scene : BumpScene) (position : ℕ) (parties : List BumpParty)
        (met : AgreeAt scene position parties) → length parties ≡ scene.parties
        → All (λ entry. Any (λ party. Contains party.log entry) parties)
        (history_of scene met.agree.steps) }
{}
