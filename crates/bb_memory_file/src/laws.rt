//! Laws that lead from the calls' contracts to the machine of a pool in a file.
ghost use Rattle.bb_memory_file.specs.FileCode.{Event, FileLog, Path};
ghost use Rattle.bb_memory_file.specs.FileFormat.{IsGeometry};
ghost use Rattle.bb_memory_file.specs.FileNames.{FileStep, Place};
ghost use Rattle.bb_memory_file.specs.FileOperations.{IsMade};
ghost use Rattle.bb_memory_file.specs.FileParties.{among, scene_of, with_processes};
ghost use Rattle.bb_memory_file.specs.FileQueueLives.{AreRecent, GoesThrough, ProcessesObey, events_of};
ghost use Rattle.bb_memory_file.specs.FileQueueLooks.{EventsObey};
ghost use Rattle.bb_memory_file.specs.FileQueueRuns.{ActsObey};
ghost use Rattle.bb_memory_file.specs.FileRecords.{AreLives, IsMachinesRow, IsRecord, IsTold, operations_in};
ghost use Rattle.bb_memory_file.specs.FileRows.{IsEvent, Says};
ghost use Rattle.bb_memory_file.specs.FileRuns.{Act, IsMachines, IsRun, acts_of, own, words_after};
ghost use Rattle.bb_memory_file.specs.Recorded.{IsFoundIn, Run, WordEvent};
ghost use Rattle.bb_memory_file.specs.declared.geometry.FileGeometry.{FileGeometry};
ghost use Rattle.bb_memory_file_machine.specs.FileMachine.{FileScene, FileWords, opening_state};
ghost use Rattle.bb_memory_file_machine.specs.FileQueues.{FileQueue, Obey, fills, queue_rules};
ghost use Rattle.std.specs.Prelude.{List, Option, length, replicate, reverse, ℕ, ◌<◌, ◌^◌, ◌≡◌};

/// States that the code is the machine: whatever processes do to a file by these calls, in any order
/// of their operations, killed anywhere, some steps of the machine leave the same words and locks,
/// and bring each process to the same place, by the steps that its calls promise. None of them is
/// refused. So each clause of `file_theorem` is one about the code. The function does nothing: its
/// contract is the theorem.
pub fn file_code_theorem()
    ensures machine { (scene : FileScene) (acts : List Act) (taken : ℕ → List FileStep) (places : ℕ → Place)
        → IsRun scene acts taken places → IsMachines scene acts taken places }
{}

/// States that the steps of the machine obey the rules of a queue if the acts of the run do. So each
/// clause of `queue_order_law` is one about the code whose acts obey them. The function does nothing:
/// its contract is the law.
pub fn queue_runs_law()
    ensures obeys { (queue : FileQueue) (acts : List Act) (taken : ℕ → List FileStep) (places : ℕ → Place)
        → IsRun queue.scene acts taken places → ActsObey queue acts
        → (machines : IsMachines queue.scene acts taken places)
        × Obey queue_rules queue (reverse machines.steps) }
{}

/// States that the acts of a run obey the rules of a queue if each process does by what it has seen
/// itself. What it relies on was seen recently: the slot that it looked at has been filled fewer than
/// 2^29 times since. The function does nothing: its contract is the law.
pub fn queue_lives_law()
    ensures obeys { (queue : FileQueue) (acts : List Act) (taken : ℕ → List FileStep) (places : ℕ → Place)
        → IsRun queue.scene acts taken places → (obey : ProcessesObey queue acts) → AreRecent queue acts obey
        → ActsObey queue acts }

    // If the operations of a process are those that a log tells, its events are the log's.
    ensures logs { (process : ℕ) (log : FileLog) (acts : List Act)
        → operations_in (own process acts) ≡ acts_of process log → events_of process acts ≡ log.events }

    // In a run that fills no slot 2^29 times, each look is recent.
    ensures recent { (queue : FileQueue) (acts : List Act)
        → ((slot : ℕ) → fills (words_after queue.scene) slot acts < 2 ^ 29)
        → (obey : ProcessesObey queue acts) → AreRecent queue acts obey }

    // There is such a run, with a queue of two slots. A process is killed in the middle of a post, its
    // number is settled, and its message is taken. `file_code_theorem` holds for this run, too.
    ensures possible { GoesThrough 2 }
{}

/// States that the operations on a file's row of words are events on the words of the machine: each
/// event finds there what its operation found in the row, and leaves the words that the row says
/// afterwards. An exchange that misses its flag finds another flag. A row of zeros says the words with
/// which the machine begins. The function does nothing: its contract is the law.
pub fn words_law()
    ensures event { (geometry : FileGeometry) (party : ℕ) (row : List ℕ) (words : FileWords) (operation : WordEvent)
        → IsGeometry geometry (length row) → party < geometry.parties → Says geometry row words
        → IsMade geometry party operation → IsFoundIn row operation → IsEvent geometry party row words operation }
    ensures new_file { (geometry : FileGeometry) (words processes : ℕ) → IsGeometry geometry words
        → Says geometry (replicate words 0) (opening_state (with_processes (scene_of geometry) processes)).words }
{}

/// States that the recorded operations of all hands on the words of a file, which began as a new
/// file's, are true acts of processes. Each of them has the log of its party, or looks. If the acts of
/// each party's process are its life, all acts are a run, and some steps of the machine leave the words
/// that the row says after the operations. The function does nothing: its contract is the law.
pub fn recorded_law()
    ensures told { (geometry : FileGeometry) (scene : FileScene) (parties : ℕ → Option ℕ) (start : List ℕ) (run : Run)
        (acts : List Act) → IsRecord geometry scene parties start run acts
        → IsTold geometry scene parties start run acts }
    ensures machine { (geometry : FileGeometry) (scene : FileScene) (parties : ℕ → Option ℕ) (start : List ℕ) (run : Run)
        (acts : List Act) (taken : ℕ → List FileStep) (places : ℕ → Place) → IsRecord geometry scene parties start run acts
        → AreLives scene parties acts taken places → IsMachinesRow geometry scene start run acts taken places }
    ensures run { (geometry : FileGeometry) (scene : FileScene) (parties : ℕ → Option ℕ) (start : List ℕ) (run : Run)
        (acts : List Act) (taken : ℕ → List FileStep) (places : ℕ → Place) → IsRecord geometry scene parties start run acts
        → AreLives scene parties acts taken places → IsRun scene acts taken places }
{}

/// States that a path doesn't depend on the number of processes, so that the paths of a party are those
/// of a run with any number of them. Nor does it depend on that number whether a party's events obey the
/// rules of a queue. The function does nothing: its contract is the law.
pub fn processes_law()
    ensures path { (processes process : ℕ) (before log : FileLog) (from there : Place) (taken : List FileStep)
        → Path process before from log taken there
        → Path process (among processes before) from (among processes log) taken there }
    ensures obeys { (processes party : ℕ) (queue : FileQueue) (events : List Event) → EventsObey party queue events
        → EventsObey party (record queue { scene = with_processes queue.scene processes }) events }
{}
