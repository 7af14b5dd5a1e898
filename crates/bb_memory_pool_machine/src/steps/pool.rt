//! The pool machine's steps, and the theorem about every list of them.
ghost use Rattle.bb_memory_pool_machine.specs.PoolLogs.{AreAsked, AttachesFromAt, FindsTokenAt, FoundHeld, IsCallRun, IsHeldAfter, IsHeldInRun, IsPoolRun, IsRefusedAt, Layout, LosesAt, MissesAt, MissesFromAt, WasDetached, history_of, log_of};
ghost use Rattle.bb_memory_pool_machine.specs.PoolMachine.{Attach, Attaches, Detach, DetachedBy, Detaches, GiveBack, Gives, IsDetached, IsFlag, IsHolder, IsTaken, Misses, PoolScene, PoolStep, Takes, Try, TryAt, left_by};
ghost use Rattle.bb_memory_traits.specs.Chunk.{Chunk, IsSound, Region};
ghost use Rattle.bb_memory_traits.specs.PoolObject.{FillsRegion, IsHeld, IsPoolGeometry, PoolGeometry, at_most, pool_geometry};
ghost use Rattle.std.specs.Prelude.{List, drop, take, ℕ, ◌<◌, ◌↔◌, ◌≡◌};

/// The state of a bucket's flag. A flag is taken if it isn't free.
#[derive(Debug, Clone, Copy, PartialEq, Eq)]
pub enum Flag {
    /// No party has the bucket, and each may take it.
    Free,
    /// This party holds the bucket.
    HeldBy(u32),
    /// The bucket is in transit: this party has detached it, and no party has attached it or given
    /// it back since.
    DetachedBy(u32),
}

/// One atomic step over the pool's flags, one for each bucket.
#[derive(Debug, Clone, Copy, PartialEq, Eq)]
pub enum PoolStep {
    /// The party tries to take the next bucket of its pass, or begins a pass at bucket 0 if it is
    /// idle. The step isn't allowed if there is no bucket.
    Try { party: u32 },
    /// The party gives back a bucket, which only its holder may do.
    GiveBack { party: u32, bucket: u32 },
    /// The party, which is in no pass, tries to take one bucket of its choice.
    TryAt { party: u32, bucket: u32 },
    /// The party detaches a bucket, which only its holder may do, and only if there is another
    /// party. No party holds the bucket then, and its flag stays taken.
    Detach { party: u32, bucket: u32 },
    /// The party, which is in no pass, attaches a detached bucket, and holds it then.
    Attach { party: u32, bucket: u32 },
    /// The party, which is in no pass, tries to attach a bucket from the party `from`. If that party
    /// has detached the bucket, this one holds it then. Otherwise the step is a miss.
    AttachFrom { party: u32, bucket: u32, from: u32 },
    /// The party, which is in no pass, finds that the party `from` has detached a bucket with a
    /// token, and misses the bucket. The machine doesn't know which detached buckets have a token.
    FindToken { party: u32, bucket: u32, from: u32 },
    /// The party, which is in no pass, gives back a detached bucket.
    GiveBackDetached { party: u32, bucket: u32 },
}

/// The outcome of a step: what the step found, and what it did.
#[derive(Debug, Clone, Copy, PartialEq, Eq)]
pub enum PoolOutcome {
    /// The bucket's flag was free. It is now taken, and the party's pass has ended.
    Takes(u32),
    /// The bucket's flag was taken, and the party's pass moves to the next bucket.
    Loses(u32),
    /// The last bucket's flag was taken. The pass is refused, and has ended.
    RefusedAtLoss(u32),
    /// The bucket's holder gave it back, or it was detached and a party gave it back. Its flag is
    /// free.
    Gives(u32),
    /// The step isn't allowed, or names a party or a bucket that the machine doesn't have. Nothing
    /// changed.
    Passed,
    /// The party, which is in no pass, tried to take a bucket whose flag was taken, or to attach a
    /// bucket from a party that hadn't detached it, or had detached it with a token. Nothing
    /// changed.
    Misses(u32),
    /// The bucket's holder detached it. Its flag stays taken.
    Detaches(u32),
    /// The bucket was detached, and the party is now its holder. Its flag stays taken.
    Attaches(u32),
}

/// States what holds for each list of steps that any number of parties take over the flags of a
/// pool, from the opening with all flags free. The function does nothing: its contract is the
/// theorem.
///
/// As each clause holds for every list of steps, it holds for each beginning of a list. So what
/// holds for the list that a run leaves holds, by `every_step`, for a run's list at every step.
pub fn pool_theorem()
    // Each region has a geometry for each layout of at least one byte, with exactly the buckets
    // that it has room for.
    ensures some_geometry { (region : Region) (bucket : Layout) → 0 < bucket.size
        → (buckets : ℕ) × FillsRegion (pool_geometry region bucket buckets) }

    // What holds for every pool geometry holds for this one, and for this one with fewer buckets.
    ensures all_buckets { (geometry : PoolGeometry) → 0 < geometry.bucket.size
        → FillsRegion geometry → IsPoolGeometry geometry }
    ensures fewer_buckets { (geometry : PoolGeometry) (constant : ℕ)
        → IsPoolGeometry geometry → IsPoolGeometry (at_most constant geometry) }

    // The takings and returns are a run of the pool object from the empty list, for any requested
    // layouts within the bucket's size and alignment.
    ensures run { (scene : PoolScene) (steps : List PoolStep) (layouts : List Layout)
        → IsPoolGeometry scene.geometry → AreAsked scene.geometry steps layouts
        → (live : List Chunk) × IsPoolRun scene steps layouts live }

    // Each such run has a list at every step: the steps before are a run that leaves this list, and
    // the others are a run from it.
    ensures every_step { (scene : PoolScene) (steps : List PoolStep) (layouts : List Layout)
        (live : List Chunk) (k : ℕ) → IsPoolRun scene steps layouts live
        → (there : List Chunk) × IsPoolRun scene (take k steps) (take k layouts) there
        × (let history = history_of scene steps in
        IsCallRun scene.geometry there (drop k layouts) (drop k history) live) }

    // The taken flags are the buckets that are held in the list that such a run leaves.
    ensures taken { (scene : PoolScene) (steps : List PoolStep) (layouts : List Layout)
        (live : List Chunk) (bucket : ℕ) → IsPoolGeometry scene.geometry
        → IsPoolRun scene steps layouts live → bucket < scene.geometry.buckets
        → (IsTaken (left_by scene steps) bucket ↔ IsHeld scene.geometry live bucket) }

    // The list that such a run leaves is sound: its chunks are inside the region, and no two
    // overlap.
    ensures sound { (scene : PoolScene) (steps : List PoolStep) (layouts : List Layout)
        (live : List Chunk) → IsPoolGeometry scene.geometry
        → IsPoolRun scene steps layouts live → IsSound scene.geometry.region live }

    // A flag's holder is the party whose log holds the bucket.
    ensures holder { (scene : PoolScene) (steps : List PoolStep) (party bucket : ℕ)
        → (IsHolder (left_by scene steps) bucket party
        ↔ IsHeldAfter (log_of scene steps party) bucket) }

    // No two parties hold one bucket.
    ensures apart { (scene : PoolScene) (steps : List PoolStep) (party other bucket : ℕ)
        → IsHeldAfter (log_of scene steps party) bucket
        → IsHeldAfter (log_of scene steps other) bucket → party ≡ other }

    // A pass that is refused has, for each bucket, a step at which it lost that bucket, which was
    // then held in the run.
    ensures refused { (scene : PoolScene) (steps : List PoolStep) (party last bucket : ℕ)
        → IsPoolGeometry scene.geometry → IsRefusedAt (history_of scene steps) party last
        → bucket < scene.geometry.buckets → FoundHeld scene steps party last bucket }

    // A step loses only one bucket, so those steps differ for different buckets.
    ensures one_bucket { (scene : PoolScene) (steps : List PoolStep) (party step bucket other : ℕ)
        → LosesAt (history_of scene steps) party bucket step
        → LosesAt (history_of scene steps) party other step → bucket ≡ other }

    // At each miss the bucket was held in the run, by another party or by the same one.
    ensures missed { (scene : PoolScene) (steps : List PoolStep) (party bucket k : ℕ)
        → IsPoolGeometry scene.geometry → MissesAt (history_of scene steps) party bucket k
        → (bucket < scene.geometry.buckets) × IsTaken (left_by scene (take k steps)) bucket
        × IsHeldInRun scene (take k steps) bucket }

    // A detached bucket isn't held after any party's log.
    ensures detached_unheld { (scene : PoolScene) (steps : List PoolStep) (party bucket : ℕ)
        → IsDetached (left_by scene steps) bucket
        → ¬ IsHeldAfter (log_of scene steps party) bucket }

    // A machine with one party has no detached bucket, since no other party could attach it.
    ensures none_detached_alone { (scene : PoolScene) (steps : List PoolStep) (bucket : ℕ)
        → scene.parties ≡ 1 → ¬ IsDetached (left_by scene steps) bucket }

    // If a bucket is detached, some step has detached it.
    ensures was_detached { (scene : PoolScene) (steps : List PoolStep) (bucket : ℕ)
        → IsDetached (left_by scene steps) bucket → WasDetached (history_of scene steps) bucket }

    // A bucket is attached from a sender only while it is detached by that sender, whose log has
    // the step that detached it.
    ensures attached_from { (scene : PoolScene) (steps : List PoolStep) (party bucket from k : ℕ)
        → AttachesFromAt (history_of scene steps) party bucket from k
        → IsFlag (left_by scene (take k steps)) bucket (DetachedBy from)
        × WasDetached (log_of scene (take k steps) from) bucket }

    // A party that tries to attach a bucket from a sender misses it only while the bucket isn't
    // detached by that sender.
    ensures missed_from { (scene : PoolScene) (steps : List PoolStep) (party bucket from k : ℕ)
        → MissesFromAt (history_of scene steps) party bucket from k
        → (bucket < scene.geometry.buckets)
        × (¬ IsFlag (left_by scene (take k steps)) bucket (DetachedBy from)) }

    // A party finds a token of a bucket only while the bucket is detached by the sender that the
    // party named, whose log has the step that detached it.
    ensures found_token { (scene : PoolScene) (steps : List PoolStep) (party bucket from k : ℕ)
        → FindsTokenAt (history_of scene steps) party bucket from k
        → IsFlag (left_by scene (take k steps)) bucket (DetachedBy from)
        × WasDetached (log_of scene (take k steps) from) bucket }
{}
