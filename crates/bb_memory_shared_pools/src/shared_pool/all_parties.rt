//! The law of parties of a shared pool that met.
ghost use Rattle.bb_memory_pool_machine.specs.PoolLogs.{AreAsked, HasStepped, IsPoolRun, WasAttachedFrom, WasDetached, history_of, log_of};
ghost use Rattle.bb_memory_pool_machine.specs.PoolMachine.{IsDetached, PoolScene, left_by};
ghost use Rattle.bb_memory_shared_pools.specs.SharedPool.{IsSharedScene, PoolParty, refused_pass};
ghost use Rattle.bb_memory_shared_pools.specs.SharedPoolMeetings.{HasTaker, HaveMet, HoldApart, IsHeldByOne, IsHeldOrDetached, TookOne, WasDetachedByOne};
ghost use Rattle.bb_memory_traits.specs.Chunk.{Chunk, IsSound};
ghost use Rattle.bb_memory_traits.specs.PoolObject.{IsHeld};
ghost use Rattle.bb_memory_traits.specs.declared.layout.Layout.{Layout};
ghost use Rattle.std.specs.Prelude.{All, Any, Contains, List, Some, length, slice_get, true, ℕ, ◌<◌, ◌↔◌, ◌≡◌};

/// States what holds for parties of a shared pool that met ([`meet_all`](super::SharedPoolAllocator::meet_all)), above all if
/// these are all parties of the pool, whatever the threads did. The function does nothing: its contract is the law.
///
/// A meeting has one list of steps from the opening, each of which the machine allows (`met.1.agree.steps`). In it, the steps
/// of each party that met are exactly its log. If all parties of the pool met, the list has no other steps.
pub fn shared_pool_meeting_law()
    // The takings and returns in that list are a run of the pool object from the empty list, for any requested layouts that fit
    // the bucket's size and alignment.
    ensures run { (scene : PoolScene) (parties : List PoolParty) (met : HaveMet scene parties)
        (layouts : List Layout) → let steps = met.1.agree.steps in
        IsSharedScene scene → AreAsked scene.geometry steps layouts
        → (live : List Chunk) × IsPoolRun scene steps layouts live }

    // The list of chunks that the run leaves is sound: they are inside the region, and no two overlap.
    ensures sound { (scene : PoolScene) (parties : List PoolParty) (met : HaveMet scene parties)
        (layouts : List Layout) (live : List Chunk) → IsSharedScene scene
        → IsPoolRun scene met.1.agree.steps layouts live → IsSound scene.geometry.region live }

    // The list of chunks has a bucket exactly if the bucket's flag was taken when they met.
    ensures flags { (scene : PoolScene) (parties : List PoolParty) (met : HaveMet scene parties)
        (layouts : List Layout) (live : List Chunk) (bucket : ℕ) → IsSharedScene scene
        → IsPoolRun scene met.1.agree.steps layouts live → bucket < scene.geometry.buckets
        → (slice_get met.0 bucket ≡ Some true ↔ IsHeld scene.geometry live bucket) }

    // If all parties met, the list of chunks has a bucket exactly if one of them holds it or it is detached.
    ensures held { (scene : PoolScene) (parties : List PoolParty) (met : HaveMet scene parties)
        (layouts : List Layout) (live : List Chunk) (bucket : ℕ) → IsSharedScene scene
        → length parties ≡ scene.parties
        → IsPoolRun scene met.1.agree.steps layouts live → bucket < scene.geometry.buckets
        → (IsHeld scene.geometry live bucket
        ↔ IsHeldOrDetached scene met.1.agree.steps parties bucket) }

    // No party that met holds a detached bucket. If all parties met, one of them has detached it. So if none of them has
    // detached a bucket, its flag is taken exactly if one of them holds it.
    ensures detached { (scene : PoolScene) (parties : List PoolParty) (met : HaveMet scene parties)
        (bucket : ℕ) → IsDetached (left_by scene met.1.agree.steps) bucket
        → ¬ IsHeldByOne parties bucket }
    ensures was_detached { (scene : PoolScene) (parties : List PoolParty) (met : HaveMet scene parties)
        (bucket : ℕ) → length parties ≡ scene.parties
        → IsDetached (left_by scene met.1.agree.steps) bucket → WasDetachedByOne parties bucket }

    // If one of these parties attached a bucket by its number from another one, then the other one's log has detached the
    // bucket.
    ensures sent { (scene : PoolScene) (parties : List PoolParty) (met : HaveMet scene parties)
        (receiver sender : PoolParty) (bucket : ℕ) → Contains parties receiver
        → Contains parties sender → WasAttachedFrom receiver.log bucket sender.number
        → WasDetached sender.log bucket }

    // The steps of each party in the list of steps are its log.
    ensures logged { (scene : PoolScene) (parties : List PoolParty) (met : HaveMet scene parties)
        → All (λ party. log_of scene met.1.agree.steps party.number ≡ party.log) parties }

    // No bucket is held by two of them.
    ensures apart { (scene : PoolScene) (parties : List PoolParty) → HaveMet scene parties
        → HoldApart parties }

    // If all parties met, each step is in the log of one of them: nobody else made a step.
    ensures nobody_else { (scene : PoolScene) (parties : List PoolParty)
        (met : HaveMet scene parties) → length parties ≡ scene.parties
        → All (λ entry. Any (λ party. Contains party.log entry) parties)
        (history_of scene met.1.agree.steps) }

    // If one of these parties has made a step that isn't a lost attach by number, one of them has taken a bucket.
    ensures one_took { (scene : PoolScene) (parties : List PoolParty) (one : PoolParty)
        → HaveMet scene parties → length parties ≡ scene.parties → Contains parties one
        → HasStepped one.log → HasTaker scene parties }

    // A pass that is refused takes no bucket.
    ensures refused_took_none { (buckets number : ℕ) → ¬ TookOne (refused_pass buckets number) }
{}
