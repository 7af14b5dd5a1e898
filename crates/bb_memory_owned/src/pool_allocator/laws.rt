//! Laws that state in plain words what the definitions of the pool object and of its geometry mean.
ghost use Rattle.bb_memory_index_set.specs.IndexSets.{Has};
ghost use Rattle.bb_memory_owned.specs.Pool.{HoldsPlace, IsPool, Pool, StandsFor, fresh_pool};
ghost use Rattle.bb_memory_traits.specs.Chunk.{Chunk, IsInside, IsRegion, Region, first_place, region_end};
ghost use Rattle.bb_memory_traits.specs.Geometry.{AreAStrideApart, MayBeCut};
ghost use Rattle.bb_memory_traits.specs.Object.{AnswersAll, GivesOnly, IsRun, ResizableStep, Step};
ghost use Rattle.bb_memory_traits.specs.PoolObject.{IsCut, IsPoolGeometry, IsWithin, MayAllocate, MayGrow, MayShrink, PoolGeometry, at_most, bucket_place, pool_object, stride};
ghost use Rattle.bb_memory_traits.specs.declared.allocator.AllocationError.{AllocationError};
ghost use Rattle.bb_memory_traits.specs.declared.allocator.AllocationGrowError.{AllocationGrowError};
ghost use Rattle.bb_memory_traits.specs.declared.allocator.AllocationShrinkError.{AllocationShrinkError};
ghost use Rattle.bb_memory_traits.specs.declared.allocator.Command.{Command};
ghost use Rattle.bb_memory_traits.specs.declared.allocator.Reply.{Reply};
ghost use Rattle.bb_memory_traits.specs.declared.layout.Layout.{Layout};
ghost use Rattle.std.specs.Prelude.{All, AllPairs, Err, IsOk, List, Ok, Result, Some, [], length, remove, slice_get, ℕ, ◌%◌, ◌+◌, ◌-◌, ◌/◌, ◌<◌, ◌^◌, ◌≡◌, ◌≢◌, ◌≤◌};

/// States what the definition of a pool's geometry means for every region and every layout of a
/// bucket. There is only one way to cut a region, and it can always be cut into buckets of at least
/// one byte. Each bucket begins at a multiple of its alignment, and ends, with its whole stride, at
/// or before the beginning of the next one. The function does nothing: its contract is the law.
pub fn pool_geometry_law()
    ensures some_cut { (region : Region) (bucket : Layout) → 0 < bucket.size
        → (geometry : PoolGeometry) × IsCut region bucket geometry }
    ensures one_cut { (region : Region) (bucket : Layout) (one other : PoolGeometry)
        → IsCut region bucket one → IsCut region bucket other → one ≡ other }

    // A cut, or the first buckets of one, is a pool's geometry.
    ensures is_geometry { (region : Region) (bucket : Layout) (geometry : PoolGeometry)
        → 0 < bucket.size → IsCut region bucket geometry → IsPoolGeometry geometry }
    ensures at_most { (geometry : PoolGeometry) (constant : ℕ)
        → IsPoolGeometry geometry → IsPoolGeometry (at_most constant geometry) }

    // Places of buckets.
    ensures aligned { (geometry : PoolGeometry) (i : ℕ)
        → bucket_place geometry i % geometry.bucket.align ≡ 0 }
    ensures apart { (geometry : PoolGeometry) (i j : ℕ) → i < j
        → bucket_place geometry i + stride geometry.bucket ≤ bucket_place geometry j }
    ensures wide_enough { (bucket : Layout) → bucket.size ≤ stride bucket }
{}

/// States what the definition of the pool object means for every geometry and every list of
/// commands. There is an answer to each request: either a chunk, or a refusal with the one error
/// that applies. An allocated chunk begins at a multiple of the requested alignment and of the
/// bucket's, has exactly the requested size, and no live chunk has its place. There is exactly one
/// answer to each resize. After a chunk was given back, the next request that fits a bucket isn't
/// refused. In each live list that a pool stands for, every chunk begins at a multiple of the
/// bucket's alignment, and no two begin less than a stride apart. Each run from such a list, with
/// resizes or without, leads to another such list, which is sound. The function does nothing: its
/// contract is the law.
pub fn pool_object_law()
    // Answers to requests.
    ensures some_answer { (geometry : PoolGeometry) → AnswersAll (pool_object geometry).base }
    ensures one_cause { (geometry : PoolGeometry) (live : List Chunk) (layout : Layout)
        (one other : AllocationError)
        → MayAllocate geometry live layout (Err one) → MayAllocate geometry live layout (Err other)
        → one ≡ other }
    ensures given_or_refused { (geometry : PoolGeometry) (live : List Chunk) (layout : Layout)
        (chunk : Chunk) (error : AllocationError)
        → MayAllocate geometry live layout (Ok chunk)
        → ¬ MayAllocate geometry live layout (Err error) }

    // Allocated chunks.
    ensures aligned { (geometry : PoolGeometry) → GivesOnly (pool_object geometry).base
        (λ layout chunk. chunk.place % layout.align ≡ 0) }
    ensures bucket_aligned { (geometry : PoolGeometry) → GivesOnly (pool_object geometry).base
        (λ layout chunk. chunk.place % geometry.bucket.align ≡ 0) }
    ensures exact_size { (geometry : PoolGeometry) → GivesOnly (pool_object geometry).base
        (λ layout chunk. chunk.len ≡ layout.size) }
    ensures new_place { (geometry : PoolGeometry) (live : List Chunk) (layout : Layout)
        (chunk : Chunk)
        → MayAllocate geometry live layout (Ok chunk)
        → All (λ other. other.place ≢ chunk.place) live }
    ensures inside { (geometry : PoolGeometry) (live : List Chunk) (layout : Layout)
        (chunk : Chunk)
        → IsPoolGeometry geometry → MayAllocate geometry live layout (Ok chunk)
        → IsInside geometry.region chunk }

    // Answers to resizes.
    ensures some_grow { (bucket : Layout) (place : ℕ) (old new : Layout)
        → (answer : Result Chunk AllocationGrowError) × MayGrow bucket place old new answer }
    ensures one_grow { (bucket : Layout) (place : ℕ) (old new : Layout)
        (one other : Result Chunk AllocationGrowError)
        → MayGrow bucket place old new one → MayGrow bucket place old new other
        → one ≡ other }
    ensures some_shrink { (bucket : Layout) (place : ℕ) (old new : Layout)
        → (answer : Result Chunk AllocationShrinkError) × MayShrink bucket place old new answer }
    ensures one_shrink { (bucket : Layout) (place : ℕ) (old new : Layout)
        (one other : Result Chunk AllocationShrinkError)
        → MayShrink bucket place old new one → MayShrink bucket place old new other
        → one ≡ other }

    // The lists that a pool stands for.
    ensures fresh { (geometry : PoolGeometry) → StandsFor (fresh_pool geometry) [] }
    ensures aligned_places { (pool : Pool) (live : List Chunk) → StandsFor pool live
        → All (λ chunk. chunk.place % pool.geometry.bucket.align ≡ 0) live }
    ensures stride_apart { (pool : Pool) (live : List Chunk) → StandsFor pool live
        → AllPairs (λ one other. AreAStrideApart pool.geometry.bucket one.place other.place) live }
    ensures release_makes_room { (pool : Pool) (live : List Chunk) (position : ℕ) (layout : Layout)
        (answer : Result Chunk AllocationError)
        → IsPool pool → StandsFor pool live → position < length live
        → IsWithin pool.geometry.bucket layout
        → MayAllocate pool.geometry (remove live position) layout answer
        → IsOk answer }
    ensures keeps_sound { (pool : Pool) (live new : List Chunk)
        (commands : List Command) (replies : List Reply)
        → IsPool pool → StandsFor pool live
        → IsRun (ResizableStep (pool_object pool.geometry)) live commands replies new
        → (left : Pool) × IsPool left × (left.geometry ≡ pool.geometry) × StandsFor left new }
    ensures keeps_sound_base { (pool : Pool) (live new : List Chunk)
        (commands : List Command) (replies : List Reply)
        → IsPool pool → StandsFor pool live
        → IsRun (Step (pool_object pool.geometry).base) live commands replies new
        → (left : Pool) × IsPool left × (left.geometry ≡ pool.geometry) × StandsFor left new }
{}

/// States that each chunk of a list that a pool stands for may be given back. A place is held
/// exactly if a held bucket begins there. The function does nothing: its contract is the law.
pub fn pool_held_law()
    ensures listed { (pool : Pool) (live : List Chunk) (position : ℕ) (chunk : Chunk)
        → StandsFor pool live → slice_get live position ≡ Some chunk
        → HoldsPlace pool chunk.place }
    ensures bucket { (pool : Pool) (place : ℕ) → HoldsPlace pool place
        → (i : ℕ) × Has pool.held i × (place ≡ bucket_place pool.geometry i) }
    ensures held { (pool : Pool) (place i : ℕ) → Has pool.held i
        → place ≡ bucket_place pool.geometry i → HoldsPlace pool place }
{}

/// States the number of buckets of a region as a quotient, and with it when the region may be cut.
/// The function does nothing: its contract is the law.
pub fn pool_count_law()
    ensures count { (region : Region) (bucket : Layout) (geometry : PoolGeometry) → 0 < bucket.size
        → IsCut region bucket geometry
        → geometry.buckets ≡ (region_end region - first_place region bucket) / stride bucket }
    ensures may_be_cut { (region : Region) (bucket : Layout) → IsRegion region
        → first_place region bucket < 2 ^ 64 → 0 < bucket.size
        → (region_end region - first_place region bucket) / stride bucket < 2 ^ 32 - 1
        → MayBeCut region bucket }
{}
