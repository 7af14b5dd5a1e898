//! Laws of lists, for a user whose contracts are about the contents of a vector. Each law is a
//! function that does nothing: a call in a body brings its clauses into scope there.
ghost use Rattle.std.specs.Prelude.{Bool, IsSome, List, Some, [], if◌then◌else◌, length, map, position, remove, slice_get, slice_index_or, slice_set, sum, sum_by, true, ℕ, ◌++◌, ◌+◌, ◌-◌, ◌<◌, ◌==◌, ◌∷◌, ◌≡◌, ◌≤◌};

/// States laws of appending one more item.
pub fn append_law<T>()
    ensures last { (items : List T) (item : T)
        → slice_get (items ++ item ∷ []) (length items) ≡ Some item }
    ensures others { (items : List T) (item : T) (position : ℕ) → position < length items
        → slice_get (items ++ item ∷ []) position ≡ slice_get items position }
    ensures length { (items : List T) (item : T)
        → length (items ++ item ∷ []) ≡ length items + 1 }
    ensures taken_back { (items : List T) (item : T)
        → remove (items ++ item ∷ []) (length items) ≡ items }
{}

/// States laws of removing an item: those after it move up.
pub fn remove_law<T>()
    ensures before { (items : List T) (position other : ℕ) → other < position
        → slice_get (remove items position) other ≡ slice_get items other }
    ensures behind { (items : List T) (position other : ℕ)
        → position ≤ other → position < length items
        → slice_get (remove items position) other ≡ slice_get items (other + 1) }
    ensures length { (items : List T) (position : ℕ) → position < length items
        → length (remove items position) + 1 ≡ length items }
    ensures found { (items : List T) (position : ℕ) (item : T)
        → slice_get items position ≡ Some item
        → length (remove items position) + 1 ≡ length items }
{}

/// States laws of the sum of a measure over the items: a size, or 1 for each item that counts.
#[tactic(auto, using(std::proofs::lemmas::Grind::common_steps, std::proofs::lemmas::Option::gets))]
pub fn sum_law<T>()
    ensures appended { (measure : T → ℕ) (items : List T) (item : T)
        → sum_by measure (items ++ item ∷ []) ≡ sum_by measure items + measure item }
    ensures removed { (measure : T → ℕ) (items : List T) (position : ℕ) (item : T)
        → slice_get items position ≡ Some item
        → sum_by measure (remove items position) + measure item ≡ sum_by measure items }
    ensures rest { (measure : T → ℕ) (items : List T) (position : ℕ) (item : T)
        → slice_get items position ≡ Some item
        → sum_by measure (remove items position) ≡ sum_by measure items - measure item }
    ensures set { (measure : T → ℕ) (items : List T) (position : ℕ) (old item : T)
        → slice_get items position ≡ Some old
        → (sum_by measure (slice_set items position item) + measure old
        ≡ sum_by measure items + measure item) }
    ensures within { (measure : T → ℕ) (items : List T) (position : ℕ) (item : T)
        → slice_get items position ≡ Some item → measure item ≤ sum_by measure items }
{}

/// States laws of a list whose items are mapped to others.
#[tactic(auto, using(crate::specs::Hints::parts_of_lists))]
pub fn map_law<T, U>()
    ensures appended { (of : T → U) (items : List T) (item : T)
        → map of (items ++ item ∷ []) ≡ map of items ++ of item ∷ [] }
    ensures removed { (of : T → U) (items : List T) (position : ℕ)
        → map of (remove items position) ≡ remove (map of items) position }
    ensures set { (of : T → U) (items : List T) (position : ℕ) (item : T)
        → map of (slice_set items position item) ≡ slice_set (map of items) position (of item) }
    ensures there { (of : T → U) (items : List T) (position : ℕ) (item : T)
        → slice_get items position ≡ Some item
        → slice_get (map of items) position ≡ Some (of item) }
    ensures length { (of : T → U) (items : List T) → length (map of items) ≡ length items }
{}

/// Items that belong to numbered groups, with a measure to be summed. `group_law` is about such
/// items.
pub trait Grouped {
    /// The number of the item's group.
    ghost group: { Self → ℕ };

    /// The item's measure.
    ghost measure: { Self → ℕ };
}

/// States that the sum of the measures of all items is the sum of the sums of the groups, and at
/// most the sum of the bounds of the groups.
pub fn group_law<T: Grouped>()
    ensures together { (items : List T) (sums : List ℕ)
        → ((number : ℕ) → (sum_by (λ item. if T.group item == number then T.measure item else 0) items
        ≡ slice_index_or sums number 0)) → sum_by T.measure items ≡ sum sums }
    ensures within { (items : List T) (bounds : List ℕ)
        → ((number : ℕ) → sum_by (λ item. if T.group item == number then T.measure item else 0) items
        ≤ slice_index_or bounds number 0) → sum_by T.measure items ≤ sum bounds }
{}

/// States laws of the first position of an item that passes a test.
pub fn position_law<T>()
    ensures there { (test : T → Bool) (items : List T) (index : ℕ) (item : T)
        → slice_get items index ≡ Some item → test item ≡ true → IsSome (position test items) }
    ensures last { (test : T → Bool) (items : List T) (item : T) → test item ≡ true
        → IsSome (position test (items ++ item ∷ [])) }
    ensures others { (test : T → Bool) (items : List T) (item : T) → IsSome (position test items)
        → position test (items ++ item ∷ []) ≡ position test items }
{}
