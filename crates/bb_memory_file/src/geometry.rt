//! How many buckets, slots and parties a file has, and where their words are.
ghost use Rattle.bb_memory_file.specs.FileFormat.{IsGeometry, geometry_of, part_of, words_of};
ghost use Rattle.std.specs.Prelude.{IfSome, IsTrue, None, Some, if◌then◌else◌, nat_lt, ◌&&◌, ◌-◌, ◌<◌, ◌^◌, ◌↔◌, ◌≡◌};

/// The number of words before the first flag, of which word 0 never changes.
pub const WORDS_BEFORE: usize = 16;

/// The number of words from slot to slot: two cache lines, so that no two slots share one.
pub const WORDS_FROM_SLOT_TO_SLOT: usize = 16;

/// How many buckets, slots and parties a file has, and where their words begin in the file's row of
/// words. The first word of a kind is followed by the others, one after the other; only from slot to slot
/// there are `WORDS_FROM_SLOT_TO_SLOT` words.
#[derive(Debug, Clone, Copy, PartialEq, Eq)]
pub struct FileGeometry {
    pub buckets: u32,
    pub slots: u32,
    pub parties: u32,
    /// The number of the word of bucket 0's flag.
    pub first_flag: usize,
    /// The number of the word of party 0's life.
    pub first_life: usize,
    /// The number of the word of bucket 0's entry.
    pub first_entry: usize,
    /// The number of the word of slot 0.
    pub first_slot: usize,
}

/// Returns how many words this many words take if the next part begins at a multiple of 16 words.
fn part_of(words: u32) -> usize
    ensures { result ≡ part_of words }
{
    (words as usize + 15) / 16 * 16
}

impl FileGeometry {
    /// Returns the geometry of a file with these numbers of buckets, slots and parties, in which the
    /// words of each kind begin at a multiple of 16 words. Returns None if there are `u32::MAX` buckets
    /// or slots.
    pub fn of(buckets: u32, slots: u32, parties: u32) -> Option<FileGeometry>
        ensures geometry { result ≡ (if nat_lt buckets (2 ^ 32 - 1) && nat_lt slots (2 ^ 32 - 1)
            then Some (geometry_of buckets slots parties) else None) }
        ensures row { IfSome result (λ geometry. IsGeometry geometry (words_of geometry)) }
    {
        if buckets == u32::MAX || slots == u32::MAX {
            return None;
        }
        let first_flag = WORDS_BEFORE;
        let first_life = first_flag + part_of(buckets);
        let first_entry = first_life + part_of(parties);
        let first_slot = first_entry + part_of(buckets);
        Some(FileGeometry {
            buckets,
            slots,
            parties,
            first_flag,
            first_life,
            first_entry,
            first_slot,
        })
    }

    /// Returns how many words the row of a file of this geometry has, up to the last word of its slots.
    pub fn words(&self) -> usize
        requires { words_of self.now < 2 ^ 64 }
        ensures { result ≡ words_of self.now }
    {
        self.first_slot + WORDS_FROM_SLOT_TO_SLOT * self.slots as usize
    }

    /// Returns whether a row of this many words has room for the words of this geometry, in the order
    /// of its fields, and whether its numbers fit the words.
    pub fn is_in(&self, words: usize) -> bool
        ensures { IsTrue result ↔ IsGeometry self.now words }
    {
        self.buckets < u32::MAX
            && self.slots < u32::MAX
            && self.first_flag == WORDS_BEFORE
            && self.first_life >= self.first_flag
            && self.first_life - self.first_flag >= self.buckets as usize
            && self.first_entry >= self.first_life
            && self.first_entry - self.first_life >= self.parties as usize
            && self.first_slot >= self.first_entry
            && self.first_slot - self.first_entry >= self.buckets as usize
            && words >= self.first_slot
            && words - self.first_slot >= WORDS_FROM_SLOT_TO_SLOT * self.slots as usize
    }
}
