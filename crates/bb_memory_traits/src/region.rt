//! The bytes of a region, lent chunk by chunk.
ghost use Rattle.bb_memory_traits.specs.Chunk.{AreApart, Chunk, IsInside, IsRegion, IsSound, region_at};
ghost use Rattle.bb_memory_traits.specs.HeldBytes.{ChangesOnly, HeldBytes, ZeroesOnly, bytes_in, held_region};
ghost use Rattle.bb_memory_traits.specs.Lending.{LendsChunk, written};
ghost use Rattle.std.specs.Borrow.{sem};
ghost use Rattle.std.specs.Prelude.{IsTrue, List, Some, [], length, map, slice_get, slice_set, vec_len, ℕ, ◌++◌, ◌+◌, ◌<◌, ◌↔◌, ◌∷◌, ◌≡◌, ◌≢◌, ◌≤◌};

use crate::layout::Chunk;
use std::marker::Model;

/// The memory that an allocator divides into chunks: bytes at consecutive places, from a start on.
/// A region has one owner.
///
/// Example: `comments::region` of `crates/examples`.
#[derive(Drop)]
pub struct Region {
    start: usize,
    bytes: Vec<u8>,
}

impl Model for Region {
    ghost use Rattle.bb_memory_traits.specs.Chunk.{IsRegion, region_at};
    ghost use Rattle.bb_memory_traits.specs.HeldBytes.{HeldBytes};
    ghost use Rattle.std.specs.Prelude.{vec_len};

    ghost Value = { HeldBytes };

    ghost view = { λ r. record { start = r.start; bytes = r.bytes.items } };

    ghost invariant = { λ r. IsRegion (region_at r.start (vec_len r.bytes)) };
}

impl Region {
    /// Makes a region of these bytes, the first of which is at `start`. The start has to be greater
    /// than 0, and start plus length at most `usize::MAX`; [`Region::can_make`] tests both.
    pub fn new(start: usize, bytes: Vec<u8>) -> Region
        requires { IsRegion (region_at start (vec_len bytes)) }
        ensures { result ≡ record { start = start; bytes = bytes.items } }
    {
        Region { start, bytes }
    }

    /// Returns whether there is a region of `len` bytes from `start` on: the start is greater than
    /// 0, and start plus length is at most `usize::MAX`.
    pub fn can_make(start: usize, len: usize) -> bool
        ensures { IsTrue result ↔ IsRegion (region_at start len) }
    {
        start != 0 && start.checked_add(len).is_some()
    }

    /// Returns the place of the first byte.
    #[inline]
    pub fn start_address(&self) -> usize
        ensures value { result ≡ self.now.start }
        ensures is_region { IsRegion (held_region self.now) }
    {
        self.start
    }

    /// Returns the size in bytes.
    #[inline]
    pub fn size(&self) -> usize
        ensures { result ≡ length self.now.bytes }
    {
        self.bytes.len()
    }

    /// Returns all bytes, from the start on.
    #[inline]
    pub fn bytes(&self) -> &[u8]
        ensures { result.now ≡ self.now.bytes }
    {
        self.bytes.as_slice()
    }

    /// Returns the bytes of a chunk, which has to be inside the region.
    #[inline]
    pub fn chunk(&self, c: Chunk) -> &[u8]
        requires { IsInside (held_region self.now) c }
        ensures { result.now ≡ bytes_in self.now c }
    {
        let from = c.place() - self.start;
        &self.bytes.as_slice()[from..from + c.len()]
    }

    /// Lends the bytes of a chunk, which has to be inside the region. The region then has the bytes
    /// that are written there, and every other byte is unchanged.
    #[inline]
    pub fn chunk_mut(&mut self, c: Chunk) -> &mut [u8]
        requires { IsInside (held_region self.old) c }
        ensures* writes_back { sem 𝓛 (LendsChunk self.entry c result) }
        ensures value { result.now ≡ bytes_in self.old c }
        ensures len { length result.now ≡ c.len }
    {
        let from = c.place() - self.start;
        self.bytes.slice_mut(from..from + c.len())
    }

    /// Writes a whole chunk, which has to be inside the region and as long as the bytes. Every
    /// other byte is unchanged, and so are the bytes of every chunk that is apart from this one.
    pub fn write(&mut self, c: Chunk, bytes: &[u8])
        requires inside { IsInside (held_region self.old) c }
        requires len { length bytes.now ≡ c.len }
        ensures changes { ChangesOnly self.old self.new c bytes.now }
        ensures written { bytes_in self.new c ≡ bytes.now }
        ensures apart { (other : Chunk) → IsInside (held_region self.old) other → AreApart c other
            → bytes_in self.new other ≡ bytes_in self.old other }
        ensures region { held_region self.new ≡ held_region self.old }
        ensures others { (live : List Chunk) (i k : ℕ) (other : Chunk)
            → IsSound (held_region self.old) live → slice_get live i ≡ Some c
            → i ≢ k → slice_get live k ≡ Some other
            → bytes_in self.new other ≡ bytes_in self.old other }
        ensures contents { (live : List Chunk) (i : ℕ) → IsSound (held_region self.old) live
            → slice_get live i ≡ Some c
            → map (bytes_in self.new) live ≡ slice_set (map (bytes_in self.old) live) i bytes.now }
        ensures given { (live : List Chunk) → IsSound (held_region self.old) (live ++ c ∷ [])
            → map (bytes_in self.new) (live ++ c ∷ [])
            ≡ map (bytes_in self.old) live ++ bytes.now ∷ [] }
        ensures extended { (place n : ℕ) → self.old.start ≤ place → place + n ≡ c.place
            → bytes_in self.new (record { place = place; len = n + c.len })
            ≡ bytes_in self.old (record { place = place; len = n }) ++ bytes.now }
    {
        self.chunk_mut(c).copy_from_slice(bytes);
    }

    /// Zeroes the bytes of a chunk, which has to be inside the region. Every other byte is
    /// unchanged, and so are the bytes of every chunk that is apart from this one.
    #[inline]
    pub fn zero(&mut self, c: Chunk)
        requires { IsInside (held_region self.old) c }
        ensures changes { ZeroesOnly self.old self.new c }
        ensures apart { (other : Chunk) → IsInside (held_region self.old) other → AreApart c other
            → bytes_in self.new other ≡ bytes_in self.old other }
        ensures region { held_region self.new ≡ held_region self.old }
        ensures others { (live : List Chunk) (i k : ℕ) (other : Chunk)
            → IsSound (held_region self.old) live → slice_get live i ≡ Some c
            → i ≢ k → slice_get live k ≡ Some other
            → bytes_in self.new other ≡ bytes_in self.old other }
    {
        self.chunk_mut(c).fill(0);
    }
}

/// States in plain words what [`Region::chunk_mut`] promises about the bytes that it lends. If
/// bytes of the chunk's length are written there, the chunk has those bytes, and every other byte
/// is as it was. So each chunk of the region that is apart from this one keeps its bytes. The
/// function does nothing: its contract is the law.
pub fn region_law()
    ensures written { (held : HeldBytes) (chunk : Chunk) (bytes : List ℕ)
        → IsInside (held_region held) chunk → length bytes ≡ chunk.len
        → ChangesOnly held (written held chunk bytes) chunk bytes }
    ensures others { (old new : HeldBytes) (chunk other : Chunk) (bytes : List ℕ)
        → ChangesOnly old new chunk bytes → IsInside (held_region old) chunk
        → IsInside (held_region old) other → AreApart chunk other
        → bytes_in new other ≡ bytes_in old other }
{}

/// States what the chunks of a sound list contain after one of them is written: that chunk has the
/// new bytes, and the others are unchanged. The function does nothing: its contract is the law.
pub fn live_bytes_law()
    ensures inside { (held : HeldBytes) (live : List Chunk) (i : ℕ) (chunk : Chunk)
        → IsSound (held_region held) live → slice_get live i ≡ Some chunk
        → IsInside (held_region held) chunk }
    ensures apart { (held : HeldBytes) (live : List Chunk) (i j : ℕ) (one other : Chunk)
        → IsSound (held_region held) live → slice_get live i ≡ Some one
        → slice_get live j ≡ Some other → i ≢ j
        → AreApart one other }
    ensures others { (old new : HeldBytes) (live : List Chunk) (i k : ℕ)
        (chunk other : Chunk) (bytes : List ℕ)
        → IsSound (held_region old) live → slice_get live i ≡ Some chunk
        → ChangesOnly old new chunk bytes → i ≢ k → slice_get live k ≡ Some other
        → bytes_in new other ≡ bytes_in old other }
    ensures contents { (old new : HeldBytes) (live : List Chunk) (i : ℕ)
        (chunk : Chunk) (bytes : List ℕ)
        → IsSound (held_region old) live → slice_get live i ≡ Some chunk
        → ChangesOnly old new chunk bytes
        → map (bytes_in new) live ≡ slice_set (map (bytes_in old) live) i bytes }
{}

/// States that a chunk's bytes are those of its parts, one after the other. The function does
/// nothing: its contract is the law.
pub fn split_bytes_law()
    ensures { (held : HeldBytes) (place n m : ℕ) → held.start ≤ place
        → bytes_in held (record { place = place; len = n + m })
        ≡ bytes_in held (record { place = place; len = n })
        ++ bytes_in held (record { place = place + n; len = m }) }
{}
