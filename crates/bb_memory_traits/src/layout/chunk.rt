//! Chunks, which allocators return.
ghost use Rattle.bb_memory_traits.specs.BumpObject.{chunk_at_or_after};
ghost use Rattle.bb_memory_traits.specs.Chunk.{AreApart, Chunk, IsChunk, IsInside, IsPart, IsSound, Region, chunk_end};
ghost use Rattle.bb_memory_traits.specs.HeldBytes.{first_part, part_behind};
ghost use Rattle.std.specs.Option.{SomeIff};
ghost use Rattle.std.specs.Prelude.{All, IfSome, IsTrue, List, [], ℕ, ◌%◌, ◌++◌, ◌<◌, ◌↔◌, ◌∷◌, ◌≡◌, ◌≤◌};

use super::Layout;
use std::marker::Model;

/// A range of addresses, from a place up to an end, the end excluded. The place isn't 0, and the
/// end is at most `usize::MAX`.
#[derive(Debug, Clone, Copy, PartialEq, Eq)]
pub struct Chunk {
    place: usize,
    len: usize,
}

impl Model for Chunk {
    ghost use Rattle.bb_memory_traits.specs.Chunk.{Chunk, IsChunk};

    ghost Value = { Chunk };

    ghost view = { λ chunk. record { place = chunk.place; len = chunk.len } };

    ghost invariant = { λ chunk. IsChunk (record { place = chunk.place; len = chunk.len }) };

    ghost inverse = { λ chunk. record { place = chunk.place; len = chunk.len } };
}

impl Chunk {
    /// Makes the chunk of a place and a length in bytes. Returns `None` exactly if the place is 0
    /// or place plus length exceeds `usize::MAX`.
    #[inline(always)]
    pub fn new(place: usize, len: usize) -> Option<Chunk>
        ensures { let chunk : Chunk = record { place = place; len = len } in
            SomeIff result (IsChunk chunk) chunk }
    {
        let _end = place.checked_add(len)?;
        if place == 0 {
            return None;
        }
        Some(Chunk { place, len })
    }

    /// Makes the chunk of a place and a length in bytes, without checking them. The place must not
    /// be 0, and place plus length has to be at most `usize::MAX`: [`Chunk::new`] tests both.
    #[inline(always)]
    pub fn new_unchecked(place: usize, len: usize) -> Chunk
        requires { let chunk : Chunk = record { place = place; len = len } in IsChunk chunk }
        ensures { let chunk : Chunk = record { place = place; len = len } in result ≡ chunk }
    {
        Chunk { place, len }
    }

    /// Returns the chunk that a layout gets at or after `v`: `layout.size()` bytes at the least
    /// multiple of `layout.align()` that is at least `v`. Returns `None` exactly if that chunk
    /// would end after `end`. `v` must not be 0.
    #[inline(always)]
    pub fn at_or_after(v: usize, layout: Layout, end: usize) -> Option<Chunk>
        requires { 0 < v }
        ensures value { SomeIff result
            (chunk_end (chunk_at_or_after v layout) ≤ end) (chunk_at_or_after v layout) }
        ensures above { IfSome result (λ chunk. v ≤ chunk.place) }
        ensures aligned { IfSome result (λ chunk. chunk.place % layout.align ≡ 0) }
    {
        // The address before the least place. With this mask, the place takes fewer instructions
        // than rounding `v` up.
        let before = (v - 1) | (layout.align() - 1);
        if layout.size() >= end.saturating_sub(before) {
            return None;
        }
        Some(Chunk::new_unchecked(before + 1, layout.size()))
    }

    /// Returns the place, which isn't 0.
    #[inline(always)]
    pub fn place(&self) -> usize
        ensures value { result ≡ self.now.place }
        ensures not_zero { 0 < result }
    {
        self.place
    }

    /// Returns the length in bytes, which may be 0.
    #[inline(always)]
    pub fn len(&self) -> usize
        ensures { result ≡ self.now.len }
    {
        self.len
    }

    /// Returns whether the chunk has no bytes.
    #[inline(always)]
    pub fn is_empty(&self) -> bool
        ensures { IsTrue result ↔ (self.now.len ≡ 0) }
    {
        self.len == 0
    }

    /// Returns the end: place plus length.
    #[inline(always)]
    pub fn end(&self) -> usize
        ensures { result ≡ chunk_end self.now }
    {
        self.place + self.len
    }

    /// Returns the first `size` bytes of the chunk, which has to have at least that many.
    ///
    /// Example: `comments::parts_of_a_chunk` of `crates/examples`.
    #[inline]
    pub fn first(&self, size: usize) -> Chunk
        requires { size ≤ self.now.len }
        ensures { result ≡ first_part size self.now }
    {
        Chunk {
            place: self.place,
            len: size,
        }
    }

    /// Returns the part after the first `size` bytes of the chunk, which has to have at least that
    /// many.
    #[inline]
    pub fn behind(&self, size: usize) -> Chunk
        requires { size ≤ self.now.len }
        ensures { result ≡ part_behind size self.now }
    {
        Chunk {
            place: self.place + size,
            len: self.len - size,
        }
    }
}

/// States that the last chunk of a sound list is apart from all the others. The function does
/// nothing: its contract is the law.
pub fn given_law()
    ensures given { (region : Region) (live : List Chunk) (chunk : Chunk)
        → IsSound region (live ++ chunk ∷ []) → All (AreApart chunk) live }
    ensures last_two { (region : Region) (live : List Chunk) (one other : Chunk)
        → IsSound region ((live ++ one ∷ []) ++ other ∷ []) → AreApart one other }
{}

/// States laws of the parts of chunks. The function does nothing: its contract is the law.
pub fn parts_law()
    // The first bytes of a chunk and the bytes after them are parts of it, and the two are apart.
    ensures first { (chunk : Chunk) (size : ℕ) → size ≤ chunk.len
        → IsPart (first_part size chunk) chunk }
    ensures behind { (chunk : Chunk) (size : ℕ) → size ≤ chunk.len
        → IsPart (part_behind size chunk) chunk }
    ensures cut { (chunk : Chunk) (size : ℕ)
        → AreApart (first_part size chunk) (part_behind size chunk) }

    // Parts of chunks that are apart are apart, too. A part of a chunk is inside every region that
    // the chunk is inside.
    ensures apart { (one other part rest : Chunk) → IsPart part one → IsPart rest other
        → AreApart one other → AreApart part rest }
    ensures inside { (region : Region) (chunk part : Chunk) → IsPart part chunk
        → IsInside region chunk → IsInside region part }
{}
