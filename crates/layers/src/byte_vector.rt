//! A vector of bytes that lives at an offset of a region, and can move to another region with its
//! bytes.
ghost use Rattle.bb_memory_traits.specs.Chunk.{AreApart, Chunk, IsInside};
ghost use Rattle.bb_memory_traits.specs.HeldBytes.{bytes_in, held_region};
ghost use Rattle.bb_memory_traits.specs.declared.layout.LayoutError.{LayoutError};
ghost use Rattle.layers.specs.ByteVectors.{IsGrown, IsPushed, KeepsOthers, LivesIn, MakesRoom, MayGrowByOne, PushFails, contents};
ghost use Rattle.layers.specs.Slabs.{IsOfBytes};
ghost use Rattle.std.specs.Align.{IsLayout};
ghost use Rattle.std.specs.Prelude.{IfErr, IfOk, List, OnErr, OnOk, Some, length, slice_get, slice_index, ℕ, ◌+◌, ◌<◌, ◌^◌, ◌≡◌, ◌≤◌, ◌⊎◌};

use bb_memory_traits::allocator::{AllocationGrowError, Allocator, BaseAllocator};
use bb_memory_traits::layout::{Chunk, Layout, LayoutError};
use bb_memory_traits::region::Region;
use std::marker::Model;
use thiserror::Error;

/// The reasons why `push` fails.
#[derive(Debug, Clone, Copy, Error)]
pub enum PushError {
    /// No layout has as many bytes as the chunk, or one more.
    #[error("too long: {0}")]
    TooLong(LayoutError),
    /// The chunk is full, and the allocator doesn't grow it, with this error.
    #[error("no room: {0}")]
    Full(AllocationGrowError),
}

/// A vector of bytes in a chunk of a region. The vector stores its offset from the region's start,
/// so the offset stays valid wherever the region starts. The vector grows in its chunk.
///
/// Example: `tenants_and_vectors::moved_vector` of `crates/examples`.
#[derive(Clone, Copy)]
pub struct ByteVec {
    offset: usize,
    capacity: usize,
    len: usize,
}

impl Model for ByteVec {
    ghost use Rattle.layers.specs.ByteVectors.{ByteVector};
    ghost use Rattle.std.specs.Prelude.{◌≤◌};

    ghost Value = { ByteVector };

    ghost view = { λ v. record { offset = v.offset; capacity = v.capacity; len = v.len } };

    ghost invariant = { λ v. v.len ≤ v.capacity };

    ghost inverse = { λ v. record { offset = v.offset; capacity = v.capacity; len = v.len } };
}

impl ByteVec {
    /// Makes an empty vector in a chunk of a region.
    pub fn new(region: &Region, chunk: Chunk) -> ByteVec
        requires { region.now.start ≤ chunk.place }
        ensures place { region.now.start + result.offset ≡ chunk.place }
        ensures empty { result ≡ record { offset = result.offset; capacity = chunk.len; len = 0 } }
    {
        ByteVec {
            offset: chunk.place() - region.start_address(),
            capacity: chunk.len(),
            len: 0,
        }
    }

    /// Returns the number of bytes.
    pub fn len(&self) -> usize
        ensures { result ≡ self.now.len }
    {
        self.len
    }

    /// Returns the byte at a position, which has to be less than the length.
    pub fn get(&self, region: &Region, at: usize) -> u8
        requires at { at < self.now.len }
        requires inside { self.now.offset + self.now.capacity ≤ length region.now.bytes }
        ensures { result ≡ slice_index (contents region.now self.now) at }
    {
        region.bytes()[self.offset + at]
    }

    /// Makes room for another byte, if there is none, by growing the chunk in place. Fails only if
    /// there is no room: with `TooLong` if no layout has one more byte, otherwise with the error of
    /// the allocator's grow.
    pub fn reserve<A: Allocator>(
        &mut self,
        allocator: &mut A,
        region: &Region,
    ) -> Result<(), PushError>
        requires { LivesIn (A.region_of (A.geometry allocator.old)) (A.may_release allocator.old)
            region.now self.old }
        ensures room { OnOk result (self.new.len < self.new.capacity) }
        ensures inside { self.new.offset + self.new.capacity ≤ length region.now.bytes }
        ensures contents { contents region.now self.new ≡ contents region.now self.old }
        ensures others { self.new ≡ record self.old { capacity = self.new.capacity } }
        ensures unchanged { OnErr result (self.new ≡ self.old) }
        ensures answer { MakesRoom (A.stands_for allocator.old)
            (A.may_grow (A.resize_key allocator.old)) region.now.start self.old result self.new }
        ensures allocator { allocator.new ≡ allocator.old }
    {
        if self.len < self.capacity {
            return Ok(());
        }
        let place = region.start_address() + self.offset;
        self.capacity = grow_by_one(allocator, place, self.capacity)?;
        Ok(())
    }

    /// Appends a byte, and grows a full chunk first. Fails only if the chunk is full, with the
    /// errors of `reserve`. A refusal changes nothing.
    pub fn push<A: Allocator>(
        &mut self,
        allocator: &mut A,
        region: &mut Region,
        byte: u8,
    ) -> Result<(), PushError>
        requires { LivesIn (A.region_of (A.geometry allocator.old)) (A.may_release allocator.old)
            region.old self.old }
        ensures pushed { OnOk result (IsPushed region.old region.new self.old byte self.new) }
        ensures longer { OnOk result (self.new.len ≡ self.old.len + 1) }
        ensures apart { OnOk result (KeepsOthers region.old self.old region.new) }
        ensures unchanged { OnErr result ((self.new ≡ self.old) × (region.new ≡ region.old)) }
        ensures answer { MakesRoom (A.stands_for allocator.old)
            (A.may_grow (A.resize_key allocator.old)) region.old.start self.old result self.new }
        ensures offset { self.new.offset ≡ self.old.offset }
        ensures inside { self.new.offset + self.new.capacity ≤ length region.new.bytes }
        ensures region { held_region region.new ≡ held_region region.old }
        ensures allocator { allocator.new ≡ allocator.old }
    {
        self.reserve(allocator, &*region)?;
        self.write_behind(region, byte);
        self.len += 1;
        Ok(())
    }

    /// Writes a byte after the last one.
    fn write_behind(&self, region: &mut Region, byte: u8)
        requires room { self.now.len < self.now.capacity }
        requires inside { self.now.offset + self.now.capacity ≤ length region.old.bytes }
        ensures pushed { IsPushed region.old region.new self.now byte
            (record self.now { len = self.now.len + 1 }) }
        ensures apart { KeepsOthers region.old self.now region.new }
    {
        let place = region.start_address() + self.offset + self.len;
        let behind = Chunk::new(place, 1).unwrap();
        region.write(behind, &[byte]);
    }

    /// Copies the vector to a chunk of another region, which has to have room for the vector's
    /// bytes. The copy has room for as many bytes as the chunk has. The bytes of the other region
    /// outside the chunk are unchanged.
    pub fn copy_to(&self, region: &Region, other: &mut Region, chunk: Chunk) -> ByteVec
        requires inside { self.now.offset + self.now.capacity ≤ length region.now.bytes }
        requires there { IsInside (held_region other.old) chunk }
        requires room { self.now.len ≤ chunk.len }
        ensures contents { contents other.new result ≡ contents region.now self.now }
        ensures place { other.old.start + result.offset ≡ chunk.place }
        ensures room { result ≡ record self.now { offset = result.offset; capacity = chunk.len } }
        ensures inside { result.offset + result.capacity ≤ length other.new.bytes }
        ensures apart { (another : Chunk) → IsInside (held_region other.old) another
            → AreApart chunk another
            → bytes_in other.new another ≡ bytes_in other.old another }
        ensures region { held_region other.new ≡ held_region other.old }
    {
        let front = Chunk::new(chunk.place(), self.len).unwrap();
        other.write(front, &region.bytes()[self.offset..self.offset + self.len]);
        ByteVec {
            offset: chunk.place() - other.start_address(),
            capacity: chunk.len(),
            len: self.len,
        }
    }
}

/// Requests one more byte at the end of a live chunk, and returns how many bytes it then has.
fn grow_by_one<A: Allocator>(
    allocator: &mut A,
    place: usize,
    size: usize,
) -> Result<usize, PushError>
    requires live { A.may_release allocator.old place }
    requires fits { size + 1 < 2 ^ 64 }
    ensures longer { IfOk result (λ grown. size < grown) }
    ensures inside { IfOk result (λ grown. IsInside (A.region_of (A.geometry allocator.old))
        (record { place = place; len = grown })) }
    ensures grown { IfOk result (λ grown. (live : List Chunk) (position : ℕ) (chunk : Chunk)
        → A.stands_for allocator.old live → slice_get live position ≡ Some chunk
        → chunk.place ≡ place
        → IsGrown (A.may_grow (A.resize_key allocator.old) live chunk.place) place size grown) }
    ensures refused { IfErr result (λ error. (live : List Chunk) (position : ℕ) (chunk : Chunk)
        → A.stands_for allocator.old live → slice_get live position ≡ Some chunk
        → chunk.place ≡ place
        → PushFails (A.may_grow (A.resize_key allocator.old) live chunk.place) size error) }
    ensures unchanged { allocator.new ≡ allocator.old }
{
    let (old, new) = layouts(size)?;
    let grown = grow(allocator, place, old, new);
    grown.map(|chunk| chunk.len()).map_err(PushError::Full)
}

/// Returns the layouts of `size` bytes, and of one more.
fn layouts(size: usize) -> Result<(Layout, Layout), PushError>
    requires { size + 1 < 2 ^ 64 }
    ensures old { IfOk result (λ layouts. IsOfBytes layouts.0 size) }
    ensures new { IfOk result (λ layouts. IsOfBytes layouts.1 (size + 1)) }
    ensures refused { IfErr result (λ error. (cause : LayoutError) × (error ≡ PushError.TooLong cause)
        × ((¬ IsLayout size 1) ⊎ (¬ IsLayout (size + 1) 1))) }
{
    let old = Layout::from_size_align(size, 1).map_err(PushError::TooLong)?;
    let new = Layout::from_size_align(size + 1, 1).map_err(PushError::TooLong)?;
    Ok((old, new))
}

/// Grows the live chunk at `place` by one byte.
fn grow<A: Allocator>(
    allocator: &mut A,
    place: usize,
    old: Layout,
    new: Layout,
) -> Result<Chunk, AllocationGrowError>
    requires live { A.may_release allocator.old place }
    requires old { IsOfBytes old old.size }
    requires by_one { IsOfBytes new (old.size + 1) }
    ensures answer { (live : List Chunk) (position : ℕ) (chunk : Chunk)
        → A.stands_for allocator.old live → slice_get live position ≡ Some chunk
        → chunk.place ≡ place
        → MayGrowByOne (A.may_grow (A.resize_key allocator.old) live chunk.place) old.size result }
    ensures same_place { IfOk result (λ grown. grown.place ≡ place) }
    ensures longer { IfOk result (λ grown. old.size < grown.len) }
    ensures inside { IfOk result (IsInside (A.region_of (A.geometry allocator.old))) }
    ensures unchanged { allocator.new ≡ allocator.old }
{
    allocator.grow(place, old, new)
}
