//! Records of bytes, each in a chunk of its own.
ghost use Rattle.bb_memory_traits.specs.Chunk.{Chunk, IsSound};
ghost use Rattle.bb_memory_traits.specs.HeldBytes.{HeldBytes, held_region};
ghost use Rattle.bb_memory_traits.specs.declared.layout.Layout.{Layout};
ghost use Rattle.layers.specs.Slabs.{HoldsThen, IsOfBytes, MayGiveLonger, NotesRequest, Stores, records_in};
ghost use Rattle.std.specs.Prelude.{List, Ok, Some, [], length, remove, slice_get, slice_set, ℕ, ◌++◌, ◌<◌, ◌∷◌, ◌≡◌};

use bb_memory_lists::lists::append_law;
use bb_memory_traits::allocator::{AllocationError, Allocator, BaseAllocator};
use bb_memory_traits::layout::{Chunk, Layout, LayoutError};
use bb_memory_traits::region::{Region, live_bytes_law};
use std::alloc::{AllocError, Global};
use std::marker::Model;
use thiserror::Error;

/// The reasons why `insert` fails.
#[derive(Debug, Drop, Error)]
pub enum InsertError {
    /// Memory for the list of records ran out.
    #[error("no memory for the list of records")]
    List(AllocError),
    /// No layout has as many bytes as the record.
    #[error("the record is too long: {0}")]
    Layout(LayoutError),
    /// The allocator refused the request, with this error.
    #[error("no chunk: {0}")]
    Refused(AllocationError),
    /// The allocator gave a chunk that is longer than the record.
    #[error("the allocator gave a longer chunk than the record")]
    NoExactChunk,
}

/// Records of bytes, each in a chunk of an allocator's region. A record is named by its position,
/// from 0.
#[derive(Drop)]
pub struct Slab<A: Allocator + Drop> {
    allocator: A,
    region: Region,
    chunks: Vec<Chunk>,
}

impl<A: Allocator + Drop> Model for Slab<A> {
    ghost use Rattle.bb_memory_traits.specs.HeldBytes.{held_region};
    ghost use Rattle.layers.specs.Slabs.{Records, records_in};
    ghost use Rattle.std.specs.Prelude.{◌≡◌};

    // The value of a slab: its records, with their allocator and the chunks that they are in.
    ghost Value = { Records A };

    ghost view = { λ s. record {
      allocator = s.allocator;
      chunks = s.chunks.items;
      records = records_in s.region s.chunks.items;
    } };

    ghost invariant = { λ s. A.stands_for s.allocator s.chunks.items
        × (held_region s.region ≡ A.region_of (A.geometry s.allocator)) };
}

impl<A: Allocator + Drop> Slab<A> {
    /// Makes an empty slab. The allocator must have no chunk in use, and the region has to be the
    /// allocator's.
    pub fn new(alloc: Global, allocator: A, region: Region) -> Self
        requires fresh { A.stands_for allocator [] }
        requires same_region { held_region region ≡ A.region_of (A.geometry allocator) }
        ensures empty { result
            ≡ record { allocator = allocator; chunks = []; records = [] } }
    {
        Slab {
            allocator,
            region,
            chunks: Vec::new(alloc),
        }
    }

    /// Returns the number of records, each in a chunk of its own.
    pub fn len(&self) -> usize
        ensures records { result ≡ length self.now.records }
        ensures chunks { result ≡ length self.now.chunks }
    {
        self.chunks.len()
    }

    /// Stores a record after the others. Fails, in this order, with `Layout` if no layout has this
    /// many bytes, with `List` if memory ran out, with `Refused` if the allocator refuses, and with
    /// `NoExactChunk` if it gives a longer chunk. A refusal changes nothing. The allocator gets one
    /// request, and only after the first two tests.
    #[tactic(auto, using(bb_memory_traits::proofs::Layouts::same_layout))]
    pub fn insert(&mut self, bytes: &[u8]) -> Result<(), InsertError>
        ensures stores { Stores A.geometry A.may_allocate self.old bytes.now result self.new }
        ensures asked_once { NotesRequest (A.note_after (A.geometry self.old.allocator))
            (length bytes.now) result (A.note self.old.allocator) (A.note self.new.allocator) }
    {
        let layout = Layout::from_size_align(bytes.len(), 1).map_err(InsertError::Layout)?;
        self.chunks.reserve(1).map_err(InsertError::List)?;
        let chunk = match self.allocator.allocate(layout) {
            Ok(chunk) => chunk,
            Err(error) => return Err(InsertError::Refused(error)),
        };
        if chunk.len() != bytes.len() {
            records_law::<A>();
            return_last(&mut self.allocator, chunk, layout);
            return Err(InsertError::NoExactChunk);
        }
        put(&mut self.region, &self.chunks, chunk, bytes);
        self.chunks.push_reserved(chunk);
        Ok(())
    }

    /// Returns the bytes of a record.
    pub fn read(&self, position: usize) -> &[u8]
        requires { position < length self.now.records }
        ensures { slice_get self.now.records position ≡ Some result.now }
    {
        self.region.chunk(chunk_at(&self.chunks, position))
    }

    /// Writes a whole record, with bytes of the record's length. The other records are unchanged.
    pub fn write(&mut self, position: usize, bytes: &[u8])
        requires { (old : List ℕ) × (slice_get self.old.records position ≡ Some old)
            × (length bytes.now ≡ length old) }
        ensures { self.new ≡ record self.old {
          records = slice_set self.old.records position bytes.now;
        } }
    {
        overwrite(&mut self.region, &self.chunks, position, bytes);
    }

    /// Removes a record, and gives its chunk back. The records after it move up. The allocator gets
    /// no request.
    pub fn remove(&mut self, position: usize)
        requires { position < length self.old.records }
        ensures leaves { self.new ≡ record {
          allocator = self.new.allocator;
          chunks = remove self.old.chunks position;
          records = remove self.old.records position;
        } }
        ensures geometry { A.geometry self.new.allocator ≡ A.geometry self.old.allocator }
        ensures unasked { A.note self.new.allocator ≡ A.note self.old.allocator }
    {
        give_back(&mut self.allocator, chunk_at(&self.chunks, position));
        records_law::<A>();
        self.chunks.remove(position);
    }
}

/// Writes the record at a position.
fn overwrite(region: &mut Region, chunks: &Vec<Chunk>, position: usize, bytes: &[u8])
    requires sound { IsSound (held_region region.old) chunks.now.items }
    requires fits { (old : List ℕ)
        × (slice_get (records_in region.old chunks.now.items) position ≡ Some old)
        × (length bytes.now ≡ length old) }
    ensures { HoldsThen region.old region.new chunks.now.items
        (slice_set (records_in region.old chunks.now.items) position bytes.now) }
{
    let chunk = chunk_at(chunks, position);
    region.write(chunk, bytes);
}

/// Returns the chunk at a position.
fn chunk_at(chunks: &Vec<Chunk>, position: usize) -> Chunk
    requires { position < length chunks.now.items }
    ensures { slice_get chunks.now.items position ≡ Some result }
{
    chunks[position]
}

/// Writes a record in the chunk that was just given.
fn put(region: &mut Region, chunks: &Vec<Chunk>, chunk: Chunk, bytes: &[u8])
    requires sound { IsSound (held_region region.old) (chunks.now.items ++ chunk ∷ []) }
    requires len { length bytes.now ≡ chunk.len }
    ensures { HoldsThen region.old region.new (chunks.now.items ++ chunk ∷ [])
        (records_in region.old chunks.now.items ++ bytes.now ∷ []) }
{
    let _ = chunks;
    append_law::<Chunk>();
    live_bytes_law();
    region.write(chunk, bytes);
}

/// Gives back the chunk that was given last: the allocator then stands for the lists without it.
pub fn return_last<A: Allocator>(inner: &mut A, chunk: Chunk, layout: Layout)
    requires { A.may_release inner.old chunk.place }
    ensures stands { (live : List Chunk) → A.stands_for inner.old (live ++ chunk ∷ [])
        → A.stands_for inner.new live }
    ensures geometry { A.geometry inner.new ≡ A.geometry inner.old }
    ensures unasked { A.note inner.new ≡ A.note inner.old }
{
    append_law::<Chunk>();
    inner.deallocate(chunk.place(), layout);
}

/// Gives back a chunk: the allocator then stands for the lists without it.
pub(crate) fn give_back<A: Allocator>(inner: &mut A, chunk: Chunk)
    requires { A.may_release inner.old chunk.place }
    ensures stands { (live : List Chunk) (position : ℕ) → A.stands_for inner.old live
        → slice_get live position ≡ Some chunk → A.stands_for inner.new (remove live position) }
    ensures geometry { A.geometry inner.new ≡ A.geometry inner.old }
    ensures unasked { A.note inner.new ≡ A.note inner.old }
{
    inner.deallocate(chunk.place(), Layout::empty());
}

/// States two laws. An allocator that may give a longer chunk for a layout may give one for the
/// layout's size. Removing a chunk from a list removes its record. The function does nothing: its
/// contract is the law.
#[tactic(auto, using(bb_memory_lists::specs::Hints::parts_of_lists))]
fn records_law<A: Allocator>()
    ensures longer { (geometry : A.Geometry) (live : List Chunk) (size : ℕ) (layout : Layout)
        (chunk : Chunk)
        → IsOfBytes layout size → size < chunk.len → A.may_allocate geometry live layout (Ok chunk)
        → MayGiveLonger (A.may_allocate geometry live) size }
    ensures removed { (held : HeldBytes) (chunks : List Chunk) (position : ℕ)
        → records_in held (remove chunks position) ≡ remove (records_in held chunks) position }
{}
