//! Blocks of bytes from the language's allocator. Lengths are in bytes, and alignments are ignored.
ghost use Rattle.bb_memory_owned.specs.Heap.{MayAllocate, MayGrow, MayShrink};
ghost use Rattle.bb_memory_owned.specs.HeapLending.{LendsBlock, written};
ghost use Rattle.std.specs.Borrow.{sem};
ghost use Rattle.std.specs.Prelude.{List, length, ℕ, ◌≡◌};

pub use bb_memory_traits::allocator::{
    AllocationError, AllocationGrowError, AllocationShrinkError, Allocator, BaseAllocator,
};
use bb_memory_traits::layout::Layout;
use std::alloc::Global;
use std::marker::Model;

/// A block of bytes from a [`HeapAllocator`]. The owner may give the block back, or just drop it.
#[derive(Drop)]
pub struct HeapBlock {
    bytes: Vec<u8>,
}

impl Model for HeapBlock {
    ghost use Rattle.std.specs.Prelude.{List, ℕ};

    ghost Value = { List ℕ };

    ghost view = { λ b. b.bytes.items };
}

impl HeapBlock {
    /// Returns the size in bytes.
    #[inline]
    pub fn len(&self) -> usize
        ensures length { result ≡ length self.now }
    {
        self.bytes.len()
    }

    /// Returns the bytes.
    #[inline]
    pub fn as_slice(&self) -> &[u8]
        ensures bytes { result.now ≡ self.now }
    {
        self.bytes.as_slice()
    }

    /// Lends the bytes. Afterwards the block has the bytes that were written there.
    #[inline]
    pub fn as_mut_slice(&mut self) -> &mut [u8]
        ensures* writes_back { sem 𝓛 (LendsBlock self.entry result) }
        ensures bytes { result.now ≡ self.old }
    {
        self.bytes.as_mut_slice()
    }
}

/// Allocates blocks of bytes from the language's allocator.
///
/// Example: `comments::heap` of `crates/examples`.
#[derive(Drop)]
pub struct HeapAllocator {
    alloc: Global,
}

impl HeapAllocator {
    /// Makes a heap allocator that takes its memory from `alloc`.
    #[inline]
    pub fn new(alloc: Global) -> Self {
        HeapAllocator { alloc }
    }

    /// Allocates a block of `layout.size()` zero bytes. Fails, in this order, with `SizeIsZero` if
    /// the size is 0, and with `OutOfMemory` if memory ran out.
    #[inline]
    pub fn allocate(&self, layout: Layout) -> Result<HeapBlock, AllocationError>
        ensures answer { MayAllocate layout result }
    {
        if layout.size() == 0 {
            return Err(AllocationError::SizeIsZero);
        }
        match Vec::from_elem(self.alloc, 0, layout.size()) {
            Ok(bytes) => Ok(HeapBlock { bytes }),
            Err(_) => Err(AllocationError::OutOfMemory),
        }
    }

    /// Does the same as `allocate`, since that call zeroes the block already.
    #[inline]
    pub fn allocate_zeroed(&self, layout: Layout) -> Result<HeapBlock, AllocationError>
        ensures answer { MayAllocate layout result }
    {
        self.allocate(layout)
    }

    /// Gives a block back. The layout is ignored.
    #[inline]
    pub fn deallocate(&self, _block: HeapBlock, _layout: Layout) {}

    /// Grows the block to the new size, with zero bytes after its own. The old size has to be the
    /// block's length. Fails, in this order, with `GrowWouldShrink` if the new size isn't greater
    /// than the old one, and with `OutOfMemory` if memory ran out. A refusal returns the block
    /// unchanged.
    #[inline]
    pub fn grow(
        &self,
        block: HeapBlock,
        old: Layout,
        new: Layout,
    ) -> Result<HeapBlock, (HeapBlock, AllocationGrowError)>
        requires { old.size ≡ length block }
        ensures answer { MayGrow block old new result }
    {
        let mut block = block;
        if old.size() >= new.size() {
            return Err((block, AllocationGrowError::GrowWouldShrink));
        }
        // Requests exactly as much memory as is needed. Without this, `resize` would request more.
        if block.bytes.reserve_exact(new.size() - old.size()).is_err() {
            return Err((block, AllocationGrowError::OutOfMemory));
        }
        match block.bytes.resize(new.size(), 0) {
            Ok(()) => Ok(block),
            Err(_) => Err((block, AllocationGrowError::OutOfMemory)),
        }
    }

    /// Does the same as `grow`, since that call zeroes the bytes that it adds already.
    #[inline]
    pub fn grow_zeroed(
        &self,
        block: HeapBlock,
        old: Layout,
        new: Layout,
    ) -> Result<HeapBlock, (HeapBlock, AllocationGrowError)>
        requires { old.size ≡ length block }
        ensures answer { MayGrow block old new result }
    {
        self.grow(block, old, new)
    }

    /// Shrinks the block to its first `new.size()` bytes. The old size has to be the block's
    /// length. Fails, in this order, with `ShrinkWouldGrow` if the new size isn't smaller than the
    /// old one, and with `SizeIsZero` if the new size is 0. A refusal returns the block unchanged.
    /// The call allocates nothing.
    #[inline]
    pub fn shrink(
        &self,
        block: HeapBlock,
        old: Layout,
        new: Layout,
    ) -> Result<HeapBlock, (HeapBlock, AllocationShrinkError)>
        requires { old.size ≡ length block }
        ensures answer { MayShrink block old new result }
    {
        let mut block = block;
        if old.size() <= new.size() {
            return Err((block, AllocationShrinkError::ShrinkWouldGrow));
        }
        if new.size() == 0 {
            return Err((block, AllocationShrinkError::SizeIsZero));
        }
        block.bytes.truncate(new.size());
        Ok(block)
    }
}

/// States in plain words what [`HeapBlock::as_mut_slice`] promises about the bytes that it lends:
/// if bytes of the block's length were written there, they are the block's bytes afterwards. The
/// function does nothing: its contract is the law.
pub fn heap_law()
    ensures written { (block bytes : List ℕ) → length bytes ≡ length block
        → written block bytes ≡ bytes }
{}
