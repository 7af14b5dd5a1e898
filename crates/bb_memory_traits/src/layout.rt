//! Layouts, which callers request, and chunks, which allocators return. Sizes and lengths are in
//! bytes.
ghost use Rattle.bb_memory_traits.specs.LeastPlace.{IsLeastPlace, IsUsual, least_place};
ghost use Rattle.std.specs.Align.{IsLayout};
ghost use Rattle.std.specs.Int.{IsPowerOfTwo};
ghost use Rattle.std.specs.Option.{SomeIff};
ghost use Rattle.std.specs.Prelude.{IfOk, IfSome, IsOk, IsSome, ℕ, ◌%◌, ◌<◌, ◌^◌, ◌↔◌, ◌≡◌, ◌≤◌};

mod chunk;

pub use chunk::{Chunk, given_law, parts_law};
use thiserror::Error;

/// A size in bytes and an alignment, as in `core::alloc::Layout`: the alignment is a power of two,
/// and the size rounded up to a multiple of it is at most `isize::MAX`.
///
/// Example: `comments::layout` of `crates/examples`.
#[derive(Debug, Clone, Copy, PartialEq, Eq)]
pub struct Layout {
    pub size: usize,
    pub align: usize,
    pub ghost valid: { IsLayout size align },
}

/// The error of [`Layout::from_size_align`]: the alignment isn't a power of two, or the size
/// rounded up to a multiple of it exceeds `isize::MAX`.
#[derive(Debug, Clone, Copy, PartialEq, Eq, Error)]
#[error("the alignment is no power of two or the rounded size is too large")]
pub struct LayoutError {}

impl Layout {
    /// Returns the layout of this size and alignment. Fails exactly if the alignment isn't a power
    /// of two, or the size rounded up to a multiple of the alignment exceeds `isize::MAX`.
    #[inline]
    pub fn from_size_align(size: usize, align: usize) -> Result<Layout, LayoutError>
        ensures accepted { IsOk result ↔ IsLayout size align }
        ensures value { IfOk result (λ layout. (layout.size ≡ size) × (layout.align ≡ align)) }
        ensures usual { IsUsual size align → IsOk result }
    {
        if !align.is_power_of_two() {
            return Err(LayoutError {});
        }
        if size > isize::MAX as usize + 1 - align {
            return Err(LayoutError {});
        }
        Ok(Layout { size, align })
    }

    /// Returns the layout of this size and alignment, or `None` if one of the two is greater than
    /// this layout's or the alignment isn't a power of two. No further test is needed: what is
    /// within a layout is one.
    #[inline(always)]
    pub fn within(self, size: usize, align: usize) -> Option<Layout>
        ensures some { IsSome result
            ↔ ((size ≤ self.size) × (align ≤ self.align) × IsPowerOfTwo align) }
        ensures value { IfSome result (λ layout. (layout.size ≡ size) × (layout.align ≡ align)) }
    {
        // In this order, each test compiles to a jump of its own, which takes fewer instructions than
        // combining the results.
        if !align.is_power_of_two() {
            return None;
        }
        if size > self.size || align > self.align {
            return None;
        }
        Some(Layout { size, align })
    }

    /// Returns the layout of 0 bytes at alignment 1, for a call that ignores the layout.
    #[inline]
    pub fn empty() -> Layout
        ensures size { result.size ≡ 0 }
        ensures align { result.align ≡ 1 }
    {
        Layout { size: 0, align: 1 }
    }

    /// Returns the size in bytes.
    #[inline(always)]
    pub fn size(&self) -> usize
        ensures { result ≡ self.now.size }
    {
        self.size
    }

    /// Returns the alignment, a power of two.
    #[inline(always)]
    pub fn align(&self) -> usize
        ensures value { result ≡ self.now.align }
        ensures power_of_two { IsPowerOfTwo self.now.align }
    {
        self.align
    }
}

/// States which sizes and alignments form a layout: the alignment is a power of two, and the size
/// rounded up to a multiple of it is at most `isize::MAX`. A multiple of an alignment is also a
/// multiple of each smaller alignment. The function does nothing: its contract is the law.
pub fn layout_law()
    ensures valid { (size align : ℕ)
        → IsLayout size align ↔ (IsPowerOfTwo align × (least_place size align < 2 ^ 63)) }
    ensures multiple { (place : ℕ) (layout wider : Layout) → layout.align ≤ wider.align
        → place % wider.align ≡ 0 → place % layout.align ≡ 0 }
{}

/// Returns the least multiple of `align` that is at least `v`, or `None` if that exceeds
/// `usize::MAX`. The alignment has to be a power of two, like that of a [`Layout`].
///
/// Example: `comments::rounding` of `crates/examples`.
#[inline(always)]
pub fn round_up(v: usize, align: usize) -> Option<usize>
    requires { IsPowerOfTwo align }
    ensures value { SomeIff result (least_place v align < 2 ^ 64) (least_place v align) }
    ensures above { IfSome result (λ place. v ≤ place) }
    ensures aligned { IfSome result (λ place. place % align ≡ 0) }
{
    let mask = align - 1;
    Some(v.checked_add(mask)? & !mask)
}

/// States that `least_place` is what its name says: the least multiple of the alignment that is at
/// least the number. There is only one such multiple. The function does nothing: its contract is
/// the law.
pub fn least_place_law()
    ensures is_least { (v align : ℕ) → 0 < align → IsLeastPlace v align (least_place v align) }
    ensures one { (v align place : ℕ) → 0 < align → IsLeastPlace v align place
        → place ≡ least_place v align }
{}
