//! The buckets of a region: their places and their numbers.
ghost use Rattle.bb_memory_traits.specs.Chunk.{Chunk, IsInside, IsRegion, first_place, region_at};
ghost use Rattle.bb_memory_traits.specs.Geometry.{Admits, IsCutAtMost, IsPlaceOfBucket, MayBeCut, TellsPlace};
ghost use Rattle.bb_memory_traits.specs.PoolObject.{IsCut, IsPoolGeometry, MayGrow, MayShrink, bucket_place, pool_geometry, stride};
ghost use Rattle.std.specs.Prelude.{IfNone, IfOk, IfSome, ℕ, ◌%◌, ◌*◌, ◌/◌, ◌<◌, ◌^◌, ◌≡◌, ◌≢◌, ◌≤◌};

use crate::allocator::{AllocationError, AllocationGrowError, AllocationShrinkError};
use crate::layout::{Chunk, Layout, round_up};
use std::marker::Model;

/// Returns the number of bytes from the beginning of each bucket to that of the next one.
pub fn stride(bucket_layout: Layout) -> usize
    ensures { result ≡ stride bucket_layout }
{
    round_up(bucket_layout.size(), bucket_layout.align()).unwrap()
}

/// Returns the inverse of an odd number modulo 2^64: the wrapped product of the two is 1.
fn inverse_of(odd: usize) -> usize
    requires { odd % 2 ≡ 1 }
    ensures { odd * result % 2 ^ 64 ≡ 1 }
{
    let mut inverse: usize = 1;
    // `odd * inverse + rest` is 1 modulo 2^64, before and after each step. The rest is even, so
    // squaring it six times gives 0.
    let mut rest = 1usize.wrapping_sub(odd);
    for _step in 0..6u32 {
        inverse = inverse.wrapping_mul(rest.wrapping_add(1));
        rest = rest.wrapping_mul(rest);
    }
    inverse
}

/// A region cut into buckets of one layout: all the buckets that it has room for, or only the first
/// of them. The stride is an odd number times two to the power of `shift`, and `inverse` is the
/// inverse of the odd number modulo 2^64.
#[derive(Debug, Drop)]
pub struct Geometry {
    region_start: usize,
    region_size: usize,
    bucket: Layout,
    first: usize,
    stride: usize,
    inverse: usize,
    shift: u32,
    buckets: u32,
}

impl Model for Geometry {
    ghost use Rattle.bb_memory_traits.specs.Chunk.{IsRegion, region_at};
    ghost use Rattle.bb_memory_traits.specs.Geometry.{IsMeasured};
    ghost use Rattle.bb_memory_traits.specs.PoolObject.{PoolGeometry, pool_geometry};

    ghost Value = { PoolGeometry };

    ghost view = { λ a. pool_geometry (region_at a.region_start a.region_size) a.bucket a.buckets };

    ghost invariant = { λ a. IsMeasured
        (pool_geometry (region_at a.region_start a.region_size) a.bucket a.buckets)
        a.first a.stride a.shift a.inverse };
}

impl Geometry {
    /// Returns all the buckets of this layout that the region of `size` bytes at `start` has room
    /// for.
    pub fn new(bucket_layout: Layout, start: usize, size: usize) -> Self
        requires { MayBeCut (region_at start size) bucket_layout }
        ensures { IsCut (region_at start size) bucket_layout result }
    {
        let first = round_up(start, bucket_layout.align()).unwrap();
        let stride = stride(bucket_layout);
        let shift = stride.trailing_zeros();
        let room = (start + size).saturating_sub(first);
        Geometry {
            region_start: start,
            region_size: size,
            bucket: bucket_layout,
            first,
            stride,
            inverse: inverse_of(stride >> shift),
            shift,
            buckets: (room / stride) as u32,
        }
    }

    /// Returns the first of the buckets that the region has room for, at most `most`.
    pub fn cut_at_most(bucket_layout: Layout, start: usize, size: usize, most: u32) -> Self
        requires { MayBeCut (region_at start size) bucket_layout }
        ensures { IsCutAtMost most (region_at start size) bucket_layout result }
    {
        let mut geometry = Self::new(bucket_layout, start, size);
        geometry.buckets = geometry.buckets.min(most);
        geometry
    }

    /// Returns the number of buckets.
    #[inline(always)]
    pub fn count(&self) -> u32
        ensures value { result ≡ self.now.buckets }
        ensures region { IsRegion self.now.region }
        ensures geometry { IsPoolGeometry self.now }
    {
        self.buckets
    }

    /// Returns the layout of each bucket.
    #[inline(always)]
    pub fn bucket(&self) -> Layout
        ensures { result ≡ self.now.bucket }
    {
        self.bucket
    }

    /// Returns the size of the region in bytes.
    #[inline]
    pub fn region_size(&self) -> usize
        ensures { result ≡ self.now.region.size }
    {
        self.region_size
    }

    /// Returns the place of the first bucket.
    #[inline(always)]
    pub fn first(&self) -> usize
        ensures { result ≡ first_place self.now.region self.now.bucket }
    {
        self.first
    }

    /// Checks that a request fits into a bucket. Fails, in this order, with `SizeTooLarge` if the
    /// size is greater than the bucket's, and with `AlignmentFailure` if the alignment is.
    #[inline(always)]
    pub fn admit(&self, layout: Layout) -> Result<(), AllocationError>
        ensures { Admits self.now.bucket layout result }
    {
        if layout.size() > self.bucket.size() {
            return Err(AllocationError::SizeTooLarge);
        }
        if layout.align() > self.bucket.align() {
            return Err(AllocationError::AlignmentFailure);
        }
        Ok(())
    }

    /// Returns the number of strides in a distance, if that is a multiple of the stride, and
    /// otherwise a number that no bucket has. The product with the inverse divides by the stride's
    /// odd factor, and the rotation by its power of two. Both can be undone modulo 2^64, so no two
    /// distances have the same result.
    #[inline(always)]
    pub fn whole_strides(&self, distance: usize) -> usize
        ensures whole { distance % stride self.now.bucket ≡ 0
            → result ≡ distance / stride self.now.bucket }
        ensures part { distance % stride self.now.bucket ≢ 0 → self.now.buckets ≤ result }
        ensures some { 0 < stride self.now.bucket }
    {
        distance.wrapping_mul(self.inverse).rotate_right(self.shift)
    }

    /// Returns the number of the bucket at this place, or `None` if no bucket begins there.
    #[inline(always)]
    pub fn number_at(&self, place: usize) -> Option<u32>
        ensures below { IfSome result (λ number. number < self.now.buckets) }
        ensures there { IfSome result (λ number. place ≡ bucket_place self.now number) }
        ensures one { IfSome result (λ number. (other : ℕ)
            → place ≡ bucket_place self.now other → other ≡ number) }
        ensures none { IfNone result (¬ IsPlaceOfBucket self.now place) }
    {
        // The distance of a place before the first bucket wraps, to more strides than there are
        // buckets.
        let number = self.whole_strides(place.wrapping_sub(self.first()));
        if number >= self.count() as usize {
            return None;
        }
        Some(number as u32)
    }

    /// Returns the place of the bucket of this number, or `None` if there is no bucket of this
    /// number.
    pub fn place_at(&self, number: u32) -> Option<usize>
        ensures { TellsPlace self.now number result }
    {
        if number >= self.count() {
            return None;
        }
        Some(self.chunk(number as usize, 0).place())
    }

    /// Returns the first `len` bytes of the bucket of this number.
    #[inline(always)]
    pub fn chunk(&self, bucket: usize, len: usize) -> Chunk
        requires below { bucket < self.now.buckets }
        requires short { len ≤ self.now.bucket.size }
        ensures value { let chunk : Chunk =
            record { place = bucket_place self.now bucket; len = len } in
            result ≡ chunk }
        ensures place { IsPlaceOfBucket self.now result.place }
        ensures inside { IsInside self.now.region result }
    {
        let place = self.first + bucket * self.stride;
        Chunk::new_unchecked(place, len)
    }

    /// Answers a `grow` of the chunk at `place`, which has to be the place of a bucket. Fails, in
    /// this order, with `GrowWouldShrink` if the new size isn't greater than the old one, with
    /// `AlignmentFailure` if the new alignment is greater than the bucket's, and with `OutOfMemory`
    /// if the new size is. The pool doesn't change.
    #[inline]
    pub fn grow(&self, place: usize, old: Layout, new: Layout) -> Result<Chunk, AllocationGrowError>
        requires { IsPlaceOfBucket self.now place }
        ensures answer { MayGrow self.now.bucket place old new result }
        ensures aligned { IfOk result (λ grown. grown.place % new.align ≡ 0) }
        ensures inside { IfOk result (IsInside self.now.region) }
    {
        if old.size() >= new.size() {
            return Err(AllocationGrowError::GrowWouldShrink);
        }
        if new.align() > self.bucket.align() {
            return Err(AllocationGrowError::AlignmentFailure);
        }
        if new.size() > self.bucket.size() {
            return Err(AllocationGrowError::OutOfMemory);
        }
        Ok(Chunk::new_unchecked(place, new.size()))
    }

    /// Answers a `shrink` of the chunk at `place`, which has to be the place of a bucket. The old
    /// size has to be at most the bucket's. Fails, in this order, with `ShrinkWouldGrow` if the new
    /// size isn't smaller than the old one, and with `AlignmentFailure` if the new alignment is
    /// greater than the bucket's. The pool doesn't change.
    #[inline]
    pub fn shrink(
        &self,
        place: usize,
        old: Layout,
        new: Layout,
    ) -> Result<Chunk, AllocationShrinkError>
        requires place { IsPlaceOfBucket self.now place }
        requires reserved { old.size ≤ self.now.bucket.size }
        ensures answer { MayShrink self.now.bucket place old new result }
        ensures aligned { IfOk result (λ shrunk. shrunk.place % new.align ≡ 0) }
        ensures inside { IfOk result (IsInside self.now.region) }
    {
        if old.size() <= new.size() {
            return Err(AllocationShrinkError::ShrinkWouldGrow);
        }
        if new.align() > self.bucket.align() {
            return Err(AllocationShrinkError::AlignmentFailure);
        }
        Ok(Chunk::new_unchecked(place, new.size()))
    }
}
