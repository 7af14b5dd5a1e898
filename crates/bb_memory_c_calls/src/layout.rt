//! Layouts from two numbers that C passes.
ghost use Rattle.bb_memory_c_calls.specs.Answers.{invalid_argument, invalid_layout, no_bucket};
ghost use Rattle.bb_memory_c_calls.specs.Calls.{FailsOf, HasRoom, IsCuttable, IsOf, LacksRoomOf, MayBeShared};
ghost use Rattle.bb_memory_traits.specs.Chunk.{region_at};
ghost use Rattle.bb_memory_traits.specs.declared.layout.Layout.{Layout as Asked};
ghost use Rattle.std.specs.Align.{IsLayout};
ghost use Rattle.std.specs.Int.{IsPowerOfTwo};
ghost use Rattle.std.specs.Prelude.{Err, IfErr, IfOk, IfSome, IsSome, None, Some, ◌↔◌, ◌≡◌, ◌≢◌, ◌≤◌};

use crate::code;
use bb_memory_owned::pool_allocator::{FixedSizePoolAllocator, PoolAllocator};
use bb_memory_traits::layout::Layout;
use std::alloc::Global;

/// Returns the layout of this size and this alignment, if they make one.
pub fn layout_of(size: usize, align: usize) -> Option<Layout>
    ensures each { (layout : Asked) → IsOf size align layout → result ≡ Some layout }
    ensures of { IfSome result (IsOf size align) }
    ensures no_layout { result ≡ None → ¬ IsLayout size align }
    ensures none { ¬ IsLayout size align → result ≡ None }
{
    Layout::from_size_align(size, align).ok()
}

/// Returns the layout of this size and this alignment, if neither exceeds the limit's and the alignment is a power of two. The
/// result is that of `Layout::within`, in fewer instructions.
#[inline(always)]
pub fn within(limit: Layout, size: usize, align: usize) -> Option<Layout>
    ensures some { IsSome result ↔ ((size ≤ limit.size) × (align ≤ limit.align) × IsPowerOfTwo align) }
    ensures of { IfSome result (IsOf size align) }
{
    // A number that isn't 0 is a power of two if it shares no bit with the number below it. For 0 that is the greatest number,
    // which is less than no alignment. A processor of plain x86-64 can't count bits, which `is_power_of_two` does.
    let below = align.wrapping_sub(1);
    if align & below != 0 {
        return None;
    }
    if size > limit.size() || below >= limit.align() {
        return None;
    }
    // The lesser of the two alignments is `align`. From `min` the compiler sees that an allocator needn't compare them again.
    let align = align.min(limit.align());
    Some(Layout { size, align })
}

/// Returns the two layouts of these numbers, if they make two.
pub fn layouts_of(
    old_size: usize,
    old_align: usize,
    new_size: usize,
    new_align: usize,
) -> Option<(Layout, Layout)>
    ensures each { (old new : Asked) → IsOf old_size old_align old → IsOf new_size new_align new → result ≡ Some (old, new) }
    ensures none { ¬ (IsLayout old_size old_align × IsLayout new_size new_align) → result ≡ None }
{
    let old = layout_of(old_size, old_align)?;
    let new = layout_of(new_size, new_align)?;
    Some((old, new))
}

/// Returns the layout of a bucket, if the region may be cut into such buckets for these parties and has room for one. Otherwise
/// returns the code of the first reason why not.
pub fn cut_into(
    bucket_size: usize,
    bucket_align: usize,
    start: usize,
    size: usize,
    parties: u32,
) -> Result<Layout, u32>
    ensures cut { IfOk result (IsCuttable bucket_size bucket_align (region_at start size) parties) }
    ensures invalid_layout { (result ≡ Err invalid_layout) ↔ (¬ IsLayout bucket_size bucket_align) }
    ensures invalid_argument { (result ≡ Err invalid_argument)
        ↔ FailsOf bucket_size bucket_align (MayBeShared (region_at start size) parties) }
    ensures no_bucket { (result ≡ Err no_bucket)
        ↔ LacksRoomOf bucket_size bucket_align (MayBeShared (region_at start size) parties) (HasRoom (region_at start size)) }
    ensures others { IfErr result (λ code. code ≢ invalid_layout → code ≢ invalid_argument → code ≡ no_bucket) }
{
    let Some(bucket) = layout_of(bucket_size, bucket_align) else {
        return Err(code::INVALID_LAYOUT);
    };
    if parties == 0 || !PoolAllocator::<Global>::can_make(bucket, start, size) {
        return Err(code::INVALID_ARGUMENT);
    }
    if FixedSizePoolAllocator::<1>::new(bucket, start, size).number_of_buckets() == 0 {
        return Err(code::NO_BUCKET);
    }
    Ok(bucket)
}
