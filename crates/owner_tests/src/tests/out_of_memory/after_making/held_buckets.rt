//! Held buckets: their count, the greatest count so far, buckets by number, and the reads of a
//! request.
use crate::tests::checks::{check, layout, none_requested, refused, same};
use crate::tests::kinds::{Kind, Of, fixed_over, pool_over};
use bb_memory_owned::pool_allocator::{
    AllocationError, Allocator, BaseAllocator, FixedSizePoolAllocator, PoolAllocator,
};
use std::alloc::Global;
use std::process::Abort;
use test_marks::refuse_memory;

/// The number of held buckets, the greatest number so far, and whether there is room for one more.
type Counts = (u32, u32, bool);

/// The place of a number, the number of a place, and whether the bucket there is held.
type At = (Option<usize>, Option<u32>, bool);

/// A pool of either kind.
pub(in crate::tests) trait Buckets: Kind + Allocator {
    fn figures(&self, number: u32, place: usize) -> (Counts, At);

    /// Calls `deallocate_if_held`.
    fn give(&mut self, place: usize) -> bool;
}

impl Buckets for PoolAllocator<Global> {
    fn figures(&self, number: u32, place: usize) -> (Counts, At) {
        let counts = (self.held_buckets(), self.greatest_held(), self.has_room());
        let (at, number) = (self.place_at(number), self.number_at(place));
        (counts, (at, number, self.holds(place)))
    }

    fn give(&mut self, place: usize) -> bool {
        self.deallocate_if_held(place)
    }
}

impl<const N: usize> Buckets for FixedSizePoolAllocator<N> {
    fn figures(&self, number: u32, place: usize) -> (Counts, At) {
        let counts = (self.held_buckets(), self.greatest_held(), self.has_room());
        let (at, number) = (self.place_at(number), self.number_at(place));
        (counts, (at, number, self.holds(place)))
    }

    fn give(&mut self, place: usize) -> bool {
        self.deallocate_if_held(place)
    }
}

fn counts(rt: &impl Abort, pool: &impl Buckets, held: u32, greatest: u32, buckets: u32) {
    same(rt, pool.figures(0, 0).0, (held, greatest, held < buckets));
}

/// Allocates a bucket, whose place and number agree. As the count of held buckets rises, each call
/// gets another bucket.
fn takes(rt: &impl Abort, pool: &mut impl Buckets, size: usize) {
    let Ok(chunk) = pool.allocate(layout(rt, size, size)) else {
        panic!(rt; "no bucket is free");
    };
    let place = chunk.place();
    let (_, number, held) = pool.figures(0, place).1;
    check(rt, held && number.is_some());
    same(
        rt,
        pool.figures(number.unwrap_or(0), place).1.0,
        Some(place),
    );
}

/// Returns the place of the bucket of 16 bytes with this number.
fn place_of(number: u32) -> usize {
    (number as usize).saturating_mul(16).saturating_add(4096)
}

/// Gives a bucket back. A second return changes nothing.
fn gives(rt: &impl Abort, pool: &mut impl Buckets, number: u32) {
    let place = place_of(number);
    let (at, found) = (Some(place), Some(number));
    same(rt, pool.figures(number, place).1, (at, found, true));
    check(rt, pool.give(place) && !pool.give(place));
    same(rt, pool.figures(number, place).1, (at, found, false));
}

/// Checks that no bucket is held, or given back, at a place at which no bucket of 16 bytes begins.
fn has_none_between(rt: &impl Abort, pool: &mut impl Buckets, buckets: u32) {
    for arbitrary in [0, 1, 4080, 4095, 4097, 4104, usize::MAX, place_of(buckets)] {
        same(rt, pool.figures(buckets, arbitrary).1, (None, None, false));
        same(rt, pool.figures(u32::MAX, arbitrary).1, (None, None, false));
        check(rt, !pool.give(arbitrary));
    }
}

/// Takes all buckets of 16 bytes, gives them back, and takes one. Neither a return nor a refusal
/// changes the greatest number.
fn goes_round(rt: &(impl Abort + AllocGlobal), made: Option<impl Buckets>, buckets: u32) {
    let Some(mut pool) = made else {
        return refused(rt);
    };
    refuse_memory(rt.alloc());
    for held in 0..buckets {
        counts(rt, &pool, held, held, buckets);
        takes(rt, &mut pool, 16);
    }
    for (size, align) in [(16, 8), (17, 8), (16, 32)] {
        check(rt, pool.allocate(layout(rt, size, align)).is_err());
    }
    has_none_between(rt, &mut pool, buckets);
    for number in 0..buckets {
        counts(rt, &pool, buckets - number, buckets, buckets);
        gives(rt, &mut pool, number);
    }
    counts(rt, &pool, 0, buckets, buckets);
    if buckets > 1 {
        takes(rt, &mut pool, 16);
        counts(rt, &pool, 1, buckets, buckets);
    }
    none_requested(rt);
}

/// Pools with more buckets than a word has bits, with one, and with none.
#[test]
fn a_pool_counts_what_it_holds(rt: HostRuntime) {
    for buckets in [70u32, 64, 1, 0] {
        let size = (buckets as usize).saturating_mul(16);
        let pool = pool_over(rt.alloc(), layout(&rt, 16, 16), 4096, size);
        goes_round(&rt, pool, buckets);
    }
}

/// A fixed pool has at most as many buckets as its constant says.
#[test]
fn fixed_counts_what_it_holds(rt: HostRuntime) {
    for (size, buckets) in [(1120, 66u32), (1056, 66), (48, 3), (0, 0)] {
        let pool = fixed_over::<66>(layout(&rt, 16, 16), 4096, size);
        goes_round(&rt, pool, buckets);
    }
}

/// Requests a byte, which reads one index word. The byte is at `place`, or the request fails if
/// this is `None`.
fn by_one_read(rt: &impl Abort, pool: &mut PoolAllocator<Global>, place: Option<usize>) {
    let given = pool.allocate(layout(rt, 1, 1));
    same(rt, pool.last_reads(), 1);
    match given {
        Ok(chunk) => check(rt, chunk.len() == 1 && Some(chunk.place()) == place),
        Err(error) => check(rt, error == AllocationError::OutOfMemory && place.is_none()),
    }
}

/// Takes all buckets of one byte, by one read each. Then the bucket at `place` is given back, and
/// the next request gets it.
fn fills(rt: &(impl Abort + AllocGlobal), buckets: u32, place: usize) {
    let Some(mut pool) = pool_over(rt.alloc(), layout(rt, 1, 1), 4096, buckets as usize) else {
        return refused(rt);
    };
    refuse_memory(rt.alloc());
    for _ in 0..buckets {
        takes(rt, &mut pool, 1);
        same(rt, pool.last_reads(), 1);
    }
    by_one_read(rt, &mut pool, None);
    if !pool.holds(place) {
        panic!(rt; "the bucket isn't held");
    }
    pool.deallocate_bucket(place);
    by_one_read(rt, &mut pool, Some(place));
    by_one_read(rt, &mut pool, None);
    none_requested(rt);
}

/// One read finds that all buckets are held, or finds the only free one, in words that are full or
/// not.
// row: pool-sixty-five-buckets, pool-two-full-words
#[test]
fn one_read_where_all_are_held(rt: HostRuntime) {
    fills(&rt, 65, 4160);
    fills(&rt, 128, 4100);
    fills(&rt, 320, 4300);
}

/// Checks that no bucket begins at a place.
fn has_no_number(rt: &impl Abort, pool: &PoolAllocator<Global>, places: &[usize]) {
    for place in places {
        same(rt, pool.number_at(*place), None);
    }
}

/// Checks the numbers of a pool's buckets, which begin at the region's start, and that no other
/// place has a number: one beside a bucket's place, a stride before the first bucket or after the
/// last one, and the least and the greatest address.
fn numbers(rt: &(impl Abort + AllocGlobal), of: Of, stride: usize, buckets: u32) {
    let [start, size, bucket_size, align] = of;
    let Some(pool) = pool_over(rt.alloc(), layout(rt, bucket_size, align), start, size) else {
        return refused(rt);
    };
    refuse_memory(rt.alloc());
    same(rt, pool.number_of_buckets(), buckets);
    for number in 0..buckets {
        let place = start.wrapping_add(stride.wrapping_mul(number as usize));
        same(rt, pool.number_at(place), Some(number));
        if stride > 1 {
            let (next, last) = (place.wrapping_add(1), place.wrapping_add(stride - 1));
            has_no_number(rt, &pool, &[next, place.wrapping_add(stride / 2), last]);
        }
    }
    let before = start.wrapping_sub(stride);
    let after = start.wrapping_add(stride.wrapping_mul(buckets as usize));
    has_no_number(
        rt,
        &pool,
        &[before, start.wrapping_sub(1), after, 0, usize::MAX],
    );
    none_requested(rt);
}

/// Odd strides, powers of two, and products of both; regions that begin at the least place, and
/// that end at the greatest one.
#[test]
fn a_number_at_each_place(rt: HostRuntime) {
    numbers(&rt, [4096, 1000, 96, 32], 96, 10);
    numbers(&rt, [4096, 1024, 100, 128], 128, 8);
    numbers(&rt, [4096, 70, 1, 1], 1, 70);
    numbers(&rt, [1, 100, 3, 1], 3, 33);
    numbers(&rt, [4096, 970, 97, 1], 97, 10);
    numbers(
        &rt,
        [1 << 62, usize::MAX - (1 << 62), 1 << 62, 1 << 62],
        1 << 62,
        2,
    );
    numbers(&rt, [1, usize::MAX - 1, (1 << 62) + 1, 1], (1 << 62) + 1, 3);
    numbers(&rt, [usize::MAX - 1023, 1000, 96, 32], 96, 10);
    numbers(&rt, [usize::MAX - 97, 97, 97, 1], 97, 1);
}
