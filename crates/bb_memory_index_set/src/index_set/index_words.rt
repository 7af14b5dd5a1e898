//! Words of 64 bits that a search reads only through a counter, and a list of some of them.
//!
//! The calls that return a word and count a read are in one module: no other code can raise a
//! counter, though any code may make a new one.
ghost use Rattle.bb_memory_index_set.specs.IndexSets.{PutsAt, SetsBit, Slots, has_bit, slots_of};
ghost use Rattle.std.specs.Prelude.{IfOk, IsFalse, IsTrue, false, length, replicate, slice_index, slice_set, ℕ, ◌+◌, ◌-◌, ◌/◌, ◌<◌, ◌^◌, ◌≡◌, ◌≢◌, ◌≤◌};

use std::alloc::{AllocError, Allocator};
use std::marker::Model;

/// Counts the words that a search reads: it begins at 0, and each read adds one.
#[derive(Drop)]
pub struct Counter {
    count: u32,
}

impl Model for Counter {
    ghost Value = { ℕ };

    ghost view = { λ a. a.count };
}

impl Counter {
    /// Makes a counter that has counted nothing.
    #[inline(always)]
    pub fn new() -> Counter
        ensures { result ≡ 0 }
    {
        Counter { count: 0 }
    }

    /// Returns the number of words that were read.
    #[inline(always)]
    pub fn count(&self) -> u32
        ensures { result ≡ self.now }
    {
        self.count
    }
}

/// Words, and after them, in the same memory, a list with an entry for each word except one. Number
/// n is bit n % 64 of word n / 64, counted from the lowest.
///
/// A search reads a word only by [`IndexWords::word`]. A release changes a bit in place, and `has`
/// reads one.
#[derive(Drop)]
pub struct IndexWords<A: Allocator> {
    slots: Vec<u64, A>,
    count: usize,
}

impl<A: Allocator> Model for IndexWords<A> {
    ghost Value = { Slots };

    ghost view = { λ a. slots_of a.count a.slots.items };

    ghost invariant = { λ a. a.count ≤ length a.slots.items };
}

impl<A: Allocator> IndexWords<A> {
    /// Makes `len` words, all zero, and room for the list: eight bytes for each. Fails only if
    /// memory ran out.
    pub fn new(alloc: A, len: usize) -> Result<Self, AllocError>
        requires { len < 2 ^ 32 }
        ensures zero { IfOk result (λ slots. slots.words ≡ replicate len 0) }
        ensures room { IfOk result (λ slots. length slots.listed ≡ len - 1) }
    {
        let slots = Vec::from_elem(alloc, 0u64, len + len.saturating_sub(1))?;
        Ok(IndexWords { slots, count: len })
    }

    /// Reads word i, and counts the read.
    #[inline(always)]
    pub fn word(&self, i: usize, counter: &mut Counter) -> u64
        requires index { i < length self.now.words }
        requires room { counter.old + 1 < 2 ^ 32 }
        ensures value { result ≡ slice_index self.now.words i }
        ensures counted { counter.new ≡ counter.old + 1 }
    {
        counter.count += 1;
        self.slots[i]
    }

    /// Replaces word i.
    #[inline(always)]
    pub fn put(&mut self, i: usize, word: u64)
        requires { i < length self.old.words }
        ensures words { self.new.words ≡ slice_set self.old.words i word }
        ensures listed { self.new.listed ≡ self.old.listed }
    {
        self.slots[i] = word;
    }

    /// Returns the bit of a number. The word is read in place, and the read isn't counted.
    #[inline(always)]
    pub fn has(&self, number: usize) -> bool
        requires { number / 64 < length self.now.words }
        ensures { result ≡ has_bit self.now.words number }
    {
        self.slots[number / 64] >> (number % 64) & 1 == 1
    }

    /// Returns whether a word isn't full. The word is read in place, and the read isn't counted.
    #[inline(always)]
    pub fn is_open(&self, at: usize) -> bool
        requires { at < length self.now.words }
        ensures clear { IsTrue result → (number : ℕ) × (number / 64 ≡ at)
            × (has_bit self.now.words number ≡ false) }
        ensures full { IsFalse result → slice_index self.now.words at ≡ 2 ^ 64 - 1 }
    {
        self.slots[at] != u64::MAX
    }

    /// Clears the bit of a number, and no other. Returns whether its word was full.
    #[inline(always)]
    pub fn clear(&mut self, number: usize) -> bool
        requires { number / 64 < length self.old.words }
        ensures bit { SetsBit self.old.words number false self.new.words }
        ensures others { PutsAt self.old.words (number / 64) self.new.words }
        ensures not_full { slice_index self.new.words (number / 64) ≢ 2 ^ 64 - 1 }
        ensures listed { self.new.listed ≡ self.old.listed }
        ensures was_full { IsTrue result → slice_index self.old.words (number / 64) ≡ 2 ^ 64 - 1 }
        ensures was_open { IsFalse result → slice_index self.old.words (number / 64) ≢ 2 ^ 64 - 1 }
    {
        let word = self.slots[number / 64];
        self.slots[number / 64] = word & !(1u64 << (number % 64));
        word == u64::MAX
    }

    /// Returns entry k of the list.
    #[inline(always)]
    pub fn listed(&self, k: usize) -> usize
        requires { k < length self.now.listed }
        ensures { result ≡ slice_index self.now.listed k }
    {
        self.slots[self.count + k] as usize
    }

    /// Replaces entry k of the list.
    #[inline(always)]
    pub fn list(&mut self, k: usize, at: usize)
        requires { k < length self.old.listed }
        ensures words { self.new.words ≡ self.old.words }
        ensures listed { self.new.listed ≡ slice_set self.old.listed k at }
    {
        self.slots[self.count + k] = at as u64;
    }
}
