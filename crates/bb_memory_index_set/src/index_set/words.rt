//! A set of numbers as words of 64 bits.
ghost use Rattle.bb_memory_index_set.specs.IndexSets.{Has, IsLastFreed, IsTally, IsWordSet, NumberSet, fresh_set, index_words, less_last_freed, number_set, numbers_of};
ghost use Rattle.std.specs.Prelude.{IfOk, false, slice_set, ◌≡◌};

use crate::index_set::index_words::IndexWords;
use crate::index_set::{Counter, IndexSet};
use std::alloc::{AllocError, Allocator};
use std::marker::Model;

/// Represents no number, since it is above each bound.
const NONE: usize = usize::MAX;

/// A bit for each number below the bound. The bits from the bound on are set for good, so that a
/// word with a clear bit has a number to give.
///
/// `last_freed` is the number that came back last: it isn't in the set, though its bit stays set
/// until another number comes back. `take` returns that number first, and reads only its word.
///
/// `open_count` words aren't full: one is current, and the others are listed, each once. If
/// `last_freed` isn't a number, `take` reads only the current word, however many words are full. If
/// all of them are full, `take` returns `None`.
///
/// `count` is how many bits below the bound are set, and `most` is the greatest value that `count`
/// has had. `take` sets a bit only if `last_freed` isn't a number, and then the set has exactly
/// `count` members. So `most` is also the greatest number of members, and `last_freed` costs no
/// counting.
#[derive(Drop)]
pub struct Words<A: Allocator> {
    words: IndexWords<A>,
    bound: u32,
    current: usize,
    open_count: usize,
    last_freed: usize,
    count: u32,
    most: u32,
}

impl<A: Allocator> Model for Words<A> {
    ghost Value = { NumberSet };

    ghost view = { λ a. number_set (less_last_freed (numbers_of a.bound a.words.words) a.last_freed) a.most };

    ghost invariant = { λ a. IsWordSet a.bound a.words.words a.words.listed a.current a.open_count
        × IsLastFreed (numbers_of a.bound a.words.words) a.last_freed
        × IsTally (numbers_of a.bound a.words.words) a.count a.most };
}

impl<A: Allocator> Words<A> {
    /// Makes the empty set of numbers below a bound: eight bytes for each word, and eight for each
    /// word except one. Fails only if memory ran out.
    pub fn new(alloc: A, bound: u32) -> Result<Self, AllocError>
        ensures { IfOk result (λ set. set ≡ fresh_set bound) }
    {
        let count = (bound as usize).div_ceil(64);
        let mut words = IndexWords::new(alloc, count)?;
        for k in 1..count {
            words.list(k - 1, count - k);
        }
        let used = bound % 64;
        if used != 0 {
            words.put(count - 1, u64::MAX << used);
        }
        Ok(Words {
            words,
            bound,
            current: 0,
            open_count: count,
            last_freed: NONE,
            count: 0,
            most: 0,
        })
    }

    /// Clears the bit of a number of the set, and doesn't change `last_freed`. If the number's word
    /// was full, it is the current one from then on, and the word that was current is listed.
    #[inline(always)]
    fn put_back(&mut self, number: usize)
        requires { Has self.old.numbers number }
        ensures numbers { self.new.numbers ≡ slice_set self.old.numbers number false }
        ensures most { self.new.most ≡ self.old.most }
    {
        self.count -= 1;
        let was_full = self.words.clear(number);
        if was_full {
            if self.open_count > 0 {
                self.words.list(self.open_count - 1, self.current);
            }
            self.current = number / 64;
            self.open_count += 1;
        }
    }
}

impl<A: Allocator> IndexSet for Words<A> {
    ghost numbers = { λ set. set.numbers };

    ghost most = { λ set. set.most };

    ghost words = { index_words };

    /// Returns the number that came back last, whose bucket is likely still in the processor's
    /// cache. If there is none, sets the lowest clear bit of the current word and returns that
    /// bit's number. If that fills the word, the word that is listed last is current from then on.
    #[inline(always)]
    #[tactic(auto, using(crate::proofs::OpenWords::of_a_taking))]
    fn take(&mut self, counter: &mut Counter) -> Option<usize> {
        let number = self.last_freed;
        if number != NONE {
            self.last_freed = NONE;
            let _ = self.words.word(number / 64, counter);
            return Some(number);
        }
        if self.open_count == 0 {
            // A refusal also counts one read, if there is a word.
            if self.bound > 0 {
                let _ = self.words.word(0, counter);
            }
            return None;
        }
        let current = self.current;
        let word = self.words.word(current, counter);
        self.count += 1;
        self.most = self.most.max(self.count);
        let left = word | (word + 1);
        if left == u64::MAX {
            self.open_count -= 1;
            if self.open_count > 0 {
                self.current = self.words.listed(self.open_count - 1);
            }
        }
        self.words.put(current, left);
        Some(current * 64 + word.trailing_ones() as usize)
    }

    /// Keeps the number as `last_freed`, and puts the number that was there before back into the
    /// words.
    #[inline(always)]
    #[tactic(auto, using(crate::proofs::LastFreed::swapped, crate::proofs::LastFreed::less_none))]
    fn release(&mut self, number: usize) {
        let earlier = self.last_freed;
        self.last_freed = number;
        if earlier != NONE {
            self.put_back(earlier);
        }
    }

    #[inline(always)]
    fn has(&self, number: usize) -> bool {
        self.words.has(number) && self.last_freed != number
    }

    #[inline(always)]
    fn has_room(&self) -> bool {
        self.last_freed < self.bound as usize
            || self.open_count > 0 && self.words.is_open(self.current)
    }

    #[inline(always)]
    fn len(&self) -> u32 {
        if self.last_freed < self.bound as usize {
            self.count - 1
        } else {
            self.count
        }
    }

    #[inline(always)]
    fn greatest_len(&self) -> u32 {
        self.most
    }
}
