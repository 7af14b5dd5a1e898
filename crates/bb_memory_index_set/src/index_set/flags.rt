//! A set of numbers as an array of flags, with an array of the numbers that aren't in the set. The
//! set allocates no memory.
ghost use Rattle.bb_memory_index_set.specs.IndexSets.{AreFlags, IsTally, NumberSet, fresh_set, number_set};
ghost use Rattle.std.specs.Prelude.{min, take, ◌-◌, ◌≡◌, ◌≤◌};

use crate::index_set::{Counter, IndexSet};
use std::marker::Model;

/// A flag for each number. The first entries of an array are the numbers below the bound that
/// aren't in the set; the other entries are never read.
///
/// `take` returns the number that was released last, and sets its flag, without a search. No clause
/// promises which number is returned.
///
/// `left` is how many numbers aren't in the set, and `least` is the least value that `left` has had
/// so far.
#[derive(Drop)]
#[derive_where(Debug)]
pub struct Flags<const N: usize> {
    held: [bool; N],
    free: [u32; N],
    bound: u32,
    left: usize,
    least: usize,
}

impl<const N: usize> Model for Flags<N> {
    ghost Value = { NumberSet };

    ghost view = { λ a. number_set (take a.bound a.held) (a.bound - a.least) };

    ghost invariant = { λ a. AreFlags N a.bound a.held a.free a.left × (a.least ≤ a.left)
        × IsTally (take a.bound a.held) (a.bound - a.left) (a.bound - a.least) };
}

impl<const N: usize> Flags<N> {
    /// Makes the empty set of numbers below a bound, which is at most `N`.
    pub fn new(bound: u32) -> Self
        requires { bound ≤ N }
        ensures { result ≡ fresh_set bound }
    {
        let mut free = [0u32; N];
        for k in 0..bound {
            free[k as usize] = bound - 1 - k;
        }
        Flags {
            held: [false; N],
            free,
            bound,
            left: bound as usize,
            least: bound as usize,
        }
    }
}

/// Lowers `least` to `number` if that is less, and otherwise writes nothing.
#[inline(always)]
fn lower(least: &mut usize, number: usize)
    ensures { least.new ≡ min least.old number }
{
    if number < *least {
        *least = number;
    }
}

impl<const N: usize> IndexSet for Flags<N> {
    ghost numbers = { λ set. set.numbers };

    ghost most = { λ set. set.most };

    ghost words = { λ bound. 0 };

    #[inline(always)]
    fn take(&mut self, _counter: &mut Counter) -> Option<usize> {
        if self.left == 0 {
            return None;
        }
        let last = self.left - 1;
        let number = self.free[last] as usize;
        self.left = last;
        self.held[number] = true;
        lower(&mut self.least, last);
        Some(number)
    }

    /// Removes the number. The next `take` returns it.
    #[inline(always)]
    fn release(&mut self, number: usize) {
        let left = self.left;
        self.free[left] = number as u32;
        self.left = left + 1;
        self.held[number] = false;
    }

    #[inline(always)]
    fn has(&self, number: usize) -> bool {
        self.held[number]
    }

    #[inline(always)]
    fn has_room(&self) -> bool {
        self.left > 0
    }

    #[inline(always)]
    fn len(&self) -> u32 {
        self.bound - self.left as u32
    }

    #[inline(always)]
    fn greatest_len(&self) -> u32 {
        self.bound - self.least as u32
    }
}
