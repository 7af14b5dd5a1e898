//! A word for each thing that threads may take: 1 while it is taken, otherwise 0.
use std::process::Abort;
use std::sync::atomic::{AtomicU64, Ordering};

#[derive(Drop)]
pub(super) struct Slots {
    words: Vec<AtomicU64>,
}

impl Slots {
    /// Makes `count` words, all 0.
    pub(super) fn new(rt: &(impl Abort + AllocGlobal), count: usize) -> Slots {
        let mut words = Vec::new(rt.alloc());
        for _ in 0..count {
            let pushed = words.push(AtomicU64::new(0));
            pushed.expect(rt, "there is memory for a word");
        }
        Slots { words }
    }

    /// Marks this word. Returns whether the word exists and wasn't marked.
    pub(super) fn mark(&self, at: usize) -> bool {
        self.words
            .get(at)
            .is_some_and(|word| word.swap(1, Ordering::SeqCst) == 0)
    }

    /// Marks `count` words, from this one on. Returns whether all of them exist and weren't marked.
    pub(super) fn mark_all(&self, from: usize, count: usize) -> bool {
        (from..from.saturating_add(count)).all(|at| self.mark(at))
    }

    /// Watches a marked word for a while, and removes the mark. Returns whether nobody else did so
    /// meanwhile.
    pub(super) fn unmark(&self, at: usize) -> bool {
        let Some(word) = self.words.get(at) else {
            return false;
        };
        for _ in 0..100u32 {
            if word.load(Ordering::SeqCst) != 1 {
                return false;
            }
        }
        word.swap(0, Ordering::SeqCst) == 1
    }

    /// Returns how many words are marked.
    pub(super) fn count(&self) -> usize {
        self.words
            .iter()
            .filter(|word| word.load(Ordering::SeqCst) == 1)
            .count()
    }
}
