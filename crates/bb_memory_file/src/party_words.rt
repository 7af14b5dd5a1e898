//! A party's operations on the words of its file.
ghost use Rattle.bb_memory_file.specs.FileFormat.{entry_at, flag_at, life_at, slot_at};
ghost use Rattle.std.specs.Prelude.{◌<◌, ◌≡◌};

use crate::format::{entry_in, entry_word, flag_in, flag_word, slot_in, slot_word};
use crate::geometry::{WORDS_BEFORE, WORDS_FROM_SLOT_TO_SLOT};
use crate::party::FileParty;
use crate::words::Words;
use bb_memory_file_machine::steps::{Entry, FileFlag, Slot};

impl FileParty {
    /// Returns the number of the word of a bucket's flag.
    #[inline(always)]
    fn flag_at(&self, bucket: u32) -> usize
        requires { bucket < self.now.geometry.buckets }
        ensures { result ≡ flag_at self.now.geometry bucket }
    {
        WORDS_BEFORE + bucket as usize
    }

    /// Returns the number of the word of a bucket's entry.
    #[inline(always)]
    fn entry_at(&self, bucket: u32) -> usize
        requires { bucket < self.now.geometry.buckets }
        ensures { result ≡ entry_at self.now.geometry bucket }
    {
        self.geometry.first_entry + bucket as usize
    }

    /// Returns the number of a slot's word.
    #[inline(always)]
    fn slot_at(&self, slot: u32) -> usize
        requires { slot < self.now.geometry.slots }
        ensures { result ≡ slot_at self.now.geometry slot }
    {
        self.geometry.first_slot + WORDS_FROM_SLOT_TO_SLOT * slot as usize
    }

    /// Returns the number of the word of the party's life.
    #[inline(always)]
    fn life_at(&self) -> usize
        ensures { result ≡ life_at self.now.geometry self.now.number }
    {
        self.geometry.first_life + self.number as usize
    }
}

impl Words for FileParty {
    ghost use Rattle.bb_memory_file.specs.FileParties.{IsUnlocked, log_of};

    ghost log = { log_of };

    ghost unlocked = { IsUnlocked };

    #[inline(always)]
    fn party(&self) -> u32 {
        self.number
    }

    #[inline(always)]
    fn buckets(&self) -> u32 {
        self.geometry.buckets
    }

    #[inline(always)]
    fn slots(&self) -> u32 {
        self.geometry.slots
    }

    #[inline(always)]
    fn load_flag(&mut self, bucket: u32) -> FileFlag {
        let at = self.flag_at(bucket);
        flag_in(self.words.load(&mut self.hand, at))
    }

    #[inline(always)]
    fn exchange_flag(&mut self, bucket: u32, from: FileFlag, to: FileFlag) -> bool {
        let at = self.flag_at(bucket);
        let wanted = flag_word(from);
        let found = self
            .words
            .exchange(&mut self.hand, at, wanted, flag_word(to));
        found == wanted
    }

    #[inline(always)]
    fn store_flag(&mut self, bucket: u32, to: FileFlag) {
        let at = self.flag_at(bucket);
        self.words.store(&mut self.hand, at, flag_word(to));
    }

    #[inline(always)]
    fn load_entry(&mut self, bucket: u32) -> Entry {
        let at = self.entry_at(bucket);
        entry_in(self.geometry.slots, self.words.load(&mut self.hand, at))
    }

    #[inline(always)]
    fn store_entry(&mut self, bucket: u32, to: Entry) {
        let at = self.entry_at(bucket);
        self.words
            .store(&mut self.hand, at, entry_word(self.geometry.slots, to));
    }

    #[inline(always)]
    fn load_slot(&mut self, slot: u32) -> Slot {
        let at = self.slot_at(slot);
        slot_in(self.words.load(&mut self.hand, at))
    }

    #[inline(always)]
    fn exchange_slot(&mut self, slot: u32, from: Slot, to: Slot) -> bool {
        let at = self.slot_at(slot);
        let word = slot_word(from);
        let found = self.words.exchange(&mut self.hand, at, word, slot_word(to));
        found == word
    }

    #[inline(always)]
    fn empty_slot(&mut self, slot: u32, _bucket: u32, _lap: u32, next: u32) {
        let at = self.slot_at(slot);
        self.words
            .store(&mut self.hand, at, slot_word(Slot::Empty { lap: next }));
    }

    #[inline(always)]
    fn load_life(&mut self) -> u64 {
        let at = self.life_at();
        self.words.load(&mut self.hand, at)
    }

    #[inline(always)]
    fn store_life(&mut self, to: u64) {
        let at = self.life_at();
        self.words.store(&mut self.hand, at, to);
    }

    fn unlock(self) {}
}
