//! A set that is gone over fast where it has few numbers.

ghost use Rattle.std.specs.Prelude.{◌≡◌, ◌≢◌, ℕ, ◌+◌, ◌*◌, ◌/◌, ◌<◌, true, false, length, IfOk};
ghost use Rattle.gt_bits.specs.Sets.{has, Fits, IsNext};

use crate::places::{bit_of, next_bit, word_of};
use crate::sets;
use std::alloc::{AllocError, Global};
use std::marker::Model;

/// A set of numbers with a summary of its words, so that `next` passes 64 empty words by a look at one word of the
/// summary. Contracts see the words alone.
#[derive(Drop)]
pub struct SparseSet {
    words: Vec<u64>,
    // The numbers of the words that are not zero, as a set of their own.
    summary: Vec<u64>,
}

impl Model for SparseSet {
    ghost use Rattle.std.specs.Prelude.{List, ℕ};

    ghost Value = { List ℕ };

    ghost use Rattle.gt_bits.specs.Summaries.{IsSummary};

    ghost view = { λ s. s.words.items };

    ghost invariant = { λ s. IsSummary s.words.items s.summary.items };
}

impl SparseSet {
    /// The empty set, with room for the numbers below `count`. It fails only if memory runs out.
    pub fn new(alloc: Global, count: u32) -> Result<SparseSet, AllocError>
        ensures len { IfOk result (λ set. length set ≡ (count + 63) / 64) }
        ensures none { IfOk result (λ set. (i : ℕ) → has set i ≡ false) }
    {
        let words = vec![in alloc; 0; (count as usize + 63) / 64]?;
        let summary = vec![in alloc; 0; (words.len() + 63) / 64]?;
        Ok(SparseSet { words, summary })
    }

    /// Puts a number into the set, where it may be already.
    pub fn insert(&mut self, i: u32)
        requires { i < 64 * length self.old }
        ensures len { length self.new ≡ length self.old }
        ensures held { has self.new i ≡ true }
        ensures others { (j : ℕ) → j ≢ i → has self.new j ≡ has self.old j }
    {
        sets::insert(&mut self.words, i);
        sets::insert(&mut self.summary, word_of(i) as u32);
    }

    /// Takes a number out of the set, in which it need not be.
    pub fn remove(&mut self, i: u32)
        requires { i < 64 * length self.old }
        ensures len { length self.new ≡ length self.old }
        ensures gone { has self.new i ≡ false }
        ensures others { (j : ℕ) → j ≢ i → has self.new j ≡ has self.old j }
    {
        sets::remove(&mut self.words, i);
        let word = word_of(i);
        if self.words[word] == 0 {
            sets::remove(&mut self.summary, word as u32);
        }
    }

    /// The least number of the set that is not below `from`, or `None` where there is none. It looks first at the word
    /// of `from`, then at the summary, each word of which stands for 4,096 numbers, and at one word more.
    pub fn next(&self, from: u32) -> Option<u32>
        requires { Fits self.now }
        ensures { IsNext self.now from result }
    {
        let word = word_of(from);
        let bit = bit_of(from);
        if word >= self.words.len() {
            return None;
        }
        match next_bit(self.words[word], bit) {
            Some(found) => Some(from - bit + found),
            None => self.next_after(word as u32),
        }
    }

    // The least number of the set in the words after this one, or `None` where there is none.
    fn next_after(&self, word: u32) -> Option<u32>
        requires within { word < length self.now }
        requires fits { Fits self.now }
        ensures { IsNext self.now (64 * (word + 1)) result }
    {
        let later = sets::next(&self.summary, word + 1)?;
        sets::next(&self.words, 64 * later)
    }
}
