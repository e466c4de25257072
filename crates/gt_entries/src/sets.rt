//! The sets of an entry: its places in use, those with a marked block, and those whose block is left to a pass.
ghost use Rattle.std.specs.Prelude.{◌≡◌, ◌≢◌, ℕ, ◌*◌, ◌^◌, ◌<◌, ◌≤◌, true, false, not, [], length, replicate, IfOk};
ghost use Rattle.gt_bits.specs.Sets as bits;

use crate::memory::refill;
use gt_bits::{clear, insert, insert_new, remove};
use std::alloc::{AllocError, Global};
use std::marker::Model;

/// Three sets of so many words each, one after another in one vector.
#[derive(Drop)]
pub(crate) struct Sets {
    len: usize,
    words: Vec<u64>,
}

impl Model for Sets {
    ghost use Rattle.gt_entries.specs.Sets.{ThreeSets};

    ghost Value = { ThreeSets };

    ghost use Rattle.gt_entries.specs.Sets.{sets_of, AreThirds};

    ghost view = { λ s. sets_of s.words.items };

    ghost invariant = { λ s. AreThirds s.len s.words.items };
}

impl Sets {
    /// Sets without words. It takes no memory.
    pub(crate) fn none(alloc: Global) -> Sets
        ensures { result ≡ record { used = []; marked = []; pending = [] } }
    {
        Sets {
            len: 0,
            words: Vec::new(alloc),
        }
    }

    /// Empty sets of so many words each, in the memory of these where it suffices and is less than twice what is needed. Otherwise it is
    /// given back, and just as much is taken as is needed. It fails only if memory runs out.
    pub(crate) fn renew(self, len: usize) -> Result<Sets, AllocError>
        requires { len < 2 ^ 32 }
        ensures { IfOk result (λ s. s ≡ record { used = replicate len 0; marked = replicate len 0; pending = replicate len 0 }) }
    {
        let words = refill(self.words, 0, 3 * len)?;
        Ok(Sets { len, words })
    }

    /// The places in use.
    pub(crate) fn used_places(&self) -> &[u64]
        ensures { result.now ≡ self.now.used }
    {
        &self.words[..self.len]
    }

    /// The places with a marked block.
    pub(crate) fn marked_places(&self) -> &[u64]
        ensures { result.now ≡ self.now.marked }
    {
        &self.words[self.len..2 * self.len]
    }

    /// The places with a block that is left to a pass.
    pub(crate) fn pending_places(&self) -> &[u64]
        ensures { result.now ≡ self.now.pending }
    {
        &self.words[2 * self.len..]
    }

    /// A place is in use from now on.
    pub(crate) fn take(&mut self, k: u32)
        requires { k < 64 * length self.old.used }
        ensures len { length self.new.used ≡ length self.old.used }
        ensures held { bits.has self.new.used k ≡ true }
        ensures others { (j : ℕ) → j ≢ k → bits.has self.new.used j ≡ bits.has self.old.used j }
        ensures rest { self.new ≡ record self.old { used = self.new.used } }
    {
        let len = self.len;
        insert(&mut self.words[0..len], k);
    }

    /// The first so many places are in use from now on.
    pub(crate) fn take_all(&mut self, end: u32)
        requires { end ≤ 64 * length self.old.used }
        ensures len { length self.new.used ≡ length self.old.used }
        ensures held { (i : ℕ) → i < end → bits.has self.new.used i ≡ true }
        ensures others { (i : ℕ) → end ≤ i → bits.has self.new.used i ≡ bits.has self.old.used i }
        ensures rest { self.new ≡ record self.old { used = self.new.used } }
    {
        let len = self.len;
        insert_all(&mut self.words[0..len], end);
    }

    /// The block at a place is marked from now on. Says whether it was not marked before.
    #[inline(always)]
    pub(crate) fn mark(&mut self, k: u32) -> bool
        requires { k < 64 * length self.old.marked }
        ensures fresh { result ≡ not (bits.has self.old.marked k) }
        ensures len { length self.new.marked ≡ length self.old.marked }
        ensures held { bits.has self.new.marked k ≡ true }
        ensures others { (j : ℕ) → j ≢ k → bits.has self.new.marked j ≡ bits.has self.old.marked j }
        ensures rest { self.new ≡ record self.old { marked = self.new.marked } }
        ensures unchanged { result ≡ false → self.new ≡ self.old }
    {
        let len = self.len;
        insert_new(&mut self.words[len..2 * len], k)
    }

    /// The block at a place is left to a pass.
    pub(crate) fn set_pending(&mut self, k: u32)
        requires { k < 64 * length self.old.pending }
        ensures len { length self.new.pending ≡ length self.old.pending }
        ensures held { bits.has self.new.pending k ≡ true }
        ensures others { (j : ℕ) → j ≢ k → bits.has self.new.pending j ≡ bits.has self.old.pending j }
        ensures rest { self.new ≡ record self.old { pending = self.new.pending } }
    {
        let len = self.len;
        insert(&mut self.words[2 * len..3 * len], k);
    }

    /// The block at a place is no more left to a pass.
    pub(crate) fn set_walked(&mut self, k: u32)
        requires { k < 64 * length self.old.pending }
        ensures len { length self.new.pending ≡ length self.old.pending }
        ensures gone { bits.has self.new.pending k ≡ false }
        ensures others { (j : ℕ) → j ≢ k → bits.has self.new.pending j ≡ bits.has self.old.pending j }
        ensures rest { self.new ≡ record self.old { pending = self.new.pending } }
    {
        let len = self.len;
        remove(&mut self.words[2 * len..3 * len], k);
    }

    /// No block is marked.
    pub(crate) fn clear_marked(&mut self)
        ensures len { length self.new.marked ≡ length self.old.marked }
        ensures gone { (i : ℕ) → bits.has self.new.marked i ≡ false }
        ensures rest { self.new ≡ record self.old { marked = self.new.marked } }
    {
        let len = self.len;
        clear(&mut self.words[len..2 * len]);
    }

    /// No block is left to a pass.
    pub(crate) fn clear_pending(&mut self)
        ensures len { length self.new.pending ≡ length self.old.pending }
        ensures gone { (i : ℕ) → bits.has self.new.pending i ≡ false }
        ensures rest { self.new ≡ record self.old { pending = self.new.pending } }
    {
        let len = self.len;
        clear(&mut self.words[2 * len..3 * len]);
    }

    /// The places in use are those with a marked block alone.
    pub(crate) fn sweep(&mut self)
        ensures { self.new ≡ record self.old { used = self.old.marked } }
    {
        let len = self.len;
        self.words.copy_within(len..2 * len, 0);
    }
}

// Puts the numbers below `end` into a set.
fn insert_all(words: &mut [u64], end: u32)
    requires { end ≤ 64 * length words.old }
    ensures len { length words.new ≡ length words.old }
    ensures held { (i : ℕ) → i < end → bits.has words.new i ≡ true }
    ensures others { (i : ℕ) → end ≤ i → bits.has words.new i ≡ bits.has words.old i }
{
    for i in 0..end {
        insert(words, i);
    }
}
