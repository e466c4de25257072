//! The places of one entry: bits for those in use, marked and left to a pass, and a tag for each.
ghost use Rattle.std.specs.Prelude.{◌≡◌, ◌≢◌, ℕ, ◌*◌, ◌<◌, ◌≤◌, ◌↔◌, true, false, not, [], length, map, replicate, count_by, slice_set, IfOk, IfSome, IfNone, IsTrue, Some, None};
ghost use Rattle.gt_bits.specs.Sets as bits;
ghost use Rattle.gt_entries.specs.Cells.{Free, Used, IsFirstFrom, cell_at, is_free, is_lost, is_marked, is_pending, mark_in, postponed, swept, unmarked, walked};

use crate::marks::Mark;
use crate::memory::refill;
use crate::sets::Sets;
use gt_bits::{count, has, next, next_gap};
use std::alloc::{AllocError, Global};
use std::marker::Model;

/// How many places an entry may have.
pub const MAX_PLACES: u32 = 0x1000_0000;

/// What the mark of a place says, where it is marked.
#[derive(Clone, Copy)]
struct Tag {
    walk: u32,
    count: u32,
}

/// Places for blocks, by their numbers from 0, each free or with a block that may be marked.
#[derive(Drop)]
pub struct Places {
    count: u32,
    // How many of them are free.
    free: u32,
    sets: Sets,
    tags: Vec<Tag>,
}

impl Model for Places {
    ghost use Rattle.std.specs.Prelude.{List};
    ghost use Rattle.gt_entries.specs.Cells.{Cell};

    ghost Value = { List Cell };

    ghost use Rattle.gt_entries.specs.Places.{cells_of, AreCounted};

    ghost view = { λ p. cells_of p.count p.sets.used p.sets.marked p.sets.pending p.tags.items };

    ghost invariant = { λ p. AreCounted p.count p.free p.sets.used p.sets.marked p.sets.pending p.tags.items };
}

impl Places {
    /// No places. It takes no memory.
    pub fn none(alloc: Global) -> Places
        ensures empty { result ≡ [] }
    {
        Places {
            count: 0,
            free: 0,
            sets: Sets::none(alloc),
            tags: Vec::new(alloc),
        }
    }

    /// So many free places, in the memory of these where it suffices and is less than twice what is needed. Otherwise it is given back,
    /// and just as much is taken as is needed. It fails only if memory runs out.
    pub fn renew(self, count: u32) -> Result<Places, AllocError>
        requires { count ≤ MAX_PLACES }
        ensures free { IfOk result (λ places. places ≡ replicate count Free) }
    {
        let words = (count as usize + 63) / 64;
        let tag = Tag { walk: 0, count: 0 };
        let sets = self.sets.renew(words)?;
        let tags = refill(self.tags, tag, count as usize)?;
        Ok(Places {
            count,
            free: count,
            sets,
            tags,
        })
    }

    /// How many places there are.
    pub fn len(&self) -> u32
        ensures count { result ≡ length self.now }
    {
        self.count
    }

    /// How many places are free.
    pub fn free_count(&self) -> u32
        ensures count { result ≡ count_by is_free self.now }
    {
        self.free
    }

    /// How many places have a marked block.
    pub fn marked_count(&self) -> u32
        ensures count { result ≡ count_by is_marked self.now }
    {
        count(self.sets.marked_places())
    }

    /// Whether a place has a block.
    pub fn is_used(&self, k: u32) -> bool
        ensures used { result ≡ not (is_free (cell_at self.now k)) }
    {
        has(self.sets.used_places(), k)
    }

    /// Whether some place is free.
    pub fn has_free(&self) -> bool
        ensures free { IsTrue result ↔ (0 < count_by is_free self.now) }
    {
        self.free > 0
    }

    /// Puts an unmarked block at a free place, and gives this place; `None` where no place is free.
    pub fn take_free(&mut self) -> Option<u32>
        ensures free { IfSome result (λ k. (k < length self.old) × (cell_at self.old k ≡ Free)) }
        ensures taken { IfSome result (λ k. self.new ≡ slice_set self.old k (Used None)) }
        ensures full { IfNone result (count_by is_free self.old ≡ 0) }
        ensures unchanged { IfNone result (self.new ≡ self.old) }
    {
        let k = next_gap(self.sets.used_places(), 0, self.count)?;
        self.sets.take(k);
        self.free -= 1;
        Some(k)
    }

    /// Puts an unmarked block at each place.
    pub fn fill(&mut self)
        ensures used { self.new ≡ replicate (length self.old) (Used None) }
    {
        self.sets.clear_marked();
        self.sets.clear_pending();
        self.sets.take_all(self.count);
        self.free = 0;
    }

    /// The mark of the block at a place; `None` where there is no block or it is not marked.
    pub fn mark_of(&self, k: u32) -> Option<Mark>
        ensures mark { result ≡ mark_in (cell_at self.now k) }
    {
        if !has(self.sets.marked_places(), k) {
            return None;
        }
        let tag = self.tags[k as usize];
        Some(Mark {
            walk: tag.walk,
            count: tag.count,
            pending: has(self.sets.pending_places(), k),
        })
    }

    /// Marks the block at a place, and says whether it was not marked before. Where it was, nothing changes.
    pub fn mark(&mut self, k: u32, walk: u32, count: u32) -> bool
        requires { is_free (cell_at self.old k) ≡ false }
        ensures fresh { result ≡ not (is_marked (cell_at self.old k)) }
        ensures marked { IsTrue result → self.new
            ≡ slice_set self.old k (Used (Some (record { walk = walk; count = count; pending = false }))) }
        ensures unchanged { result ≡ false → self.new ≡ self.old }
    {
        if !self.sets.mark(k) {
            return false;
        }
        self.tags[k as usize] = Tag { walk, count };
        true
    }

    /// Marks the block at a place as `mark` does, and says whether it was not marked before; `None` where the place is free.
    #[inline(always)]
    pub fn mark_used(&mut self, k: u32, walk: u32, count: u32) -> Option<bool>
        ensures free { IfNone result (is_free (cell_at self.old k) ≡ true) }
        ensures used { IfSome result (λ _. is_free (cell_at self.old k) ≡ false) }
        ensures fresh { IfSome result (λ fresh. fresh ≡ not (is_marked (cell_at self.old k))) }
        ensures marked { result ≡ Some true → self.new
            ≡ slice_set self.old k (Used (Some (record { walk = walk; count = count; pending = false }))) }
        ensures unchanged { result ≢ Some true → self.new ≡ self.old }
    {
        if !self.is_used(k) {
            return None;
        }
        Some(self.mark(k, walk, count))
    }

    /// Leaves the block at a place to a pass, where it is marked.
    pub fn postpone(&mut self, k: u32)
        ensures postponed { self.new ≡ slice_set self.old k (postponed (cell_at self.old k)) }
    {
        if !has(self.sets.marked_places(), k) {
            return;
        }
        self.sets.set_pending(k);
    }

    /// The block at a place is no more left to a pass.
    pub fn set_walked(&mut self, k: u32)
        requires { k < length self.old }
        ensures walked { self.new ≡ slice_set self.old k (walked (cell_at self.old k)) }
    {
        self.sets.set_walked(k);
    }

    /// The first place from `from` on with a marked block, or `None` where there is none.
    pub fn next_mark(&self, from: u32) -> Option<u32>
        ensures first { IsFirstFrom is_marked self.now from result }
    {
        next(self.sets.marked_places(), from)
    }

    /// The first place from `from` on with a marked block that is left to a pass, or `None` where there is none.
    pub fn next_pending(&self, from: u32) -> Option<u32>
        ensures first { IsFirstFrom is_pending self.now from result }
    {
        next(self.sets.pending_places(), from)
    }

    /// Takes the blocks away that are not marked, and says how many these were.
    pub fn sweep(&mut self) -> u32
        ensures swept { self.new ≡ map swept self.old }
        ensures freed { result ≡ count_by is_lost self.old }
    {
        let freed = count(self.sets.used_places()) - count(self.sets.marked_places());
        self.sets.sweep();
        self.free += freed;
        freed
    }

    /// Takes the marks away.
    pub fn clear_marks(&mut self)
        ensures unmarked { self.new ≡ map unmarked self.old }
    {
        self.sets.clear_marked();
        self.sets.clear_pending();
    }
}
