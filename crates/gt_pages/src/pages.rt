//! The blocks of a space, their marks, and the places that are free for more of them.
ghost use Rattle.std.specs.Prelude.{◌≡◌, ◌≢◌, ℕ, ◌≤◌, ◌<◌, ◌↔◌, [], false, map, filter, count_by, length, Contains, IfErr, IfOk, IsTrue, MatchResult, OnErr, OnOk, Some, None, is_none, true};
ghost use Rattle.gt_space.specs.declared.TheConstants.{MIN_PAGES, MAX_PAGES};
ghost use Rattle.gt_links.specs.Lists.{Holds, nodes_of, with_nodes};
ghost use Rattle.gt_pages.specs.Ledger.{AreFree, Base, IsTooLong, Place, Room, sizes};
ghost use Rattle.gt_pages.specs.Slots.{StartsSome, block_of, is_marked, is_pending, is_unmarked, mark_at, new_mark, next_slot, owner_of, postponed, slot_at, told_of, unmarked, walked, with_mark_at, with_slot};
ghost use Rattle.gt_pages.specs.Contents.{AreLaidOut, CachesEmptied, HasLists, IsEntry, IsInFirst, KeepsPages, UsesCached, cached_list, empty_contents, ledger_of, with_slots};
ghost use Rattle.gt_pages.specs.Counts.{AreTotals};
ghost use Rattle.gt_pages.specs.Images.{AreRuns, IsImage, image_pages};

use crate::store::Store;
use crate::totals::MarkedTotals;
use gt_entries::Mark;
use gt_links::Links;
use std::alloc::{AllocError, Global};
use std::marker::Model;

/// How many lists of entries there are: one for each size, in the order of the sizes, and the one of cached entries.
pub const LISTS: u32 = 30;

/// The list of cached entries.
pub const CACHED: u32 = 29;

/// Why a block got no place: no place is left for its size, or memory ran out.
#[derive(Clone, Copy, Debug, PartialEq, Eq)]
pub enum SlotFail {
    Full,
    Memory,
}

/// A run of blocks of an image: the size of each in bytes, and how many there are.
#[derive(Clone, Copy, Debug, PartialEq, Eq)]
pub struct Run {
    pub size: u32,
    pub count: u32,
}

/// The entry of a page, or of a block that is larger than a page: the first page, the size of the blocks in bytes, and how
/// many places are free.
#[derive(Clone, Copy, Debug, PartialEq, Eq)]
pub struct PageEntry {
    pub page: u32,
    pub size: u32,
    pub free: u32,
}

/// The blocks of a space.
#[derive(Drop)]
pub struct Pages {
    store: Store,
}

impl Model for Pages {
    ghost use Rattle.gt_pages.specs.Contents.{Contents};

    ghost Value = { Contents };

    ghost use Rattle.gt_pages.specs.Parts.{contents_of, parts_of, IsKept};

    ghost view = { λ p. contents_of (parts_of p.store) };

    ghost invariant = { λ p. IsKept (parts_of p.store) };
}

impl Pages {
    /// A space of so many pages without blocks. It fails only if memory runs out.
    pub fn new(alloc: Global, pages: u32) -> Result<Pages, AllocError>
        requires at_least { MIN_PAGES ≤ pages }
        requires at_most { pages ≤ MAX_PAGES }
        ensures empty { IfOk result (λ p. p ≡ empty_contents pages) }
    {
        Ok(Pages {
            store: Store::new(alloc, pages)?,
        })
    }

    /// Makes an unmarked block of a listed size, in bytes, and gives its address. `Full` says that there is no room for this
    /// size, and the cached entries are released before it is answered. `Memory` says that memory ran out, and nothing changes.
    pub fn alloc_slot(&mut self, size: u32) -> Result<u64, SlotFail>
        requires listed { Contains sizes size }
        ensures placed { IfOk result (λ addr. Place (ledger_of self.old) (block_of (slot_at addr size))) }
        ensures added { IfOk result (λ addr. self.new.slots ≡ with_slot self.old.slots (slot_at addr size)) }
        ensures first { IfOk result (λ addr. IsInFirst self.old size addr) }
        ensures cached { OnOk result (UsesCached self.old size self.new) }
        ensures kept { KeepsPages self.old self.new }
        ensures room { OnOk result (Room (ledger_of self.old) size) }
        ensures full { IfErr result (λ e. e ≡ SlotFail.Full → ¬ (Room (ledger_of self.old) size)) }
        ensures memory { IfErr result (λ e. e ≡ SlotFail.Memory → Room (ledger_of self.old) size) }
        ensures unchanged { IfErr result (λ e. e ≡ SlotFail.Memory → self.new ≡ self.old) }
        ensures released { IfErr result (λ e. e ≡ SlotFail.Full
            → self.new ≡ record self.old { lists = with_nodes self.old.lists cached_list [] }) }
    {
        self.store.alloc_slot(size)
    }

    /// Whether there is a place for one more block of a listed size, in bytes.
    pub fn has_room(&self, size: u32) -> bool
        requires listed { Contains sizes size }
        ensures room { IsTrue result ↔ Room (ledger_of self.now) size }
    {
        self.store.has_room(size)
    }

    /// How many pages the image takes up; none before the first load.
    pub fn image_pages(&self) -> u32
        ensures image { result ≡ self.now.image.count }
    {
        self.store.image_count
    }

    /// The block that has the byte at an address: its own address, and its size in bytes. `None` says that there is none.
    pub fn owner(&self, addr: u64) -> Option<(u64, u32)>
        ensures owner { result ≡ owner_of self.now.slots addr }
    {
        self.store.owner(addr)
    }

    /// Takes all marks away, and releases the cached entries.
    pub fn clear_marks(&mut self)
        ensures cleared { self.new
            ≡ record (with_slots self.old (map unmarked self.old.slots)) { lists = with_nodes self.old.lists cached_list [] } }
    {
        self.store.clear_marks();
    }

    /// Marks the block that starts at an address, by this walk and with this count, and says whether it was not marked
    /// before. Where it was, nothing changes.
    pub fn mark(&mut self, addr: u64, walk: u32, count: u32) -> bool
        requires start { StartsSome self.old.slots addr }
        ensures fresh { IsTrue result ↔ (mark_at self.old.slots addr ≡ None) }
        ensures marked { IsTrue result → self.new
            ≡ with_slots self.old (with_mark_at self.old.slots addr (Some (new_mark walk count))) }
        ensures unchanged { result ≡ false → self.new ≡ self.old }
    {
        self.store.mark(addr, walk, count)
    }

    /// Marks the block that has the byte at an address as `mark` does, and says whether it was not marked before; `None` where
    /// no block has it.
    pub fn mark_owner(&mut self, addr: u64, walk: u32, count: u32) -> Option<bool>
        ensures none { owner_of self.old.slots addr ≡ None → result ≡ None }
        ensures fresh { (start size : ℕ) → owner_of self.old.slots addr ≡ Some (start, size)
            → result ≡ Some (is_none (mark_at self.old.slots start)) }
        ensures marked { (start size : ℕ) → owner_of self.old.slots addr ≡ Some (start, size) → result ≡ Some true
            → self.new ≡ with_slots self.old (with_mark_at self.old.slots start (Some (new_mark walk count))) }
        ensures unchanged { result ≢ Some true → self.new ≡ self.old }
    {
        self.store.mark_owner(addr, walk, count)
    }

    /// Whether the block that starts at an address is marked.
    pub fn is_marked(&self, addr: u64) -> bool
        requires start { StartsSome self.now.slots addr }
        ensures marked { IsTrue result ↔ (mark_at self.now.slots addr ≢ None) }
    {
        self.marked_as(addr).is_some()
    }

    /// The mark of the block that starts at an address, or `None` where it is not marked.
    pub fn marked_as(&self, addr: u64) -> Option<Mark>
        requires start { StartsSome self.now.slots addr }
        ensures mark { result ≡ mark_at self.now.slots addr }
    {
        self.store.marked_as(addr)
    }

    /// Leaves the block that starts at an address to a pass, where it is marked: `next_pending` finds it from now on.
    pub fn postpone(&mut self, addr: u64)
        requires start { StartsSome self.old.slots addr }
        ensures postponed { self.new
            ≡ with_slots self.old (with_mark_at self.old.slots addr (postponed (mark_at self.old.slots addr))) }
    {
        self.store.postpone(addr);
    }

    /// The block that starts at an address is no more left to a pass.
    pub fn set_walked(&mut self, addr: u64)
        requires start { StartsSome self.old.slots addr }
        ensures walked { self.new
            ≡ with_slots self.old (with_mark_at self.old.slots addr (walked (mark_at self.old.slots addr))) }
    {
        self.store.set_walked(addr);
    }

    /// The least address above `after` of a marked block, with its walk and count; `None` where there is none.
    pub fn next_mark(&self, after: u64) -> Option<(u64, u32, u32)>
        ensures next { result ≡ told_of (next_slot is_marked self.now.slots after) }
    {
        self.store.next_mark(after)
    }

    /// The least address above `after` of a marked block that is left to a pass, with its walk and count; `None` where
    /// there is none.
    pub fn next_pending(&self, after: u64) -> Option<(u64, u32, u32)>
        ensures next { result ≡ told_of (next_slot is_pending self.now.slots after) }
    {
        self.store.next_pending(after)
    }

    /// How many marked blocks there are of each size, how many there are, and their bytes. It looks once at each entry.
    pub fn marked_totals(&self) -> MarkedTotals
        ensures totals { AreTotals result (map block_of (filter is_marked self.now.slots)) }
    {
        self.store.marked_totals()
    }

    /// Frees the blocks that are not marked, and says how many these were. The others stay as they are, with their marks.
    /// An entry that has lost its last block is cached.
    pub fn sweep(&mut self) -> u32
        ensures kept { self.new.slots ≡ filter is_marked self.old.slots }
        ensures pages { KeepsPages self.old self.new }
        ensures freed { result ≡ count_by is_unmarked self.old.slots }
        ensures cached { CachesEmptied self.old self.new }
    {
        self.store.sweep()
    }

    /// Where an image of so many pages goes that would like to start at a page: there, where these pages are in the space
    /// and free, else in the lowest such run. Where there is none, how many pages the longest run of free pages has.
    pub fn fit(&self, need: u32, preferred: u32) -> Result<u32, u32>
        ensures fits { IfOk result (λ page. Base (ledger_of self.now) preferred need page) }
        ensures longest { IfErr result (λ count. IsTooLong (ledger_of self.now) need count) }
    {
        self.store.fit(need, preferred)
    }

    /// The blocks are from now on those of the runs of an image, unmarked, the first run from the start of a page and each
    /// further one from the start of the next page. At an error nothing changes.
    pub fn take_image(&mut self, page: u32, runs: &[Run]) -> Result<(), AllocError>
        requires runs { AreRuns runs.now }
        requires fits { AreFree (ledger_of self.old) page (image_pages runs.now) }
        ensures image { OnOk result (IsImage self.old page runs.now self.new) }
        ensures unchanged { OnErr result (self.new ≡ self.old) }
    {
        self.store.take_image(page, runs)
    }

    /// The lists of entries.
    pub fn lists(&self) -> &Links
        ensures lists { result.now ≡ self.now.lists }
        ensures ordered { HasLists self.now }
    {
        let lists = &self.store.lists;
        lists.lists_are_disjoint();
        lists
    }

    /// An entry of one of the lists of sizes, by its number.
    pub fn entry(&self, node: u32) -> PageEntry
        requires listed { (i : ℕ) × (i < cached_list) × Holds self.now.lists i node }
        ensures entry { IsEntry self.now node result }
    {
        let entry = &self.store.entries[node as usize];
        PageEntry {
            page: node,
            size: entry.size.bytes(),
            free: entry.places.free_count(),
        }
    }

    /// Says what holds of the blocks at all times, and does nothing.
    pub fn sound(&self)
        ensures laid { AreLaidOut self.now }
    {
        let _ = &self.store.table;
    }
}
