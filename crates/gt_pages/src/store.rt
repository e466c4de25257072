//! The parts of the pages: the entries, the sets of pages, the table and the lists, and how they change together.
ghost use Rattle.std.specs.Prelude.{◌≡◌, ◌≢◌, ℕ, ◌+◌, ◌-◌, ◌*◌, ◌/◌, ◌^◌, ◌<◌, ◌≤◌, ◌↔◌, true, false, not, length, replicate, slice_set, Contains, IsTrue, Some, None, is_none, IfErr, IfOk, IfSome, IfNone, OnErr, OnOk, [], ◌∷◌, ◌++◌, map, filter, count_by};
ghost use Rattle.gt_space.specs.declared.TheConstants.{MIN_PAGES, MAX_PAGES};
ghost use Rattle.gt_bits.specs.Sets.{has, HasRun};
ghost use Rattle.gt_pages.specs.Ledger.{AreFree, Base, HasSharedPage, IsTooLong, Place, Room, page_address as ledger_page_address, pages_of as ledger_pages_of, sizes};
ghost use Rattle.gt_pages.specs.Parts.{IsKept, IsOfImage, contents_of, empty_entry, entry_at, entry_pages, free_places, parts_of};
ghost use Rattle.gt_pages.specs.Spots.{HasNoneAbove, IsAbove, IsFirstIn, IsNextSpot, IsNowhere, IsSpot, block_at, marked_at, with_mark_spot};
ghost use Rattle.gt_pages.specs.Slots as slots;
ghost use Rattle.gt_entries.specs.Cells as cells;
ghost use Rattle.gt_pages.specs.Slots.{StartsSome, block_of, is_unmarked, mark_at, new_mark, next_slot, owner_of, postponed, slot_at, told_of, unmarked, walked, with_mark_at, with_slot};
ghost use Rattle.gt_pages.specs.Contents.{CachesEmptied, IsInFirst, KeepsPages, UsesCached, ledger_of, with_slots};
ghost use Rattle.gt_pages.specs.Places.{IsWithin, Shares};
ghost use Rattle.gt_entries.specs.Cells.{Free, Used, cell_at, is_free, is_lost, is_marked, mark_in};
ghost use Rattle.gt_pages.specs.Counts.{AreTotals};
ghost use Rattle.gt_pages.specs.Images.{AreRuns, IsImage, image_pages, run_pages};
ghost use Rattle.gt_pages.specs.Runs.{AddsRun, image_end};
ghost use Rattle.gt_pages.specs.Changes.{ClearsMarks, Closes, IsNew, Opens, Releases, Sweeps, UsesOne, cleared_entry, swept_entry, with_entry, with_first, with_list, with_place, without_cached, without_places};
ghost use Rattle.gt_links.specs.Lists.{Holds, IsFree, IsInList, nodes_of, with_nodes, without};

use crate::pages::{CACHED, LISTS, Run, SlotFail};
use crate::parts::{
    EntryPlace, empty_entries, first_pages, insert_range, page_address, pages_of, place_address,
    places_of, remove_range,
};
use crate::sizes::{BlockSize, list_of};
use crate::tables::PageTable;
use crate::totals::MarkedTotals;
use gt_bits::{SparseSet, first_run, longest_run, next_gap};
use gt_entries::{MAX_PLACES, Mark, Places};
use gt_links::Links;
use gt_space::{HEAP_START, PAGE_BYTES};
use std::alloc::{AllocError, Global};

/// The blocks of one page, of one larger block, or of one run of the image.
#[derive(Drop)]
pub(crate) struct Entry {
    pub(crate) size: BlockSize,
    pub(crate) places: Places,
}

/// The parts.
#[derive(Drop)]
pub(crate) struct Store {
    pub(crate) alloc: Global,
    // How many pages the space has.
    pub(crate) pages: u32,
    // The pages of the image.
    pub(crate) image_first: u32,
    pub(crate) image_count: u32,
    // The entries, each under the number of its first page.
    pub(crate) entries: Vec<Entry>,
    // The first pages of the entries in use.
    pub(crate) starts: SparseSet,
    // The pages that are in no entry and outside the image.
    pub(crate) free: Vec<u64>,
    // For each page the first page of its entry.
    pub(crate) table: PageTable,
    // The entries of pages of each size, and cached entries.
    pub(crate) lists: Links,
}

impl Entry {
    /// An entry without places. It takes no memory.
    pub(crate) fn empty(alloc: Global) -> Entry
        ensures { result ≡ empty_entry }
    {
        Entry {
            size: BlockSize::none(),
            places: Places::none(alloc),
        }
    }

    /// How many pages it has.
    fn page_count(&self) -> u32
        requires { self.now.size * length self.now.places < 2 ^ 40 }
        ensures { result ≡ entry_pages self.now }
    {
        pages_of(self.size.bytes() as u64 * self.places.len() as u64)
    }
}

// So many places in the memory of these, one of them with an unmarked block, and its number.
fn new_places(places: Places, count: u32) -> Result<(Places, u32), AllocError>
    requires some { 0 < count }
    requires few { count ≤ MAX_PLACES }
    ensures place { IfOk result (λ made. made.1 < count) }
    ensures places { IfOk result (λ made. made.0 ≡ slice_set (replicate count Free) made.1 (Used None)) }
{
    let mut new = places.renew(count)?;
    let place = new.take_free().unwrap();
    Ok((new, place))
}

impl Store {
    pub(crate) fn new(alloc: Global, pages: u32) -> Result<Store, AllocError>
        requires { pages ≤ MAX_PAGES }
        ensures pages { IfOk result (λ s. s.pages ≡ pages) }
        ensures fresh { IfOk result (λ s. IsNew (parts_of s)) }
    {
        let entries = empty_entries(alloc, pages)?;
        let starts = SparseSet::new(alloc, pages)?;
        let free = first_pages(alloc, pages)?;
        let table = PageTable::new(alloc, pages)?;
        let lists = Links::new(alloc, LISTS, pages)?;
        Ok(Store {
            alloc,
            pages,
            image_first: 0,
            image_count: 0,
            entries,
            starts,
            free,
            table,
            lists,
        })
    }

    pub(crate) fn alloc_slot(&mut self, size: u32) -> Result<u64, SlotFail>
        requires kept { IsKept (parts_of self.old) }
        requires listed { Contains sizes size }
        ensures kept { IsKept (parts_of self.new) }
        ensures pages { KeepsPages (contents_of (parts_of self.old)) (contents_of (parts_of self.new)) }
        ensures placed { IfOk result (λ addr. Place (ledger_of (contents_of (parts_of self.old))) (block_of (slot_at addr size))) }
        ensures added { IfOk result (λ addr. (contents_of (parts_of self.new)).slots
            ≡ with_slot (contents_of (parts_of self.old)).slots (slot_at addr size)) }
        ensures first { IfOk result (λ addr. IsInFirst (contents_of (parts_of self.old)) size addr) }
        ensures cached { OnOk result (UsesCached (contents_of (parts_of self.old)) size (contents_of (parts_of self.new))) }
        ensures room { OnOk result (Room (ledger_of (contents_of (parts_of self.old))) size) }
        ensures full { IfErr result (λ e. e ≡ SlotFail.Full → ¬ (Room (ledger_of (contents_of (parts_of self.old))) size)) }
        ensures memory { IfErr result (λ e. e ≡ SlotFail.Memory → Room (ledger_of (contents_of (parts_of self.old))) size) }
        ensures unchanged { IfErr result (λ e. e ≡ SlotFail.Memory → contents_of (parts_of self.new) ≡ contents_of (parts_of self.old)) }
        ensures released { IfErr result (λ e. e ≡ SlotFail.Full → contents_of (parts_of self.new)
            ≡ record (contents_of (parts_of self.old)) { lists = with_nodes (parts_of self.old).lists CACHED [] }) }
    {
        if let Some(addr) = self.share(size) {
            return Ok(addr);
        }
        let Some(page) = first_run(&self.free, pages_of(size as u64), self.pages) else {
            self.release_cached();
            return Err(SlotFail::Full);
        };
        match self.open(page, size) {
            Ok(addr) => Ok(addr),
            Err(_) => Err(SlotFail::Memory),
        }
    }

    pub(crate) fn has_room(&self, size: u32) -> bool
        requires kept { IsKept (parts_of self.now) }
        requires listed { Contains sizes size }
        ensures { IsTrue result ↔ Room (ledger_of (contents_of (parts_of self.now))) size }
    {
        if self.has_shared(size) {
            return true;
        }
        first_run(&self.free, pages_of(size as u64), self.pages).is_some()
    }

    // Whether a page of this size has a free place: the first entry of the size has one then.
    fn has_shared(&self, size: u32) -> bool
        requires kept { IsKept (parts_of self.now) }
        requires listed { Contains sizes size }
        ensures { IsTrue result ↔ HasSharedPage (ledger_of (contents_of (parts_of self.now))) size }
    {
        match self.lists.first(list_of(size)) {
            None => false,
            Some(page) => self.entries[page as usize].places.has_free(),
        }
    }

    pub(crate) fn owner(&self, addr: u64) -> Option<(u64, u32)>
        requires { IsKept (parts_of self.now) }
        ensures { result ≡ owner_of (contents_of (parts_of self.now)).slots addr }
    {
        match self.spot(addr) {
            None => None,
            Some(spot) => self.block_at(spot),
        }
    }

    // The block at a place: where it starts, and its size.
    fn block_at(&self, spot: EntryPlace) -> Option<(u64, u32)>
        requires kept { IsKept (parts_of self.now) }
        requires starts { has (parts_of self.now).starts spot.page ≡ true }
        ensures { result ≡ block_at (parts_of self.now) spot }
    {
        let entry = &self.entries[spot.page as usize];
        if !entry.places.is_used(spot.place) {
            return None;
        }
        let size = entry.size.bytes();
        Some((place_address(spot.page, size, spot.place), size))
    }

    pub(crate) fn clear_marks(&mut self)
        requires { IsKept (parts_of self.old) }
        ensures kept { IsKept (parts_of self.new) }
        ensures cleared { contents_of (parts_of self.new) ≡ record (with_slots (contents_of (parts_of self.old))
            (map unmarked (contents_of (parts_of self.old)).slots)) { lists = with_nodes (contents_of (parts_of self.old)).lists CACHED [] } }
    {
        self.release_cached();
        self.clear_entries();
    }

    // Takes the marks of all entries away.
    fn clear_entries(&mut self)
        requires { IsKept (parts_of self.old) }
        ensures { ClearsMarks (parts_of self.old) (parts_of self.old).pages (parts_of self.new) }
    {
        let mut from = 0;
        'entries: loop {
            match self.starts.next(from) {
                None => return,
                Some(page) => {
                    self.clear_entry(page);
                    from = page + 1;
                }
            }
        }
    }

    // Takes the marks of an entry away.
    fn clear_entry(&mut self, page: u32)
        requires { page < length (parts_of self.old).entries }
        ensures { parts_of self.new
            ≡ with_entry (parts_of self.old) page (cleared_entry (entry_at (parts_of self.old).entries page)) }
    {
        let entry = &mut self.entries[page as usize];
        entry.places.clear_marks();
    }

    pub(crate) fn mark(&mut self, addr: u64, walk: u32, count: u32) -> bool
        requires kept { IsKept (parts_of self.old) }
        requires start { StartsSome (contents_of (parts_of self.old)).slots addr }
        ensures kept { IsKept (parts_of self.new) }
        ensures fresh { IsTrue result ↔ (mark_at (contents_of (parts_of self.old)).slots addr ≡ None) }
        ensures marked { IsTrue result → contents_of (parts_of self.new)
            ≡ with_slots (contents_of (parts_of self.old)) (with_mark_at (contents_of (parts_of self.old)).slots addr (Some (new_mark walk count))) }
        ensures unchanged { result ≡ false → contents_of (parts_of self.new) ≡ contents_of (parts_of self.old) }
    {
        let spot = self.start_spot(addr);
        self.mark_spot(spot, walk, count)
    }

    // Marks the block at a place.
    fn mark_spot(&mut self, spot: EntryPlace, walk: u32, count: u32) -> bool
        requires page { spot.page < length (parts_of self.old).entries }
        requires used { is_free (cell_at (entry_at (parts_of self.old).entries spot.page).places spot.place) ≡ false }
        ensures fresh { result ≡ not (is_marked (cell_at (entry_at (parts_of self.old).entries spot.page).places spot.place)) }
        ensures marked { IsTrue result → parts_of self.new ≡ with_mark_spot (parts_of self.old) spot (Some (new_mark walk count)) }
        ensures unchanged { result ≡ false → parts_of self.new ≡ parts_of self.old }
    {
        let entry = &mut self.entries[spot.page as usize];
        entry.places.mark(spot.place, walk, count)
    }

    pub(crate) fn mark_owner(&mut self, addr: u64, walk: u32, count: u32) -> Option<bool>
        requires { IsKept (parts_of self.old) }
        ensures kept { IsKept (parts_of self.new) }
        ensures none { owner_of (contents_of (parts_of self.old)).slots addr ≡ None → result ≡ None }
        ensures fresh { (start size : ℕ) → owner_of (contents_of (parts_of self.old)).slots addr ≡ Some (start, size)
            → result ≡ Some (is_none (mark_at (contents_of (parts_of self.old)).slots start)) }
        ensures marked { (start size : ℕ) → owner_of (contents_of (parts_of self.old)).slots addr ≡ Some (start, size)
            → result ≡ Some true → contents_of (parts_of self.new)
            ≡ with_slots (contents_of (parts_of self.old)) (with_mark_at (contents_of (parts_of self.old)).slots start (Some (new_mark walk count))) }
        ensures unchanged { result ≢ Some true → contents_of (parts_of self.new) ≡ contents_of (parts_of self.old) }
    {
        match self.spot(addr) {
            None => None,
            Some(spot) => self.mark_used(spot, walk, count),
        }
    }

    // Marks the block at a place; `None` where there is none.
    fn mark_used(&mut self, spot: EntryPlace, walk: u32, count: u32) -> Option<bool>
        requires { spot.page < length (parts_of self.old).entries }
        ensures free { IfNone result (is_free (cell_at (entry_at (parts_of self.old).entries spot.page).places spot.place) ≡ true) }
        ensures used { IfSome result (λ _. is_free (cell_at (entry_at (parts_of self.old).entries spot.page).places spot.place) ≡ false) }
        ensures fresh { IfSome result (λ fresh. fresh ≡ not (is_marked (cell_at (entry_at (parts_of self.old).entries spot.page).places spot.place))) }
        ensures marked { result ≡ Some true → parts_of self.new ≡ with_mark_spot (parts_of self.old) spot (Some (new_mark walk count)) }
        ensures unchanged { result ≢ Some true → parts_of self.new ≡ parts_of self.old }
    {
        let entry = &mut self.entries[spot.page as usize];
        entry.places.mark_used(spot.place, walk, count)
    }

    pub(crate) fn marked_as(&self, addr: u64) -> Option<Mark>
        requires kept { IsKept (parts_of self.now) }
        requires start { StartsSome (contents_of (parts_of self.now)).slots addr }
        ensures { result ≡ mark_at (contents_of (parts_of self.now)).slots addr }
    {
        match self.spot(addr) {
            None => None,
            Some(spot) => self.mark_of(spot),
        }
    }

    // The mark of the block at a place.
    fn mark_of(&self, spot: EntryPlace) -> Option<Mark>
        requires { spot.page < length (parts_of self.now).entries }
        ensures { result ≡ mark_in (cell_at (entry_at (parts_of self.now).entries spot.page).places spot.place) }
    {
        let entry = &self.entries[spot.page as usize];
        entry.places.mark_of(spot.place)
    }

    pub(crate) fn postpone(&mut self, addr: u64)
        requires kept { IsKept (parts_of self.old) }
        requires start { StartsSome (contents_of (parts_of self.old)).slots addr }
        ensures kept { IsKept (parts_of self.new) }
        ensures postponed { contents_of (parts_of self.new) ≡ with_slots (contents_of (parts_of self.old))
            (with_mark_at (contents_of (parts_of self.old)).slots addr (postponed (mark_at (contents_of (parts_of self.old)).slots addr))) }
    {
        match self.spot(addr) {
            None => {}
            Some(spot) => self.postpone_spot(spot),
        }
    }

    // Leaves the block at a place to a pass, where it is marked.
    fn postpone_spot(&mut self, spot: EntryPlace)
        requires page { spot.page < length (parts_of self.old).entries }
        requires used { is_free (cell_at (entry_at (parts_of self.old).entries spot.page).places spot.place) ≡ false }
        ensures { parts_of self.new ≡ with_mark_spot (parts_of self.old) spot
            (postponed (mark_in (cell_at (entry_at (parts_of self.old).entries spot.page).places spot.place))) }
    {
        let entry = &mut self.entries[spot.page as usize];
        entry.places.postpone(spot.place);
    }

    pub(crate) fn set_walked(&mut self, addr: u64)
        requires kept { IsKept (parts_of self.old) }
        requires start { StartsSome (contents_of (parts_of self.old)).slots addr }
        ensures kept { IsKept (parts_of self.new) }
        ensures walked { contents_of (parts_of self.new) ≡ with_slots (contents_of (parts_of self.old))
            (with_mark_at (contents_of (parts_of self.old)).slots addr (walked (mark_at (contents_of (parts_of self.old)).slots addr))) }
    {
        match self.spot(addr) {
            None => {}
            Some(spot) => self.set_spot_walked(spot),
        }
    }

    // The block at a place is no more left to a pass.
    fn set_spot_walked(&mut self, spot: EntryPlace)
        requires page { spot.page < length (parts_of self.old).entries }
        requires used { is_free (cell_at (entry_at (parts_of self.old).entries spot.page).places spot.place) ≡ false }
        ensures { parts_of self.new ≡ with_mark_spot (parts_of self.old) spot
            (walked (mark_in (cell_at (entry_at (parts_of self.old).entries spot.page).places spot.place))) }
    {
        let entry = &mut self.entries[spot.page as usize];
        entry.places.set_walked(spot.place);
    }

    pub(crate) fn next_mark(&self, after: u64) -> Option<(u64, u32, u32)>
        requires { IsKept (parts_of self.now) }
        ensures { result ≡ told_of (next_slot slots.is_marked (contents_of (parts_of self.now)).slots after) }
    {
        let mut from = self.spot_above(after)?;
        'entries: loop {
            match self.next_mark_in(from) {
                Some(spot) => return self.tell(spot),
                None => match self.next_spot(from.page + 1) {
                    None => return None,
                    Some(next) => from = next,
                },
            }
        }
    }

    // The first marked place of an entry from a spot on.
    fn next_mark_in(&self, from: EntryPlace) -> Option<EntryPlace>
        requires { from.page < length (parts_of self.now).entries }
        ensures { IsFirstIn cells.is_marked (parts_of self.now) from result }
    {
        let place = self.entries[from.page as usize]
            .places
            .next_mark(from.place)?;
        Some(EntryPlace {
            page: from.page,
            place,
        })
    }

    pub(crate) fn next_pending(&self, after: u64) -> Option<(u64, u32, u32)>
        requires { IsKept (parts_of self.now) }
        ensures { result ≡ told_of (next_slot slots.is_pending (contents_of (parts_of self.now)).slots after) }
    {
        let mut from = self.spot_above(after)?;
        'entries: loop {
            match self.next_pending_in(from) {
                Some(spot) => return self.tell(spot),
                None => match self.next_spot(from.page + 1) {
                    None => return None,
                    Some(next) => from = next,
                },
            }
        }
    }

    // The first place of an entry from a spot on with a block that is left to a pass.
    fn next_pending_in(&self, from: EntryPlace) -> Option<EntryPlace>
        requires { from.page < length (parts_of self.now).entries }
        ensures { IsFirstIn cells.is_pending (parts_of self.now) from result }
    {
        let place = self.entries[from.page as usize]
            .places
            .next_pending(from.place)?;
        Some(EntryPlace {
            page: from.page,
            place,
        })
    }

    pub(crate) fn marked_totals(&self) -> MarkedTotals
        requires { IsKept (parts_of self.now) }
        ensures { AreTotals result (map block_of (filter slots.is_marked (contents_of (parts_of self.now)).slots)) }
    {
        let mut totals = MarkedTotals::none();
        let mut from = 0;
        'entries: loop {
            match self.starts.next(from) {
                None => return totals,
                Some(page) => {
                    let (size, count) = self.marked_in(page);
                    totals.add(size, count);
                    from = page + 1;
                }
            }
        }
    }

    // The size of the blocks of an entry, and how many of them are marked.
    fn marked_in(&self, page: u32) -> (u32, u32)
        requires { page < length (parts_of self.now).entries }
        ensures size { result.0 ≡ (entry_at (parts_of self.now).entries page).size }
        ensures count { result.1 ≡ count_by is_marked (entry_at (parts_of self.now).entries page).places }
    {
        let entry = &self.entries[page as usize];
        (entry.size.bytes(), entry.places.marked_count())
    }

    pub(crate) fn sweep(&mut self) -> u32
        requires { IsKept (parts_of self.old) }
        ensures kept { IsKept (parts_of self.new) }
        ensures pages { KeepsPages (contents_of (parts_of self.old)) (contents_of (parts_of self.new)) }
        ensures slots { (contents_of (parts_of self.new)).slots ≡ filter slots.is_marked (contents_of (parts_of self.old)).slots }
        ensures freed { result ≡ count_by is_unmarked (contents_of (parts_of self.old)).slots }
        ensures cached { CachesEmptied (contents_of (parts_of self.old)) (contents_of (parts_of self.new)) }
    {
        let mut freed = 0;
        let mut from = 0;
        'entries: loop {
            match self.starts.next(from) {
                None => return freed,
                Some(page) => {
                    freed += self.sweep_entry(page);
                    from = page + 1;
                }
            }
        }
    }

    pub(crate) fn fit(&self, need: u32, preferred: u32) -> Result<u32, u32>
        requires { IsKept (parts_of self.now) }
        ensures fits { IfOk result (Base (ledger_of (contents_of (parts_of self.now))) preferred need) }
        ensures longest { IfErr result (IsTooLong (ledger_of (contents_of (parts_of self.now))) need) }
    {
        if self.are_free(preferred, need) {
            return Ok(preferred);
        }
        if need == 0 {
            return Ok(0);
        }
        match first_run(&self.free, need, self.pages) {
            Some(page) => Ok(page),
            None => Err(longest_run(&self.free, self.pages)),
        }
    }

    pub(crate) fn take_image(&mut self, page: u32, runs: &[Run]) -> Result<(), AllocError>
        requires kept { IsKept (parts_of self.old) }
        requires runs { AreRuns runs.now }
        requires fits { page + image_pages runs.now ≤ (parts_of self.old).pages }
        ensures kept { IsKept (parts_of self.new) }
        ensures image { OnOk result (IsImage (contents_of (parts_of self.old)) page runs.now (contents_of (parts_of self.new))) }
        ensures unchanged { OnErr result (parts_of self.new ≡ parts_of self.old) }
    {
        let mut fresh = Store::new(self.alloc, self.pages)?;
        fresh.add_runs(page, runs)?;
        *self = fresh;
        Ok(())
    }

    /// The place that has the byte at an address, which may be free; `None` where the address is in no entry.
    pub(crate) fn spot(&self, addr: u64) -> Option<EntryPlace>
        requires { IsKept (parts_of self.now) }
        ensures none { IfNone result (IsNowhere (parts_of self.now) addr) }
        ensures some { IfSome result (IsSpot (parts_of self.now) addr) }
    {
        if addr < HEAP_START {
            return None;
        }
        let page = (addr - HEAP_START) / PAGE_BYTES;
        if page >= self.pages as u64 {
            return None;
        }
        match self.table.get(page as usize) {
            None => None,
            Some(first) => Some(self.spot_in(first, addr)),
        }
    }

    // The place of the block that starts at an address.
    #[inline(always)]
    fn start_spot(&self, addr: u64) -> EntryPlace
        requires kept { IsKept (parts_of self.now) }
        requires start { StartsSome (contents_of (parts_of self.now)).slots addr }
        ensures { IsSpot (parts_of self.now) addr result }
    {
        let page = (addr - HEAP_START) / PAGE_BYTES;
        match self.table.get(page as usize) {
            None => unreachable!(),
            Some(first) => self.spot_in(first, addr),
        }
    }

    // The place of an entry that has the byte at an address of its pages.
    fn spot_in(&self, page: u32, addr: u64) -> EntryPlace
        requires kept { IsKept (parts_of self.now) }
        requires starts { has (parts_of self.now).starts page ≡ true }
        requires above { ledger_page_address page ≤ addr }
        requires below { addr < HEAP_START + 2 ^ 26 }
        ensures page { result.page ≡ page }
        ensures place { result.place ≡ (addr - ledger_page_address page) / (entry_at (parts_of self.now).entries page).size }
    {
        let offset = addr - HEAP_START - PAGE_BYTES * page as u64;
        let place = self.entries[page as usize].size.place_of(offset);
        EntryPlace { page, place }
    }

    /// The first place of those in use or free that starts above an address; `None` where there is none.
    pub(crate) fn spot_above(&self, after: u64) -> Option<EntryPlace>
        requires { IsKept (parts_of self.now) }
        ensures above { IfSome result (IsAbove (parts_of self.now) after) }
        ensures none { IfNone result (HasNoneAbove (parts_of self.now) after) }
    {
        match self.spot(after) {
            None => self.first_above(after),
            Some(spot) => Some(EntryPlace {
                page: spot.page,
                place: spot.place + 1,
            }),
        }
    }

    // The same for an address in no entry.
    fn first_above(&self, after: u64) -> Option<EntryPlace>
        requires kept { IsKept (parts_of self.now) }
        requires nowhere { IsNowhere (parts_of self.now) after }
        ensures above { IfSome result (IsAbove (parts_of self.now) after) }
        ensures none { IfNone result (HasNoneAbove (parts_of self.now) after) }
    {
        if after < HEAP_START {
            return self.next_spot(0);
        }
        let page = (after - HEAP_START) / PAGE_BYTES + 1;
        if page >= self.pages as u64 {
            return None;
        }
        self.next_spot(page as u32)
    }

    /// The first place of the first entry from a page on.
    pub(crate) fn next_spot(&self, page: u32) -> Option<EntryPlace>
        requires { IsKept (parts_of self.now) }
        ensures { IsNextSpot (parts_of self.now) page result }
    {
        let page = self.starts.next(page)?;
        Some(EntryPlace { page, place: 0 })
    }

    /// The address, walk and count of the marked block at a place.
    pub(crate) fn tell(&self, spot: EntryPlace) -> Option<(u64, u32, u32)>
        requires kept { IsKept (parts_of self.now) }
        requires starts { has (parts_of self.now).starts spot.page ≡ true }
        ensures { result ≡ marked_at (parts_of self.now) spot }
    {
        let entry = &self.entries[spot.page as usize];
        let mark = entry.places.mark_of(spot.place)?;
        let addr = place_address(spot.page, entry.size.bytes(), spot.place);
        Some((addr, mark.walk, mark.count))
    }

    /// Whether so many pages from one on are in the space and free.
    pub(crate) fn are_free(&self, page: u32, count: u32) -> bool
        requires { IsKept (parts_of self.now) }
        ensures { IsTrue result ↔ AreFree (ledger_of (contents_of (parts_of self.now))) page count }
    {
        if page as u64 + count as u64 > self.pages as u64 {
            return false;
        }
        next_gap(&self.free, page, page + count).is_none()
    }

    /// Makes a block at a free place in the page of the first entry of its size; `None` where that has none.
    fn share(&mut self, size: u32) -> Option<u64>
        requires kept { IsKept (parts_of self.old) }
        requires listed { Contains sizes size }
        ensures kept { IsKept (parts_of self.new) }
        ensures pages { KeepsPages (contents_of (parts_of self.old)) (contents_of (parts_of self.new)) }
        ensures shares { IfSome result (Shares (contents_of (parts_of self.old)) size) }
        ensures cached { IfSome result (λ _. nodes_of (parts_of self.new).lists CACHED ≡ nodes_of (parts_of self.old).lists CACHED) }
        ensures added { IfSome result (λ addr. (contents_of (parts_of self.new)).slots
            ≡ with_slot (contents_of (parts_of self.old)).slots (slot_at addr size)) }
        ensures none { IfNone result (¬ (HasSharedPage (ledger_of (contents_of (parts_of self.old))) size)) }
        ensures unchanged { IfNone result (parts_of self.new ≡ parts_of self.old) }
    {
        let page = self.lists.first(list_of(size))?;
        let place = self.take_place(page)?;
        self.move_full(page);
        Some(place_address(page, size, place))
    }

    // Puts an unmarked block at a free place of an entry; `None` where it has none.
    fn take_place(&mut self, page: u32) -> Option<u32>
        requires { page < length (parts_of self.old).entries }
        ensures free { IfSome result (λ k. (k < length (entry_at (parts_of self.old).entries page).places)
            × (cell_at (entry_at (parts_of self.old).entries page).places k ≡ Free)) }
        ensures taken { IfSome result (λ k. parts_of self.new ≡ with_place (parts_of self.old) page k) }
        ensures full { IfNone result (free_places (parts_of self.old) page ≡ 0) }
        ensures unchanged { IfNone result (parts_of self.new ≡ parts_of self.old) }
    {
        let entry = &mut self.entries[page as usize];
        entry.places.take_free()
    }

    /// Makes an entry for blocks of a size in free pages from one on, with a block at one of its places. At an error contracts
    /// see no change: a cached entry that gave its memory for the places is still cached.
    fn open(&mut self, page: u32, size: u32) -> Result<u64, AllocError>
        requires kept { IsKept (parts_of self.old) }
        requires listed { Contains sizes size }
        requires run { HasRun (parts_of self.old).free (ledger_pages_of size) (parts_of self.old).pages page }
        ensures kept { IsKept (parts_of self.new) }
        ensures pages { KeepsPages (contents_of (parts_of self.old)) (contents_of (parts_of self.new)) }
        ensures within { IfOk result (IsWithin page size) }
        ensures cached { OnOk result (UsesOne (parts_of self.old).lists (parts_of self.new).lists) }
        ensures added { IfOk result (λ addr. (contents_of (parts_of self.new)).slots
            ≡ with_slot (contents_of (parts_of self.old)).slots (slot_at addr size)) }
        ensures unchanged { OnErr result (contents_of (parts_of self.new) ≡ contents_of (parts_of self.old)) }
    {
        let memory = self.take_memory(page);
        let (places, place) = new_places(memory, places_of(size))?;
        self.release_for(page);
        let entry = Entry {
            size: BlockSize::new(size),
            places,
        };
        self.put_entry(page, entry);
        self.push_entry(list_of(size), page);
        Ok(place_address(page, size, place))
    }

    // Moves an entry to the back of its list where it has no free place.
    fn move_full(&mut self, page: u32)
        requires entry { page < length (parts_of self.old).entries }
        requires node { page < (parts_of self.old).lists.nodes }
        requires linked { IsInList (parts_of self.old).lists page }
        ensures full { free_places (parts_of self.old) page ≡ 0 → (i : ℕ) → Holds (parts_of self.old).lists i page
            → parts_of self.new ≡ with_list (parts_of self.old) i (without page (nodes_of (parts_of self.old).lists i) ++ page ∷ []) }
        ensures unchanged { 0 < free_places (parts_of self.old) page → parts_of self.new ≡ parts_of self.old }
    {
        if self.is_full(page) {
            self.lists.move_back(page);
        }
    }

    // Puts an entry into a list: to its front where the entry has a free place, else to its back.
    fn push_entry(&mut self, list: u32, page: u32)
        requires entry { page < length (parts_of self.old).entries }
        requires list { list < length (parts_of self.old).lists.lists }
        requires node { page < (parts_of self.old).lists.nodes }
        requires free { IsFree (parts_of self.old).lists page }
        ensures back { free_places (parts_of self.old) page ≡ 0
            → parts_of self.new ≡ with_list (parts_of self.old) list (nodes_of (parts_of self.old).lists list ++ page ∷ []) }
        ensures front { 0 < free_places (parts_of self.old) page
            → parts_of self.new ≡ with_list (parts_of self.old) list (page ∷ nodes_of (parts_of self.old).lists list) }
    {
        if self.is_full(page) {
            self.lists.push_back(list, page);
        } else {
            self.lists.push_front(list, page);
        }
    }

    /// Puts an entry into free pages from one on.
    fn put_entry(&mut self, page: u32, entry: Entry)
        requires kept { IsKept (parts_of self.old) }
        requires some { 1 ≤ length entry.places }
        requires listed { Contains sizes entry.size }
        requires room { page + entry_pages entry ≤ (parts_of self.old).pages }
        requires bytes { entry.size * length entry.places < 2 ^ 40 }
        ensures { Opens (parts_of self.old) page entry (parts_of self.new) }
    {
        let count = entry.page_count();
        self.table.set(page, count, page);
        self.starts.insert(page);
        remove_range(&mut self.free, page, count);
        self.entries[page as usize] = entry;
    }

    /// The memory of the cached entry for a page, which stays cached. No places where no entry is cached.
    fn take_memory(&mut self, page: u32) -> Places
        requires kept { IsKept (parts_of self.old) }
        requires page { page < (parts_of self.old).pages }
        ensures kept { IsKept (parts_of self.new) }
        ensures released { Releases (parts_of self.old) (parts_of self.new) }
        ensures lists { (parts_of self.new).lists ≡ (parts_of self.old).lists }
    {
        match self.cached_for(page) {
            None => Places::none(self.alloc),
            Some(node) => self.take_places(node),
        }
    }

    /// The cached entry for a page is cached no more.
    fn release_for(&mut self, page: u32)
        requires kept { IsKept (parts_of self.old) }
        requires page { page < (parts_of self.old).pages }
        ensures kept { IsKept (parts_of self.new) }
        ensures released { Releases (parts_of self.old) (parts_of self.new) }
        ensures own { ¬ (Holds (parts_of self.new).lists CACHED page) }
        ensures used { UsesOne (parts_of self.old).lists (parts_of self.new).lists }
    {
        self.lists.lists_are_disjoint();
        match self.cached_for(page) {
            None => {}
            Some(node) => self.release(node),
        }
    }

    // The cached entry for a page: its own where there is one, else the first one.
    fn cached_for(&self, page: u32) -> Option<u32>
        requires kept { IsKept (parts_of self.now) }
        requires page { page < (parts_of self.now).pages }
        ensures cached { IfSome result (λ node. Holds (parts_of self.now).lists CACHED node) }
        ensures bounded { IfSome result (λ node. node < (parts_of self.now).lists.nodes) }
        ensures own { Holds (parts_of self.now).lists CACHED page → result ≡ Some page }
        ensures none { IfNone result (nodes_of (parts_of self.now).lists CACHED ≡ []) }
    {
        if self.lists.list_of(page) == Some(CACHED) {
            return Some(page);
        }
        self.lists.first(CACHED)
    }

    // The places of an entry, which has none after.
    fn take_places(&mut self, node: u32) -> Places
        requires { node < length (parts_of self.old).entries }
        ensures { parts_of self.new ≡ without_places (parts_of self.old) node }
    {
        let entry = &mut self.entries[node as usize];
        std::mem::replace(&mut entry.places, Places::none(self.alloc))
    }

    /// Gives the memory of the cached entries back.
    pub(crate) fn release_cached(&mut self)
        requires { IsKept (parts_of self.old) }
        ensures kept { IsKept (parts_of self.new) }
        ensures released { Releases (parts_of self.old) (parts_of self.new) }
        ensures none { nodes_of (parts_of self.new).lists CACHED ≡ [] }
    {
        'cached: loop {
            match self.lists.first(CACHED) {
                None => return,
                Some(node) => self.release(node),
            }
        }
    }

    // Gives the memory of a cached entry back.
    fn release(&mut self, node: u32)
        requires entry { node < length (parts_of self.old).entries }
        requires node { node < (parts_of self.old).lists.nodes }
        requires cached { Holds (parts_of self.old).lists CACHED node }
        ensures { parts_of self.new ≡ without_cached (parts_of self.old) node }
    {
        self.lists.unlink(node);
        let entry = &mut self.entries[node as usize];
        entry.places = Places::none(self.alloc);
    }

    /// Frees the blocks of an entry that are not marked, and says how many these were. An entry without blocks outside the
    /// image is cached; one that was full and has a free place now goes to the front of its list.
    pub(crate) fn sweep_entry(&mut self, page: u32) -> u32
        requires kept { IsKept (parts_of self.old) }
        requires starts { has (parts_of self.old).starts page ≡ true }
        ensures kept { IsKept (parts_of self.new) }
        ensures swept { Sweeps (parts_of self.old) page (parts_of self.new) }
        ensures freed { result ≡ count_by is_lost (entry_at (parts_of self.old).entries page).places }
    {
        if self.is_of_image(page) {
            return self.sweep_places(page);
        }
        if self.is_unmarked(page) {
            self.close(page);
            return self.sweep_places(page);
        }
        self.sweep_listed(page)
    }

    // Whether a page is of the image.
    fn is_of_image(&self, page: u32) -> bool
        requires { IsKept (parts_of self.now) }
        ensures { IsTrue result ↔ IsOfImage (parts_of self.now) page }
    {
        page >= self.image_first && page < self.image_first + self.image_count
    }

    // Whether an entry has no marked block.
    fn is_unmarked(&self, page: u32) -> bool
        requires { page < length (parts_of self.now).entries }
        ensures { IsTrue result
            ↔ ((k : ℕ) → is_marked (cell_at (entry_at (parts_of self.now).entries page).places k) ≡ false) }
    {
        let entry = &self.entries[page as usize];
        entry.places.next_mark(0).is_none()
    }

    // Frees the blocks of an entry that are not marked, and says how many these were.
    fn sweep_places(&mut self, page: u32) -> u32
        requires { page < length (parts_of self.old).entries }
        ensures swept { parts_of self.new
            ≡ with_entry (parts_of self.old) page (swept_entry (entry_at (parts_of self.old).entries page)) }
        ensures freed { result ≡ count_by is_lost (entry_at (parts_of self.old).entries page).places }
    {
        let entry = &mut self.entries[page as usize];
        entry.places.sweep()
    }

    // The same for an entry with a marked block outside the image.
    fn sweep_listed(&mut self, page: u32) -> u32
        requires kept { IsKept (parts_of self.old) }
        requires starts { has (parts_of self.old).starts page ≡ true }
        requires outside { ¬ (IsOfImage (parts_of self.old) page) }
        requires marked { ¬ ((k : ℕ) → is_marked (cell_at (entry_at (parts_of self.old).entries page).places k) ≡ false) }
        ensures kept { IsKept (parts_of self.new) }
        ensures swept { Sweeps (parts_of self.old) page (parts_of self.new) }
        ensures freed { result ≡ count_by is_lost (entry_at (parts_of self.old).entries page).places }
    {
        let was_full = self.is_full(page);
        let freed = self.sweep_places(page);
        if was_full && freed > 0 {
            self.move_front(page);
        }
        freed
    }

    // Whether an entry has no free place.
    fn is_full(&self, page: u32) -> bool
        requires { page < length (parts_of self.now).entries }
        ensures { IsTrue result ↔ (free_places (parts_of self.now) page ≡ 0) }
    {
        let entry = &self.entries[page as usize];
        !entry.places.has_free()
    }

    // Moves an entry to the front of its list.
    fn move_front(&mut self, page: u32)
        requires { page < (parts_of self.old).lists.nodes }
        ensures moved { (i : ℕ) → Holds (parts_of self.old).lists i page → parts_of self.new ≡ with_first (parts_of self.old) i page }

        // It is in one list alone.
        ensures alone { (i j : ℕ) → Holds (parts_of self.old).lists i page
            → ¬ (Holds (with_nodes (parts_of self.old).lists i (without page (nodes_of (parts_of self.old).lists i))) j page) }
    {
        match self.lists.list_of(page) {
            None => {}
            Some(list) => {
                self.lists.unlink(page);
                self.lists.push_front(list, page);
            }
        }
    }

    /// Takes an entry out of its pages, and caches it.
    fn close(&mut self, page: u32)
        requires kept { IsKept (parts_of self.old) }
        requires starts { has (parts_of self.old).starts page ≡ true }
        requires outside { ¬ (IsOfImage (parts_of self.old) page) }
        ensures { Closes (parts_of self.old) page (parts_of self.new) }
    {
        let count = self.entries[page as usize].page_count();
        self.table.clear(page, count);
        self.starts.remove(page);
        insert_range(&mut self.free, page, count);
        self.lists.unlink(page);
        self.lists.push_front(CACHED, page);
    }

    /// Puts the runs of an image into fresh pages, the first from a page on, each further one from the next page on.
    fn add_runs(&mut self, first: u32, runs: &[Run]) -> Result<(), AllocError>
        requires fresh { IsNew (parts_of self.old) }
        requires at_least { MIN_PAGES ≤ (parts_of self.old).pages }
        requires at_most { (parts_of self.old).pages ≤ MAX_PAGES }
        requires runs { AreRuns runs.now }
        requires fits { first + image_pages runs.now ≤ (parts_of self.old).pages }
        ensures kept { OnOk result (IsKept (parts_of self.new)) }
        ensures image { OnOk result (IsImage (contents_of (parts_of self.old)) first runs.now (contents_of (parts_of self.new))) }
    {
        self.image_first = first;
        for run in runs {
            self.add_run(*run)?;
        }
        Ok(())
    }

    /// Puts a run of blocks into the pages after those of the image, which has them from now on.
    fn add_run(&mut self, run: Run) -> Result<(), AllocError>
        requires kept { IsKept (parts_of self.old) }
        requires listed { Contains sizes run.size }
        requires some { 1 ≤ run.count }
        requires fits { image_end (parts_of self.old) + run_pages run ≤ (parts_of self.old).pages }
        ensures added { OnOk result (AddsRun (parts_of self.old) run (parts_of self.new)) }
    {
        let page = self.image_first + self.image_count;
        let mut places = Places::none(self.alloc).renew(run.count)?;
        places.fill();
        let entry = Entry {
            size: BlockSize::new(run.size),
            places,
        };
        let count = entry.page_count();
        self.put_entry(page, entry);
        self.image_count += count;
        Ok(())
    }
}
