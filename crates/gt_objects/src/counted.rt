// The blocks of a space, and how many there are of each size.
ghost use Rattle.std.specs.Prelude.{◌≡◌, ◌↔◌, ℕ, ◌≤◌, false, [], ◌∷◌, All, map, filter, count_by, length, Contains, IfErr, IfOk, IsTrue, Some, None, is_some};
ghost use Rattle.gt_space.specs.declared.TheConstants.{MIN_PAGES, MAX_PAGES};
ghost use Rattle.gt_links.specs.Lists.{with_nodes};
ghost use Rattle.gt_pages.specs.Ledger.{Place, Room, sizes};
ghost use Rattle.gt_pages.specs.Slots.{StartsSome, block_of, is_marked, is_unmarked, mark_at, new_mark, owner_of, slot_at, unmarked, with_mark_at, with_slot};
ghost use Rattle.gt_pages.specs.Contents.{AreLaidOut, KeepsPages, cached_list, empty_contents, ledger_of, with_slots};
ghost use Rattle.gt_mark.specs.Marks.{Marks};
ghost use Rattle.gt_mark.specs.Reached.{Walks, CanMark, NamesBlock, root_edges, root_targets};
ghost use Rattle.gt_mark.specs.Rounds.{AreRounds};
ghost use Rattle.gt_objects.specs.Totals.{AreTotals, bytes_of, count_of};

use crate::totals::Totals;
use gt_pages::{Pages, SlotFail};
use gt_space::Space;
use gt_walk::Tables;
use std::alloc::{AllocError, Global};
use std::marker::Model;

/// Pages whose blocks are counted.
#[derive(Drop)]
pub(crate) struct CountedPages {
    pages: Pages,
    totals: Totals,
}

impl Model for CountedPages {
    ghost use Rattle.std.specs.Prelude.{map};
    ghost use Rattle.gt_pages.specs.Slots.{block_of};
    ghost use Rattle.gt_pages.specs.Contents.{Contents};
    ghost use Rattle.gt_objects.specs.Totals.{AreTotals};

    ghost Value = { Contents };

    ghost view = { λ p. p.pages };

    ghost invariant = { λ p. AreTotals p.totals (map block_of p.pages.slots) };
}

impl CountedPages {
    /// A space of so many pages without blocks. It fails only if memory runs out.
    pub(crate) fn new(alloc: Global, pages: u32) -> Result<CountedPages, AllocError>
        requires at_least { MIN_PAGES ≤ pages }
        requires at_most { pages ≤ MAX_PAGES }
        ensures empty { IfOk result (λ p. p ≡ empty_contents pages) }
    {
        Ok(CountedPages {
            pages: Pages::new(alloc, pages)?,
            totals: Totals::none(),
        })
    }

    /// Makes an unmarked block of a listed size, in bytes, and gives its address, as `Pages::alloc_slot` does.
    pub(crate) fn alloc_slot(&mut self, size: u32) -> Result<u64, SlotFail>
        requires listed { Contains sizes size }
        ensures placed { IfOk result (λ addr. Place (ledger_of self.old) (block_of (slot_at addr size))) }
        ensures added { IfOk result (λ addr. self.new.slots ≡ with_slot self.old.slots (slot_at addr size)) }
        ensures kept { KeepsPages self.old self.new }
        ensures full { IfErr result (λ e. e ≡ SlotFail.Full → ¬ (Room (ledger_of self.old) size)) }
        ensures unchanged { IfErr result (λ e. e ≡ SlotFail.Memory → self.new ≡ self.old) }
        ensures released { IfErr result (λ e. e ≡ SlotFail.Full → self.new ≡ record self.old { lists = with_nodes self.old.lists cached_list [] }) }
    {
        self.pages.sound();
        match self.pages.alloc_slot(size) {
            Ok(addr) => {
                self.totals.add(size);
                Ok(addr)
            }
            Err(fail) => Err(fail),
        }
    }

    /// The block that has the byte at an address: its own address, and its size in bytes. `None` says that there is none.
    pub(crate) fn owner(&self, addr: u64) -> Option<(u64, u32)>
        ensures owner { result ≡ owner_of self.now.slots addr }
    {
        self.pages.owner(addr)
    }

    /// Takes all marks away, and releases the cached entries.
    pub(crate) fn clear_marks(&mut self)
        ensures cleared { self.new ≡ record (with_slots self.old (map unmarked self.old.slots)) { lists = with_nodes self.old.lists cached_list [] } }
    {
        self.pages.clear_marks();
    }

    /// Marks the block that starts at an address, and all that edges reach from there, as `gt_mark::mark_from` does.
    pub(crate) fn mark_from(
        &mut self,
        tables: &Tables,
        space: &Space,
        addr: u64,
        walk: u32,
        count: u32,
    ) -> u32
        requires ready { (walks : Walks) × (walks addr ≡ record { walk = walk; count = count }) × CanMark tables.now space.now walks self.old.slots (addr ∷ []) }
        ensures marked { (walks : Walks) → walks addr ≡ record { walk = walk; count = count } → CanMark tables.now space.now walks self.old.slots (addr ∷ [])
            → Marks tables.now space.now walks (addr ∷ []) self.old self.new }
        ensures rounds { (walks : Walks) → walks addr ≡ record { walk = walk; count = count } → CanMark tables.now space.now walks self.old.slots (addr ∷ [])
            → AreRounds tables.now space.now walks (addr ∷ []) self.old.slots self.new.slots result }
    {
        gt_mark::mark_from(tables, space, &mut self.pages, addr, walk, count)
    }

    /// Marks the blocks that roots name, and all that edges reach from there, as `gt_mark::mark_roots` does.
    pub(crate) fn mark_roots(&mut self, tables: &Tables, space: &Space) -> u32
        requires ready { (walks : Walks) × All (NamesBlock self.old.slots walks) (root_edges tables.now space.now) × CanMark tables.now space.now walks self.old.slots (root_targets tables.now space.now) }
        ensures marked { (walks : Walks) → All (NamesBlock self.old.slots walks) (root_edges tables.now space.now) → CanMark tables.now space.now walks self.old.slots (root_targets tables.now space.now)
            → Marks tables.now space.now walks (root_targets tables.now space.now) self.old self.new }
        ensures rounds { (walks : Walks) → All (NamesBlock self.old.slots walks) (root_edges tables.now space.now) → CanMark tables.now space.now walks self.old.slots (root_targets tables.now space.now)
            → AreRounds tables.now space.now walks (root_targets tables.now space.now) self.old.slots self.new.slots result }
    {
        gt_mark::mark_roots(tables, space, &mut self.pages)
    }

    /// Whether the block that starts at an address is marked.
    pub(crate) fn is_marked(&self, addr: u64) -> bool
        requires start { StartsSome self.now.slots addr }
        ensures marked { result ≡ is_some (mark_at self.now.slots addr) }
    {
        self.pages.marked_as(addr).is_some()
    }

    /// How many blocks are marked.
    pub(crate) fn marked_len(&self) -> u32
        ensures len { result ≡ length (filter is_marked self.now.slots) }
    {
        marked_totals(&self.pages).len()
    }

    /// Frees the blocks that are not marked, and says how many these were. It takes no memory.
    pub(crate) fn sweep(&mut self) -> u32
        ensures kept { self.new.slots ≡ filter is_marked self.old.slots }
        ensures pages { KeepsPages self.old self.new }
        ensures freed { result ≡ count_by is_unmarked self.old.slots }
    {
        self.totals = marked_totals(&self.pages);
        self.pages.sweep()
    }

    /// How many blocks have this size.
    pub(crate) fn count(&self, size: u32) -> u32
        requires listed { Contains sizes size }
        ensures count { result ≡ count_of size (map block_of self.now.slots) }
    {
        self.totals.count(size)
    }

    /// How many blocks there are.
    pub(crate) fn len(&self) -> u32
        ensures len { result ≡ length (map block_of self.now.slots) }
    {
        self.totals.len()
    }

    /// The bytes of all blocks.
    pub(crate) fn bytes(&self) -> u64
        ensures bytes { result ≡ bytes_of (map block_of self.now.slots) }
    {
        self.totals.bytes()
    }

    /// How many pages the image takes up.
    pub(crate) fn image_pages(&self) -> u32
        ensures image { result ≡ self.now.image.count }
    {
        self.pages.image_pages()
    }

    /// Says what holds of the blocks at all times, and does nothing.
    pub(crate) fn sound(&self)
        ensures laid { AreLaidOut self.now }
    {
        self.pages.sound();
    }
}

// How many marked blocks there are of each size.
fn marked_totals(pages: &Pages) -> Totals
    ensures totals { AreTotals result (map block_of (filter is_marked pages.now.slots)) }
{
    Totals::of_marks(pages.marked_totals())
}
