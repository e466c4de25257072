//! A heap whose blocks the marker can be called on.
ghost use Rattle.std.specs.Prelude.{◌≡◌, ℕ, List, [], ◌∷◌, Contains, IfSome, IsTrue};
ghost use Rattle.gt_pages.specs.Ledger.{sizes};
ghost use Rattle.gt_mark.specs.Reached.{CanMark, root_edges};
ghost use Rattle.sample_heap.specs.Named.{AllKnown, AllName, CanMarkEach, walks_of};

use crate::conditions::is_ready;
use crate::edges::{are_named, mark_of, starts};
use gt_entries::Mark;
use gt_mark::{mark_from, mark_roots};
use gt_pages::{Pages, SlotFail, rounded_size};
use gt_space::{MAX_PAGES, MIN_PAGES, Space};
use gt_walk::{Tables, WalkRow};
use std::alloc::{AllocError, Global};

// How many bytes the static record has.
const STATICS: u32 = 1024;

/// Blocks with their bytes and marks, and how each is walked.
#[derive(Drop)]
pub struct SampleHeap {
    tables: Tables,
    space: Space,
    pages: Pages,
    // The same blocks, each marked by its walk and count.
    known: Pages,
}

/// The least listed size for so many bytes.
fn size_for(bytes: u32) -> Option<u32>
    ensures { IfSome result (λ size. Contains sizes size) }
{
    rounded_size(bytes)
}

// How many bytes an element of a walk has.
fn element_bytes(tables: &Tables, walk: u32) -> u32 {
    let Some(rows) = tables.walks.get(walk as usize) else {
        return 0;
    };
    match rows.as_slice() {
        [WalkRow::Note { size, .. }, ..] => *size,
        _ => 0,
    }
}

// A block of a listed size; none where there is no room.
fn make_block(pages: &mut Pages, bytes: u32) -> Result<Option<u64>, AllocError> {
    let Some(size) = size_for(bytes) else {
        return Ok(None);
    };
    match pages.alloc_slot(size) {
        Ok(addr) => Ok(Some(addr)),
        Err(SlotFail::Full) => Ok(None),
        Err(SlotFail::Memory) => Err(AllocError),
    }
}

// Marks the block at an address, where one starts there.
fn mark_one(pages: &mut Pages, addr: u64, walk: u32, count: u32) {
    if starts(pages, addr) {
        pages.mark(addr, walk, count);
    }
}

// Whether each edge of the roots names a block.
fn roots_named(tables: &Tables, space: &Space, known: &Pages, pages: &Pages) -> bool
    ensures { IsTrue result → AllName known.now.slots pages.now.slots (root_edges tables.now space.now) }
{
    for walk in tables.roots.as_slice() {
        if !are_named(tables, space, known, pages, 0, *walk, 1) {
            return false;
        }
    }
    true
}

// Whether each of these blocks starts in the heap, and how it is walked is known.
fn are_known(known: &Pages, pages: &Pages, blocks: &[u64]) -> bool
    ensures { IsTrue result → AllKnown known.now.slots pages.now.slots blocks.now }
{
    for addr in blocks {
        if mark_of(known, *addr).is_none() || !starts(pages, *addr) {
            return false;
        }
    }
    true
}

// Whether blocks can be marked from each of these.
fn can_mark(tables: &Tables, space: &Space, known: &Pages, pages: &Pages, starts: &[u64]) -> bool
    ensures { IsTrue result → CanMarkEach tables.now space.now known.now.slots pages.now.slots starts.now }
{
    pages.sound();
    are_known(known, pages, starts) && is_ready(tables, space, known, pages)
}

// Marks what a block reaches, where it is known how it is walked.
fn mark_known(tables: &Tables, space: &Space, known: &Pages, pages: &mut Pages, addr: u64) -> u32
    requires ready { CanMark tables.now space.now (walks_of known.now.slots) pages.old.slots (addr ∷ []) }
    ensures can { (blocks : List ℕ) → CanMarkEach tables.now space.now known.now.slots pages.old.slots blocks → CanMarkEach tables.now space.now known.now.slots pages.new.slots blocks }
{
    match mark_of(known, addr) {
        Some(mark) => mark_from(tables, space, pages, addr, mark.walk, mark.count),
        None => 1,
    }
}

// Marks what these blocks reach, one after another.
fn mark_each(
    tables: &Tables,
    space: &Space,
    known: &Pages,
    pages: &mut Pages,
    starts: &[u64],
) -> u32
    requires ready { CanMarkEach tables.now space.now known.now.slots pages.old.slots starts.now }
{
    let mut rounds = 1u32;
    for addr in starts {
        let more = mark_known(tables, space, known, pages, *addr);
        rounds = rounds.saturating_add(more.saturating_sub(1));
    }
    rounds
}

impl SampleHeap {
    /// A heap of so many pages without blocks.
    pub fn new(alloc: Global, tables: Tables, pages: u32) -> Result<SampleHeap, AllocError> {
        let count = pages.max(MIN_PAGES).min(MAX_PAGES);
        let mut space = Space::empty(alloc);
        space.resize_fresh(count, STATICS)?;
        Ok(SampleHeap {
            tables,
            space,
            pages: Pages::new(alloc, count)?,
            known: Pages::new(alloc, count)?,
        })
    }

    /// Makes a block of so many elements of a walk, with zero bytes. The answer is `None` where there is no room for it.
    pub fn make(&mut self, walk: u32, count: u32) -> Result<Option<u64>, AllocError> {
        let bytes = element_bytes(&self.tables, walk)
            .saturating_mul(count)
            .max(1);
        let Some(addr) = make_block(&mut self.pages, bytes)? else {
            return Ok(None);
        };
        make_block(&mut self.known, bytes)?;
        mark_one(&mut self.known, addr, walk, count);
        Ok(Some(addr))
    }

    /// Makes a block of which it is not told how it is walked, so that nothing may reach it.
    pub fn make_stale(&mut self, walk: u32) -> Result<Option<u64>, AllocError> {
        let bytes = element_bytes(&self.tables, walk).max(1);
        make_block(&mut self.known, bytes)?;
        make_block(&mut self.pages, bytes)
    }

    /// Writes a number of eight bytes, where these lie in the space.
    pub fn put(&mut self, addr: u64, value: u64) {
        let end = self.space.start() + self.space.len();
        if addr >= self.space.start() && addr < 1 << 32 && addr + 8 <= end {
            self.space.write_u64(addr, value);
        }
    }

    /// Marks a block, and leaves it to a pass where it waits for one.
    pub fn mark(&mut self, addr: u64, waits: bool) {
        let Some(mark) = mark_of(&self.known, addr) else {
            return;
        };
        mark_one(&mut self.pages, addr, mark.walk, mark.count);
        if waits && starts(&self.pages, addr) {
            self.pages.postpone(addr);
        }
    }

    /// The mark that a block has once it is walked; `None` where no block starts at the address.
    pub fn own_mark(&self, addr: u64) -> Option<Mark> {
        let mark = mark_of(&self.known, addr)?;
        Some(Mark {
            pending: false,
            ..mark
        })
    }

    /// The mark of a block; `None` where it has none.
    pub fn marked_as(&self, addr: u64) -> Option<Mark> {
        mark_of(&self.pages, addr)
    }

    /// Takes all marks away.
    pub fn clear_marks(&mut self) {
        self.pages.clear_marks();
    }

    /// Frees the blocks that are not marked, and says how many these were.
    pub fn sweep(&mut self) -> u32 {
        self.pages.sweep()
    }

    /// Whether blocks can be marked from each of these.
    pub fn can_mark(&self, starts: &[u64]) -> bool {
        can_mark(&self.tables, &self.space, &self.known, &self.pages, starts)
    }

    /// Marks what these blocks reach, one after another, and says how many rounds there were: one, and one more for each pass. The
    /// answer is `None`, and nothing changes, where blocks cannot be marked from them.
    pub fn mark_each(&mut self, starts: &[u64]) -> Option<u32> {
        if !can_mark(&self.tables, &self.space, &self.known, &self.pages, starts) {
            return None;
        }
        Some(mark_each(
            &self.tables,
            &self.space,
            &self.known,
            &mut self.pages,
            starts,
        ))
    }

    /// The same for what the roots reach, in one call.
    pub fn mark_roots(&mut self) -> Option<u32> {
        self.pages.sound();
        if !roots_named(&self.tables, &self.space, &self.known, &self.pages) {
            return None;
        }
        if !is_ready(&self.tables, &self.space, &self.known, &self.pages) {
            return None;
        }
        Some(mark_roots(&self.tables, &self.space, &mut self.pages))
    }
}
