//! Random calls, each compared with the plain list of blocks.
ghost use Rattle.std.specs.Prelude.{◌^◌, ◌<◌};

use crate::images::{are_runs, pages_for};
use crate::lists::{cached_pages, entries};
use crate::plain::{Block, Plain, page_of};
use crate::sizes::size_for;
use gt_pages::{PageEntry, Pages, Run, SIZES, SlotFail};
use std::alloc::{AllocError, Global};

/// How many pages the space of random calls has.
const RANDOM_PAGES: u32 = 40;

/// A generator of numbers: that of Knuth's MMIX.
#[derive(Drop)]
struct Generator {
    state: u64,
}

impl Generator {
    /// A number below `bound`.
    fn below(&mut self, bound: u64) -> u32
        ensures { result < 2 ^ 31 }
    {
        self.state = self
            .state
            .wrapping_mul(6364136223846793005)
            .wrapping_add(1442695040888963407);
        ((self.state >> 33).checked_rem(bound).unwrap_or(0)) as u32
    }
}

/// So many random calls. `None` says that all gave what the plain list gave, else it is the number of the first that did not.
pub fn random_calls(alloc: Global, seed: u64, steps: u32) -> Result<Option<u32>, AllocError> {
    let mut pages = Pages::new(alloc, RANDOM_PAGES)?;
    let mut plain = Plain::new(alloc, RANDOM_PAGES as u64);
    compare(
        alloc,
        &mut Generator { state: seed },
        &mut pages,
        &mut plain,
        steps,
    )
}

// So many random calls of both, or the number of the first that gave other things.
fn compare(
    alloc: Global,
    generator: &mut Generator,
    pages: &mut Pages,
    plain: &mut Plain,
    steps: u32,
) -> Result<Option<u32>, AllocError> {
    for step in 0..steps {
        if !one_call(alloc, generator, pages, plain)? {
            return Ok(Some(step));
        }
    }
    Ok(None)
}

// One random call of both, and whether they gave the same.
fn one_call(
    alloc: Global,
    generator: &mut Generator,
    pages: &mut Pages,
    plain: &mut Plain,
) -> Result<bool, AllocError> {
    let call = generator.below(200);
    match call {
        0..=3 => clear_both(alloc, pages, plain),
        4..=8 => sweep_both(alloc, pages, plain),
        9 => image_one(alloc, generator, pages, plain),
        10..=13 => same_contents(alloc, pages, plain),
        14..=98 => Ok(block_one(call, generator, pages, plain)),
        _ => alloc_one(alloc, generator, pages, plain),
    }
}

fn clear_both(alloc: Global, pages: &mut Pages, plain: &mut Plain) -> Result<bool, AllocError> {
    pages.clear_marks();
    plain.clear();
    same_contents(alloc, pages, plain)
}

fn sweep_both(alloc: Global, pages: &mut Pages, plain: &mut Plain) -> Result<bool, AllocError> {
    let swept = pages.sweep() as usize == plain.sweep()?;
    Ok(swept && same_contents(alloc, pages, plain)?)
}

// One random call that makes no block and sweeps none, and whether both gave the same.
fn block_one(call: u32, generator: &mut Generator, pages: &mut Pages, plain: &mut Plain) -> bool {
    match call {
        14..=23 => fit_one(generator, pages, plain),
        24..=31 => walk_one(generator, pages, plain),
        32..=46 => postpone_one(generator, pages, plain),
        47..=72 => mark_one(generator, pages, plain),
        _ => mark_owner_one(generator, pages, plain),
    }
}

// Makes a block of a random size. It is to lie in the first page of its list where that has a free place.
fn alloc_one(
    alloc: Global,
    generator: &mut Generator,
    pages: &mut Pages,
    plain: &mut Plain,
) -> Result<bool, AllocError> {
    let kind = random_kind(generator);
    let Some(size) = size_for(size_of(kind)) else {
        return Ok(false);
    };
    let first = first_entry(alloc, pages, kind)?;
    let has_room = pages.has_room(size);
    match pages.alloc_slot(size) {
        Ok(addr) => {
            let taken = takes_block(alloc, pages, plain, addr, size)?;
            Ok(has_room && taken && is_in_first(first, addr))
        }
        Err(SlotFail::Full) => Ok(!has_room && is_full(alloc, pages, plain, size)?),
        Err(SlotFail::Memory) => Err(AllocError),
    }
}

// The first entry of the list of a size, by its number.
fn first_entry(alloc: Global, pages: &Pages, kind: u32) -> Result<Option<PageEntry>, AllocError> {
    Ok(entries(alloc, pages, kind)?.first().copied())
}

// Whether a block may lie where one was made. The plain list takes it.
fn takes_block(
    alloc: Global,
    pages: &Pages,
    plain: &mut Plain,
    addr: u64,
    size: u32,
) -> Result<bool, AllocError> {
    let allowed = plain.allows(size as u64, Some(addr));
    let cached = takes_cached(alloc, pages, plain, addr, size)?;
    plain.add(addr, size as u64)?;
    Ok(allowed && cached)
}

// Whether there may be no room for a block. Then no entry is cached any more.
fn is_full(alloc: Global, pages: &Pages, plain: &mut Plain, size: u32) -> Result<bool, AllocError> {
    plain.cached.clear();
    Ok(plain.allows(size as u64, None) && same_cached(alloc, pages, plain)?)
}

// Whether the cached entries may be these after a block is made, which the plain list has not yet. The plain list takes
// them.
fn takes_cached(
    alloc: Global,
    pages: &Pages,
    plain: &mut Plain,
    addr: u64,
    size: u32,
) -> Result<bool, AllocError> {
    let shares = plain.some_free_place(size as u64).is_some();
    Ok(plain.take_cached(cached_pages(alloc, pages)?, page_of(addr), shares))
}

// The number of a random size, mostly of one of which few blocks fill a page.
fn random_kind(generator: &mut Generator) -> u32 {
    match generator.below(4) {
        0 => generator.below(25),
        1 => generator.below(17),
        _ => generator.below(5).saturating_add(16),
    }
}

// The size of a number.
fn size_of(kind: u32) -> u32 {
    SIZES.get(kind as usize).copied().unwrap_or(8)
}

// Whether an address lies in the page of the first entry of a list, where that has a free place.
fn is_in_first(first: Option<PageEntry>, addr: u64) -> bool {
    match first {
        Some(entry) if entry.free > 0 => page_of(addr) == entry.page as u64,
        _ => true,
    }
}

// Asks where a random number of pages go.
fn fit_one(generator: &mut Generator, pages: &Pages, plain: &Plain) -> bool {
    let need = generator.below(RANDOM_PAGES as u64);
    let preferred = generator.below(RANDOM_PAGES as u64 + 4);
    same_fit(pages.fit(need, preferred), plain, need, preferred)
}

// Whether the plain list gives the same place for so many pages.
fn same_fit(found: Result<u32, u32>, plain: &Plain, need: u32, preferred: u32) -> bool {
    match (found, plain.fit(need as u64, preferred as u64)) {
        (Ok(page), Ok(plain_page)) => page as u64 == plain_page,
        (Err(count), Err(plain_count)) => count as u64 == plain_count,
        _ => false,
    }
}

// Takes a random image, where there is room for it.
fn image_one(
    alloc: Global,
    generator: &mut Generator,
    pages: &mut Pages,
    plain: &mut Plain,
) -> Result<bool, AllocError> {
    let runs = random_runs(alloc, generator)?;
    if !are_runs(&runs) {
        return Ok(false);
    }
    let Some(need) = pages_for(&runs) else {
        return Ok(false);
    };
    let preferred = generator.below(RANDOM_PAGES as u64);
    let found = pages.fit(need, preferred);
    if !same_fit(found, plain, need, preferred) {
        return Ok(false);
    }
    match found {
        Ok(page) => {
            pages.take_image(page, &runs)?;
            plain.take_image(page as u64, &runs)?;
            same_contents(alloc, pages, plain)
        }
        Err(_) => Ok(true),
    }
}

// Up to three runs of blocks of rising sizes.
fn random_runs(alloc: Global, generator: &mut Generator) -> Result<Vec<Run>, AllocError> {
    let mut runs = Vec::new(alloc);
    let mut kind = 0u32;
    for _ in 0..generator.below(4) {
        kind = kind.saturating_add(generator.below(7));
        runs.push(Run {
            size: size_of(kind),
            count: generator.below(30).saturating_add(1),
        })?;
        kind = kind.saturating_add(1);
    }
    Ok(runs)
}

// A random block is left to a pass, where it is marked.
fn postpone_one(generator: &mut Generator, pages: &mut Pages, plain: &mut Plain) -> bool {
    let at = generator.below(plain.blocks.len() as u64) as usize;
    let Some(block) = plain.blocks.get(at).copied() else {
        return true;
    };
    let Some((start, _size)) = pages.owner(block.addr) else {
        return false;
    };
    pages.postpone(start);
    plain.postpone(start);
    start == block.addr && pages.next_pending(0) == plain.next_pending(0)
}

// A random block is no more left to a pass.
fn walk_one(generator: &mut Generator, pages: &mut Pages, plain: &mut Plain) -> bool {
    let at = generator.below(plain.blocks.len() as u64) as usize;
    let Some(block) = plain.blocks.get(at).copied() else {
        return true;
    };
    let Some((start, _size)) = pages.owner(block.addr) else {
        return false;
    };
    pages.set_walked(start);
    plain.set_walked(start);
    start == block.addr && pages.next_pending(0) == plain.next_pending(0)
}

// Marks a random block, and asks for its owner by a random byte of it.
fn mark_one(generator: &mut Generator, pages: &mut Pages, plain: &mut Plain) -> bool {
    let at = generator.below(plain.blocks.len() as u64) as usize;
    let Some(block) = plain.blocks.get(at).copied() else {
        return true;
    };
    let byte = block
        .addr
        .saturating_add(generator.below(block.size) as u64);
    let Some((start, size)) = pages.owner(byte) else {
        return false;
    };
    if start != block.addr || size as u64 != block.size {
        return false;
    }
    let walk = generator.below(1000);
    let count = generator.below(1000);
    pages.mark(start, walk, count) == plain.mark(start, walk, count)
}

// Marks the block that has a random byte of a random block, or has the byte after that block: maybe none has that.
fn mark_owner_one(generator: &mut Generator, pages: &mut Pages, plain: &mut Plain) -> bool {
    let at = generator.below(plain.blocks.len() as u64) as usize;
    let Some(block) = plain.blocks.get(at).copied() else {
        return true;
    };
    let bytes = block.size.saturating_add(1);
    let byte = block.addr.saturating_add(generator.below(bytes) as u64);
    let walk = generator.below(1000);
    let count = generator.below(1000);
    let wanted = match plain.owner(byte) {
        Some((start, _size)) => Some(plain.mark(start, walk, count)),
        None => None,
    };
    pages.mark_owner(byte, walk, count) == wanted
}

// Whether both have the same blocks, marks and entries.
fn same_contents(alloc: Global, pages: &Pages, plain: &Plain) -> Result<bool, AllocError> {
    let same = same_marks(pages, plain) && same_pending(pages, plain) && same_blocks(pages, plain);
    Ok(same && same_entries(alloc, pages, plain)? && same_cached(alloc, pages, plain)?)
}

// Whether both tell the same marked blocks.
fn same_marks(pages: &Pages, plain: &Plain) -> bool {
    let mut after = 0;
    for _ in 0..plain.blocks.len().saturating_add(1) {
        let found = pages.next_mark(after);
        if found != plain.next_mark(after) {
            return false;
        }
        let Some((addr, _walk, _count)) = found else {
            break;
        };
        after = addr;
    }
    true
}

// Whether both tell the same blocks that are left to a pass.
fn same_pending(pages: &Pages, plain: &Plain) -> bool {
    let mut after = 0;
    for _ in 0..plain.blocks.len().saturating_add(1) {
        let found = pages.next_pending(after);
        if found != plain.next_pending(after) {
            return false;
        }
        let Some((addr, _walk, _count)) = found else {
            break;
        };
        after = addr;
    }
    true
}

// Whether both tell the same owners of the first byte of each block, and of the byte after it, and the same mark of each.
fn same_blocks(pages: &Pages, plain: &Plain) -> bool {
    for block in &plain.blocks {
        let next = block.addr.saturating_add(block.size);
        if !same_owner(pages, plain, block.addr) || !same_owner(pages, plain, next) {
            return false;
        }
        if !same_mark(pages, *block) {
            return false;
        }
    }
    true
}

// Whether the pages tell the mark of a block.
fn same_mark(pages: &Pages, block: Block) -> bool {
    let Some((start, _size)) = pages.owner(block.addr) else {
        return false;
    };
    let marked = pages.is_marked(start);
    let mark = pages.marked_as(start);
    start == block.addr && marked == block.mark.is_some() && mark == block.told_mark()
}

// Whether the lists have the entries of the plain list.
fn same_entries(alloc: Global, pages: &Pages, plain: &Plain) -> Result<bool, AllocError> {
    let mut lists = Vec::new(alloc);
    for kind in 0..SIZES.len() as u32 {
        lists.push(entries(alloc, pages, kind)?)?;
    }
    plain.has_entries(alloc, &lists)
}

// Whether both have the same cached entries.
fn same_cached(alloc: Global, pages: &Pages, plain: &Plain) -> Result<bool, AllocError> {
    Ok(plain.has_cached(&cached_pages(alloc, pages)?))
}

// Whether both tell the same owner of an address.
fn same_owner(pages: &Pages, plain: &Plain, addr: u64) -> bool {
    match (pages.owner(addr), plain.owner(addr)) {
        (Some((start, size)), Some((plain_start, plain_size))) => {
            start == plain_start && size as u64 == plain_size
        }
        (None, None) => true,
        _ => false,
    }
}
