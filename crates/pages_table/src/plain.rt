//! A plain list of blocks, to compare with: each call looks at all of them.
use gt_entries::Mark;
use gt_pages::{PageEntry, Run, SIZES};
use gt_space::{HEAP_START, PAGE_BYTES};
use std::alloc::{AllocError, Global};

/// A block, with its walk and count where it is marked, and whether it is left to a pass.
#[derive(Clone, Copy)]
pub struct Block {
    pub addr: u64,
    pub size: u64,
    pub mark: Option<(u32, u32)>,
    pub pending: bool,
}

/// How a page is used: the size of its blocks in bytes, and how many of them start there. It has none where no block does.
#[derive(Clone, Copy)]
struct PageUse {
    size: u64,
    blocks: u64,
}

/// The blocks by rising address, the pages whose entries are cached, and the pages of the image.
#[derive(Drop)]
pub struct Plain {
    pub blocks: Vec<Block>,
    pub cached: Vec<u64>,
    pub pages: u64,
    pub image_first: u64,
    pub image_count: u64,
}

/// The page of an address.
pub fn page_of(addr: u64) -> u64 {
    addr.saturating_sub(HEAP_START) / PAGE_BYTES
}

fn address_of(page: u64) -> u64 {
    HEAP_START.saturating_add(page.saturating_mul(PAGE_BYTES))
}

// How many pages so many bytes take up.
fn pages_for(bytes: u64) -> u64 {
    bytes.saturating_add(PAGE_BYTES.saturating_sub(1)) / PAGE_BYTES
}

// How often a page stands in a list.
fn times_in(list: &[u64], page: u64) -> usize {
    let mut times = 0usize;
    for other in list {
        if *other == page {
            times = times.saturating_add(1);
        }
    }
    times
}

// Whether each page of a list stands in it once, and in another one once.
fn is_part_of(list: &[u64], whole: &[u64]) -> bool {
    for page in list {
        if times_in(list, *page) != 1 || times_in(whole, *page) != 1 {
            return false;
        }
    }
    true
}

fn are_apart(a: u64, m: u64, b: u64, n: u64) -> bool {
    a.saturating_add(m) <= b || b.saturating_add(n) <= a
}

impl Block {
    /// Its mark, as it is to be told.
    pub fn told_mark(&self) -> Option<Mark> {
        let (walk, count) = self.mark?;
        Some(Mark {
            walk,
            count,
            pending: self.pending,
        })
    }
}

impl Plain {
    /// A space of so many pages without blocks.
    pub fn new(alloc: Global, pages: u64) -> Plain {
        Plain {
            blocks: Vec::new(alloc),
            cached: Vec::new(alloc),
            pages,
            image_first: 0,
            image_count: 0,
        }
    }

    fn is_image_page(&self, page: u64) -> bool {
        page >= self.image_first && page < self.image_first.saturating_add(self.image_count)
    }

    /// Whether no block has a byte of these.
    pub fn is_free(&self, addr: u64, size: u64) -> bool {
        for b in &self.blocks {
            if !are_apart(b.addr, b.size, addr, size) {
                return false;
            }
        }
        true
    }

    /// Whether a page outside the image has no block.
    pub fn is_free_page(&self, page: u64) -> bool {
        !self.is_image_page(page) && self.is_free(address_of(page), PAGE_BYTES)
    }

    /// Whether a page outside the image holds blocks of this size and has a free place.
    pub fn has_free_place(&self, page: u64, size: u64) -> bool {
        if size > PAGE_BYTES || size == 0 || self.is_image_page(page) {
            return false;
        }
        if !self.has_blocks(page, size) {
            return false;
        }
        for k in 0..PAGE_BYTES / size {
            if self.is_free(
                address_of(page).saturating_add(size.saturating_mul(k)),
                size,
            ) {
                return true;
            }
        }
        false
    }

    // Whether a block of this size starts in a page.
    fn has_blocks(&self, page: u64, size: u64) -> bool {
        for b in &self.blocks {
            if b.size == size && page_of(b.addr) == page {
                return true;
            }
        }
        false
    }

    /// Whether so many pages from one on are in the space and free.
    pub fn are_free_pages(&self, first: u64, count: u64) -> bool {
        let end = first.saturating_add(count);
        if end > self.pages {
            return false;
        }
        for page in first..end {
            if !self.is_free_page(page) {
                return false;
            }
        }
        true
    }

    /// The lowest run of so many free pages.
    pub fn lowest_run(&self, count: u64) -> Option<u64> {
        for first in 0..self.pages {
            if self.are_free_pages(first, count) {
                return Some(first);
            }
        }
        None
    }

    /// Some page with a free place for this size.
    pub fn some_free_place(&self, size: u64) -> Option<u64> {
        for page in 0..self.pages {
            if self.has_free_place(page, size) {
                return Some(page);
            }
        }
        None
    }

    /// Whether a new block of this size may lie at an address, or may have none.
    pub fn allows(&self, size: u64, answer: Option<u64>) -> bool {
        let pages = pages_for(size);
        let Some(addr) = answer else {
            return self.some_free_place(size).is_none() && self.lowest_run(pages).is_none();
        };
        let page = page_of(addr);
        let offset = addr.saturating_sub(address_of(page));
        if !self.is_free(addr, size) {
            return false;
        }
        if self.some_free_place(size).is_some() {
            return self.has_free_place(page, size) && offset.checked_rem(size) == Some(0);
        }
        offset == 0 && self.lowest_run(pages) == Some(page)
    }

    /// One more block, at its place by address.
    pub fn add(&mut self, addr: u64, size: u64) -> Result<(), AllocError> {
        let at = self
            .blocks
            .iter()
            .position(|b| b.addr > addr)
            .unwrap_or(self.blocks.len());
        self.blocks.insert(
            at,
            Block {
                addr,
                size,
                mark: None,
                pending: false,
            },
        )?;
        Ok(())
    }

    /// The block that has the byte at an address.
    pub fn owner(&self, addr: u64) -> Option<(u64, u64)> {
        for b in &self.blocks {
            if b.addr <= addr && addr < b.addr.saturating_add(b.size) {
                return Some((b.addr, b.size));
            }
        }
        None
    }

    // The block at an address.
    fn block_at(&mut self, addr: u64) -> Option<&mut Block> {
        let place = self.place_of(addr)?;
        self.blocks.get_mut(place)
    }

    // Where the block at an address stands.
    fn place_of(&self, addr: u64) -> Option<usize> {
        for place in 0..self.blocks.len() {
            if self.blocks.get(place)?.addr == addr {
                return Some(place);
            }
        }
        None
    }

    /// Marks the block at an address, and says whether it was not marked before.
    pub fn mark(&mut self, addr: u64, walk: u32, count: u32) -> bool {
        let Some(block) = self.block_at(addr) else {
            return false;
        };
        let fresh = block.mark.is_none();
        if fresh {
            block.mark = Some((walk, count));
        }
        fresh
    }

    /// Leaves the block at an address to a pass, where it is marked.
    pub fn postpone(&mut self, addr: u64) {
        if let Some(block) = self.block_at(addr) {
            block.pending = block.mark.is_some();
        }
    }

    /// The block at an address is no more left to a pass.
    pub fn set_walked(&mut self, addr: u64) {
        if let Some(block) = self.block_at(addr) {
            block.pending = false;
        }
    }

    /// Takes all marks away, and caches no entry any more.
    pub fn clear(&mut self) {
        for b in &mut self.blocks {
            b.mark = None;
            b.pending = false;
        }
        self.cached.clear();
    }

    /// Takes the unmarked blocks away, and says how many these were. The entry of a page outside the image that has lost
    /// its last block is cached.
    pub fn sweep(&mut self) -> Result<usize, AllocError> {
        self.cache_emptied()?;
        let before = self.blocks.len();
        self.blocks.retain(|b| b.mark.is_some());
        Ok(before.saturating_sub(self.blocks.len()))
    }

    // Caches the entries of the pages outside the image in which no marked block starts.
    fn cache_emptied(&mut self) -> Result<(), AllocError> {
        for i in 0..self.blocks.len() {
            let Some(block) = self.blocks.get(i) else {
                break;
            };
            let page = page_of(block.addr);
            let kept = self.is_image_page(page) || self.has_marked(page);
            if !kept && times_in(&self.cached, page) == 0 {
                self.cached.push(page)?;
            }
        }
        Ok(())
    }

    // Whether a marked block starts in a page.
    fn has_marked(&self, page: u64) -> bool {
        for b in &self.blocks {
            if page_of(b.addr) == page && b.mark.is_some() {
                return true;
            }
        }
        false
    }

    /// Whether the entries of these pages are cached, each once.
    pub fn has_cached(&self, cached: &[u64]) -> bool {
        cached.len() == self.cached.len() && is_part_of(cached, &self.cached)
    }

    /// Whether these may be the pages of the cached entries after a block is made in a page: the same ones where it
    /// shares the page, else one fewer, where there is one. They are from now on.
    pub fn take_cached(&mut self, cached: Vec<u64>, page: u64, shares: bool) -> bool {
        let left = self.cached.len().saturating_sub(if shares { 0 } else { 1 });
        let fits = cached.len() == left && is_part_of(&cached, &self.cached);
        let apart = times_in(&cached, page) == 0;
        self.cached = cached;
        fits && apart
    }

    /// The first marked block above an address.
    pub fn next_mark(&self, after: u64) -> Option<(u64, u32, u32)> {
        for b in &self.blocks {
            if b.addr <= after {
                continue;
            }
            if let Some((walk, count)) = b.mark {
                return Some((b.addr, walk, count));
            }
        }
        None
    }

    /// The first block above an address that is left to a pass.
    pub fn next_pending(&self, after: u64) -> Option<(u64, u32, u32)> {
        for b in &self.blocks {
            if b.addr > after && b.pending {
                let (walk, count) = b.mark?;
                return Some((b.addr, walk, count));
            }
        }
        None
    }

    /// Where so many pages go that would like to start at a page; where there is no room, the length of the longest run.
    pub fn fit(&self, need: u64, preferred: u64) -> Result<u64, u64> {
        if self.are_free_pages(preferred, need) {
            return Ok(preferred);
        }
        match self.lowest_run(need) {
            Some(page) => Ok(page),
            None => Err(self.longest_run()),
        }
    }

    // How many pages the longest run of free pages has.
    fn longest_run(&self) -> u64 {
        let mut longest = 0u64;
        let mut run = 0u64;
        for page in 0..self.pages {
            run = if self.is_free_page(page) {
                run.saturating_add(1)
            } else {
                0
            };
            longest = longest.max(run);
        }
        longest
    }

    /// The blocks are those of the runs of an image from now on.
    pub fn take_image(&mut self, page: u64, runs: &[Run]) -> Result<(), AllocError> {
        self.blocks.clear();
        self.cached.clear();
        self.image_first = page;
        let mut next = page;
        for run in runs {
            let first = address_of(next);
            for k in 0..run.count as u64 {
                self.add(
                    first.saturating_add(k.saturating_mul(run.size as u64)),
                    run.size as u64,
                )?;
            }
            let bytes = run.size as u64 * run.count as u64;
            next = next.saturating_add(pages_for(bytes));
        }
        self.image_count = next.saturating_sub(page);
        Ok(())
    }

    /// Whether these are the entries of all sizes, of which each list has those of one size: each page or larger block
    /// outside the image stands once, with its free places, and pages with a free place stand first.
    pub fn has_entries(&self, alloc: Global, lists: &[Vec<PageEntry>]) -> Result<bool, AllocError> {
        let mut uses = self.page_uses(alloc)?;
        for (list, size) in lists.iter().zip(SIZES.iter()) {
            if !fits(&mut uses, list, *size as u64) {
                return Ok(false);
            }
        }
        Ok(lists.len() == SIZES.len() && uses.iter().all(|page| page.blocks == 0))
    }

    // How each page is used by blocks outside the image.
    fn page_uses(&self, alloc: Global) -> Result<Vec<PageUse>, AllocError> {
        let mut uses = Vec::new(alloc);
        for _ in 0..self.pages {
            uses.push(PageUse { size: 0, blocks: 0 })?;
        }
        for block in &self.blocks {
            let page = page_of(block.addr);
            if self.is_image_page(page) {
                continue;
            }
            if let Some(page) = uses.get_mut(page as usize) {
                page.size = block.size;
                page.blocks = page.blocks.saturating_add(1);
            }
        }
        Ok(uses)
    }
}

// Whether the entries of a list are each of a page that is used for this size; these pages are taken out of the uses.
fn fits(uses: &mut [PageUse], list: &[PageEntry], size: u64) -> bool {
    let mut full = false;
    for entry in list {
        let Some(page) = uses.get_mut(entry.page as usize) else {
            return false;
        };
        let places = PAGE_BYTES.checked_div(size).unwrap_or(0).max(1);
        let free = places.saturating_sub(page.blocks);
        let same = page.blocks > 0 && page.size == size && entry.size as u64 == size;
        if !same || entry.free as u64 != free || (full && free > 0) {
            return false;
        }
        full = free == 0;
        page.blocks = 0;
    }
    true
}
