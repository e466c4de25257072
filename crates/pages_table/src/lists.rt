//! The entries of the lists of pages.
use gt_pages::{CACHED, PageEntry, Pages};
use gt_space::MAX_PAGES;
use std::alloc::{AllocError, Global};

/// The entries of the list of a size, by its number, from the first one on; none where there is no such size.
pub fn entries(alloc: Global, pages: &Pages, i: u32) -> Result<Vec<PageEntry>, AllocError> {
    let mut entries = Vec::new(alloc);
    if i >= CACHED {
        return Ok(entries);
    }
    let mut node = pages.lists().first(i);
    for _ in 0..MAX_PAGES {
        let Some(at) = node else {
            break;
        };
        entries.push(pages.entry(at))?;
        node = pages.lists().next(at);
    }
    Ok(entries)
}

/// The pages of the cached entries, from the first one on.
pub fn cached_pages(alloc: Global, pages: &Pages) -> Result<Vec<u64>, AllocError> {
    let mut cached = Vec::new(alloc);
    let mut node = pages.lists().first(CACHED);
    for _ in 0..MAX_PAGES {
        let Some(at) = node else {
            break;
        };
        cached.push(at as u64)?;
        node = pages.lists().next(at);
    }
    Ok(cached)
}
