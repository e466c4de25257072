//! How the pages keep their entries: opened, filled, closed and found.
ghost use Rattle.std.specs.Prelude.{◌≡◌, ◌≢◌, ℕ, ◌+◌, ◌*◌, ◌/◌, ◌^◌, ◌<◌, ◌≤◌, ◌⊎◌, ◌↔◌, true, false, length, replicate, IfOk, IsTrue};
ghost use Rattle.gt_bits.specs.Sets.{has};
ghost use Rattle.gt_pages.specs.Ledger as ledger;
ghost use Rattle.gt_pages.specs.Contents as contents;
ghost use Rattle.gt_pages.specs.Parts.{empty_entry, entry_pages};

use crate::store::Entry;
use gt_bits::{insert, remove};
use gt_space::{HEAP_START, PAGE_BYTES};
use std::alloc::{AllocError, Global};

/// A place of an entry: the first page of the entry, and the number of the place.
#[derive(Clone, Copy)]
pub(crate) struct EntryPlace {
    pub(crate) page: u32,
    pub(crate) place: u32,
}

/// How many pages so many bytes need.
pub(crate) fn pages_of(bytes: u64) -> u32
    requires { bytes < 2 ^ 40 }
    ensures { result ≡ ledger.pages_of bytes }
{
    ((bytes + (PAGE_BYTES - 1)) / PAGE_BYTES) as u32
}

/// How many places a page has for blocks of a size, or the pages of a block that is larger than one.
pub(crate) fn places_of(size: u32) -> u32
    requires { 0 < size }
    ensures { result ≡ contents.places_of size }
{
    if size as u64 <= PAGE_BYTES {
        PAGE_BYTES as u32 / size
    } else {
        1
    }
}

/// The address of a page.
pub(crate) fn page_address(page: u32) -> u64
    ensures { result ≡ ledger.page_address page }
{
    HEAP_START + PAGE_BYTES * page as u64
}

/// The address of a place of an entry.
pub(crate) fn place_address(page: u32, size: u32, place: u32) -> u64
    requires { size * place < 2 ^ 40 }
    ensures { result ≡ ledger.page_address page + size * place }
{
    page_address(page) + size as u64 * place as u64
}

/// So many entries without places.
pub(crate) fn empty_entries(alloc: Global, count: u32) -> Result<Vec<Entry>, AllocError>
    ensures { IfOk result (λ entries. entries.items ≡ replicate count empty_entry) }
{
    let mut entries = Vec::with_capacity(alloc, count as usize)?;
    for _i in 0..count {
        entries.push(Entry::empty(alloc))?;
    }
    Ok(entries)
}

/// A set of no pages, with room for so many.
fn no_pages(alloc: Global, count: u32) -> Result<Vec<u64>, AllocError>
    ensures len { IfOk result (λ pages. length pages.items ≡ (count + 63) / 64) }
    ensures none { IfOk result (λ pages. (i : ℕ) → has pages.items i ≡ false) }
{
    Ok(vec![in alloc; 0; (count as usize + 63) / 64]?)
}

/// The set of so many pages from 0.
pub(crate) fn first_pages(alloc: Global, count: u32) -> Result<Vec<u64>, AllocError>
    ensures len { IfOk result (λ pages. length pages.items ≡ (count + 63) / 64) }
    ensures pages { IfOk result (λ pages. (i : ℕ) → IsTrue (has pages.items i) ↔ (i < count)) }
{
    let mut pages = no_pages(alloc, count)?;
    insert_range(&mut pages, 0, count);
    Ok(pages)
}

/// Puts so many numbers from `first` on into a set.
pub(crate) fn insert_range(words: &mut [u64], first: u32, count: u32)
    requires within { first + count ≤ 64 * length words.old }
    requires few { first + count < 2 ^ 32 }
    ensures len { length words.new ≡ length words.old }
    ensures range { (i : ℕ) → first ≤ i → i < first + count → has words.new i ≡ true }
    ensures others { (i : ℕ) → (i < first) ⊎ (first + count ≤ i) → has words.new i ≡ has words.old i }
{
    for i in first..first + count {
        insert(words, i);
    }
}

/// Takes so many numbers from `first` on out of a set.
pub(crate) fn remove_range(words: &mut [u64], first: u32, count: u32)
    requires within { first + count ≤ 64 * length words.old }
    requires few { first + count < 2 ^ 32 }
    ensures len { length words.new ≡ length words.old }
    ensures range { (i : ℕ) → first ≤ i → i < first + count → has words.new i ≡ false }
    ensures others { (i : ℕ) → (i < first) ⊎ (first + count ≤ i) → has words.new i ≡ has words.old i }
{
    for i in first..first + count {
        remove(words, i);
    }
}
