//! The table of pages: to which entry each page leads.
ghost use Rattle.std.specs.Prelude.{◌≡◌, ℕ, ◌+◌, ◌<◌, ◌≤◌, length, replicate, slice_set, IfOk, None, Some};
ghost use Rattle.gt_pages.specs.Tables.{page_at, Leads};

use std::alloc::{AllocError, Global};
use std::marker::Model;

/// For each page the first page of the entry that it leads to, or `None`.
#[derive(Drop)]
pub(crate) struct PageTable {
    firsts: Vec<Option<u32>>,
}

impl Model for PageTable {
    ghost use Rattle.std.specs.Prelude.{List, Option, ℕ};

    ghost Value = { List (Option ℕ) };

    ghost view = { λ t. t.firsts.items };
}

impl PageTable {
    /// A table of so many pages, of which none leads anywhere.
    pub(crate) fn new(alloc: Global, pages: u32) -> Result<PageTable, AllocError>
        ensures { IfOk result (λ t. t ≡ replicate pages None) }
    {
        Ok(PageTable {
            firsts: vec![in alloc; None; pages as usize]?,
        })
    }

    /// Where a page leads.
    #[inline(always)]
    pub(crate) fn get(&self, page: usize) -> Option<u32>
        requires { page < length self.now }
        ensures { result ≡ page_at self.now page }
    {
        self.firsts[page]
    }

    /// From now on so many pages lead to an entry.
    pub(crate) fn set(&mut self, first: u32, count: u32, entry: u32)
        requires { first + count ≤ length self.old }
        ensures { Leads self.old first count (Some entry) self.new }
    {
        self.write_all(first, count, Some(entry));
    }

    /// From now on so many pages lead nowhere.
    pub(crate) fn clear(&mut self, first: u32, count: u32)
        requires { first + count ≤ length self.old }
        ensures { Leads self.old first count None self.new }
    {
        self.write_all(first, count, None);
    }

    // From now on so many pages lead to an entry, or nowhere.
    fn write_all(&mut self, first: u32, count: u32, entry: Option<u32>)
        requires { first + count ≤ length self.old }
        ensures { Leads self.old first count entry self.new }
    {
        for i in 0..count {
            self.write(first as usize + i as usize, entry);
        }
    }

    // From now on a page leads to an entry, or nowhere.
    fn write(&mut self, page: usize, entry: Option<u32>)
        requires { page < length self.old }
        ensures { self.new ≡ slice_set self.old page entry }
    {
        self.firsts[page] = entry;
    }
}
