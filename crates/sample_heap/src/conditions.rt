//! Whether blocks can be marked.
ghost use Rattle.std.specs.Prelude.{IsTrue};
ghost use Rattle.sample_heap.specs.Named.{AreKnown, AreNamed, HasMarkOf, IsReady};

use crate::edges::{are_named, mark_of};
use gt_pages::Pages;
use gt_space::Space;
use gt_walk::Tables;

// Whether each edge of the blocks that are marked in the one heap names a block that is, and starts in the other.
fn all_named(tables: &Tables, space: &Space, known: &Pages, pages: &Pages) -> bool
    ensures { IsTrue result → AreNamed tables.now space.now known.now.slots pages.now.slots }
{
    known.sound();
    let mut after = 0;
    for _ in 0..u64::MAX {
        match known.next_mark(after) {
            None => return true,
            Some((addr, walk, count)) => {
                if !are_named(tables, space, known, pages, addr, walk, count) {
                    return false;
                }
                after = addr;
            }
        }
    }
    false
}

// Whether each block that is marked in the one heap is in the other, with the same walk and count.
fn all_known(known: &Pages, pages: &Pages) -> bool
    ensures { IsTrue result → AreKnown known.now.slots pages.now.slots }
{
    pages.sound();
    let mut after = 0;
    for _ in 0..u64::MAX {
        match pages.next_mark(after) {
            None => return true,
            Some((addr, walk, count)) => {
                if !is_known(known, addr, walk, count) {
                    return false;
                }
                after = addr;
            }
        }
    }
    false
}

// Whether the block at an address has a mark of this walk and count.
fn is_known(known: &Pages, addr: u64, walk: u32, count: u32) -> bool
    ensures { IsTrue result → HasMarkOf known.now.slots addr walk count }
{
    match mark_of(known, addr) {
        Some(mark) => mark.walk == walk && mark.count == count,
        None => false,
    }
}

/// Whether the edges of all blocks name blocks, as those of the marked ones do.
pub fn is_ready(tables: &Tables, space: &Space, known: &Pages, pages: &Pages) -> bool
    ensures { IsTrue result → IsReady tables.now space.now known.now.slots pages.now.slots }
{
    if !all_known(known, pages) {
        return false;
    }
    if !all_named(tables, space, known, pages) {
        return false;
    }
    all_named(tables, space, pages, pages)
}
