//! The edges of a block, each of which is tested.
ghost use Rattle.std.specs.Prelude.{◌≡◌, IsTrue, IfSome};
ghost use Rattle.gt_walk.specs.Rows.{edges_of};
ghost use Rattle.gt_pages.specs.Slots.{StartsSome, mark_at};
ghost use Rattle.sample_heap.specs.Named.{AllName, HasMark, NamesMarked, Tests};

use gt_entries::Mark;
use gt_pages::Pages;
use gt_space::Space;
use gt_walk::{EdgeSink, Tables, visit};

// Tests whether each edge names a block that is marked in the one heap, by its walk and count, and starts in the other.
#[derive(Drop)]
struct EdgeTest<'a> {
    known: &'a Pages,
    pages: &'a Pages,
    holds: bool,
}

impl<'a> EdgeSink for EdgeTest<'a> {
    ghost takes = { λ t e. Unit {0} };

    ghost leaves = { Tests };

    fn edge(&mut self, _place: u64, target: u64, walk: u32, count: u32) {
        self.holds = self.holds && names(self.known, self.pages, target, walk, count);
    }
}

/// Whether a block starts at an address.
pub fn starts(pages: &Pages, addr: u64) -> bool
    ensures { IsTrue result → StartsSome pages.now.slots addr }
{
    match pages.owner(addr) {
        Some((start, _size)) => start == addr,
        None => false,
    }
}

/// The mark of the block that starts at an address, where one does and is marked.
pub fn mark_of(pages: &Pages, addr: u64) -> Option<Mark>
    ensures { IfSome result (HasMark pages.now.slots addr) }
{
    if starts(pages, addr) {
        pages.marked_as(addr)
    } else {
        None
    }
}

// Whether an edge to this target, of this walk and count, names a block.
fn names(known: &Pages, pages: &Pages, target: u64, walk: u32, count: u32) -> bool
    ensures { IsTrue result → NamesMarked known.now.slots pages.now.slots target walk count }
{
    match mark_of(known, target) {
        Some(mark) => mark.walk == walk && mark.count == count && starts(pages, target),
        None => false,
    }
}

/// Whether each edge that a walk gives on so many elements from an address on names a block.
pub fn are_named(
    tables: &Tables,
    space: &Space,
    known: &Pages,
    pages: &Pages,
    addr: u64,
    walk: u32,
    count: u32,
) -> bool
    ensures { IsTrue result → AllName known.now.slots pages.now.slots (edges_of tables.now walk count space.now addr) }
{
    let mut test = EdgeTest {
        known,
        pages,
        holds: true,
    };
    visit(tables, walk, count, space, addr, &mut test);
    test.holds
}
