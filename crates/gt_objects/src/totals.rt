// How many blocks there are of each size.
ghost use Rattle.std.specs.Prelude.{◌≡◌, ◌<◌, [], Contains, List, Some, slice_get};
ghost use Rattle.gt_pages.specs.Ledger.{Block, sizes};
ghost use Rattle.gt_pages.specs.Counts.{AreTotals as AreMarkedTotals};
ghost use Rattle.gt_graph.specs.Changes.{Inserts};
ghost use Rattle.gt_objects.specs.Totals.{AreFew, AreTotals, bytes_of, count_of};

use gt_pages::MarkedTotals;

/// How many blocks there are of each size in the order of the sizes, how many there are, and their bytes.
#[derive(Drop)]
pub(crate) struct Totals {
    counts: [u32; 29],
    blocks: u32,
    bytes: u64,
}

impl Totals {
    /// There are no blocks.
    pub(crate) fn none() -> Totals
        ensures { AreTotals result [] }
    {
        Totals {
            counts: [0; 29],
            blocks: 0,
            bytes: 0,
        }
    }

    /// The totals of marked blocks.
    pub(crate) fn of_marks(marked: MarkedTotals) -> Totals
        ensures { (blocks : List Block) → AreMarkedTotals marked blocks → AreTotals result blocks }
    {
        let counts = marked.counts;
        Totals {
            counts,
            blocks: marked.blocks,
            bytes: marked.bytes,
        }
    }

    /// There is one more block of this size.
    pub(crate) fn add(&mut self, size: u32)
        requires listed { Contains sizes size }
        requires room { (blocks : List Block) × AreTotals self.old blocks × AreFew blocks }
        ensures added { (b : Block) (blocks others : List Block) → b.size ≡ size → Inserts b blocks others → AreTotals self.old blocks → AreTotals self.new others }
    {
        let place = place_of(size) as usize;
        self.counts[place] += 1;
        self.blocks += 1;
        self.bytes += size as u64;
    }

    /// How many blocks have this size.
    pub(crate) fn count(&self, size: u32) -> u32
        requires listed { Contains sizes size }
        ensures count { (blocks : List Block) → AreTotals self.now blocks → result ≡ count_of size blocks }
    {
        self.counts[place_of(size) as usize]
    }

    /// How many blocks there are.
    pub(crate) fn len(&self) -> u32
        ensures { result ≡ self.now.blocks }
    {
        self.blocks
    }

    /// The bytes of all blocks.
    pub(crate) fn bytes(&self) -> u64
        ensures { result ≡ self.now.bytes }
    {
        self.bytes
    }
}

// The place of a listed size in their order.
fn place_of(size: u32) -> u32
    requires { Contains sizes size }
    ensures number { slice_get sizes result ≡ Some size }
    ensures below { result < 29 }
{
    if size < 16 {
        return 0;
    }
    if size <= 256 {
        return size / 16;
    }
    size.trailing_zeros() + 8
}
