//! How many marked blocks there are of each size.
ghost use Rattle.std.specs.Prelude.{◌≡◌, ◌+◌, ◌*◌, ◌^◌, ◌≤◌, ◌++◌, [], List, Contains, length};
ghost use Rattle.gt_pages.specs.Ledger.{Block, sizes};
ghost use Rattle.gt_pages.specs.Changes.{IsRunOf};
ghost use Rattle.gt_pages.specs.Counts.{AreTotals, bytes_of};

use crate::sizes::list_of;

/// How many marked blocks there are of each size in the order of the sizes, how many there are, and their bytes.
#[derive(Clone, Copy, Drop)]
pub struct MarkedTotals {
    pub counts: [u32; 29],
    pub blocks: u32,
    pub bytes: u64,
}

impl MarkedTotals {
    /// There are no blocks.
    pub(crate) fn none() -> MarkedTotals
        ensures { AreTotals result [] }
    {
        MarkedTotals {
            counts: [0; 29],
            blocks: 0,
            bytes: 0,
        }
    }

    /// There are so many more blocks of this size.
    pub(crate) fn add(&mut self, size: u32, count: u32)
        requires listed { Contains sizes size }
        requires room { (blocks : List Block) × AreTotals self.old blocks × (length blocks + count ≤ 2 ^ 26) × (bytes_of blocks + size * count ≤ 2 ^ 26) }
        ensures added { (blocks run : List Block) → IsRunOf size count run → AreTotals self.old blocks → AreTotals self.new (blocks ++ run) }
    {
        let place = list_of(size) as usize;
        self.counts[place] += count;
        self.blocks += count;
        self.bytes += size as u64 * count as u64;
    }
}
