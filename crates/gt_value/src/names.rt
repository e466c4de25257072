// What is known of blocks by their addresses.
ghost use Rattle.gt_tree.specs.Blocks.{Blocks};
ghost use Rattle.gt_tree.specs.FixedLaws.{AreAddresses};
ghost use Rattle.gt_value.specs.Bytes.{itself};
ghost use Rattle.gt_value.specs.Names.{IsTold, HasChar, IsChar};

use gt_types::TypeId;

/// What a block holds.
#[derive(Clone, Copy, Debug, PartialEq, Eq)]
pub enum BlockKind {
    /// Structures of a type.
    Nodes(TypeId),
    /// Plain pointers to structures of a type.
    Pointers(TypeId),
    /// String pointers.
    Strings,
    /// The characters of a string, and a zero at their end.
    Chars,
    /// Bytes that are never scanned.
    Raw,
}

/// What a block holds, and how many elements.
#[derive(Clone, Copy, Debug, PartialEq, Eq)]
pub struct BlockOf {
    pub kind: BlockKind,
    pub count: u32,
}

/// The blocks that pointers name, by their addresses.
pub trait BlockNames {
    /// The blocks under their addresses.
    ghost blocks: { Self → Blocks };

    /// What the block at an address holds, and how many elements. None where no block starts there.
    fn block(&self, addr: u64) -> Option<BlockOf>
        ensures told { IsTold (blocks self.now) addr result };

    /// A byte of a block of characters, counted from 0.
    fn byte(&self, addr: u64, i: u32) -> u8
        requires there { HasChar (blocks self.now) addr i }
        ensures byte { IsChar (blocks self.now) addr i result };

    /// No block lies at null, and each address has 64 bits.
    ghost addresses: { (s : Self) → AreAddresses (blocks s) itself };
}
