// The blocks that pointers may name.
ghost use Rattle.std.specs.Prelude.{◌≡◌};
ghost use Rattle.value_notation.specs.Blocks.{chars_at};

use gt_types::TypeId;
use gt_value::{BlockKind, BlockNames, BlockOf};

/// The blocks of the table, at their addresses.
pub struct TableBlocks;

impl BlockNames for TableBlocks {
    ghost use Rattle.value_notation.specs.Blocks.{blocks as blocks_of_table};
    ghost use Rattle.value_notation.specs.Addresses.{addresses as addresses_of_table};

    ghost blocks = { λ _. blocks_of_table };

    ghost addresses = { λ _. addresses_of_table };

    fn block(&self, addr: u64) -> Option<BlockOf> {
        match addr {
            256 => Some(block(BlockKind::Nodes(TypeId(0)), 1)),
            512 => Some(block(BlockKind::Nodes(TypeId(0)), 3)),
            768 => Some(block(BlockKind::Chars, 3)),
            1024 => Some(block(BlockKind::Chars, 4)),
            1280 => Some(block(BlockKind::Raw, 16)),
            1536 => Some(block(BlockKind::Pointers(TypeId(0)), 2)),
            1792 => Some(block(BlockKind::Nodes(TypeId(1)), 1)),
            _ => None,
        }
    }

    fn byte(&self, addr: u64, i: u32) -> u8 {
        match chars(addr).get(i as usize) {
            Some(byte) => *byte,
            None => 0,
        }
    }
}

fn block(kind: BlockKind, count: u32) -> BlockOf
    ensures { result ≡ record { kind = kind; count = count } }
{
    BlockOf { kind, count }
}

// The characters of the block at an address.
fn chars(addr: u64) -> &'static [u8]
    ensures { result.now ≡ chars_at addr }
{
    match addr {
        768 => b"ab\0",
        1024 => b"a\0b\0",
        _ => b"",
    }
}
