//! The blocks that are marked and wait for their walk, as far as they have room.

use arrayvec::ArrayVec;

/// How many blocks the stack has room for.
pub const MOST_BLOCKS: usize = 64;

/// A block: its address, the walk of its elements, and how many there are.
#[derive(Clone, Copy, Debug, PartialEq, Eq)]
pub struct Block {
    pub addr: u64,
    pub walk: u32,
    pub count: u32,
}

impl Default for Block {
    fn default() -> Block {
        Block {
            addr: 0,
            walk: 0,
            count: 0,
        }
    }
}

/// The stack.
pub type Stack = ArrayVec<Block, MOST_BLOCKS>;
