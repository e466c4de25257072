// Leaves of values as plain data.
use std::alloc::{AllocError, AllocFailed};

/// What a leaf holds.
#[derive(Clone, Copy, Debug, PartialEq, Eq)]
pub enum Content {
    /// A number.
    Number(i128),
    /// A pointer: null, or the address of the block that it names.
    Pointer(Option<u64>),
}

/// A leaf: the bit at which it begins, its bits, and what it holds.
#[derive(Clone, Copy, Debug, PartialEq, Eq)]
pub struct Leaf {
    pub at: u64,
    pub width: u32,
    pub content: Content,
}

/// Why no leaves are found.
#[derive(Clone, Copy, Debug, PartialEq, Eq)]
pub enum LeafStop {
    /// No rule gives a value of this type leaves.
    NoLeaves,
    /// A place does not have a number of 64 bits, or a leaf has more than 64 bits.
    TooLarge,
    /// Out of memory.
    Memory,
}

impl From<AllocError> for LeafStop {
    fn from(_: AllocError) -> LeafStop {
        LeafStop::Memory
    }
}

impl<T: Drop> From<AllocFailed<T>> for LeafStop {
    fn from(_: AllocFailed<T>) -> LeafStop {
        LeafStop::Memory
    }
}
