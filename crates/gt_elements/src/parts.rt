// What the parts of a heap are.
ghost use Rattle.std.specs.Prelude.{◌≡◌};

use gt_objects::Known;
use gt_value::BlockKind;

/// What a path leads into: the static record, or the object at an address.
#[derive(Clone, Copy, Debug, PartialEq, Eq)]
pub enum Owner {
    Statics,
    Object(u64),
}

/// An element of a block: what the block holds, the element's address, and for how many elements there is room at its end.
#[derive(Clone, Copy, Debug, PartialEq, Eq)]
pub struct Element {
    pub kind: BlockKind,
    pub addr: u64,
    pub capacity: u32,
}

impl Element {
    // The element at an address, of an object of which this is known.
    pub(crate) fn of(known: Known, addr: u64) -> Element
        ensures { result ≡ record { kind = known.kind; addr = addr; capacity = known.capacity } }
    {
        Element {
            kind: known.kind,
            addr,
            capacity: known.capacity,
        }
    }
}
