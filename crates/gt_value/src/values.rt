// The values.
use gt_types::Bytes;
use sqlite_items::Boxed;
use std::alloc::{AllocError, AllocFailed};

/// A value of a type of the program. Its meaning for contracts is a tree.
#[derive(Drop)]
pub enum Value {
    /// A number, or the bits of a bit-field.
    Num(i128),
    /// A pointer that names nothing.
    Null,
    /// A pointer to the block at this address.
    To(u64),
    /// Bytes that are never scanned.
    Raw(Bytes),
    /// The fields of a struct, in order.
    Rec(Vec<Value>),
    /// What is there in a union: the place of its active member and a value of it; or without one its common structure, and an
    /// empty `Rec` where there is none.
    Alt {
        member: Option<u32>,
        value: Boxed<Value>,
    },
    /// The elements of an array or of a block.
    Row(Vec<Value>),
}

/// Why there is no value: it would not fit its type, or memory is wanting.
#[derive(Clone, Copy, Debug, PartialEq, Eq)]
pub enum ValueFail {
    Shape,
    Memory,
}

impl From<AllocError> for ValueFail {
    ghost use Rattle.std.specs.Prelude.{◌≡◌};
    ghost use Rattle.gt_value.specs.declared.values.ValueFail.TheVariants.{Memory};

    ghost from_gives = { λ _ fail. fail ≡ Memory };

    fn from(_: AllocError) -> ValueFail {
        ValueFail::Memory
    }
}

impl<T: Drop> From<AllocFailed<T>> for ValueFail {
    ghost use Rattle.std.specs.Prelude.{◌≡◌};
    ghost use Rattle.gt_value.specs.declared.values.ValueFail.TheVariants.{Memory};

    ghost from_gives = { λ _ fail. fail ≡ Memory };

    fn from(_: AllocFailed<T>) -> ValueFail {
        ValueFail::Memory
    }
}
