// Why a row has no outcome.
use gt_value::ValueFail;
use std::alloc::{AllocError, AllocFailed};

/// Why a row has no outcome.
#[derive(Clone, Copy, Debug, PartialEq, Eq)]
pub enum Stop {
    /// The row is not in the notation of the table.
    Malformed,
    /// There is no zero: a length says more than there is room for.
    NoZero,
    /// The value is larger than the space.
    TooLarge,
    /// A part of a value does not have the form of its type.
    Misshapen,
    /// The header has a fault.
    Fault,
    Memory,
}

impl Stop {
    pub fn text(self) -> &'static str {
        match self {
            Stop::Malformed => "not in the notation of the table",
            Stop::NoZero => "no zero",
            Stop::TooLarge => "larger than the space",
            Stop::Misshapen => "a value without the form of its type",
            Stop::Fault => "a header with a fault",
            Stop::Memory => "memory is wanting",
        }
    }
}

impl From<AllocError> for Stop {
    fn from(_: AllocError) -> Stop {
        Stop::Memory
    }
}

impl<T: Drop> From<AllocFailed<T>> for Stop {
    fn from(_: AllocFailed<T>) -> Stop {
        Stop::Memory
    }
}

impl From<ValueFail> for Stop {
    fn from(fail: ValueFail) -> Stop {
        match fail {
            ValueFail::Shape => Stop::NoZero,
            ValueFail::Memory => Stop::Memory,
        }
    }
}
