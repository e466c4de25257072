use std::alloc::{AllocError, AllocFailed};
use std::fmt;

/// Why the lines of a row are no program.
#[derive(Debug, Drop)]
pub enum Refusal {
    Memory,
    TooShort,
    TooLong,
    TooDeep,
    UnknownWord,
    BadNumber,
    NoStructure,
}

impl fmt::Display for Refusal {
    fn fmt<W: fmt::Write>(&self, f: &mut fmt::Formatter<W>) -> fmt::Result {
        let text = match self {
            Refusal::Memory => "no memory",
            Refusal::TooShort => "a line that ends too early",
            Refusal::TooLong => "a line that goes on after its end",
            Refusal::TooDeep => "an expression or a type of too many parts in one another",
            Refusal::UnknownWord => "a word that is none of those that may stand at its place",
            Refusal::BadNumber => "a number that is none, or that does not fit",
            Refusal::NoStructure => "a field or a chain before the first structure",
        };
        f.write_str(text)
    }
}

impl From<AllocError> for Refusal {
    fn from(_error: AllocError) -> Refusal {
        Refusal::Memory
    }
}

impl<T: Drop> From<AllocFailed<T>> for Refusal {
    fn from(_error: AllocFailed<T>) -> Refusal {
        Refusal::Memory
    }
}
