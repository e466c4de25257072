// Types before names are looked up.
use gt_items::Keyword;
use gt_types::{Copied, Scalar, Word};
use std::alloc::{AllocError, Global};

/// A type as it is spelled, before names are looked up. The names of the fixed table, such as `int8_t`, are numbers.
#[derive(Debug, Drop)]
pub enum Spelled {
    /// A number. A pointer to one that is of `char` is a string.
    Number { scalar: Scalar, is_char: bool },
    /// `float`.
    Float,
    /// `double`.
    Double,
    /// `void`, `long double`, or what a typedef does not tell.
    Sizeless,
    /// A keyword and a tag.
    Tagged { keyword: Keyword, tag: Word },
    /// A name: of a typedef, or else a tag.
    Named(Word),
}

impl Copied for Spelled {
    fn copy(&self, alloc: Global) -> Result<Spelled, AllocError> {
        match self {
            Spelled::Number { scalar, is_char } => Ok(Spelled::Number {
                scalar: *scalar,
                is_char: *is_char,
            }),
            Spelled::Float => Ok(Spelled::Float),
            Spelled::Double => Ok(Spelled::Double),
            Spelled::Sizeless => Ok(Spelled::Sizeless),
            Spelled::Tagged { keyword, tag } => Ok(Spelled::Tagged {
                keyword: *keyword,
                tag: tag.copy(alloc)?,
            }),
            Spelled::Named(name) => Ok(Spelled::Named(name.copy(alloc)?)),
        }
    }
}
