use crate::types::Spelled;
use gt_items::{Name, Stars};

/// A name that a file declares: the place of the file from 1, the name, and what it is declared as.
#[derive(Debug, Drop)]
pub struct Declaration {
    pub file: u32,
    pub name: Name,
    pub what: What,
}

/// What a name is declared as. Structures and enums share the space of tags; the others share another.
#[derive(Debug, Drop)]
pub enum What {
    /// A marked struct or union, by its place among those of all files.
    Structure { is_union: bool, id: usize },
    /// An enum: whether one of its constants is negative.
    Enum { is_signed: bool },
    /// A constant with its value.
    Constant(i64),
    /// A typedef of a type after stars.
    Typedef { ty: Spelled, stars: Stars },
    Root,
    Cache,
}
