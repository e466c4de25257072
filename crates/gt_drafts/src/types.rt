use gt_items::{Keyword, Stars};
use gt_types::{List, Scalar, Word};

/// What a type is after its stars, with typedefs followed.
#[derive(Debug, Drop)]
pub enum BaseType {
    /// A number. A pointer to one that is of `char` is a string.
    Number { scalar: Scalar, is_char: bool },
    /// `float`, of 4 bytes.
    Float,
    /// `double`, of 8 bytes.
    Double,
    /// `void`, `long double` or an opaque name: it has no size.
    Sizeless,
    /// A marked structure, by its place among those of all files.
    Structure(usize),
    /// A tag that names nothing with this keyword.
    Undefined { keyword: Keyword, tag: Word },
    /// A name that is neither a typedef's nor a tag.
    Unknown,
}

/// A type with its typedefs followed: a base and the stars after it.
#[derive(Debug, Drop)]
pub struct Resolved {
    pub base: BaseType,
    pub stars: Stars,
}

/// What the text of a bound or of a bit count comes to.
#[derive(Clone, Copy, Debug, PartialEq, Eq)]
pub enum Amount {
    /// It is not read: the outermost bound of what has `length`.
    Unread,
    /// It is no expression, or one with a path.
    NoExpression,
    /// It names a constant that is not defined.
    Undefined,
    /// It has no value: its reckoning leaves 64 bits.
    NoValue,
    Is(i64),
}

/// The type of a field or a root.
#[derive(Debug, Drop)]
pub struct DeclaredType {
    pub resolved: Resolved,
    /// The bounds of an array, the outermost first.
    pub bounds: List<Amount>,
    /// The bits of a bit-field.
    pub bits: Option<Amount>,
    /// Whether it is a pointer to a function that returns the type.
    pub is_function: bool,
}
