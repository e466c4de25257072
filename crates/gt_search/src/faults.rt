/// An item or a bracket that the text does not close, at its first token; of `extern "C" {` and `namespace NAME {` at the `{`.
pub const UNCLOSED: u8 = 7;

/// A token that may not stand at its place, or a closing bracket that does not match.
pub const UNEXPECTED: u8 = 8;

/// What this reader leaves out: a marked `class` or `template`, a base class, an access label, a member function, a type that
/// is defined inside a field, or a `hash_map` that is no cache.
pub const UNSUPPORTED: u8 = 9;

/// A marker in an item that may have none there.
pub const BAD_MARKER_PLACE: u8 = 10;
