/// The text is not UTF-8, at the first byte of its first ill-formed sequence.
pub const BAD_UTF8: u8 = 1;

/// A `/*` comment does not end, at its opening.
pub const OPEN_COMMENT: u8 = 2;

/// A string or character literal does not end on its line, at its opening quote.
pub const OPEN_STRING: u8 = 3;

/// A number begins with `0x` or `0X` and has no hexadecimal digit directly after it, at its first digit.
pub const BAD_NUMBER: u8 = 4;
