use gt_types::List;

/// What a token is: an identifier (Unicode Standard Annex 31, and `_`), a preprocessing number (C11, 6.4.8), a string
/// literal or a character literal with its quotes, or any other character, which is a token by itself. A prefix of a
/// literal is an identifier of its own.
#[derive(Clone, Copy, Debug, PartialEq, Eq)]
pub enum Kind {
    Ident,
    Number,
    Quoted,
    CharLit,
    Punct,
}

/// A token: the bytes of the text from `start` up to `end`.
#[derive(Clone, Copy, Debug, PartialEq, Eq)]
pub struct Token {
    pub kind: Kind,
    pub start: u32,
    pub end: u32,
}

/// A constant of a `#define`: the bytes of its name from `start` up to `end`, and its value.
#[derive(Clone, Copy, Debug, PartialEq, Eq)]
pub struct Define {
    pub start: u32,
    pub end: u32,
    pub value: i64,
}

/// The tokens of a text and its constants, each in the order of the text.
#[derive(Debug, Drop)]
pub struct Lexed {
    pub tokens: List<Token>,
    pub defines: List<Define>,
}
