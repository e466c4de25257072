use gt_items::{Keyword, Name};
use gt_types::{Copied, Word};
use std::alloc::{AllocError, Global};

/// Where a token stands, and its characters.
#[derive(Debug, Drop)]
pub struct TokenText {
    pub word: Word,
    pub start: u32,
    pub end: u32,
}

/// A token by what it may be in an item. `Reserved` is `class`, `template` or `namespace`, and a `Qualifier` is `const` or
/// `volatile`.
#[derive(Debug, Drop)]
pub enum Lexeme {
    Name(TokenText),
    Type(TypeWord, TokenText),
    Tag(Keyword, TokenText),
    Gty(TokenText),
    Typedef(TokenText),
    Static(TokenText),
    Extern(TokenText),
    Qualifier(TokenText),
    Reserved(TokenText),
    Quoted(TokenText),
    Open(Bracket, TokenText),
    Close(Bracket, TokenText),
    Semicolon(TokenText),
    Comma(TokenText),
    Colon(TokenText),
    Star(TokenText),
    Equals(TokenText),
    Less(TokenText),
    Greater(TokenText),
    Other(TokenText),
}

/// A bracket.
#[derive(Clone, Copy, Debug, PartialEq, Eq)]
pub enum Bracket {
    Round,
    Square,
    Brace,
}

/// A word that a combination of type words may have.
#[derive(Clone, Copy, Debug, PartialEq, Eq)]
pub enum TypeWord {
    Unsigned,
    Signed,
    Short,
    Long,
    Int,
    Char,
    Bool,
    Float,
    Double,
    Void,
}

impl TokenText {
    ghost use Rattle.std.specs.Prelude.{◌≡◌, IfOk};
    ghost use Rattle.gt_search.specs.Lexemes.{name_of};

    /// The name that the token is.
    pub fn name(&self, alloc: Global) -> Result<Name, AllocError>
        ensures { IfOk result (λ name. name ≡ name_of self.now) }
    {
        Ok(Name {
            word: self.word.copy(alloc)?,
            at: self.start,
        })
    }
}

impl Lexeme {
    ghost use Rattle.std.specs.Prelude.{◌≡◌};
    ghost use Rattle.gt_search.specs.Lexemes.{spot_of, is_identifier};

    /// Where the token stands, and its characters.
    pub fn spot(&self) -> &TokenText
        ensures { result.now ≡ spot_of self.now }
    {
        match self {
            Lexeme::Name(spot)
            | Lexeme::Type(_, spot)
            | Lexeme::Tag(_, spot)
            | Lexeme::Gty(spot)
            | Lexeme::Typedef(spot)
            | Lexeme::Static(spot)
            | Lexeme::Extern(spot)
            | Lexeme::Qualifier(spot)
            | Lexeme::Reserved(spot)
            | Lexeme::Quoted(spot)
            | Lexeme::Open(_, spot)
            | Lexeme::Close(_, spot)
            | Lexeme::Semicolon(spot)
            | Lexeme::Comma(spot)
            | Lexeme::Colon(spot)
            | Lexeme::Star(spot)
            | Lexeme::Equals(spot)
            | Lexeme::Less(spot)
            | Lexeme::Greater(spot)
            | Lexeme::Other(spot) => spot,
        }
    }

    /// Whether the token is an identifier, with a meaning of its own or without.
    pub fn is_identifier(&self) -> bool
        ensures { result ≡ is_identifier self.now }
    {
        matches!(
            self,
            Lexeme::Name(_)
                | Lexeme::Type(..)
                | Lexeme::Tag(..)
                | Lexeme::Gty(_)
                | Lexeme::Typedef(_)
                | Lexeme::Static(_)
                | Lexeme::Extern(_)
                | Lexeme::Qualifier(_)
                | Lexeme::Reserved(_)
        )
    }
}
