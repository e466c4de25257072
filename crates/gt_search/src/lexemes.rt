// What each token may be in an item.
ghost use Rattle.std.specs.Prelude.{◌≡◌, IfOk};
ghost use Rattle.gt_lex.specs.Texts.{IsLexed};
ghost use Rattle.gt_search.specs.Lexemes.{identifier_lexeme, type_lexeme, mark_lexeme, lexeme_of, lexemes_of};

use crate::lexeme::{Bracket, Lexeme, TokenText, TypeWord};
use gt_items::Keyword;
use gt_lex::{Kind, Lexed, Token};
use gt_types::Word;
use std::alloc::{AllocError, Global};
use std::rc::RcStr;
use std::str;

/// The tokens of a text by what they may be.
pub fn read_lexemes(alloc: Global, text: &[u8], lexed: &Lexed) -> Result<Vec<Lexeme>, AllocError>
    requires { IsLexed text.now lexed.now.tokens lexed.now.defines }
    ensures { IfOk result (λ made. made.items ≡ lexemes_of text.now lexed.now.tokens) }
{
    let Ok(text) = str::from_utf8(text) else {
        unreachable!()
    };
    let shared = RcStr::from_str(alloc, text)?;
    let mut made = Vec::new(alloc);
    for token in lexed.tokens.as_slice() {
        let Token { kind, start, end } = *token;
        let Some(word) = Word::part(shared.clone()?, start, end) else {
            unreachable!()
        };
        made.push(lexeme(kind, TokenText { word, start, end }))?;
    }
    Ok(made)
}

// A token of a kind.
fn lexeme(kind: Kind, spot: TokenText) -> Lexeme
    ensures { result ≡ lexeme_of kind spot }
{
    match kind {
        Kind::Ident => identifier_lexeme(spot),
        Kind::Quoted => Lexeme::Quoted(spot),
        Kind::Number | Kind::CharLit => Lexeme::Other(spot),
        Kind::Punct => mark_lexeme(spot),
    }
}

// An identifier is one of the words with a meaning of their own, or else a name.
#[tactic(auto, unfolding(crate::specs::Lexemes::identifier_lexeme))]
fn identifier_lexeme(spot: TokenText) -> Lexeme
    ensures { result ≡ identifier_lexeme spot }
{
    let word = &spot.word;
    if word.is("GTY") {
        Lexeme::Gty(spot)
    } else if word.is("struct") {
        Lexeme::Tag(Keyword::Struct, spot)
    } else if word.is("union") {
        Lexeme::Tag(Keyword::Union, spot)
    } else if word.is("enum") {
        Lexeme::Tag(Keyword::Enum, spot)
    } else if word.is("typedef") {
        Lexeme::Typedef(spot)
    } else if word.is("static") {
        Lexeme::Static(spot)
    } else if word.is("extern") {
        Lexeme::Extern(spot)
    } else if word.is("const") || word.is("volatile") {
        Lexeme::Qualifier(spot)
    } else if word.is("class") || word.is("template") || word.is("namespace") {
        Lexeme::Reserved(spot)
    } else {
        type_lexeme(spot)
    }
}

// Any other identifier is a word of a combination, or else a name.
#[tactic(auto, unfolding(crate::specs::Lexemes::type_lexeme))]
fn type_lexeme(spot: TokenText) -> Lexeme
    ensures { result ≡ type_lexeme spot }
{
    let word = &spot.word;
    if word.is("unsigned") {
        Lexeme::Type(TypeWord::Unsigned, spot)
    } else if word.is("signed") {
        Lexeme::Type(TypeWord::Signed, spot)
    } else if word.is("short") {
        Lexeme::Type(TypeWord::Short, spot)
    } else if word.is("long") {
        Lexeme::Type(TypeWord::Long, spot)
    } else if word.is("int") {
        Lexeme::Type(TypeWord::Int, spot)
    } else if word.is("char") {
        Lexeme::Type(TypeWord::Char, spot)
    } else if word.is("bool") || word.is("_Bool") {
        Lexeme::Type(TypeWord::Bool, spot)
    } else if word.is("float") {
        Lexeme::Type(TypeWord::Float, spot)
    } else if word.is("double") {
        Lexeme::Type(TypeWord::Double, spot)
    } else if word.is("void") {
        Lexeme::Type(TypeWord::Void, spot)
    } else {
        Lexeme::Name(spot)
    }
}

// A character that is a token by itself.
#[tactic(auto, unfolding(crate::specs::Lexemes::mark_lexeme))]
fn mark_lexeme(spot: TokenText) -> Lexeme
    ensures { result ≡ mark_lexeme spot }
{
    let word = &spot.word;
    if word.is("(") {
        Lexeme::Open(Bracket::Round, spot)
    } else if word.is(")") {
        Lexeme::Close(Bracket::Round, spot)
    } else if word.is("[") {
        Lexeme::Open(Bracket::Square, spot)
    } else if word.is("]") {
        Lexeme::Close(Bracket::Square, spot)
    } else if word.is("{") {
        Lexeme::Open(Bracket::Brace, spot)
    } else if word.is("}") {
        Lexeme::Close(Bracket::Brace, spot)
    } else if word.is(";") {
        Lexeme::Semicolon(spot)
    } else if word.is(",") {
        Lexeme::Comma(spot)
    } else if word.is(":") {
        Lexeme::Colon(spot)
    } else if word.is("*") {
        Lexeme::Star(spot)
    } else if word.is("=") {
        Lexeme::Equals(spot)
    } else if word.is("<") {
        Lexeme::Less(spot)
    } else if word.is(">") {
        Lexeme::Greater(spot)
    } else {
        Lexeme::Other(spot)
    }
}
