// What begins at a place.
ghost use Rattle.std.specs.Prelude.{◌≡◌, ◌∷◌};
ghost use Rattle.std.specs.Str.{chars};
ghost use Rattle.std.specs.Char.{is_ascii_digit, is_ascii_hexdigit};
ghost use Rattle.gt_text.specs.WhiteSpace.{is_white_space_of};
ghost use Rattle.gt_lex.specs.Characters.{first_passes};
ghost use Rattle.gt_lex.specs.Starts.{plain_start, is_bare_prefix, text_start, is_line_break, directive_start};

use crate::text::{first, first_is};
use crate::tokens::Kind;
use gt_text::{is_white_space, starts_identifier};

/// What begins at a place: the end of the text or of the directive, a white space character, a block or a line comment,
/// a backslash before a line's end in a directive, a directive, a number that cannot be one, or a token.
#[derive(Clone, Copy, Debug, PartialEq, Eq)]
pub enum Start {
    End,
    Space,
    Block,
    Line,
    Continuation,
    Directive,
    BadNumber,
    Token(Kind),
}

fn is_space(c: char) -> bool
    ensures { result ≡ is_white_space_of c }
{
    c.is_ascii() && is_white_space(c as u8)
}

fn begins_with_digit(text: &str) -> bool
    ensures { result ≡ first_passes is_ascii_digit (chars text.now) }
{
    match first(text) {
        Some((c, _)) => c.is_ascii_digit(),
        None => false,
    }
}

fn begins_with_hex_digit(text: &str) -> bool
    ensures { result ≡ first_passes is_ascii_hexdigit (chars text.now) }
{
    match first(text) {
        Some((c, _)) => c.is_ascii_hexdigit(),
        None => false,
    }
}

// What begins with a character in a text and in a directive alike.
fn plain_start(c: char, after: &str) -> Start
    ensures { result ≡ plain_start (c ∷ chars after.now) }
{
    if is_space(c) {
        Start::Space
    } else if c == '/' && first_is('*', after) {
        Start::Block
    } else if c == '/' && first_is('/', after) {
        Start::Line
    } else if starts_identifier(c) {
        Start::Token(Kind::Ident)
    } else if c.is_ascii_digit() || c == '.' && begins_with_digit(after) {
        Start::Token(Kind::Number)
    } else {
        Start::Token(Kind::Punct)
    }
}

// Whether an x without a hexadecimal digit after it follows a number's 0.
fn is_bare_prefix(after: &str) -> bool
    ensures { result ≡ is_bare_prefix (chars after.now) }
{
    match first(after) {
        Some(('x' | 'X', digits)) => !begins_with_hex_digit(digits),
        _ => false,
    }
}

/// What begins at a place of a text, where `fresh` says that no token stands before it on its line.
pub fn text_start(fresh: bool, text: &str) -> Start
    ensures { result ≡ text_start fresh (chars text.now) }
{
    let Some((c, after)) = first(text) else {
        return Start::End;
    };
    match c {
        '#' if fresh => Start::Directive,
        '0' if is_bare_prefix(after) => Start::BadNumber,
        '"' => Start::Token(Kind::Quoted),
        '\'' => Start::Token(Kind::CharLit),
        _ => plain_start(c, after),
    }
}

fn is_line_break(text: &str) -> bool
    ensures { result ≡ is_line_break (chars text.now) }
{
    match first(text) {
        Some((c, after)) => c == '\n' || c == '\r' && first_is('\n', after),
        None => false,
    }
}

/// What begins at a place of a directive.
pub fn directive_start(text: &str) -> Start
    ensures { result ≡ directive_start (chars text.now) }
{
    let Some((c, after)) = first(text) else {
        return Start::End;
    };
    match c {
        '\n' => Start::End,
        '\\' if is_line_break(after) => Start::Continuation,
        _ => plain_start(c, after),
    }
}
