// What follows a part.
ghost use Rattle.std.specs.Prelude.{◌≡◌, ℕ, Bool, false, ◌==◌, not, ◌∷◌, drop, if◌then◌else◌, IfSome};
ghost use Rattle.std.specs.Str.{chars, IsUtf8};
ghost use Rattle.std.specs.Option.{option_map};
ghost use Rattle.gt_text.specs.Identifier.{continues_identifier_of};
ghost use Rattle.gt_lex.specs.Characters.{newline, first_is};
ghost use Rattle.gt_lex.specs.Extents.{is_exponent, is_sign};
ghost use Rattle.gt_lex.specs.Reading.{rest_while, continues_number_of, number_rest, literal_rest, token_rest, part_rest, rest_of};
ghost use Rattle.gt_lex.specs.Reading.{comment_rest};

use crate::starts::Start;
use crate::text::{first, first_is, tail};
use crate::tokens::Kind;
use gt_text::continues_identifier;

fn past_line(text: &str) -> &str
    ensures { chars result.now ≡ rest_while (λ c. not (c == newline)) (chars text.now) }
{
    let mut rest = text;
    loop {
        match first(rest) {
            Some((c, after)) if c != '\n' => rest = after,
            _ => return rest,
        }
    }
}

fn past_identifier(text: &str) -> &str
    ensures { chars result.now ≡ rest_while continues_identifier_of (chars text.now) }
{
    let mut rest = text;
    loop {
        match first(rest) {
            Some((c, after)) if continues_identifier(c) => rest = after,
            _ => return rest,
        }
    }
}

fn is_exponent(c: char) -> bool
    ensures { result ≡ is_exponent c }
{
    c == 'e' || c == 'E' || c == 'p' || c == 'P'
}

fn is_sign(c: char) -> bool
    ensures { result ≡ is_sign c }
{
    c == '+' || c == '-'
}

fn continues_number(before: char, c: char) -> bool
    ensures { result ≡ continues_number_of before c }
{
    continues_identifier(c) || c == '.' || is_exponent(before) && is_sign(c)
}

fn past_number(start: char, text: &str) -> &str
    ensures { chars result.now ≡ number_rest start (chars text.now) }
{
    let mut before = start;
    let mut rest = text;
    loop {
        match first(rest) {
            Some((c, after)) if continues_number(before, c) => {
                before = c;
                rest = after;
            }
            _ => return rest,
        }
    }
}

// After the opening of a comment; None where it does not end.
fn past_comment(text: &str) -> Option<(bool, &str)>
    ensures rest { option_map (λ r. (r.0, chars r.1.now)) result ≡ comment_rest false (chars text.now) }
    ensures utf8 { IfSome result (λ r. IsUtf8 r.1.now) }
{
    let mut newline = false;
    let mut rest = text;
    loop {
        let (c, after) = first(rest)?;
        if c == '*' && first_is('/', after) {
            return Some((newline, tail(after)));
        }
        newline = newline || c == '\n';
        rest = after;
    }
}

// After the opening quote; None where the line ends first.
fn past_literal(quote: char, text: &str) -> Option<&str>
    ensures rest { option_map (λ r. chars r.now) result ≡ literal_rest quote false (chars text.now) }
    ensures utf8 { IfSome result (λ r. IsUtf8 r.now) }
{
    let mut escaped = false;
    let mut rest = text;
    loop {
        let (c, after) = first(rest)?;
        if c == '\n' {
            return None;
        }
        if !escaped && c == quote {
            return Some(after);
        }
        escaped = !escaped && c == '\\';
        rest = after;
    }
}

fn past_token(kind: Kind, c: char, after: &str) -> Option<&str>
    ensures rest { option_map (λ r. chars r.now) result ≡ token_rest kind c (chars after.now) }
    ensures utf8 { IfSome result (λ r. IsUtf8 r.now) }
{
    match kind {
        Kind::Ident => Some(past_identifier(after)),
        Kind::Number => Some(past_number(c, after)),
        Kind::Quoted | Kind::CharLit => past_literal(c, after),
        Kind::Punct => Some(after),
    }
}

fn past_line_break(after: &str) -> &str
    ensures { chars result.now ≡ (if first_is newline (chars after.now) then drop 1 (chars after.now) else drop 2 (chars after.now)) }
{
    if first_is('\n', after) {
        tail(after)
    } else {
        tail(tail(after))
    }
}

/// What follows the part that begins, and whether a newline stood in it. None where a comment or a literal does not
/// end, and where no part begins.
pub fn past(start: Start, text: &str) -> Option<(bool, &str)>
    ensures rest { option_map (λ r. (r.0, chars r.1.now)) result ≡ rest_of start (chars text.now) }
    ensures utf8 { IfSome result (λ r. IsUtf8 r.1.now) }
{
    let (c, after) = first(text)?;
    match start {
        Start::Space => Some((c == '\n', after)),
        Start::Block => past_comment(tail(after)),
        Start::Line => Some((false, past_line(after))),
        Start::Continuation => Some((true, past_line_break(after))),
        Start::Token(kind) => match past_token(kind, c, after) {
            Some(rest) => Some((false, rest)),
            None => None,
        },
        Start::End | Start::Directive | Start::BadNumber => None,
    }
}
