// String literals: what stands between their quotes, joined, and without the backslashes of escapes.
ghost use Rattle.std.specs.Prelude.{◌≡◌, ◌==◌, ◌||◌, false, IfOk};
ghost use Rattle.gt_marked.specs.Outcome.{Gives};
ghost use Rattle.gt_marked.specs.Markers.{inside_quotes, more_strings, strings_at, unescaped};

use crate::unread::{Unread, unexpected_token};
use gt_search::Lexeme;
use gt_types::Bytes;
use std::alloc::{AllocError, Global};

/// What string literals at the front join to. One has to stand there.
#[tactic(auto, unfolding(crate::specs::Markers::strings_at))]
pub fn strings(alloc: Global, tokens: &[Lexeme]) -> Result<(Bytes, &[Lexeme]), Unread>
    ensures { Gives (λ x. (x.0, x.1.now)) result (strings_at tokens.now) }
{
    let [Lexeme::Quoted(spot), rest @ ..] = tokens else {
        return Err(unexpected_token(tokens));
    };
    let text = Bytes::of(alloc, inside_quotes(spot.word.as_str().as_bytes()))?;
    more_strings(text, rest)
}

// What the literals at the front join to after a text.
#[tactic(auto, unfolding(crate::specs::Markers::more_strings))]
fn more_strings(mut text: Bytes, tokens: &[Lexeme]) -> Result<(Bytes, &[Lexeme]), Unread>
    ensures { Gives (λ x. (x.0, x.1.now)) result (more_strings text tokens.now) }
{
    let mut rest = tokens;
    while let [Lexeme::Quoted(spot), after @ ..] = rest {
        text.append(inside_quotes(spot.word.as_str().as_bytes()))?;
        rest = after;
    }
    Ok((text, rest))
}

// What stands between the quotes of a literal.
fn inside_quotes(literal: &[u8]) -> &[u8]
    ensures { result.now ≡ inside_quotes literal.now }
{
    match literal {
        [_, inside @ .., _] => inside,
        _ => &[],
    }
}

/// The bytes without the backslashes before quotes and backslashes; nothing where a backslash stands before another byte.
pub fn unescape(alloc: Global, text: &[u8]) -> Result<Option<Bytes>, AllocError>
    ensures { IfOk result (λ found. found ≡ unescaped false text.now) }
{
    let mut bytes = Bytes::new(alloc);
    let mut is_escaped = false;
    for byte in text {
        if is_escaped {
            if !may_be_escaped(*byte) {
                return Ok(None);
            }
        } else if *byte == b'\\' {
            is_escaped = true;
            continue;
        }
        bytes.push(*byte)?;
        is_escaped = false;
    }
    if is_escaped {
        return Ok(None);
    }
    Ok(Some(bytes))
}

// Whether a backslash may stand before a byte.
fn may_be_escaped(byte: u8) -> bool
    ensures { result ≡ ((byte == 34) || (byte == 92)) }
{
    byte == b'"' || byte == b'\\'
}
