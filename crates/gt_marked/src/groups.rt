// What stands in brackets, and what is passed over.
ghost use Rattle.std.specs.Prelude.{◌≡◌, ℕ, ◌+◌, ◌<◌, ◌^◌, [], ◌++◌, length, IfOk};
ghost use Rattle.std.specs.Option.{option_map};
ghost use Rattle.gt_search.specs.Lexemes.{kept_text, text_after};
ghost use Rattle.gt_marked.specs.Outcome.{Gives};
ghost use Rattle.gt_marked.specs.Groups.{depth_past, depth_after, depth_in_part, inside_from, before_end, square_after, bounds_from};

use crate::unread::Unread;
use gt_search::{Bracket, Lexeme};
use gt_types::{Bytes, List};
use std::alloc::{AllocError, Global};

/// The tokens up to the bracket that closes the one before them, and those after it.
pub fn inside(tokens: &[Lexeme]) -> Result<(&[Lexeme], &[Lexeme]), Unread>
    ensures { Gives (λ x. (x.0.now, x.1.now)) result (inside_from 0 tokens.now) }
{
    let mut depth = 0;
    for at in 0..tokens.len() {
        let Some(next) = depth_past(depth, &tokens[at]) else {
            return Ok((&tokens[..at], &tokens[at + 1..]));
        };
        depth = next;
    }
    Err(Unread::Ended)
}

/// The tokens before the next comma, semicolon or closing bracket that stands in no brackets, and those from there on.
pub fn before_end(tokens: &[Lexeme]) -> Result<(&[Lexeme], &[Lexeme]), Unread>
    ensures { Gives (λ x. (x.0.now, x.1.now)) result (before_end 0 tokens.now) }
{
    let mut depth = 0;
    for at in 0..tokens.len() {
        let Some(next) = depth_in_part(depth, &tokens[at]) else {
            return Ok((&tokens[..at], &tokens[at..]));
        };
        depth = next;
    }
    Err(Unread::Ended)
}

/// How many brackets are open after a token, or None where it closes one that opens before.
pub fn depth_past(depth: usize, token: &Lexeme) -> Option<usize>
    requires { depth + 1 < 2 ^ 64 }
    ensures { result ≡ depth_past depth token.now }
{
    match token {
        Lexeme::Open(..) => Some(depth + 1),
        Lexeme::Close(..) => depth.checked_sub(1),
        _ => Some(depth),
    }
}

/// How many brackets are open after a token, where one that closes none of them counts for nothing.
pub fn depth_after(depth: usize, token: &Lexeme) -> usize
    requires { depth + 1 < 2 ^ 64 }
    ensures { result ≡ depth_after depth token.now }
{
    match token {
        Lexeme::Open(..) => depth + 1,
        Lexeme::Close(..) => depth.saturating_sub(1),
        _ => depth,
    }
}

// As `depth_after`, or None where a comma or a semicolon stands in no brackets.
fn depth_in_part(depth: usize, token: &Lexeme) -> Option<usize>
    requires { depth + 1 < 2 ^ 64 }
    ensures { result ≡ depth_in_part depth token.now }
{
    match token {
        Lexeme::Comma(_) | Lexeme::Semicolon(_) if depth == 0 => None,
        _ => depth_past(depth, token),
    }
}

/// The texts of the bounds at the front, as many as there are.
pub fn bounds(alloc: Global, tokens: &[Lexeme]) -> Result<(List<Bytes>, &[Lexeme]), Unread>
    ensures { Gives (λ x. (x.0, x.1.now)) result (bounds_from (length tokens.now) [] tokens.now) }
{
    let mut bounds = List::new(alloc);
    let mut rest = tokens;
    for _ in 0..tokens.len() {
        let Some(after) = after_square(rest) else {
            return Ok((bounds, rest));
        };
        let (text, after) = inside(after)?;
        bounds.push(kept_text(alloc, text)?)?;
        rest = after;
    }
    Ok((bounds, rest))
}

// The tokens after a square bracket that opens at the front.
fn after_square(tokens: &[Lexeme]) -> Option<&[Lexeme]>
    ensures { option_map (λ rest. rest.now) result ≡ square_after tokens.now }
{
    match tokens {
        [Lexeme::Open(Bracket::Square, _), rest @ ..] => Some(rest),
        _ => None,
    }
}

/// The kept text of tokens, with one space where something that is no token stood between two.
#[tactic(auto, unfolding(gt_search::specs::Lexemes::kept_text))]
pub fn kept_text(alloc: Global, tokens: &[Lexeme]) -> Result<Bytes, AllocError>
    ensures { IfOk result (λ text. text ≡ kept_text tokens.now) }
{
    let [first, rest @ ..] = tokens else {
        return Ok(Bytes::new(alloc));
    };
    let text = Bytes::of(alloc, first.spot().word.as_str().as_bytes())?;
    text_after(text, first.spot().end, rest)
}

// The text of tokens after a text that ends at an offset.
fn text_after(mut text: Bytes, end: u32, tokens: &[Lexeme]) -> Result<Bytes, AllocError>
    ensures { IfOk result (λ made. made ≡ text ++ text_after end tokens.now) }
{
    let mut end = end;
    for token in tokens {
        let spot = token.spot();
        if spot.start != end {
            text.push(b' ')?;
        }
        text.append(spot.word.as_str().as_bytes())?;
        end = spot.end;
    }
    Ok(text)
}
