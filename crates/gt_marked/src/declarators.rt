// What declares a field: stars, a marker, a name and what stands after it.
ghost use Rattle.std.specs.Prelude.{◌≡◌, [], length};
ghost use Rattle.gt_marked.specs.Outcome.{Gives};
ghost use Rattle.gt_marked.specs.Fields.{bits_at, no_function_at, plain_declarator_at, star_at, function_declarator_at, declarator_at, goes_on_at, declarators_from};

use crate::groups::{before_end, bounds, inside, kept_text};
use crate::markers::{close_round, maybe_marker, open_round};
use crate::types::{name, stars, without_qualifiers};
use crate::unread::{Unread, unexpected_token};
use gt_items::{Declarator, Stars};
use gt_search::{Bracket, Lexeme, UNSUPPORTED};
use gt_types::{Bytes, List};
use std::alloc::Global;

/// Declarators with commas between them and a semicolon after them.
pub fn declarators(
    alloc: Global,
    tokens: &[Lexeme],
) -> Result<(List<Declarator>, &[Lexeme]), Unread>
    ensures { Gives (λ x. (x.0, x.1.now)) result (declarators_from (length tokens.now) [] tokens.now) }
{
    let mut declarators = List::new(alloc);
    let mut rest = tokens;
    for _ in 0..tokens.len() {
        let (one, after) = declarator(alloc, rest)?;
        declarators.push(one)?;
        let (goes_on, after) = goes_on(after)?;
        if !goes_on {
            return Ok((declarators, after));
        }
        rest = after;
    }
    Err(Unread::Ended)
}

/// Whether a list goes on after a comma, or a semicolon ends it. One of them has to stand at the front.
pub fn goes_on(tokens: &[Lexeme]) -> Result<(bool, &[Lexeme]), Unread>
    ensures { Gives (λ x. (x.0, x.1.now)) result (goes_on_at tokens.now) }
{
    match tokens {
        [Lexeme::Comma(_), rest @ ..] => Ok((true, rest)),
        [Lexeme::Semicolon(_), rest @ ..] => Ok((false, rest)),
        _ => Err(unexpected_token(tokens)),
    }
}

#[tactic(auto, unfolding(crate::specs::Fields::declarator_at))]
fn declarator(alloc: Global, tokens: &[Lexeme]) -> Result<(Declarator, &[Lexeme]), Unread>
    ensures { Gives (λ x. (x.0, x.1.now)) result (declarator_at tokens.now) }
{
    match tokens {
        [Lexeme::Open(Bracket::Round, _), rest @ ..] => function_declarator(alloc, rest),
        _ => plain_declarator(alloc, tokens),
    }
}

// A name after stars and a marker, with bounds and a bit count.
#[tactic(auto, unfolding(crate::specs::Fields::plain_declarator_at))]
fn plain_declarator(alloc: Global, tokens: &[Lexeme]) -> Result<(Declarator, &[Lexeme]), Unread>
    ensures { Gives (λ x. (x.0, x.1.now)) result (plain_declarator_at tokens.now) }
{
    let (stars, rest) = stars(tokens);
    let (options, rest) = maybe_marker(alloc, rest)?;
    let (name, rest) = name(alloc, rest)?;
    let rest = no_function(rest)?;
    let (bounds, rest) = bounds(alloc, rest)?;
    let (bits, rest) = bits(alloc, rest)?;
    let declarator = Declarator {
        is_function: false,
        stars,
        options,
        name,
        bounds,
        bits,
    };
    Ok((declarator, rest))
}

// A pointer to a function, after the first bracket of `(*NAME) (..)`.
#[tactic(auto, unfolding(crate::specs::Fields::function_declarator_at))]
fn function_declarator(alloc: Global, tokens: &[Lexeme]) -> Result<(Declarator, &[Lexeme]), Unread>
    ensures { Gives (λ x. (x.0, x.1.now)) result (function_declarator_at tokens.now) }
{
    let rest = star(tokens)?;
    let (options, rest) = maybe_marker(alloc, without_qualifiers(rest))?;
    let (name, rest) = name(alloc, rest)?;
    let rest = close_round(rest)?;
    let rest = open_round(rest)?;
    let (_, rest) = inside(rest)?;
    let declarator = Declarator {
        is_function: true,
        stars: Stars::Zero,
        options,
        name,
        bounds: List::new(alloc),
        bits: None,
    };
    Ok((declarator, rest))
}

/// The tokens after a star, which has to stand at the front.
pub fn star(tokens: &[Lexeme]) -> Result<&[Lexeme], Unread>
    ensures { Gives (λ rest. (tt, rest.now)) result (star_at tokens.now) }
{
    match tokens {
        [Lexeme::Star(_), rest @ ..] => Ok(rest),
        _ => Err(unexpected_token(tokens)),
    }
}

// No bracket may stand after the name of a field: it would be a member function.
#[tactic(auto, unfolding(crate::specs::Fields::no_function_at))]
fn no_function(tokens: &[Lexeme]) -> Result<&[Lexeme], Unread>
    ensures { Gives (λ rest. (tt, rest.now)) result (no_function_at tokens.now) }
{
    match tokens {
        [Lexeme::Open(Bracket::Round, spot), ..] => Err(Unread::Fault {
            number: UNSUPPORTED,
            at: spot.start,
        }),
        _ => Ok(tokens),
    }
}

// The text of a bit count after a colon, or none.
#[tactic(auto, unfolding(crate::specs::Fields::bits_at))]
fn bits(alloc: Global, tokens: &[Lexeme]) -> Result<(Option<Bytes>, &[Lexeme]), Unread>
    ensures { Gives (λ x. (x.0, x.1.now)) result (bits_at tokens.now) }
{
    let [Lexeme::Colon(_), rest @ ..] = tokens else {
        return Ok((None, tokens));
    };
    let (text, rest) = before_end(rest)?;
    Ok((Some(kept_text(alloc, text)?), rest))
}
