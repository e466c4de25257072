// Types, and the stars and names after them.
ghost use Rattle.std.specs.Prelude.{◌≡◌};
ghost use Rattle.gt_marked.specs.Outcome.{Gives};
ghost use Rattle.gt_marked.specs.Types.{without_qualifiers, one_more, stars_from, stars_at, name_at, definition_fault, no_brace_at, no_body_at, tagged_at, bitfield_at, after_bitfield, named_at, bare_type_at, type_at};

use crate::combinations::words;
use crate::markers::{close_round, marker};
use crate::unread::{Unread, unexpected_token};
use gt_items::{Keyword, Name, RawType, Stars};
use gt_search::{Bracket, Lexeme, TokenText, UNEXPECTED, UNSUPPORTED};
use std::alloc::Global;

/// Where a type without a body stands: in a field, or else in a global, a map or a typedef. Only a field may declare a pointer to
/// a function.
#[derive(Clone, Copy, Debug, PartialEq, Eq)]
pub enum Context {
    InField,
    Elsewhere,
}

/// A type at the front, with the qualifiers before and after it.
#[tactic(auto, unfolding(crate::specs::Types::type_at, crate::specs::Types::bare_type_at))]
pub fn base_type(
    alloc: Global,
    place: Context,
    tokens: &[Lexeme],
) -> Result<(RawType, &[Lexeme]), Unread>
    ensures { Gives (λ x. (x.0, x.1.now)) result (type_at place tokens.now) }
{
    bare_type(alloc, place, without_qualifiers(tokens))
}

#[tactic(auto, unfolding(crate::specs::Types::bare_type_at, crate::specs::Types::words_from))]
fn bare_type(
    alloc: Global,
    place: Context,
    tokens: &[Lexeme],
) -> Result<(RawType, &[Lexeme]), Unread>
    ensures { Gives (λ x. (x.0, x.1.now)) result (bare_type_at place tokens.now) }
{
    match tokens {
        [Lexeme::Type(..), ..] => words(tokens),
        [Lexeme::Tag(keyword, _), after @ ..] => {
            tagged_type(alloc, place, *keyword, without_qualifiers(after))
        }
        [Lexeme::Name(spot), after @ ..] => named_type(alloc, place, spot, after),
        _ => Err(unexpected_token(tokens)),
    }
}

// The tag after a keyword.
#[tactic(auto, unfolding(crate::specs::Types::tagged_at))]
fn tagged_type(
    alloc: Global,
    place: Context,
    keyword: Keyword,
    tokens: &[Lexeme],
) -> Result<(RawType, &[Lexeme]), Unread>
    ensures { Gives (λ x. (x.0, x.1.now)) result (tagged_at place keyword tokens.now) }
{
    match tokens {
        [Lexeme::Name(spot), after @ ..] => {
            let rest = no_body(alloc, place, without_qualifiers(after))?;
            let tag = spot.name(alloc)?;
            Ok((RawType::Tagged { keyword, tag }, rest))
        }
        [Lexeme::Open(Bracket::Brace, brace), ..] => Err(Unread::Fault {
            number: definition_fault(place),
            at: brace.start,
        }),
        _ => Err(unexpected_token(tokens)),
    }
}

// No body may stand after a tag, nor in a field after a tag and a marker.
#[tactic(auto, unfolding(crate::specs::Types::no_body_at))]
fn no_body(alloc: Global, place: Context, tokens: &[Lexeme]) -> Result<&[Lexeme], Unread>
    ensures { Gives (λ rest. (tt, rest.now)) result (no_body_at place tokens.now) }
{
    match (place, tokens) {
        (Context::InField, [Lexeme::Gty(_), ..]) => {
            let (_, rest) = marker(alloc, tokens)?;
            no_brace(place, rest)?;
            Ok(tokens)
        }
        _ => no_brace(place, tokens),
    }
}

// No brace may open a body at the front.
fn no_brace(place: Context, tokens: &[Lexeme]) -> Result<&[Lexeme], Unread>
    ensures { Gives (λ rest. (tt, rest.now)) result (no_brace_at place tokens.now) }
{
    match tokens {
        [Lexeme::Open(Bracket::Brace, brace), ..] => Err(Unread::Fault {
            number: definition_fault(place),
            at: brace.start,
        }),
        _ => Ok(tokens),
    }
}

// The number of the fault of a type that is defined at a place.
fn definition_fault(place: Context) -> u8
    ensures { result ≡ definition_fault place }
{
    match place {
        Context::InField => UNSUPPORTED,
        Context::Elsewhere => UNEXPECTED,
    }
}

// A type that begins with a name.
fn named_type<'a>(
    alloc: Global,
    place: Context,
    spot: &TokenText,
    tokens: &'a [Lexeme],
) -> Result<(RawType, &'a [Lexeme]), Unread>
    ensures { Gives (λ x. (x.0, x.1.now)) result (named_at place spot.now tokens.now) }
{
    let rest = without_qualifiers(tokens);
    if spot.word.is("ENUM_BITFIELD") {
        return after_bitfield(alloc, place, spot, rest);
    }
    Ok((RawType::Named(spot.name(alloc)?), rest))
}

// What stands after the word `ENUM_BITFIELD`: an enum in brackets, but for `(*` in a field, which declares a pointer to a
// function.
fn after_bitfield<'a>(
    alloc: Global,
    place: Context,
    spot: &TokenText,
    tokens: &'a [Lexeme],
) -> Result<(RawType, &'a [Lexeme]), Unread>
    ensures { Gives (λ x. (x.0, x.1.now)) result (after_bitfield place spot.now tokens.now) }
{
    match (place, tokens) {
        (Context::InField, [Lexeme::Open(Bracket::Round, _), Lexeme::Star(_), ..]) => {
            Ok((RawType::Named(spot.name(alloc)?), tokens))
        }
        (_, [Lexeme::Open(Bracket::Round, _), after @ ..]) => bitfield(alloc, after),
        _ => Ok((RawType::Named(spot.name(alloc)?), tokens)),
    }
}

// The enum in the brackets of `ENUM_BITFIELD`.
#[tactic(auto, unfolding(crate::specs::Types::bitfield_at))]
fn bitfield(alloc: Global, tokens: &[Lexeme]) -> Result<(RawType, &[Lexeme]), Unread>
    ensures { Gives (λ x. (x.0, x.1.now)) result (bitfield_at tokens.now) }
{
    let (tag, rest) = name(alloc, without_qualifiers(tokens))?;
    let rest = close_round(without_qualifiers(rest))?;
    let keyword = Keyword::Enum;
    Ok((RawType::Tagged { keyword, tag }, without_qualifiers(rest)))
}

/// A name, which has to stand at the front.
#[tactic(auto, unfolding(crate::specs::Types::name_at))]
pub fn name(alloc: Global, tokens: &[Lexeme]) -> Result<(Name, &[Lexeme]), Unread>
    ensures { Gives (λ x. (x.0, x.1.now)) result (name_at tokens.now) }
{
    match tokens {
        [Lexeme::Name(spot), rest @ ..] => Ok((spot.name(alloc)?, rest)),
        _ => Err(unexpected_token(tokens)),
    }
}

/// How many stars stand at the front, with `const` and `volatile` after each, and the tokens after them.
#[tactic(auto, unfolding(crate::specs::Types::stars_at))]
pub fn stars(tokens: &[Lexeme]) -> (Stars, &[Lexeme])
    ensures stars { result.0 ≡ (stars_at tokens.now).0 }
    ensures rest { result.1.now ≡ (stars_at tokens.now).1 }
{
    match tokens {
        [Lexeme::Star(_), rest @ ..] => more_stars(Stars::One, rest),
        _ => (Stars::Zero, tokens),
    }
}

#[tactic(auto, unfolding(crate::specs::Types::stars_from))]
fn more_stars(stars: Stars, tokens: &[Lexeme]) -> (Stars, &[Lexeme])
    ensures stars { result.0 ≡ (stars_from stars tokens.now).0 }
    ensures rest { result.1.now ≡ (stars_from stars tokens.now).1 }
{
    let mut stars = stars;
    let mut rest = tokens;
    loop {
        match rest {
            [Lexeme::Star(_), after @ ..] => {
                stars = one_more(stars);
                rest = after;
            }
            [Lexeme::Qualifier(_), after @ ..] => rest = after,
            _ => return (stars, rest),
        }
    }
}

fn one_more(stars: Stars) -> Stars
    ensures { result ≡ one_more stars }
{
    match stars {
        Stars::Zero => Stars::One,
        Stars::One => Stars::Two,
        Stars::Two | Stars::More => Stars::More,
    }
}

/// The tokens after `const` and `volatile` at the front, which mean nothing.
#[tactic(auto, unfolding(crate::specs::Types::without_qualifiers))]
pub fn without_qualifiers(tokens: &[Lexeme]) -> &[Lexeme]
    ensures { result.now ≡ without_qualifiers tokens.now }
{
    let mut rest = tokens;
    while let [Lexeme::Qualifier(_), after @ ..] = rest {
        rest = after;
    }
    rest
}
