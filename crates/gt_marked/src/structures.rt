// Marked structures and unions.
ghost use Rattle.std.specs.Prelude.{◌≡◌};
ghost use Rattle.gt_marked.specs.Outcome.{Gives};
ghost use Rattle.gt_marked.specs.Marked.{semicolon_at, open_brace_at, marker_after_tag, tag_at, alias_at, maybe_alias, structure_at};

use crate::fields::fields;
use crate::markers::marker;
use crate::types::{name, stars};
use crate::unread::{Unread, unexpected_token};
use gt_items::{Alias, Item, Name, RawOption, RawStructure};
use gt_search::{Bracket, Lexeme, UNSUPPORTED};
use gt_types::List;
use std::alloc::Global;

/// A marked structure after its keyword. It declares a name too where it is a typedef.
#[tactic(auto, unfolding(crate::specs::Marked::structure_at))]
pub fn structure(
    alloc: Global,
    has_alias: bool,
    is_union: bool,
    tokens: &[Lexeme],
) -> Result<(Item, &[Lexeme]), Unread>
    ensures { Gives (λ x. (x.0, x.1.now)) result (structure_at has_alias is_union tokens.now) }
{
    let ((tag, options), rest) = tag(alloc, tokens)?;
    let rest = open_brace(rest)?;
    let (fields, rest) = fields(alloc, rest)?;
    let (alias, rest) = maybe_alias(alloc, has_alias, rest)?;
    let rest = semicolon(rest)?;
    let structure = RawStructure {
        is_union,
        tag,
        options,
        fields,
        alias,
    };
    Ok((Item::Structure(structure), rest))
}

// The tag of a structure, and the options of the marker before or after it.
#[tactic(auto, unfolding(crate::specs::Marked::tag_at))]
fn tag(alloc: Global, tokens: &[Lexeme]) -> Result<((Name, List<RawOption>), &[Lexeme]), Unread>
    ensures { Gives (λ x. ((x.0.0, x.0.1), x.1.now)) result (tag_at tokens.now) }
{
    match tokens {
        [Lexeme::Name(spot), after @ ..] => {
            let (options, rest) = marker_after_tag(alloc, after)?;
            Ok(((spot.name(alloc)?, options), rest))
        }
        _ => {
            let (options, rest) = marker(alloc, tokens)?;
            let (tag, rest) = name(alloc, rest)?;
            Ok(((tag, options), rest))
        }
    }
}

// A marker after a tag; a colon would begin base classes.
#[tactic(auto, unfolding(crate::specs::Marked::marker_after_tag))]
fn marker_after_tag(
    alloc: Global,
    tokens: &[Lexeme],
) -> Result<(List<RawOption>, &[Lexeme]), Unread>
    ensures { Gives (λ x. (x.0, x.1.now)) result (marker_after_tag tokens.now) }
{
    match tokens {
        [Lexeme::Colon(spot), ..] => Err(Unread::Fault {
            number: UNSUPPORTED,
            at: spot.start,
        }),
        _ => marker(alloc, tokens),
    }
}

// The tokens after the brace that opens a body; a colon would begin base classes.
fn open_brace(tokens: &[Lexeme]) -> Result<&[Lexeme], Unread>
    ensures { Gives (λ rest. (tt, rest.now)) result (open_brace_at tokens.now) }
{
    match tokens {
        [Lexeme::Open(Bracket::Brace, _), rest @ ..] => Ok(rest),
        [Lexeme::Colon(spot), ..] => Err(Unread::Fault {
            number: UNSUPPORTED,
            at: spot.start,
        }),
        _ => Err(unexpected_token(tokens)),
    }
}

// The name after the body of a structure that is a typedef.
#[tactic(auto, unfolding(crate::specs::Marked::maybe_alias))]
fn maybe_alias(
    alloc: Global,
    has_alias: bool,
    tokens: &[Lexeme],
) -> Result<(Option<Alias>, &[Lexeme]), Unread>
    ensures { Gives (λ x. (x.0, x.1.now)) result (maybe_alias has_alias tokens.now) }
{
    if !has_alias {
        return Ok((None, tokens));
    }
    let (alias, rest) = alias(alloc, tokens)?;
    Ok((Some(alias), rest))
}

/// A name that a typedef declares, after stars.
#[tactic(auto, unfolding(crate::specs::Marked::alias_at))]
pub fn alias(alloc: Global, tokens: &[Lexeme]) -> Result<(Alias, &[Lexeme]), Unread>
    ensures { Gives (λ x. (x.0, x.1.now)) result (alias_at tokens.now) }
{
    let (stars, rest) = stars(tokens);
    let (name, rest) = name(alloc, rest)?;
    Ok((Alias { stars, name }, rest))
}

/// The tokens after a semicolon, which has to stand at the front.
pub fn semicolon(tokens: &[Lexeme]) -> Result<&[Lexeme], Unread>
    ensures { Gives (λ rest. (tt, rest.now)) result (semicolon_at tokens.now) }
{
    match tokens {
        [Lexeme::Semicolon(_), rest @ ..] => Ok(rest),
        _ => Err(unexpected_token(tokens)),
    }
}
