// Marked globals.
ghost use Rattle.std.specs.Prelude.{◌≡◌};
ghost use Rattle.gt_marked.specs.Outcome.{Gives};
ghost use Rattle.gt_marked.specs.Marked.{initialiser_at, root_at, after_marker_at, global_at};

use crate::caches::cache;
use crate::groups::bounds;
use crate::markers::marker;
use crate::structures::semicolon;
use crate::types::{Context, base_type, name, stars};
use crate::unread::Unread;
use gt_items::{Item, RawOption, RawRoot};
use gt_search::Lexeme;
use gt_types::List;
use std::alloc::Global;

/// A marked global after its first word.
#[tactic(auto, unfolding(crate::specs::Marked::global_at))]
pub fn global(alloc: Global, tokens: &[Lexeme]) -> Result<(Item, &[Lexeme]), Unread>
    ensures { Gives (λ x. (x.0, x.1.now)) result (global_at tokens.now) }
{
    let (options, rest) = marker(alloc, tokens)?;
    after_marker(alloc, options, rest)
}

// What stands after the marker of a global: a map, or a type.
#[tactic(auto, unfolding(crate::specs::Marked::after_marker_at))]
fn after_marker(
    alloc: Global,
    options: List<RawOption>,
    tokens: &[Lexeme],
) -> Result<(Item, &[Lexeme]), Unread>
    ensures { Gives (λ x. (x.0, x.1.now)) result (after_marker_at options tokens.now) }
{
    let [Lexeme::Name(spot), Lexeme::Less(_), after @ ..] = tokens else {
        return root(alloc, options, tokens);
    };
    if spot.word.is("hash_map") {
        return cache(alloc, options, after);
    }
    root(alloc, options, tokens)
}

// A global of a type, after its marker.
#[tactic(auto, unfolding(crate::specs::Marked::root_at))]
fn root(
    alloc: Global,
    options: List<RawOption>,
    tokens: &[Lexeme],
) -> Result<(Item, &[Lexeme]), Unread>
    ensures { Gives (λ x. (x.0, x.1.now)) result (root_at options tokens.now) }
{
    let (ty, rest) = base_type(alloc, Context::Elsewhere, tokens)?;
    let (stars, rest) = stars(rest);
    let (name, rest) = name(alloc, rest)?;
    let (bounds, rest) = bounds(alloc, rest)?;
    let rest = initialiser(rest)?;
    let root = RawRoot {
        options,
        ty,
        stars,
        name,
        bounds,
    };
    Ok((Item::Root(root), rest))
}

// An initialiser is passed over to the end of the item, or a semicolon ends the global.
#[tactic(auto, unfolding(crate::specs::Marked::initialiser_at))]
fn initialiser(tokens: &[Lexeme]) -> Result<&[Lexeme], Unread>
    ensures { Gives (λ rest. (tt, rest.now)) result (initialiser_at tokens.now) }
{
    match tokens {
        [Lexeme::Equals(_), ..] => Ok(&[]),
        _ => semicolon(tokens),
    }
}
