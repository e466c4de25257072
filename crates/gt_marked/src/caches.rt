// Marked globals that are maps: `hash_map<K, V> *NAME`.
ghost use Rattle.std.specs.Prelude.{◌≡◌};
ghost use Rattle.gt_marked.specs.Outcome.{Gives};
ghost use Rattle.gt_marked.specs.Marked.{comma_at, greater_at, pointed_at, traits_at, is_cache, cache_name_at, cache_at};

use crate::declarators::star;
use crate::structures::semicolon;
use crate::types::{Context, base_type, name, stars, without_qualifiers};
use crate::unread::{Unread, unexpected_token};
use gt_items::{Item, Name, PointedType, RawCache, RawOption};
use gt_search::{Lexeme, UNSUPPORTED};
use gt_types::List;
use std::alloc::Global;

/// A map that is a cache, after the sign `<`.
#[tactic(auto, unfolding(crate::specs::Marked::cache_at))]
pub fn cache(
    alloc: Global,
    options: List<RawOption>,
    tokens: &[Lexeme],
) -> Result<(Item, &[Lexeme]), Unread>
    ensures { Gives (λ x. (x.0, x.1.now)) result (cache_at options tokens.now) }
{
    let (key, rest) = pointed_type(alloc, tokens)?;
    let rest = comma(rest)?;
    let (value, rest) = pointed_type(alloc, rest)?;
    let rest = traits(alloc, rest)?;
    let rest = greater(rest)?;
    let rest = star(rest)?;
    let (name, rest) = cache_name(alloc, &options, without_qualifiers(rest))?;
    let rest = semicolon(rest)?;
    let cache = RawCache {
        options,
        key,
        value,
        name,
    };
    Ok((Item::Cache(cache), rest))
}

// A type and its stars.
#[tactic(auto, unfolding(crate::specs::Marked::pointed_at))]
fn pointed_type(alloc: Global, tokens: &[Lexeme]) -> Result<(PointedType, &[Lexeme]), Unread>
    ensures { Gives (λ x. (x.0, x.1.now)) result (pointed_at tokens.now) }
{
    let (ty, rest) = base_type(alloc, Context::Elsewhere, tokens)?;
    let (stars, rest) = stars(rest);
    Ok((PointedType { ty, stars }, rest))
}

// The tokens after the name of a third type, where there is one.
#[tactic(auto, unfolding(crate::specs::Marked::traits_at))]
fn traits(alloc: Global, tokens: &[Lexeme]) -> Result<&[Lexeme], Unread>
    ensures { Gives (λ rest. (tt, rest.now)) result (traits_at tokens.now) }
{
    let [Lexeme::Comma(_), after @ ..] = tokens else {
        return Ok(tokens);
    };
    let (_, rest) = name(alloc, after)?;
    Ok(rest)
}

// The name of a map. One that is no cache is not supported.
#[tactic(auto, unfolding(crate::specs::Marked::cache_name_at))]
fn cache_name<'a>(
    alloc: Global,
    options: &List<RawOption>,
    tokens: &'a [Lexeme],
) -> Result<(Name, &'a [Lexeme]), Unread>
    ensures { Gives (λ x. (x.0, x.1.now)) result (cache_name_at options.now tokens.now) }
{
    let (name, rest) = name(alloc, tokens)?;
    if !is_cache(options) {
        return Err(Unread::Fault {
            number: UNSUPPORTED,
            at: name.at,
        });
    }
    Ok((name, rest))
}

fn is_cache(options: &List<RawOption>) -> bool
    ensures { result ≡ is_cache options.now }
{
    options
        .as_slice()
        .iter()
        .any(|option| option.name.word.is("cache"))
}

fn comma(tokens: &[Lexeme]) -> Result<&[Lexeme], Unread>
    ensures { Gives (λ rest. (tt, rest.now)) result (comma_at tokens.now) }
{
    match tokens {
        [Lexeme::Comma(_), rest @ ..] => Ok(rest),
        _ => Err(unexpected_token(tokens)),
    }
}

fn greater(tokens: &[Lexeme]) -> Result<&[Lexeme], Unread>
    ensures { Gives (λ rest. (tt, rest.now)) result (greater_at tokens.now) }
{
    match tokens {
        [Lexeme::Greater(_), rest @ ..] => Ok(rest),
        _ => Err(unexpected_token(tokens)),
    }
}
