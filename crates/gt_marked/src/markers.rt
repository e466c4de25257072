// Markers: `GTY((..))`.
ghost use Rattle.std.specs.Prelude.{◌≡◌};
ghost use Rattle.gt_marked.specs.Outcome.{Gives};
ghost use Rattle.gt_marked.specs.Markers.{gty_at, open_round_at, close_round_at, marker_at, maybe_marker};

use crate::options::options;
use crate::unread::{Unread, unexpected_token};
use gt_items::RawOption;
use gt_search::{Bracket, Lexeme};
use gt_types::List;
use std::alloc::Global;

/// The options of a marker at the front; without a marker there is no option.
#[tactic(auto, unfolding(crate::specs::Markers::maybe_marker))]
pub fn maybe_marker(
    alloc: Global,
    tokens: &[Lexeme],
) -> Result<(List<RawOption>, &[Lexeme]), Unread>
    ensures { Gives (λ x. (x.0, x.1.now)) result (maybe_marker tokens.now) }
{
    match tokens {
        [Lexeme::Gty(_), ..] => marker(alloc, tokens),
        _ => Ok((List::new(alloc), tokens)),
    }
}

/// The options of a marker that has to stand at the front.
#[tactic(auto, unfolding(crate::specs::Markers::marker_at))]
pub fn marker(alloc: Global, tokens: &[Lexeme]) -> Result<(List<RawOption>, &[Lexeme]), Unread>
    ensures { Gives (λ x. (x.0, x.1.now)) result (marker_at tokens.now) }
{
    let rest = gty(tokens)?;
    let rest = open_round(rest)?;
    let rest = open_round(rest)?;
    let (options, rest) = options(alloc, rest)?;
    let rest = close_round(rest)?;
    let rest = close_round(rest)?;
    Ok((options, rest))
}

fn gty(tokens: &[Lexeme]) -> Result<&[Lexeme], Unread>
    ensures { Gives (λ rest. (tt, rest.now)) result (gty_at tokens.now) }
{
    match tokens {
        [Lexeme::Gty(_), rest @ ..] => Ok(rest),
        _ => Err(unexpected_token(tokens)),
    }
}

/// The tokens after an opening round bracket, which has to stand at the front.
pub fn open_round(tokens: &[Lexeme]) -> Result<&[Lexeme], Unread>
    ensures { Gives (λ rest. (tt, rest.now)) result (open_round_at tokens.now) }
{
    match tokens {
        [Lexeme::Open(Bracket::Round, _), rest @ ..] => Ok(rest),
        _ => Err(unexpected_token(tokens)),
    }
}

/// The tokens after a closing round bracket, which has to stand at the front.
pub fn close_round(tokens: &[Lexeme]) -> Result<&[Lexeme], Unread>
    ensures { Gives (λ rest. (tt, rest.now)) result (close_round_at tokens.now) }
{
    match tokens {
        [Lexeme::Close(Bracket::Round, _), rest @ ..] => Ok(rest),
        _ => Err(unexpected_token(tokens)),
    }
}
