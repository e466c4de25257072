// One item.
ghost use Rattle.std.specs.Prelude.{◌≡◌, IfOk};
ghost use Rattle.gt_marked.specs.Outcome.{ItemGives};
ghost use Rattle.gt_parse.specs.Unmarked.{unmarked_of, unmarked_at};
ghost use Rattle.gt_parse.specs.Reading.{is_marker, is_marked, item_at};

use crate::enums::enum_item;
use crate::typedefs::typedef_item;
use gt_items::{Item, Keyword};
use gt_marked::{Unread, depth_after, marked_item};
use gt_search::{BAD_MARKER_PLACE, Lexeme};
use std::alloc::{AllocError, Global};

/// What the tokens of one item declare, or why they are refused.
#[tactic(auto, unfolding(crate::specs::Reading::item_at))]
pub fn item(alloc: Global, one: &[Lexeme]) -> Result<Option<Item>, Unread>
    ensures { ItemGives result (item_at one.now) }
{
    if !is_marked(one) {
        return item_without_markers(alloc, one);
    }
    let (item, _) = marked_item(alloc, one)?;
    Ok(Some(item))
}

// Whether a marker stands in no brackets.
fn is_marked(tokens: &[Lexeme]) -> bool
    ensures { result ≡ is_marked 0 tokens.now }
{
    let mut depth = 0;
    for token in tokens {
        if depth == 0 && is_marker(token) {
            return true;
        }
        depth = depth_after(depth, token);
    }
    false
}

fn is_marker(token: &Lexeme) -> bool
    ensures { result ≡ is_marker token.now }
{
    matches!(token, Lexeme::Gty(_))
}

// An item without a marker in no brackets. No marker may stand in it at all.
fn item_without_markers(alloc: Global, tokens: &[Lexeme]) -> Result<Option<Item>, Unread>
    ensures { ItemGives result (unmarked_at tokens.now tokens.now) }
{
    for token in tokens {
        if let Lexeme::Gty(spot) = token {
            return Err(Unread::Fault {
                number: BAD_MARKER_PLACE,
                at: spot.start,
            });
        }
    }
    Ok(unmarked_item(alloc, tokens)?)
}

// What an unmarked item declares.
#[tactic(auto, unfolding(crate::specs::Unmarked::unmarked_of))]
fn unmarked_item(alloc: Global, tokens: &[Lexeme]) -> Result<Option<Item>, AllocError>
    ensures { IfOk result (λ found. found ≡ unmarked_of tokens.now) }
{
    match tokens {
        [Lexeme::Typedef(_), rest @ ..] => typedef_item(alloc, rest),
        [Lexeme::Tag(Keyword::Enum, _), rest @ ..] => enum_item(alloc, rest),
        _ => Ok(None),
    }
}
