// Marked items.
ghost use Rattle.std.specs.Prelude.{◌≡◌};
ghost use Rattle.gt_marked.specs.Outcome.{Fails, Gives};
ghost use Rattle.gt_marked.specs.Marked.{typedef_structure_at, reserved_at, marked_at};

use crate::globals::global;
use crate::structures::structure;
use crate::unread::{Unread, unexpected_token};
use gt_items::{Item, Keyword};
use gt_search::{BAD_MARKER_PLACE, Lexeme, TokenText, UNEXPECTED, UNSUPPORTED};
use std::alloc::Global;

/// A marked item.
#[tactic(auto, unfolding(crate::specs::Marked::marked_at))]
pub fn marked_item(alloc: Global, tokens: &[Lexeme]) -> Result<(Item, &[Lexeme]), Unread>
    ensures { Gives (λ x. (x.0, x.1.now)) result (marked_at tokens.now) }
{
    match tokens {
        [Lexeme::Typedef(_), rest @ ..] => typedef_structure(alloc, rest),
        [Lexeme::Tag(Keyword::Struct, _), rest @ ..] => structure(alloc, false, false, rest),
        [Lexeme::Tag(Keyword::Union, _), rest @ ..] => structure(alloc, false, true, rest),
        [Lexeme::Static(_) | Lexeme::Extern(_), rest @ ..] => global(alloc, rest),
        [Lexeme::Reserved(spot), ..] => Err(reserved_fault(spot)),
        [Lexeme::Gty(spot), ..] => Err(Unread::Fault {
            number: BAD_MARKER_PLACE,
            at: spot.start,
        }),
        _ => Err(unexpected_token(tokens)),
    }
}

// A structure after the word `typedef`.
#[tactic(auto, unfolding(crate::specs::Marked::typedef_structure_at))]
fn typedef_structure(alloc: Global, tokens: &[Lexeme]) -> Result<(Item, &[Lexeme]), Unread>
    ensures { Gives (λ x. (x.0, x.1.now)) result (typedef_structure_at tokens.now) }
{
    match tokens {
        [Lexeme::Tag(Keyword::Struct, _), rest @ ..] => structure(alloc, true, false, rest),
        [Lexeme::Tag(Keyword::Union, _), rest @ ..] => structure(alloc, true, true, rest),
        _ => Err(unexpected_token(tokens)),
    }
}

// `class` and `template` are not supported; `namespace` may not stand here.
fn reserved_fault(spot: &TokenText) -> Unread
    ensures { Fails result (reserved_at spot.now) }
{
    let number = if spot.word.is("namespace") {
        UNEXPECTED
    } else {
        UNSUPPORTED
    };
    Unread::Fault {
        number,
        at: spot.start,
    }
}
