// Enums and their constants.
ghost use Rattle.std.specs.Prelude.{◌≡◌, [], IfOk};
ghost use Rattle.gt_marked.specs.Outcome.{Gives};
ghost use Rattle.gt_parse.specs.Unmarked.{is_comma, enumerator_of, pieces_from, enumerators_of, enum_body_at, enum_of, enum_at};

use gt_items::{Enumerator, Item, Name, RawEnum};
use gt_marked::{Unread, depth_after, inside, kept_text};
use gt_search::{Bracket, Lexeme};
use gt_types::List;
use std::alloc::{AllocError, Global};

/// What an unmarked enum declares, after its keyword: `enum [NAME] {` begins a definition, and another declares nothing.
#[tactic(auto, unfolding(crate::specs::Unmarked::enum_at))]
pub fn enum_item(alloc: Global, tokens: &[Lexeme]) -> Result<Option<Item>, AllocError>
    ensures { IfOk result (λ found. found ≡ enum_at tokens.now) }
{
    match tokens {
        [Lexeme::Open(Bracket::Brace, _), body @ ..] => enum_definition(alloc, None, body),
        [
            Lexeme::Name(spot),
            Lexeme::Open(Bracket::Brace, _),
            body @ ..,
        ] => { enum_definition(alloc, Some(spot.name(alloc)?), body) }
        _ => Ok(None),
    }
}

// The enum after the brace of its body.
fn enum_definition(
    alloc: Global,
    tag: Option<Name>,
    tokens: &[Lexeme],
) -> Result<Option<Item>, AllocError>
    ensures { IfOk result (λ found. found ≡ enum_of (enum_body_at tag tokens.now)) }
{
    match enum_body(alloc, tag, tokens) {
        Ok((found, _)) => Ok(Some(Item::Enum(found))),
        Err(Unread::Memory) => Err(AllocError),
        Err(Unread::Ended | Unread::Fault { .. }) => Ok(None),
    }
}

/// An enum with a tag or without, after the brace of its body.
#[tactic(auto, unfolding(crate::specs::Unmarked::enum_body_at))]
pub fn enum_body(
    alloc: Global,
    tag: Option<Name>,
    tokens: &[Lexeme],
) -> Result<(RawEnum, &[Lexeme]), Unread>
    ensures { Gives (λ x. (x.0, x.1.now)) result (enum_body_at tag tokens.now) }
{
    let (body, rest) = inside(tokens)?;
    let constants = enumerators(alloc, body)?;
    Ok((RawEnum { tag, constants }, rest))
}

// The constants of a body: its pieces, which commas that stand in no brackets part.
fn enumerators(alloc: Global, body: &[Lexeme]) -> Result<List<Enumerator>, AllocError>
    ensures { IfOk result (λ found. found ≡ enumerators_of (pieces_from 0 [] body.now)) }
{
    let mut found = List::new(alloc);
    let mut depth = 0;
    let mut start = 0;
    for at in 0..body.len() {
        let token = &body[at];
        if depth == 0 && is_comma(token) {
            found.push(enumerator(alloc, &body[start..at])?)?;
            start = at + 1;
            continue;
        }
        depth = depth_after(depth, token);
    }
    found.push(enumerator(alloc, &body[start..])?)?;
    Ok(found)
}

fn is_comma(token: &Lexeme) -> bool
    ensures { result ≡ is_comma token.now }
{
    matches!(token, Lexeme::Comma(_))
}

// The constant that a piece declares.
fn enumerator(alloc: Global, piece: &[Lexeme]) -> Result<Enumerator, AllocError>
    ensures { IfOk result (λ constant. constant ≡ enumerator_of piece.now) }
{
    match piece {
        [Lexeme::Name(spot)] => Ok(Enumerator::Counted(spot.name(alloc)?)),
        [Lexeme::Name(spot), Lexeme::Equals(_), value @ ..] => {
            let name = spot.name(alloc)?;
            let text = kept_text(alloc, value)?;
            Ok(Enumerator::Valued { name, text })
        }
        [Lexeme::Name(spot), ..] => Ok(Enumerator::Undefined(spot.name(alloc)?)),
        _ => Ok(Enumerator::Passed),
    }
}
