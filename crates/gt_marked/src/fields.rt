// The fields of a structure.
ghost use Rattle.std.specs.Prelude.{◌≡◌, [], length};
ghost use Rattle.std.specs.Option.{option_map};
ghost use Rattle.gt_marked.specs.Outcome.{Gives};
ghost use Rattle.gt_marked.specs.Fields.{is_access, no_label_at, field_at, brace_after, fields_from};

use crate::declarators::declarators;
use crate::types::{Context, base_type};
use crate::unread::Unread;
use gt_items::RawField;
use gt_search::{Bracket, Lexeme, UNSUPPORTED};
use gt_types::{List, Word};
use std::alloc::Global;

/// Fields up to a closing brace, one or more.
pub fn fields(alloc: Global, tokens: &[Lexeme]) -> Result<(List<RawField>, &[Lexeme]), Unread>
    ensures { Gives (λ x. (x.0, x.1.now)) result (fields_from (length tokens.now) [] tokens.now) }
{
    let mut fields = List::new(alloc);
    let mut rest = tokens;
    for _ in 0..tokens.len() {
        let (one, after) = field(alloc, rest)?;
        fields.push(one)?;
        if let Some(following) = after_brace(after) {
            return Ok((fields, following));
        }
        rest = after;
    }
    Err(Unread::Ended)
}

// The tokens after a brace that closes at the front.
fn after_brace(tokens: &[Lexeme]) -> Option<&[Lexeme]>
    ensures { option_map (λ rest. rest.now) result ≡ brace_after tokens.now }
{
    match tokens {
        [Lexeme::Close(Bracket::Brace, _), rest @ ..] => Some(rest),
        _ => None,
    }
}

#[tactic(auto, unfolding(crate::specs::Fields::field_at))]
fn field(alloc: Global, tokens: &[Lexeme]) -> Result<(RawField, &[Lexeme]), Unread>
    ensures { Gives (λ x. (x.0, x.1.now)) result (field_at tokens.now) }
{
    let rest = no_label(tokens)?;
    let (ty, rest) = base_type(alloc, Context::InField, rest)?;
    let (declarators, rest) = declarators(alloc, rest)?;
    Ok((RawField { ty, declarators }, rest))
}

// No access label may stand at the front.
#[tactic(auto, unfolding(crate::specs::Fields::no_label_at))]
fn no_label(tokens: &[Lexeme]) -> Result<&[Lexeme], Unread>
    ensures { Gives (λ rest. (tt, rest.now)) result (no_label_at tokens.now) }
{
    let [Lexeme::Name(spot), Lexeme::Colon(_), ..] = tokens else {
        return Ok(tokens);
    };
    if is_access(&spot.word) {
        return Err(Unread::Fault {
            number: UNSUPPORTED,
            at: spot.start,
        });
    }
    Ok(tokens)
}

fn is_access(word: &Word) -> bool
    ensures { result ≡ is_access word.now }
{
    word.is("public") || word.is("private") || word.is("protected")
}
