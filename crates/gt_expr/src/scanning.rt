ghost use Rattle.std.specs.Prelude.{◌≡◌, ◌≤◌, ◌<◌, [], ◌∷◌, length, IfOk, MatchOption};
ghost use Rattle.gt_expr.specs.Parts.{part_at, parts_of, word_at, BeginsPart};

use crate::integers::integer_len;
use crate::names::name_at;
use crate::part::Part;
use crate::symbols::symbol_at;
use gt_text::{integer_value, is_white_space};
use gt_types::Word;
use std::alloc::{AllocError, Global};

// The next part of a text and what stands after it, or None where there is none.
pub fn next_part(alloc: Global, text: &[u8]) -> Result<Option<(Part, &[u8])>, AllocError>
    ensures { IfOk result (λ next. MatchOption next (parts_of text.now ≡ []) (λ x. parts_of text.now ≡ x.0 ∷ parts_of x.1.now)) }
{
    let text = without_white_space(text);
    if text.is_empty() {
        return Ok(None);
    }
    let (part, len) = part_at(alloc, text)?;
    Ok(Some((part, &text[len..])))
}

// A text without the white space at its front.
fn without_white_space(text: &[u8]) -> &[u8]
    ensures same { parts_of result.now ≡ parts_of text.now }
    ensures begins { BeginsPart result.now }
{
    let mut rest = text;
    loop {
        match rest {
            [byte, after @ ..] if is_white_space(*byte) => rest = after,
            _ => return rest,
        }
    }
}

// The part at the front of a text and its length: an integer, or else a word.
#[tactic(auto, unfolding(crate::specs::Parts::part_at))]
fn part_at(alloc: Global, text: &[u8]) -> Result<(Part, usize), AllocError>
    ensures part { IfOk result (λ x. x ≡ part_at text.now) }
    ensures within { 0 < length text.now → IfOk result (λ x. x.1 ≤ length text.now) }
    ensures some { IfOk result (λ x. 0 < x.1) }
{
    let len = integer_len(text);
    if let Some(value) = integer_value(&text[..len]) {
        return Ok((Part::Integer(value), len));
    }
    word_at(alloc, text)
}

// An identifier at the front of a text and its length, or else a symbol.
#[tactic(auto, unfolding(crate::specs::Parts::word_at))]
fn word_at(alloc: Global, text: &[u8]) -> Result<(Part, usize), AllocError>
    ensures part { IfOk result (λ x. x ≡ word_at text.now) }
    ensures within { 0 < length text.now → IfOk result (λ x. x.1 ≤ length text.now) }
    ensures some { IfOk result (λ x. 0 < x.1) }
{
    let name = name_at(text);
    if name.is_empty() {
        return Ok(symbol_at(text));
    }
    Ok((Part::Name(Word::of(alloc, name)?), name.len()))
}
