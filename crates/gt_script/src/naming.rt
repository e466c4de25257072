// Names, as headers have them.
ghost use Rattle.std.specs.Prelude.{◌≡◌, ◌<◌, ◌==◌, ◌||◌, true, [], ◌∷◌, length, IfOk, MatchOption};
ghost use Rattle.std.specs.Char.{is_ascii_alphabetic, is_ascii_alphanumeric};
ghost use Rattle.std.specs.List.{list_all, list_any};
ghost use Rattle.std.specs.Str.{chars, IsAscii, IsUtf8};
ghost use Rattle.gt_text.specs.Identifier.{continues_identifier_of};
ghost use Rattle.gt_script.specs.Values.{is_identifier_of, variable_at, named_type, type_at, file_at};

use crate::TypeName;
use crate::source::Source;
use gt_split::{Quoted, Slice, front};
use gt_text::{continues_identifier, starts_identifier};
use gt_types::Word;
use std::alloc::AllocError;

// The first character of a text, and what follows it.
fn first(text: &str) -> Option<(char, &str)>
    ensures { MatchOption result (chars text.now ≡ []) (λ r. (chars text.now ≡ r.0 ∷ chars r.1.now) × (length r.1.now < length text.now) × IsUtf8 r.1.now) }
{
    let mut characters = text.chars();
    let c = characters.next()?;
    Some((c, characters.as_str()))
}

#[tactic(auto, unfolding(crate::specs::Values::is_identifier_of))]
pub fn is_identifier(text: &str) -> bool
    ensures { result ≡ is_identifier_of (chars text.now) }
{
    match first(text) {
        None => false,
        Some((c, others)) => starts_identifier(c) && all_continue(others),
    }
}

fn all_continue(text: &str) -> bool
    ensures { result ≡ list_all continues_identifier_of (chars text.now) }
{
    text.chars().all(|c| continues_identifier(c))
}

// Whether bytes are a name of ASCII characters alone. It is quick, and most names are.
#[inline(always)]
pub fn is_ascii_name(bytes: &[u8]) -> bool
    ensures ascii { result ≡ true → IsAscii bytes.now }
    ensures name { result ≡ true → is_identifier_of bytes.now ≡ true }
{
    match front(bytes) {
        None => false,
        Some((first, others)) => starts_ascii_name(first) && all_continue_ascii_name(others),
    }
}

#[inline(always)]
fn all_continue_ascii_name(bytes: &[u8]) -> bool
    ensures { result ≡ list_all (λ c. (c == 95) || is_ascii_alphanumeric c) bytes.now }
{
    bytes.iter().all(|byte| continues_ascii_name(*byte))
}

#[inline(always)]
fn starts_ascii_name(byte: u8) -> bool
    ensures { result ≡ ((byte == 95) || is_ascii_alphabetic byte) }
{
    byte == b'_' || byte.is_ascii_alphabetic()
}

#[inline(always)]
fn continues_ascii_name(byte: u8) -> bool
    ensures { result ≡ ((byte == 95) || is_ascii_alphanumeric byte) }
{
    byte == b'_' || byte.is_ascii_alphanumeric()
}

// The name of the variable that a word is.
#[tactic(auto, unfolding(crate::specs::Values::variable_at))]
pub fn variable(source: &Source, word: &Slice<'_>) -> Result<Option<Word>, AllocError>
    ensures { IfOk result (λ found. found ≡ variable_at word.now) }
{
    let Some(name) = word.after(b'$') else {
        return Ok(None);
    };
    source.name(&name)
}

// The type that a word is.
#[tactic(auto, unfolding(crate::specs::Values::type_at))]
pub fn type_name(source: &Source, word: &Slice<'_>) -> Result<Option<TypeName>, AllocError>
    ensures { IfOk result (λ found. found ≡ type_at word.now) }
{
    match word.before(b'*') {
        Some(name) => named_type(source, true, &name),
        None => named_type(source, false, word),
    }
}

fn named_type(source: &Source, star: bool, name: &Slice<'_>) -> Result<Option<TypeName>, AllocError>
    ensures { IfOk result (λ found. found ≡ named_type star name.now) }
{
    let Some(name) = source.name(name)? else {
        return Ok(None);
    };
    Ok(Some(TypeName { name, star }))
}

// The name of a file that a quoted word is.
pub fn file_name(source: &Source, quoted: &Quoted) -> Result<Option<Word>, AllocError>
    ensures { IfOk result (λ found. found ≡ file_at quoted.now) }
{
    file_at(source, quoted.place(), quoted.text())
}

// The same of its text and the place at which it is expected.
#[tactic(auto, unfolding(crate::specs::Values::file_at))]
fn file_at(source: &Source, place: usize, text: &str) -> Result<Option<Word>, AllocError>
    ensures { IfOk result (λ found. found ≡ file_at text.now) }
{
    if text.is_empty() || has_zero(text.as_bytes()) {
        return Ok(None);
    }
    Ok(Some(source.word(place, text)?))
}

fn has_zero(text: &[u8]) -> bool
    ensures { result ≡ list_any (λ c. c == 0) text.now }
{
    text.iter().any(|byte| *byte == 0)
}
