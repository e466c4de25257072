// The text of a script, of which its names are parts.
ghost use Rattle.std.specs.Prelude.{◌≡◌, Some, None, IfOk, MatchOption};
ghost use Rattle.std.specs.Str.{chars};
ghost use Rattle.gt_script.specs.Values.{name_at};

use crate::naming::{is_ascii_name, is_identifier};
use gt_split::{Slice, escape};
use gt_types::Word;
use memchr::memchr;
use std::alloc::{AllocError, Global};
use std::rc::RcStr;

/// The text of a script as far as it is UTF-8, in which each quoted word stands as it is meant, from its place on, and blanks where it has
/// escapes after it. The words of the script share it, so that they take no memory of their own.
#[derive(Drop)]
pub struct Source {
    alloc: Global,
    text: RcStr,
}

impl Source {
    // The source that a text is, which it shares where it has no escapes.
    pub fn of(alloc: Global, text: &RcStr) -> Result<Source, AllocError> {
        let text = if memchr(b'\\', text.as_str().as_bytes()).is_some() {
            meant_text(alloc, text.as_str())?
        } else {
            text.clone()?
        };
        Ok(Source { alloc, text })
    }

    #[inline(always)]
    pub fn alloc(&self) -> Global {
        self.alloc
    }

    // The word of a text that is expected at a place of the script.
    #[inline(always)]
    pub fn word(&self, place: usize, text: &str) -> Result<Word, AllocError>
        ensures word { IfOk result (λ word. word ≡ chars text.now) }
    {
        Word::at(self.alloc, &self.text, place, text)
    }

    // The name that a slice is.
    #[inline(always)]
    pub fn name(&self, slice: &Slice<'_>) -> Result<Option<Word>, AllocError>
        ensures name { IfOk result (λ found. found ≡ name_at slice.now) }
    {
        let Some(name) = name_in(slice.text()) else {
            return Ok(None);
        };
        Ok(Some(self.word(slice.place(), name)?))
    }
}

// Where a character of a script stands.
#[derive(Clone, Copy)]
enum Side {
    Outside,
    Quoted,
    Escaped,
}

// A text in which each quoted word stands as it is meant, with so many blanks after it as it has escapes.
fn meant_text(alloc: Global, text: &str) -> Result<RcStr, AllocError> {
    let mut meant = String::new(alloc);
    let mut side = Side::Outside;
    let mut escapes: usize = 0;
    for c in text.chars() {
        side = match (side, c) {
            (Side::Quoted, '\\') => {
                escapes = escapes.saturating_add(1);
                Side::Escaped
            }
            (Side::Quoted, '"') | (Side::Quoted | Side::Escaped, '\n') => {
                push_blanks(&mut meant, escapes)?;
                escapes = 0;
                meant.push(c)?;
                Side::Outside
            }
            (Side::Outside, '"') => {
                meant.push('"')?;
                Side::Quoted
            }
            (Side::Escaped, letter) => {
                meant.push(meaning(letter))?;
                Side::Quoted
            }
            (side, c) => {
                meant.push(c)?;
                side
            }
        };
    }
    RcStr::from_str(alloc, meant.as_str())
}

// The character that one after a backslash means, or itself where it means nothing.
fn meaning(letter: char) -> char {
    match u8::try_from(letter) {
        Ok(letter) => char::from(escape(letter).unwrap_or(letter)),
        Err(_) => letter,
    }
}

// Adds so many blanks.
fn push_blanks(text: &mut String, count: usize) -> Result<(), AllocError> {
    for _ in 0..count {
        text.push(' ')?;
    }
    Ok(())
}

// The name that a text is.
#[inline(always)]
pub fn name_in(text: &str) -> Option<&str>
    ensures name { MatchOption result (name_at text.now ≡ None) (λ name. name_at text.now ≡ Some (chars name.now)) }
{
    if is_ascii_name(text.as_bytes()) {
        return Some(text);
    }
    any_name(text)
}

// The same of any characters.
fn any_name(text: &str) -> Option<&str>
    ensures name { MatchOption result (name_at text.now ≡ None) (λ name. name_at text.now ≡ Some (chars name.now)) }
{
    if is_identifier(text) {
        Some(text)
    } else {
        None
    }
}
