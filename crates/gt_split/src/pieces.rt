// The words of a line.
ghost use Rattle.std.specs.Prelude.{◌≡◌, ◌≤◌, cond, Some, None, length, IfOk};
ghost use Rattle.std.specs.Option.{option_map};
ghost use Rattle.std.specs.List.{prefix_len};
ghost use Rattle.gt_split.specs.Texts.{is_blank, ends_word};
ghost use Rattle.gt_split.specs.Cutting.{without_blanks, quoted_word_at, plain_len, word_at, few_of};

use crate::parts::front;
use crate::quotes::read_quoted;
use crate::slices::{Quoted, Slice};
use std::alloc::{AllocError, Global};

// How many words the longest form of a command has.
const MOST_WORDS: usize = 4;

/// A word of a line: its text, or what a quoted one means.
#[derive(Drop)]
pub enum Piece<'a> {
    Plain(Slice<'a>),
    Quoted(Quoted),
}

/// Whether a byte is a space or a tab.
#[tactic(auto, unfolding(crate::specs::Texts::is_blank))]
#[inline(always)]
pub fn is_blank(byte: u8) -> bool
    ensures { result ≡ is_blank byte }
{
    byte == b' ' || byte == b'\t'
}

/// Makes a list that of the words of a line, and says whether that is done: it is not where there are more of them than any command
/// has, or a quoted one has no end, has an escape that means nothing, or touches another word. Its only error is out of memory. It takes
/// time by the length of the line, and memory only for quoted words and where the list is too short.
#[inline(always)]
pub fn read_words<'a>(
    alloc: Global,
    text: &Slice<'a>,
    words: &mut Vec<Piece<'a>>,
) -> Result<bool, AllocError>
    ensures { IfOk result (λ done. cond done (Some words.new.items) None ≡ few_of text.now) }
{
    words.clear();
    let all = text.text();
    let end = text.place().wrapping_add(all.len());
    let mut rest = without_blanks(all);
    while !rest.is_empty() {
        if words.len() == MOST_WORDS {
            return Ok(false);
        }
        let place = end.wrapping_sub(rest.len());
        let Some((word, after)) = word_at(alloc, &Slice::of(rest, place))? else {
            return Ok(false);
        };
        words.push(word)?;
        rest = without_blanks(after);
    }
    Ok(true)
}

#[inline(always)]
fn without_blanks(text: &str) -> &str
    ensures { result.now ≡ without_blanks text.now }
{
    &text[blank_len(text.as_bytes())..]
}

// How many blanks stand at the front.
#[inline(always)]
fn blank_len(text: &[u8]) -> usize
    ensures { result ≡ prefix_len is_blank text.now }
{
    text.iter().take_while(|byte| is_blank(**byte)).count()
}

// The first word and what stands after it.
#[tactic(auto, unfolding(crate::specs::Cutting::word_at))]
#[inline(always)]
fn word_at<'a>(alloc: Global, text: &Slice<'a>) -> Result<Option<(Piece<'a>, &'a str)>, AllocError>
    ensures { IfOk result (λ found. option_map (λ r. (r.0, r.1.now)) found ≡ word_at text.now) }
{
    let Some((_, others)) = front(text.bytes()) else {
        return Ok(None);
    };
    match text.after(b'"') {
        Some(inside) => quoted_word(alloc, &inside),
        None => {
            let (word, after) = text.split_at(1 + plain_len(others));
            Ok(Some((Piece::Plain(word), after.text())))
        }
    }
}

// How many bytes stand before the first blank.
#[inline(always)]
fn plain_len(text: &[u8]) -> usize
    ensures len { result ≡ plain_len text.now }
    ensures within { result ≤ length text.now }
{
    text.iter().take_while(|byte| !is_blank(**byte)).count()
}

// The quoted word after an opening quote, and what stands after it.
#[tactic(auto, unfolding(crate::specs::Cutting::quoted_word_at))]
fn quoted_word<'a>(
    alloc: Global,
    text: &Slice<'a>,
) -> Result<Option<(Piece<'a>, &'a str)>, AllocError>
    ensures { IfOk result (λ found. option_map (λ r. (r.0, r.1.now)) found ≡ quoted_word_at text.now) }
{
    let Some((bytes, after)) = read_quoted(alloc, text.text().as_bytes())? else {
        return Ok(None);
    };
    if !ends_word(after) {
        return Ok(None);
    }
    let quoted = Quoted::of(bytes, text.place());
    // It stands after a quote.
    let after = unsafe { str::from_utf8_unchecked(after) };
    Ok(Some((Piece::Quoted(quoted), after)))
}

#[inline(always)]
fn ends_word(text: &[u8]) -> bool
    ensures { result ≡ ends_word text.now }
{
    match text {
        [] => true,
        [byte, ..] => is_blank(*byte),
    }
}
