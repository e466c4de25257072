// What a line of a script says.
ghost use Rattle.std.specs.Prelude.{◌≡◌, true, false, List, codes, IfOk, MatchOption};
ghost use Rattle.std.specs.Option.{option_map_or};
ghost use Rattle.std.specs.List.{list_all};
ghost use Rattle.std.specs.Str.{IsUtf8, is_utf8};
ghost use Rattle.std.specs.Str.Lines.{strip_carriage_return};
ghost use Rattle.gt_split.specs.declared.pieces.Piece.{Piece};
ghost use Rattle.gt_script.specs.declared.statements.Known.TheVariants.{All};
ghost use Rattle.gt_split.specs.Texts.{following, is_blank};
ghost use Rattle.gt_script.specs.Commands.{form_at, line_of};
ghost use Rattle.gt_script.specs.Language.{is_comment_of, is_passed_over};
ghost use Rattle.gt_script.specs.Scanning.{spoken_at, said_at, line_at};

use crate::Line;
use crate::heap_forms::command;
use crate::source::Source;
use gt_split::{Piece, Slice, front, is_blank, read_words};
use std::alloc::AllocError;

/// What of a script is known to be UTF-8: all of it, or nothing, so that each line is tested.
#[derive(Clone, Copy, PartialEq, Eq)]
pub enum Known {
    All,
    Nothing,
}

/// What a line that is expected at a place says: None where it is refused, and no line in it where it is passed over. A line of a script
/// that is known to be UTF-8 is not tried again.
#[tactic(auto, unfolding(crate::specs::Scanning::line_at))]
#[inline(always)]
pub fn read_line<'a>(
    source: &Source,
    words: &mut Vec<Piece<'a>>,
    known: Known,
    place: usize,
    bytes: &'a [u8],
) -> Result<Option<Option<Line>>, AllocError>
    requires { known ≡ All → IsUtf8 bytes.now }
    ensures { IfOk result (λ found. found ≡ line_at bytes.now) }
{
    match text_of(known, without_return(bytes)) {
        None => Ok(None),
        Some(text) => read_text(source, words, &Slice::of(text, place)),
    }
}

// A line without its carriage return.
#[inline(always)]
fn without_return(text: &[u8]) -> &[u8]
    ensures { result.now ≡ strip_carriage_return text.now }
{
    match text {
        [before @ .., b'\r'] => before,
        _ => text,
    }
}

// The text that bytes are, where they are UTF-8, which may be known.
#[inline(always)]
fn text_of(known: Known, bytes: &[u8]) -> Option<&str>
    requires { known ≡ All → IsUtf8 bytes.now }
    ensures { MatchOption result (is_utf8 bytes.now ≡ false) (λ text. text.now ≡ bytes.now) }
{
    match known {
        // All of the script is UTF-8.
        Known::All => Some(unsafe { str::from_utf8_unchecked(bytes) }),
        Known::Nothing => decode(bytes),
    }
}

// The text that bytes are, where they are UTF-8.
fn decode(bytes: &[u8]) -> Option<&str>
    ensures { MatchOption result (is_utf8 bytes.now ≡ false) (λ text. text.now ≡ bytes.now) }
{
    let Ok(text) = str::from_utf8(bytes) else {
        return None;
    };
    Some(text)
}

// What a text without its carriage return says.
#[tactic(auto, unfolding(crate::specs::Scanning::said_at))]
#[inline(always)]
fn read_text<'a>(
    source: &Source,
    words: &mut Vec<Piece<'a>>,
    text: &Slice<'a>,
) -> Result<Option<Option<Line>>, AllocError>
    ensures { IfOk result (λ found. found ≡ said_at text.now) }
{
    if is_passed_over(text.text().as_bytes()) {
        return Ok(Some(None));
    }
    match read_command(source, words, text)? {
        None => Ok(None),
        Some(line) => Ok(Some(Some(line))),
    }
}

#[tactic(auto, unfolding(crate::specs::Language::is_passed_over))]
#[inline(always)]
fn is_passed_over(text: &[u8]) -> bool
    ensures { result ≡ is_passed_over text.now }
{
    is_empty_line(text) || is_comment(text)
}

#[inline(always)]
fn is_empty_line(text: &[u8]) -> bool
    ensures { result ≡ list_all is_blank text.now }
{
    text.iter().all(|byte| is_blank(*byte))
}

#[inline(always)]
fn is_comment(text: &[u8]) -> bool
    ensures { result ≡ is_comment_of text.now }
{
    let mut rest = text;
    'spaces: loop {
        match front(rest) {
            None => return false,
            Some((b' ', after)) => rest = after,
            Some((byte, _)) => return byte == b'#',
        }
    }
}

// The line that a text is.
#[inline(always)]
fn read_command<'a>(
    source: &Source,
    words: &mut Vec<Piece<'a>>,
    text: &Slice<'a>,
) -> Result<Option<Line>, AllocError>
    ensures { IfOk result (λ found. found ≡ spoken_at text.now) }
{
    let done = read_words(source.alloc(), text, words)?;
    if !done {
        return Ok(None);
    }
    line(source, words)
}

// The line that words are.
#[tactic(auto, unfolding(crate::specs::Commands::line_of, gt_split::specs::Texts::following))]
#[inline(always)]
fn line(source: &Source, words: &[Piece<'_>]) -> Result<Option<Line>, AllocError>
    ensures { IfOk result (λ found. found ≡ line_of words.now) }
{
    let [word, words @ ..] = words else {
        return Ok(None);
    };
    let Piece::Plain(word) = word else {
        return Ok(None);
    };
    let (quiet, verb) = verb_of(word.bytes());
    read_form(source, quiet, verb, words)
}

// Whether a first word makes its line quiet, and the word without the mark of that.
#[tactic(auto, unfolding(gt_split::specs::Texts::following))]
#[inline(always)]
fn verb_of(word: &[u8]) -> (bool, &[u8])
    ensures { (words : List Piece) → form_at result.0 words result.1.now ≡ option_map_or (form_at true words) (following (codes "@") word.now) (form_at false words word.now) }
{
    match word {
        [b'@', verb @ ..] => (true, verb),
        _ => (false, word),
    }
}

#[inline(always)]
fn read_form(
    source: &Source,
    quiet: bool,
    verb: &[u8],
    words: &[Piece<'_>],
) -> Result<Option<Line>, AllocError>
    ensures { IfOk result (λ found. found ≡ form_at quiet words.now verb.now) }
{
    let Some(command) = command(source, verb, words)? else {
        return Ok(None);
    };
    Ok(Some(Line { quiet, command }))
}
