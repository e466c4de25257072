// The lines of a script.
ghost use Rattle.std.specs.Prelude.{◌≡◌, ◌<◌, ◌^◌, length, IfOk, IfErr, MatchResult, Ok, Err};
ghost use Rattle.std.specs.Str.{IsUtf8};
ghost use Rattle.std.specs.String.{string_bytes};
ghost use Rattle.gt_script.specs.declared.statements.Known.TheVariants.{All};
ghost use Rattle.gt_script.specs.Outcome.{Parsed, IsScriptStop};
ghost use Rattle.gt_script.specs.Scanning.{outcome_of, IsOutcomeUnlessMemory};

use crate::Line;
use crate::source::Source;
use crate::statements::{Known, read_line};
use crate::stop::{MAX_COMMANDS, ScriptStop};
use gt_split::{Piece, first_line};
use gt_types::{Bytes, List};
use std::alloc::Global;
use std::rc::RcStr;

/// The lines of a script of fewer than 2 to the 32 bytes, without its blank lines and comments. It fails with
/// `Memory` only if memory runs out; with `ScriptSyntax` and the number of the first line that is refused, from 1 and with
/// all lines counted; or with `ScriptTooLong` where there are more than 1,000,000 commands and no line up to the
/// 1,000,001st command is refused.
///
/// Lines end with a newline, which the last line may lack; one carriage return at a line's end is dropped. A line of
/// spaces and tabs, and one that is `#` after spaces alone and anything else, is passed over. Any other line is one of
/// these commands, with `@` directly before its first word where it is quiet. Spaces and tabs separate its words, and
/// may stand at both ends:
///
/// ```text
/// new $v T      array $v T N      block $v N      set PATH VALUE    put C $k $v      collect          save "f" PAGE
/// new $v T N    string $v "text"  drop $v         get $v PATH       find C $k        collect force    load "f"
///                                                 print PATH                         tables, heap, stats
///
/// variable := "$" NAME         T := NAME | NAME "*"        C := NAME
/// PATH  := (variable | NAME) { "." NAME | "[" DIGITS "]" }
/// VALUE := INTEGER | "null" | variable
/// N, PAGE := INTEGER           "text", "f" := quoted, with \\ \" \n \0
/// ```
///
/// A NAME is an identifier of Unicode's Annex 31, or begins with `_`. An INTEGER is decimal without a leading zero, or
/// `0x` and hexadecimal digits, with an optional `-`, and is from -2^63 to 2^64 - 1; DIGITS is decimal without a leading
/// zero and below 2^64. The name of a file is not empty and has no zero. Nothing touches a quoted word. A line that is
/// not UTF-8 is refused, also a comment.
///
/// The text is taken over: the words of the lines are parts of it.
pub fn parse_script(alloc: Global, text: Bytes) -> Result<List<Line>, ScriptStop>
    requires short { length text < 2 ^ 32 }
    ensures lines { IfOk result (λ lines. Parsed text lines) }
    ensures fault { IfErr result (IsScriptStop text) }
{
    match String::from_utf8(text.into_vec()) {
        Ok(text) => parse_text(alloc, text),
        Err(error) => parse_bytes(alloc, error.as_bytes()),
    }
}

// The same of a text that is UTF-8, of which the words of the lines are parts.
fn parse_text(alloc: Global, text: String) -> Result<List<Line>, ScriptStop>
    requires short { length (string_bytes text) < 2 ^ 32 }
    ensures lines { IfOk result (λ lines. Parsed (string_bytes text) lines) }
    ensures fault { IfErr result (IsScriptStop (string_bytes text)) }
{
    let text = RcStr::from_string(text)?;
    let source = Source::of(alloc, &text)?;
    parse_lines(&source, Known::All, text.as_str().as_bytes())
}

// The same of bytes that are not, each line of which is tested.
fn parse_bytes(alloc: Global, text: &[u8]) -> Result<List<Line>, ScriptStop>
    requires short { length text.now < 2 ^ 32 }
    ensures lines { IfOk result (λ lines. Parsed text.now lines) }
    ensures fault { IfErr result (IsScriptStop text.now) }
{
    let front = RcStr::from_str(alloc, utf8_front(text))?;
    let source = Source::of(alloc, &front)?;
    parse_lines(&source, Known::Nothing, text)
}

// The front of a text as far as it is UTF-8.
fn utf8_front(text: &[u8]) -> &str {
    match str::from_utf8(text) {
        Ok(all) => all,
        Err(error) => front_of(text, error.valid_up_to()),
    }
}

// The text of so many bytes.
fn front_of(bytes: &[u8], len: usize) -> &str {
    let Some(front) = bytes.get(..len) else {
        return "";
    };
    str::from_utf8(front).unwrap_or("")
}

// The lines of a text that is the source of their words.
fn parse_lines(source: &Source, known: Known, text: &[u8]) -> Result<List<Line>, ScriptStop>
    requires short { length text.now < 2 ^ 32 }
    requires utf8 { known ≡ All → IsUtf8 text.now }
    ensures lines { IfOk result (λ lines. Parsed text.now lines) }
    ensures fault { IfErr result (IsScriptStop text.now) }
{
    let mut words = Vec::new(source.alloc());
    match read_script(source, &mut words, known, text) {
        Ok(lines) => Ok(lines),
        Err(stop) => Err(stop),
    }
}

// The same, as the outcome of reading line by line.
fn read_script<'a>(
    source: &Source,
    words: &mut Vec<Piece<'a>>,
    known: Known,
    text: &'a [u8],
) -> Result<List<Line>, ScriptStop>
    requires short { length text.now < 2 ^ 32 }
    requires utf8 { known ≡ All → IsUtf8 text.now }
    ensures { IsOutcomeUnlessMemory result (outcome_of text.now) }
{
    let mut lines = List::new(source.alloc());
    let mut number: u32 = 0;
    let mut rest = text;
    while !rest.is_empty() {
        let (line, after) = first_line(rest);
        let place = text.len().saturating_sub(rest.len());
        number += 1;
        rest = after;
        let Some(said) = read_line(source, words, known, place, line)? else {
            return Err(ScriptStop::ScriptSyntax { line: number });
        };
        let Some(line) = said else {
            continue;
        };
        if lines.len() == MAX_COMMANDS {
            return Err(ScriptStop::ScriptTooLong);
        }
        lines.push(line)?;
    }
    Ok(lines)
}
