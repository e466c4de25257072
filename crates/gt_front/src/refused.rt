// The one line of a refusal: the word as it was given, what is said of it, and a newline.
ghost use Rattle.std.specs.Prelude.{◌≡◌, ◌≤◌, ◌-◌, ◌++◌, All, IfOk, List, codes, length, slice_get, ℕ, Some};
ghost use Rattle.gt_words.specs.Calls.{call_of};
ghost use Rattle.gt_front.specs.Refused.{IsFaultLine, IsLineOf, IsRefusalLine, fault_name, fault_text, script_text, why_text, word_at};
ghost use Rattle.gt_front.specs.Stages.{HasWordAt};
ghost use Rattle.gt_front.specs.Texts.{Texts};

use crate::places::{Position, place_in};
use crate::{FileWhy, MAX_HEADER_BYTES, Refusal, SCRIPT_SYNTAX};
use gt_digits::push_decimal;
use gt_types::{Bytes, Fault, Word};
use gt_words::{Call, Script};
use std::alloc::{AllocError, Global};

/// The line of arguments that are refused.
pub fn words_line(alloc: Global) -> Result<Bytes, AllocError>
    ensures line { (words : List (List ℕ)) (texts : Texts) → IfOk result (IsRefusalLine words texts Refusal.Words) }
{
    Bytes::of(alloc, b"words: refused\n")
}

/// The line of a script with a command that is not built yet.
pub fn not_built_line(alloc: Global, call: &Call) -> Result<Bytes, AllocError>
    ensures line { (words : List (List ℕ)) (texts : Texts) → call_of words ≡ Some call.now → IfOk result (IsRefusalLine words texts Refusal.NotBuilt) }
{
    file_line(alloc, call, 0, b": not built")
}

/// The line of a header's fault, at its place in the header's text.
pub fn fault_line(
    alloc: Global,
    call: &Call,
    texts: &[Bytes],
    fault: Fault,
) -> Result<Bytes, AllocError>
    requires counted { 1 ≤ fault.file }
    requires there { fault.file ≤ length texts.now }
    requires each { HasWordAt call.now (length texts.now) }
    requires short { All (λ text. length text ≤ MAX_HEADER_BYTES) texts.now }
    ensures line { (words : List (List ℕ)) (script : List ℕ) → call_of words ≡ Some call.now
        → IfOk result (IsFaultLine words (record { headers = texts.now; script = script }) fault) }
{
    let text = texts[fault.file as usize - 1].as_slice();
    let place = place_in(text, fault.at);
    let said = fault_text(alloc, place, fault.number)?;
    file_line(alloc, call, fault.file, said.as_slice())
}

/// The line of a fault of the script.
pub fn script_line(alloc: Global, call: &Call, number: u8, line: u32) -> Result<Bytes, AllocError>
    ensures line { (words : List (List ℕ)) → call_of words ≡ Some call.now → IfOk result (IsLineOf words 0 (script_text number line)) }
{
    let said = script_text(alloc, number, line)?;
    file_line(alloc, call, 0, said.as_slice())
}

/// The line that begins with the argument at a place, 0 for the script and i for the i-th header, and goes on with this
/// text. With a generated script, which has no headers, it begins with the script's.
pub fn file_line(alloc: Global, call: &Call, word: u32, said: &[u8]) -> Result<Bytes, AllocError>
    requires there { HasWordAt call.now word }
    ensures line { (words : List (List ℕ)) → call_of words ≡ Some call.now → IfOk result (IsLineOf words word said.now) }
{
    let mut line = Bytes::of(alloc, word_at(call, word).as_str().as_bytes())?;
    line.append(said)?;
    line.append(b"\n")?;
    Ok(line)
}

/// What is said of a file that was not read.
pub fn why_text(why: FileWhy) -> &'static [u8]
    ensures { result.now ≡ why_text why }
{
    match why {
        FileWhy::Missing => b": missing",
        FileWhy::TooLong => b": too long",
        FileWhy::Fault => b": read fault",
    }
}

// The word at a place as it was given.
fn word_at(call: &Call, word: u32) -> &Word
    requires there { HasWordAt call.now word }
    ensures { word_at call.now word ≡ Some result.now }
{
    match &call.script {
        Script::File(name) => file_word(name, call.headers.as_slice(), word),
        Script::Generated { word, .. } => word,
    }
}

// The name at a place, of the script or of a header.
fn file_word<'a>(script: &'a Word, headers: &'a [Word], place: u32) -> &'a Word
    requires there { place ≤ length headers.now }
    ensures script { place ≡ 0 → result.now ≡ script.now }
    ensures header { 1 ≤ place → slice_get headers.now (place - 1) ≡ Some result.now }
{
    if place == 0 {
        return script;
    }
    &headers[place as usize - 1]
}

// What is said of a fault: its place in its text, and its number and name.
fn fault_text(alloc: Global, place: Position, number: u8) -> Result<Bytes, AllocError>
    ensures { IfOk result (λ bytes. bytes ≡ fault_text place.line place.column number) }
{
    let mut said = Bytes::of(alloc, b":")?;
    push_decimal(alloc, &mut said, place.line as u64)?;
    said.append(b":")?;
    push_decimal(alloc, &mut said, place.column as u64)?;
    said.append(b": fault ")?;
    push_decimal(alloc, &mut said, number as u64)?;
    said.append(b" ")?;
    said.append(fault_name(number))?;
    Ok(said)
}

// The name of a header's fault.
#[tactic(auto, unfolding(crate::specs::Refused::fault_name))]
fn fault_name(number: u8) -> &'static [u8]
    ensures { result.now ≡ fault_name number }
{
    match number {
        1 => b"BadUtf8",
        2 => b"OpenComment",
        3 => b"OpenString",
        4 => b"BadNumber",
        5 => b"BadExpr",
        6 => b"ExprTooLarge",
        7 => b"Unclosed",
        8 => b"Unexpected",
        9 => b"Unsupported",
        10 => b"BadMarkerPlace",
        11 => b"Redefined",
        12 => b"Undefined",
        13 => b"ByValueCycle",
        14 => b"BadBound",
        15 => b"TooMany",
        16 => b"UnknownOption",
        17 => b"WrongPlace",
        18 => b"MissingDesc",
        19 => b"DuplicateTag",
        20 => b"BadPath",
        21 => b"ChainNotOwnPointer",
        22 => b"UnknownHook",
        23 => b"CacheShape",
        24 => b"TypeTooLarge",
        _ => b"",
    }
}

// What is said of a fault of the script.
fn script_text(alloc: Global, number: u8, line: u32) -> Result<Bytes, AllocError>
    ensures { IfOk result (λ bytes. bytes ≡ script_text number line) }
{
    if number != SCRIPT_SYNTAX {
        return Bytes::of(alloc, b": fault 26 ScriptTooLong");
    }
    let mut said = Bytes::of(alloc, b":")?;
    push_decimal(alloc, &mut said, line as u64)?;
    said.append(b": fault 25 ScriptSyntax")?;
    Ok(said)
}
