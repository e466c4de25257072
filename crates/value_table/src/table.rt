// The rows of the table, one line after another.
ghost use Rattle.value_notation.specs.Trials.{IsReady};

use crate::finding::{Seen, try_element, try_leaf};
use crate::repeats::{Part, repeat};
use crate::statics::{try_record, try_root};
use crate::trials::{Trial, try_row};
use std::alloc::{AllocError, Global};
use value_notation::{
    Leaf, MALFORMED, Refusal, Row, Sample, Stop, hexadecimal, read_path, remark, stopped,
    text_difference, word_difference,
};

// What a row wants of its last value.
#[derive(Clone, Copy)]
enum Wanted<'a> {
    Text(&'a str),
    Bytes(&'a str),
}

/// What a row comes out as, if that is not what it wants.
pub fn difference(on: &Sample, line: &str) -> Result<Option<String>, AllocError>
    requires ready { IsReady on.now.program on.now.layouts }
{
    if let Some(row) = line.strip_prefix("leaf ") {
        return leaf_difference(on, row);
    }
    if let Some(bytes) = line.strip_prefix("roots => ") {
        return record_difference(on, bytes);
    }
    if let Some(row) = line.strip_prefix("times ") {
        return times_difference(on, row);
    }
    value_difference(on, line)
}

// The same of a row that does a part of a trial so many times.
fn times_difference(on: &Sample, line: &str) -> Result<Option<String>, AllocError>
    requires ready { IsReady on.now.program on.now.layouts }
{
    let Some((words, wanted)) = line.split_once(" -> ") else {
        return remark(on.alloc, MALFORMED);
    };
    match repeated(on, words) {
        Ok(()) => word_difference(on.alloc, "done", wanted),
        Err(stop) => stopped(on.alloc, stop),
    }
}

// Does the part that words name, as many times as they say.
fn repeated(on: &Sample, words: &str) -> Result<(), Stop>
    requires ready { IsReady on.now.program on.now.layouts }
{
    let Some((times, rest)) = words.split_once(" ") else {
        return Err(Stop::Malformed);
    };
    let (Ok(times), Some((name, value))) = (times.parse::<u32>(), rest.split_once(" ")) else {
        return Err(Stop::Malformed);
    };
    let Some(part) = Part::named(name) else {
        return Err(Stop::Malformed);
    };
    let row = Row::read(on.alloc, value)?;
    repeat(on, &row, part, times)
}

// The same of a row that says where a leaf lies.
fn leaf_difference(on: &Sample, line: &str) -> Result<Option<String>, AllocError>
    requires ready { IsReady on.now.program on.now.layouts }
{
    let Some((words, wanted)) = line.split_once(" -> ") else {
        return remark(on.alloc, MALFORMED);
    };
    match seen_at(on, words) {
        Ok(Some(seen)) => text_difference(seen.text(on.alloc)?, wanted),
        Ok(None) if wanted == "none" => Ok(None),
        Ok(None) => remark(on.alloc, "none"),
        Err(stop) => stopped(on.alloc, stop),
    }
}

// The same of a row that says what bytes stand for the static record.
fn record_difference(on: &Sample, wanted: &str) -> Result<Option<String>, AllocError>
    requires ready { IsReady on.now.program on.now.layouts }
{
    match try_record(on) {
        Ok(bytes) => text_difference(hexadecimal(on.alloc, &bytes)?, wanted),
        Err(Stop::Memory) => Err(AllocError),
        Err(_) => remark(on.alloc, "no value"),
    }
}

// The leaf that words name.
fn seen_at(on: &Sample, words: &str) -> Result<Option<Seen>, Stop>
    requires ready { IsReady on.now.program on.now.layouts }
{
    if let Some(leaf) = words.strip_prefix("element ") {
        return try_element(on, Leaf::read(on.alloc, leaf)?);
    }
    let Some((value, place)) = words.split_once(" at ") else {
        return Err(Stop::Malformed);
    };
    let path = read_path(on.alloc, place)?;
    if value == "roots" {
        return try_root(on, &path);
    }
    let row = Row::read(on.alloc, value)?;
    try_leaf(on, &row, &path)
}

// The same of a row that says what text a value has, or what bytes stand for it.
fn value_difference(on: &Sample, line: &str) -> Result<Option<String>, AllocError>
    requires ready { IsReady on.now.program on.now.layouts }
{
    let (words, wanted) = match (line.split_once(" -> "), line.split_once(" => ")) {
        (Some((words, text)), _) => (words, Wanted::Text(text)),
        (None, Some((words, bytes))) => (words, Wanted::Bytes(bytes)),
        (None, None) => return remark(on.alloc, MALFORMED),
    };
    let row = match Row::read(on.alloc, words) {
        Ok(row) => row,
        Err(Refusal::Malformed) => return remark(on.alloc, MALFORMED),
        Err(Refusal::Memory) => return Err(AllocError),
    };
    match (try_row(on, &row), wanted) {
        (Err(Stop::Memory), _) => Err(AllocError),
        (Err(Stop::Misfit), Wanted::Text("misfit")) => Ok(None),
        (Err(Stop::Misfit), _) => remark(on.alloc, "misfit"),
        (Err(Stop::Early), _) => remark(on.alloc, "misfit before the last write"),
        (Err(Stop::Malformed), _) => remark(on.alloc, MALFORMED),
        (Err(Stop::TooLarge), _) => remark(on.alloc, "larger than the space"),
        (Ok(trial), wanted) => compare(on.alloc, &trial, wanted),
    }
}

// What a value is seen to be, if that is not what is wanted, or is not what is read from its bytes.
fn compare(alloc: Global, trial: &Trial, wanted: Wanted<'_>) -> Result<Option<String>, AllocError> {
    let text = trial.text.as_slice();
    let found = match wanted {
        Wanted::Text(wanted) if wanted.as_bytes() == text => None,
        Wanted::Text(_) => Some(shown(alloc, text)?),
        Wanted::Bytes(wanted) => {
            let digits = hexadecimal(alloc, trial.bytes.as_slice())?;
            if digits.as_str() == wanted {
                None
            } else {
                Some(digits)
            }
        }
    };
    if found.is_none() && trial.reread.as_slice() != text {
        return Ok(Some(shown(alloc, trial.reread.as_slice())?));
    }
    Ok(found)
}

// A text of ASCII characters.
fn shown(alloc: Global, text: &[u8]) -> Result<String, AllocError> {
    let mut shown = String::new(alloc);
    for byte in text {
        shown.push(char::from(*byte))?;
    }
    Ok(shown)
}
