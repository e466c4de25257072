//! The table of refusals: for each form of a command that is built, the causes for which it is refused, in the order in which they
//! are looked for, as docs/SCRIPT.md shows them. Each line of the input is a form, ` = `, and a command of this form. A cause is named by
//! the number that the text of its refusal has; one that has several refusals by a letter: P a path, K a key, V a value.
#![tactic(auto)]

use gt_answers::text;
use gt_next::{Answer, Why};
use gt_refusals::{Cause, refusals};
use gt_script::{Line, ScriptStop, parse_script};
use gt_types::{Bytes, List};
use std::alloc::{AllocError, Global};
use std::io;

/// What names a cause in the table: its refusal, or a letter where it has several.
#[derive(Clone, Copy)]
enum Mark {
    Refusal(Why),
    Path,
    Key,
    Value,
}

fn main(rt: HostRuntime) -> io::Result<()> {
    let alloc = rt.alloc();
    let table = io::read_to_string(alloc, rt.stdin())?;
    for row in table.lines() {
        if let Some((form, command)) = row.split_once(" = ") {
            let causes = causes_of(alloc, command)?;
            println!(rt; "{form}: {causes}")?;
        }
    }
    Ok(())
}

// The causes for which a command is refused, or that it is no command.
fn causes_of(alloc: Global, text: &str) -> Result<String, AllocError> {
    if text.len() >= 1 << 32 {
        return String::from_str(alloc, "too long");
    }
    match parse_script(alloc, Bytes::of(alloc, text.as_bytes())?) {
        Ok(lines) => lines_text(alloc, &lines),
        Err(ScriptStop::Memory) => Err(AllocError),
        Err(_) => String::from_str(alloc, "no command"),
    }
}

fn lines_text(alloc: Global, lines: &List<Line>) -> Result<String, AllocError> {
    let Some(line) = lines.get(0) else {
        return String::from_str(alloc, "no command");
    };
    let causes = refusals(alloc, &line.command)?;
    let mut text = String::new(alloc);
    for cause in causes.as_slice() {
        if !text.is_empty() {
            text.push_str(", ")?;
        }
        text.push_str(label(alloc, line, *cause)?.as_str())?;
    }
    if text.is_empty() {
        text.push_str("none")?;
    }
    Ok(text)
}

// What stands for a cause in the table.
fn label(alloc: Global, line: &Line, cause: Cause) -> Result<String, AllocError> {
    match mark_of(cause) {
        Mark::Refusal(why) => number(alloc, line, why),
        Mark::Path => String::from_str(alloc, "P"),
        Mark::Key => String::from_str(alloc, "K"),
        Mark::Value => String::from_str(alloc, "V"),
    }
}

// The number of a refusal, as the answer to a line has it.
fn number(alloc: Global, line: &Line, why: Why) -> Result<String, AllocError> {
    let text = text(alloc, line, &Answer::Refused(why))?;
    let text = String::from_utf8_lossy(alloc, text.as_slice())?;
    String::from_str(alloc, second_word(text.as_str()))
}

// The second word of a text: of the text of a refusal, its number.
fn second_word(text: &str) -> &str {
    match text.split(' ').nth(1) {
        Some(word) => word,
        None => "",
    }
}

// The refusal of a cause, or that it has several.
fn mark_of(cause: Cause) -> Mark {
    match cause {
        Cause::UnboundVariable => Mark::Refusal(Why::Unbound),
        Cause::UnknownType => Mark::Refusal(Why::NoType),
        Cause::NegativeNumber => Mark::Refusal(Why::OutOfRange),
        Cause::TooManyBytes => Mark::Refusal(Why::TooLarge),
        Cause::WrongShape => Mark::Refusal(Why::Shape),
        Cause::VariableTooMany => Mark::Refusal(Why::TooManyVars),
        Cause::NoRoom => Mark::Refusal(Why::Full { need: 0 }),
        Cause::RefusedPath => Mark::Path,
        Cause::IdlePointer => Mark::Refusal(Why::Inactive),
        Cause::WrongPlace => Mark::Refusal(Why::WrongType),
        Cause::NumberBeyond => Mark::Refusal(Why::OutOfRange),
        Cause::UnknownCache => Mark::Refusal(Why::NoCache),
        Cause::RefusedKey => Mark::Key,
        Cause::RefusedValue => Mark::Value,
        Cause::PairTooMany => Mark::Refusal(Why::TooLarge),
    }
}
