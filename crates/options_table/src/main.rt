//! The table of options: each of its rows is small headers and the program that they declare, or their first fault. Each row is tried,
//! and those that answer otherwise are printed. docs/NAMES.md says how a row is written, and program_notation how a program is.
#![tactic(auto)]

use gt_headers::{are_within_limits, declare};
use gt_same::Same;
use gt_types::{Bytes, Fault, Program, Stop};
use header_rows::rows_of;
use program_notation::{Refusal, program};
use std::alloc::{AllocError, Global};
use std::io;

// What headers come to: the program that they declare, or a text that says why there is none.
#[derive(Debug, Drop)]
enum Answer {
    Declared(Program),
    Stopped(String),
}

fn main(rt: HostRuntime) -> io::Result<()> {
    let alloc = rt.alloc();
    let table = io::read_to_string(alloc, rt.stdin())?;
    let mut count = 0u64;
    let mut differ = 0u64;
    for row in rows_of(alloc, table.as_str())? {
        count = count.saturating_add(1);
        let found = answer_of(alloc, &row.texts)?;
        let wanted = wanted_answer(alloc, row.answer.as_str())?;
        if !is_same_answer(&found, &wanted) {
            differ = differ.saturating_add(1);
            println!(rt; "row {count}: {:?} gives {found:?}", row.header)?;
        }
    }
    println!(rt; "{count} rows, {differ} differ")
}

fn is_same_answer(found: &Answer, wanted: &Answer) -> bool {
    match (found, wanted) {
        (Answer::Declared(found), Answer::Declared(wanted)) => found.is_same(wanted),
        (Answer::Stopped(found), Answer::Stopped(wanted)) => found.as_str() == wanted.as_str(),
        _ => false,
    }
}

// What a row wants: its fault, or the program of its lines.
fn wanted_answer(alloc: Global, answer: &str) -> Result<Answer, AllocError> {
    if answer.starts_with(|c: char| c.is_ascii_digit()) {
        return Ok(Answer::Stopped(String::from_str(alloc, answer)?));
    }
    let mut lines = Vec::new(alloc);
    for line in answer.split(" | ") {
        lines.push(String::from_str(alloc, line)?)?;
    }
    match program(alloc, &lines) {
        Ok(program) => Ok(Answer::Declared(program)),
        Err(Refusal::Memory) => Err(AllocError),
        Err(_) => Ok(Answer::Stopped(String::from_str(alloc, "a row that is no program")?)),
    }
}

// The program that headers declare, or their first fault with its file and the byte at which it stands.
fn answer_of(alloc: Global, texts: &[String]) -> Result<Answer, AllocError> {
    let mut headers = Vec::new(alloc);
    for text in texts {
        headers.push(Bytes::of(alloc, text.as_str().as_bytes())?)?;
    }
    if !are_within_limits(&headers) {
        let text = String::from_str(alloc, "more than headers may be")?;
        return Ok(Answer::Stopped(text));
    }
    match declare(alloc, &headers) {
        Ok(declared) => Ok(Answer::Declared(declared.program)),
        Err(Stop::Memory) => Err(AllocError),
        Err(Stop::At(Fault { number, file, at })) => Ok(Answer::Stopped(format!(in alloc;
            "{number} at {file}:{at}"
        )?)),
    }
}
