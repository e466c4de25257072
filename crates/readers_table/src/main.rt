//! The tables of the readers of text: tokens, expressions, items, whole headers, scripts and the words
//! of the command line. Each row is a text and what it is
//! read as, which was reasoned by hand from the rules. Each row is tried, and those that are read otherwise are printed.
//!
//! A line in square brackets says which reader the rows after it try. A row is one text (of headers and words any number of them), each
//! on a line that is indented by four spaces, and its answer after `  = `. Other lines are comments.
#![tactic(auto)]

mod expressions;
mod headers;
mod items;
mod rows;
mod script;
mod tokens;
mod words;

use gt_types::Bytes;
use rows::{Row, Rows, bytes_of};
use std::alloc::{AllocError, Global};
use std::io;

/// The longest text that a reader is given here, in bytes.
const MAX_TEXT: usize = 16_000_000;

/// Which reader a row tries.
#[derive(Clone, Copy, Debug, PartialEq, Eq)]
enum Reader {
    Tokens,
    Expressions,
    Items,
    Headers,
    Script,
    Words,
}

fn main(rt: HostRuntime) -> io::Result<()> {
    let alloc = rt.alloc();
    let table = io::read_to_string(alloc, rt.stdin())?;
    let mut reader = Reader::Tokens;
    let mut rows = Rows::new(alloc);
    let mut count = 0u64;
    let mut differ = 0u64;
    for line in table.lines() {
        let Some(line) = line.strip_prefix("    ") else {
            reader = reader_of(line).unwrap_or(reader);
            continue;
        };
        if let Some(row) = rows.take(alloc, line)? {
            count = count.saturating_add(1);
            if let Some(found) = other_answer(alloc, reader, &row)? {
                differ = differ.saturating_add(1);
                println!(rt; "row {count}: {:?} gives {found}", row.texts)?;
            }
        }
    }
    println!(rt; "{count} rows, {differ} differ")
}

// The reader that a line in square brackets names.
fn reader_of(line: &str) -> Option<Reader> {
    match line {
        "[tokens]" => Some(Reader::Tokens),
        "[expressions]" => Some(Reader::Expressions),
        "[items]" => Some(Reader::Items),
        "[headers]" => Some(Reader::Headers),
        "[script]" => Some(Reader::Script),
        "[words]" => Some(Reader::Words),
        _ => None,
    }
}

// What the texts of a row are read as, where that is not its answer.
fn other_answer(alloc: Global, reader: Reader, row: &Row) -> Result<Option<String>, AllocError> {
    let mut texts = Vec::new(alloc);
    for text in &row.texts {
        texts.push(bytes_of(alloc, text.as_str())?)?;
    }
    let found = answer(alloc, reader, &texts)?;
    let wanted = bytes_of(alloc, row.answer.as_str())?;
    if found.as_str().as_bytes() == wanted.as_slice() {
        Ok(None)
    } else {
        Ok(Some(found))
    }
}

// What texts are read as.
fn answer(alloc: Global, reader: Reader, texts: &[Bytes]) -> Result<String, AllocError> {
    match (reader, texts) {
        (Reader::Headers, _) => headers::answer(alloc, texts),
        (Reader::Words, _) => words::answer(alloc, texts),
        (_, [text]) => answer_of_one(alloc, reader, text.as_slice()),
        (_, _) => String::from_str(alloc, "not one text"),
    }
}

// What one text is read as.
fn answer_of_one(alloc: Global, reader: Reader, text: &[u8]) -> Result<String, AllocError> {
    if text.len() > MAX_TEXT {
        return String::from_str(alloc, "too long a text");
    }
    match reader {
        Reader::Tokens => tokens::answer(alloc, text),
        Reader::Expressions => expressions::answer(alloc, text),
        Reader::Items | Reader::Headers | Reader::Words => items::answer(alloc, text),
        Reader::Script => script::answer(alloc, text),
    }
}
