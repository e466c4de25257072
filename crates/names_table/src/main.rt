//! The table of names and types: each of its rows is small headers and what they declare, or their first fault. Each row is
//! tried, and those that answer otherwise are printed. docs/NAMES.md says how a row is written.
#![tactic(auto)]

ghost use Rattle.std.specs.Prelude.{◌<◌, ◌^◌, length};

mod rendering;

use gt_items::Items;
use gt_lex::lex;
use gt_parse::parse;
use gt_resolve::resolve;
use gt_types::{Fault, Stop};
use header_rows::rows_of;
use rendering::rendered;
use std::alloc::{AllocError, Global};
use std::io;

/// The most headers that are resolved together.
const MAX_HEADERS: usize = 64;

fn main(rt: HostRuntime) -> io::Result<()> {
    let alloc = rt.alloc();
    let table = io::read_to_string(alloc, rt.stdin())?;
    let mut count = 0u64;
    let mut differ = 0u64;
    for row in rows_of(alloc, table.as_str())? {
        count = count.saturating_add(1);
        let found = answer(alloc, &row.texts)?;
        if found.as_str() != row.answer.as_str() {
            differ = differ.saturating_add(1);
            println!(rt; "row {count}: {:?} gives {found}", row.header)?;
        }
    }
    println!(rt; "{count} rows, {differ} differ")
}

// What the headers declare, or their first fault with its file and the byte at which it stands.
fn answer(alloc: Global, texts: &[String]) -> Result<String, AllocError> {
    let mut files = Vec::new(alloc);
    let mut file = 0u32;
    for text in texts {
        let text = text.as_str().as_bytes();
        if text.len() > u32::MAX as usize {
            return String::from_str(alloc, "too long a header");
        }
        file = file.saturating_add(1);
        match items(alloc, file, text) {
            Ok(found) => files.push(found)?,
            Err(stop) => return stopped(alloc, stop),
        }
    }
    resolved(alloc, &files)
}

// The items of a header.
fn items(alloc: Global, file: u32, text: &[u8]) -> Result<Items, Stop>
    requires { length text.now < 2 ^ 32 }
{
    match lex(alloc, file, text) {
        Ok(lexed) => parse(alloc, file, text, &lexed),
        Err(stop) => Err(stop),
    }
}

// What the items of all headers come to.
fn resolved(alloc: Global, files: &[Items]) -> Result<String, AllocError> {
    if files.len() > MAX_HEADERS {
        return String::from_str(alloc, "too many headers");
    }
    match resolve(alloc, files) {
        Ok(draft) => rendered(alloc, &draft),
        Err(stop) => stopped(alloc, stop),
    }
}

// A fault as it stands after a row whose header has its place marked.
fn stopped(alloc: Global, stop: Stop) -> Result<String, AllocError> {
    match stop {
        Stop::Memory => Err(AllocError),
        Stop::At(Fault { number, file, at }) => format!(in alloc; "{number} at {file}:{at}"),
    }
}
