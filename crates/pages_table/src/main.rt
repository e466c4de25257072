//! The pages of a space: requests, each with what it gives, reasoned by hand from the rules. Page 0 starts at 0x10000000, and each
//! page has 0x1000 bytes. Each line is tried, and those that answer otherwise are printed.
//!
//!     fresh, fresh N               sixteen free pages again, or N of them, of which a space may have 16 to 16,384
//!     BYTES = ADDRESS | full | too large       makes a block for so many bytes
//!     times N BYTES = ADDRESS      makes N blocks, each right after the one before it
//!     room BYTES = yes | no | too large        whether there is room for so many bytes
//!     owner ADDRESS = ADDRESS SIZE | none
//!     mark ADDRESS WALK COUNT = new | old | no block
//!     byte ADDRESS WALK COUNT = new | old | no block     marks the block that has the byte there
//!     postpone ADDRESS = ok | no block    the block there is left to a pass, where it is marked
//!     walked ADDRESS = ok | no block      the block there is no more left to a pass
//!     marked, pending ADDRESS = ADDRESS WALK COUNT | none     the next one above
//!     clear = ok, sweep = N
//!     fit NEED PREFERRED = PAGE | longest N
//!     image PAGE SIZE COUNT SIZE COUNT .. = ok | no runs | no room
//!     list I = PAGE:SIZE:FREE .. | none | no list     the entries of list I
//!     cached = N                   how many entries are cached
//!     random SEED N = same         N calls give what a plain list of blocks gives
//!
//! An address that is not written as `0x10000000` gives `no address`.
#![tactic(auto)]

mod images;
mod lists;
mod plain;
mod random;
mod requests;
mod sizes;

use gt_pages::Pages;
use gt_space::{MAX_PAGES, MIN_PAGES};
use requests::{answer, number};
use std::alloc::{AllocError, Global};
use std::io;

/// How many rows there were, and how many of them were answered otherwise.
#[derive(Drop)]
struct Tally {
    count: u64,
    differ: u64,
}

fn main(rt: HostRuntime) -> io::Result<()> {
    let mut pages = Pages::new(rt.alloc(), MIN_PAGES)?;
    try_lines(&rt, &mut pages)
}

// Tries the lines of the input.
fn try_lines(rt: &HostRuntime, pages: &mut Pages) -> io::Result<()> {
    let mut tally = Tally {
        count: 0,
        differ: 0,
    };
    for line in rt.lines(rt.alloc()) {
        try_line(rt, pages, &mut tally, line?.as_str())?;
    }
    println!(rt; "{} rows, {} differ", tally.count, tally.differ)
}

// Tries a line: one that asks for a fresh space, or a row.
fn try_line(rt: &HostRuntime, pages: &mut Pages, tally: &mut Tally, line: &str) -> io::Result<()> {
    if let Some(asked) = pages_asked(line) {
        if renew(rt.alloc(), pages, asked)? {
            return Ok(());
        }
        return println!(rt; "{line}: no space has so many pages");
    }
    match line.split_once(" = ") {
        Some((request, wanted)) => try_row(rt, pages, tally, request, wanted),
        None => Ok(()),
    }
}

// Tries a row, and prints it where it is answered otherwise.
fn try_row(
    rt: &HostRuntime,
    pages: &mut Pages,
    tally: &mut Tally,
    request: &str,
    wanted: &str,
) -> io::Result<()> {
    tally.count = tally.count.saturating_add(1);
    let found = answer(rt.alloc(), pages, request, wanted)?;
    if found.as_str() == wanted {
        return Ok(());
    }
    tally.differ = tally.differ.saturating_add(1);
    println!(rt; "line {}: {request} gives {found}", tally.count)
}

// How many pages a line asks for in a fresh space; `None` where it asks for no such space.
fn pages_asked(line: &str) -> Option<u32> {
    if line == "fresh" {
        return Some(MIN_PAGES);
    }
    let count = line.strip_prefix("fresh ")?;
    Some(number(count))
}

// Makes the space a fresh one of so many free pages, and says whether a space may have so many.
fn renew(alloc: Global, pages: &mut Pages, count: u32) -> Result<bool, AllocError> {
    if count < MIN_PAGES || count > MAX_PAGES {
        return Ok(false);
    }
    *pages = Pages::new(alloc, count)?;
    Ok(true)
}
