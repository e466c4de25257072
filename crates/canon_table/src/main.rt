//! A table of small programs, each with its canonical text, and some with the SHA-256 of that text. Each row is tried, and those
//! that come out otherwise are printed.
//!
//! A row of the input is a comment, which says what the row shows, the lines of a program, a line `=`, and the lines of its
//! text. A line `sha256` with the digest in hexadecimal may follow. A blank line ends the row. A line `digest TEXT
//! HEX` is a row of its own, a published digest, by which the function under the fingerprint is tried. The head of the input says how a
//! program is written.
#![tactic(auto)]

mod notation;
mod parts;
mod table;
mod words;

use crate::table::Table;
use std::io;

fn main(rt: HostRuntime) -> io::Result<()> {
    let mut table = Table::new(rt.alloc());
    for line in rt.lines(rt.alloc()) {
        table.take(&rt, line?)?;
    }
    table.finish(&rt)
}
