//! A table of heaps that are marked: each row makes blocks and pointers between them, marks from a block or from the roots, and tells
//! which blocks are then newly marked, and how many rounds there were.
//!
//! A line is printed for each row that comes out otherwise, and at the end how many rows there were. The head of the input says
//! how a row is written.
#![tactic(auto)]

mod blocks;
mod line;
mod reading;
mod table;

use crate::table::Table;
use std::io;

fn main(rt: HostRuntime) -> io::Result<()> {
    let mut table = Table::new(rt.alloc());
    for line in rt.lines(rt.alloc()) {
        table.take(&rt, line?.as_str())?;
    }
    table.finish(&rt)
}
