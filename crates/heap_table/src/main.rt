//! A table of heaps. A row has a graph of plain data and says whether it is good.
//!
//! A line is printed for each row that comes out otherwise, and at the end how many rows there were. The head of the input says
//! how a row is written.
#![tactic(auto)]

ghost use Rattle.heap_table.specs.Grounds.{IsGround};

mod blocks;
mod good;
mod graphs;
mod grounds;
mod header;
mod pairs;
mod reading;
mod table;

use crate::grounds::Ground;
use crate::table::difference;
use std::io;
use value_notation::{Tally, is_row};

fn main(rt: HostRuntime) -> io::Result<()> {
    match Ground::new(rt.alloc()) {
        Ok(on) => try_rows(&rt, &on),
        Err(_) => println!(rt; "the header declares no program"),
    }
}

// Tries the rows of the input.
fn try_rows(rt: &HostRuntime, on: &Ground) -> io::Result<()>
    requires ground { IsGround on.now }
{
    let mut tally = Tally::new();
    for line in rt.lines(on.alloc) {
        let line = line?;
        if is_row(line.as_str()) {
            tally.count(rt, line.as_str(), difference(on, line.as_str())?)?;
        }
    }
    tally.finish(rt)
}
