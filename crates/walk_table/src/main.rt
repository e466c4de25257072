//! A table of visits: each row gives walks in a short notation, bytes of a space, and the edges that a visit has to give.
//!
//! A line is printed for each row that comes out otherwise, and at the end how many rows there were. The head of the input says
//! how a row is written.
#![tactic(auto)]

mod edges;
mod expressions;
mod line;
mod reading;
mod table;

use crate::table::Table;
use std::io;

fn main(rt: HostRuntime) -> io::Result<()> {
    let mut table = Table::new(rt.alloc());
    for line in rt.lines(rt.alloc()) {
        table.take(&rt, line?.as_str())?;
    }
    table.finish(&rt)
}
