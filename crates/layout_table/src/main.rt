//! A table of small programs, each with the layout that a C compiler gives its structures, compared with that of gt_layout.
//!
//! A row of the input is a comment, which says what the row shows, the lines of a program, and a line `layout` for each of its
//! structures, in their order: size, alignment, and the offset of each field, or OFFSET.BIT for a bit-field. An empty line ends
//! the row. A line is printed for each structure that is laid out otherwise here, and at the end how many rows there were.
#![tactic(auto)]

mod laid;
mod table;

use crate::table::Table;
use std::io;

fn main(rt: HostRuntime) -> io::Result<()> {
    let mut table = Table::new(rt.alloc());
    for line in rt.lines(rt.alloc()) {
        table.take(&rt, line?)?;
    }
    table.finish(&rt)
}
