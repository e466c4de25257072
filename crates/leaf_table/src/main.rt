//! A table of leaves that are written in place: each row begins with zero of a structure of the sample program, writes leaves one
//! after another as whole values, stores the last value, writes one leaf in its bytes, and says what bytes then stand.
//!
//! A line is printed for each row that comes out otherwise, and at the end how many rows there were. The head of the input says
//! how a row is written.
#![tactic(auto)]

ghost use Rattle.gt_leaf.specs.Tables.{IsTableOf};
ghost use Rattle.value_notation.specs.Trials.{IsReady};

mod table;
mod writing;

use crate::table::difference;
use gt_layout::layout;
use gt_leaf::Reads;
use sample_program::sample;
use std::io;
use value_notation::{Sample, Tally, is_row};

fn main(rt: HostRuntime) -> io::Result<()> {
    let alloc = rt.alloc();
    let program = sample(alloc)?;
    let Ok(layouts) = layout(alloc, &program) else {
        return println!(rt; "the sample is not laid out");
    };
    let reads = Reads::of(alloc, &program)?;
    let on = Sample {
        alloc,
        program,
        layouts,
    };
    try_rows(&rt, &on, &reads)
}

// Tries the rows of the input.
fn try_rows(rt: &HostRuntime, on: &Sample, reads: &Reads) -> io::Result<()>
    requires ready { IsReady on.now.program on.now.layouts }
    requires table { IsTableOf on.now.program reads.now }
{
    let mut tally = Tally::new();
    for line in rt.lines(on.alloc) {
        let line = line?;
        if is_row(line.as_str()) {
            tally.count(rt, line.as_str(), difference(on, reads, line.as_str())?)?;
        }
    }
    tally.finish(rt)
}
