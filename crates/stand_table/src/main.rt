//! A table of bytes. A row has a value of a structure of the sample program, and bytes, and says whether these stand for it, by the
//! definitions alone: the leaves of the value are found rule by rule, and each bit is looked for in each of them.
//!
//! A line is printed for each row that comes out otherwise, and at the end how many rows there were. The head of the input says
//! how a row is written.
#![tactic(auto)]

ghost use Rattle.value_notation.specs.Trials.{IsReady};

mod leaves;
mod rows;
mod standing;
mod table;
mod verdicts;
mod walking;

use crate::table::difference;
use gt_layout::layout;
use sample_program::sample;
use std::io;
use value_notation::{Sample, Tally, is_row};

fn main(rt: HostRuntime) -> io::Result<()> {
    let alloc = rt.alloc();
    let program = sample(alloc)?;
    let Ok(layouts) = layout(alloc, &program) else {
        return println!(rt; "the sample is not laid out");
    };
    let on = Sample {
        alloc,
        program,
        layouts,
    };
    try_rows(&rt, &on)
}

// Tries the rows of the input.
fn try_rows(rt: &HostRuntime, on: &Sample) -> io::Result<()>
    requires ready { IsReady on.now.program on.now.layouts }
{
    let mut tally = Tally::new();
    for line in rt.lines(on.alloc) {
        let line = line?;
        if is_row(line.as_str()) {
            tally.count(rt, line.as_str(), difference(on, line.as_str())?)?;
        }
    }
    tally.finish(rt)
}
