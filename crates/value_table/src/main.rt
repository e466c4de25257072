//! A table of values that are made by writes: each row begins with zero of a structure of the sample program, writes leaves one
//! after another, and says what text the last value has, or what bytes stand for it. The value of each row is also stored, read
//! and shown again, and has to have the same text. Other rows say where a leaf lies, or show, store or read a value many times.
//!
//! A line is printed for each row that comes out otherwise, and at the end how many rows there were. The head of the input says
//! how a row is written.
#![tactic(auto)]

ghost use Rattle.value_notation.specs.Trials.{IsReady};

mod finding;
mod repeats;
mod statics;
mod table;
mod trials;

use crate::table::difference;
use gt_layout::layout;
use sample_program::sample;
use std::io;
use value_notation::{Sample, Tally, is_row};

fn main(rt: HostRuntime) -> io::Result<()> {
    let alloc = rt.alloc();
    let program = sample(alloc)?;
    let Ok(layouts) = layout(alloc, &program) else {
        return println!(rt; "the sample is not laid out");
    };
    let on = Sample {
        alloc,
        program,
        layouts,
    };
    try_rows(&rt, &on)
}

// Tries the rows of the input.
fn try_rows(rt: &HostRuntime, on: &Sample) -> io::Result<()>
    requires ready { IsReady on.now.program on.now.layouts }
{
    let mut tally = Tally::new();
    for line in rt.lines(on.alloc) {
        let line = line?;
        if is_row(line.as_str()) {
            tally.count(rt, line.as_str(), difference(on, line.as_str())?)?;
        }
    }
    tally.finish(rt)
}
