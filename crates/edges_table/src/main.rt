//! A comparison of the edges that walks give on bytes with those of the value that is read from the same bytes. A row names a program, what
//! a block holds, and how many random values are tried: each begins with zero, and random leaves of it are written. The value is then
//! stored and read again, and its pointers are gathered by its type. The walk of what the block holds has to give the same edges in the
//! same order.
//!
//! A line is printed for each row. The head of the input says how a row is written.
#![tactic(auto)]

ghost use Rattle.edges_table.specs.Grounds.{IsGround};

mod comparing;
mod edges;
mod elements;
mod expressions;
mod forms;
mod gathering;
mod grounds;
mod kinds;
mod pointers;
mod random;
mod records;
mod rows;
mod scopes;
mod stops;
mod tries;
mod writes;

use crate::grounds::{Ground, forms_ground, sample_ground};
use crate::rows::{Outcome, Row};
use crate::stops::Stop;
use crate::tries::try_row;
use std::alloc::Global;
use std::io;

fn main(rt: HostRuntime) -> io::Result<()> {
    let alloc = rt.alloc();
    let Ok(sample) = sample_ground(alloc) else {
        return println!(rt; "the sample is no program with walks");
    };
    let Ok(forms) = forms_ground(alloc) else {
        return println!(rt; "the header is no program with walks");
    };
    try_rows(&rt, &sample, &forms)
}

// Tries the rows of the input.
fn try_rows(rt: &HostRuntime, sample: &Ground, forms: &Ground) -> io::Result<()>
    requires sample { IsGround sample.now.program sample.now.layouts }
    requires forms { IsGround forms.now.program forms.now.layouts }
{
    for line in rt.lines(rt.alloc()) {
        let line = line?;
        let text = line.as_str();
        if text.is_empty() || text.starts_with("#") {
            continue;
        }
        let said = outcome(sample, forms, text);
        println!(rt; "{text}: {}", said_of(rt.alloc(), said)?.as_str())?;
    }
    Ok(())
}

// What comes out of the row that a line says.
fn outcome(sample: &Ground, forms: &Ground, line: &str) -> Result<Outcome, Stop>
    requires sample { IsGround sample.now.program sample.now.layouts }
    requires forms { IsGround forms.now.program forms.now.layouts }
{
    if let Some(row) = line.strip_prefix("sample ") {
        return try_row(sample, &Row::read(row)?);
    }
    match line.strip_prefix("forms ") {
        Some(row) => try_row(forms, &Row::read(row)?),
        None => Err(Stop::Malformed),
    }
}

// What is said of a row.
fn said_of(alloc: Global, outcome: Result<Outcome, Stop>) -> io::Result<String> {
    match outcome {
        Ok(outcome) => Ok(outcome.text(alloc)?),
        Err(stop) => Ok(String::from_str(alloc, stop.text())?),
    }
}
