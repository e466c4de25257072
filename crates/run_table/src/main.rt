//! A table of whole runs of the program: which words and files it is given, and how it has to end and what it has to write.
//! The program reads the table, runs each row through the one call that does all the work, over files and a sink in memory,
//! and says which rows differ.
#![tactic(auto)]

mod comparing;
mod rows;
mod running;

use comparing::is_expected;
use rows::{Part, Row, read_part};
use running::{File, run_row};
use std::alloc::Global;
use std::io;

/// How many rows there are, and how many of them differ.
#[derive(Clone, Copy)]
struct Tally {
    rows: u64,
    differ: u64,
}

fn main(rt: HostRuntime) -> io::Result<()> {
    let alloc = rt.alloc();
    let table = io::read_to_string(alloc, rt.reader())?;
    let mut shared = Vec::new(alloc);
    let mut tally = Tally { rows: 0, differ: 0 };
    for text in table.as_str().split("\n\n") {
        match read_part(alloc, text)? {
            Part::Shared(files) => shared = files,
            Part::Row(row) => {
                let same = compare(&rt, alloc, shared.as_slice(), &row)?;
                tally = counted(tally, same);
            }
            Part::Nothing => {}
            Part::Misspelled => {
                println!(rt; "no row:\n{text}")?;
                tally = counted(tally, false);
            }
        }
    }
    println!(rt; "{} rows, {} differ", tally.rows, tally.differ)
}

// Runs a row. Where it differs, it writes what came, as the table would have it.
fn compare(rt: &impl Print, alloc: Global, shared: &[File], row: &Row) -> io::Result<bool> {
    let came = run_row(alloc, shared, row)?;
    if came.status == row.status && is_expected(row.output.as_str(), came.output.as_str()) {
        return Ok(true);
    }
    println!(rt; "# {}\nstatus {}\noutput", row.shows, came.status)?;
    for line in came.output.as_str().lines() {
        println!(rt; "| {line}")?;
    }
    Ok(false)
}

fn counted(tally: Tally, same: bool) -> Tally {
    Tally {
        rows: tally.rows.saturating_add(1),
        differ: tally.differ.saturating_add(u64::from(!same)),
    }
}
