// Walks, line by line.
use crate::texts::add_row;
use gt_walk::{Tables, WalkRow};
use std::alloc::Global;
use std::io;

fn print_rows(rt: &impl Print, alloc: Global, rows: &[WalkRow]) -> io::Result<()> {
    for row in rows {
        let mut text = String::new(alloc);
        add_row(&mut text, row, 64)?;
        println!(rt; "  {text}")?;
    }
    Ok(())
}

fn print_numbers(rt: &impl Print, name: &str, numbers: &[u32]) -> io::Result<()> {
    for number in numbers {
        println!(rt; "{name} {number}")?;
    }
    Ok(())
}

/// Prints the walks from this number on, and which walks are those of roots.
pub fn print_tables(
    rt: &impl Print,
    alloc: Global,
    tables: &Tables,
    first: usize,
) -> io::Result<()> {
    for (number, rows) in tables.walks.as_slice().iter().enumerate() {
        if number >= first {
            println!(rt; "walk {number}")?;
            print_rows(rt, alloc, rows.as_slice())?;
        }
    }
    print_numbers(rt, "root", tables.roots.as_slice())?;
    print_numbers(rt, "deletable", tables.deletable.as_slice())
}
