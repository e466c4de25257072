// The rows of the table, one line after another.
use crate::laid::{line, planes};
use gt_types::Program;
use program_notation::{add_repeated, program};
use std::alloc::{AllocError, Global};
use std::io;

/// The row that is being read, and how the rows before it came out.
#[derive(Drop)]
pub struct Table {
    comment: String,
    lines: Vec<String>,
    wanted: Vec<String>,
    rows: u64,
    differ: u64,
}

impl Table {
    pub fn new(alloc: Global) -> Table {
        Table {
            comment: String::new(alloc),
            lines: Vec::new(alloc),
            wanted: Vec::new(alloc),
            rows: 0,
            differ: 0,
        }
    }

    /// Takes a line: a comment, a line of the program, a layout that the row wants, or the empty line after it.
    pub fn take<R: Print + AllocGlobal>(&mut self, rt: &R, text: String) -> io::Result<()> {
        if text.is_empty() {
            return self.close(rt);
        }
        if text.as_str().starts_with("#") {
            self.comment = text;
            return Ok(());
        }
        if text.as_str().starts_with("layout ") {
            return Ok(self.wanted.push(text)?);
        }
        Ok(add_repeated(rt.alloc(), text.as_str(), &mut self.lines)?)
    }

    // Compares the row, where it has one, and begins the next one.
    fn close<R: Print + AllocGlobal>(&mut self, rt: &R) -> io::Result<()> {
        if self.wanted.is_empty() {
            return Ok(());
        }
        self.rows = self.rows.saturating_add(1);
        let comment = self.comment.as_str();
        match program(rt.alloc(), &self.lines) {
            Ok(program) => {
                let found = found(rt.alloc(), &program)?;
                if found.as_slice() != self.wanted.as_slice() {
                    self.differ = self.differ.saturating_add(1);
                    for line in &found {
                        println!(rt; "{comment}: {line}")?;
                    }
                }
            }
            Err(refusal) => {
                self.differ = self.differ.saturating_add(1);
                println!(rt; "{comment}: refused, {refusal}")?;
            }
        }
        self.lines.clear();
        self.wanted.clear();
        Ok(())
    }

    /// Says how many rows there were.
    pub fn finish(&self, rt: &impl Print) -> io::Result<()> {
        let rows = self.rows;
        let differ = self.differ;
        println!(rt; "{rows} rows, {differ} differ")
    }
}

// The lines of the structures that were laid out.
fn found(alloc: Global, program: &Program) -> Result<Vec<String>, AllocError> {
    let planes = planes(alloc, program.structures.as_slice())?;
    let mut lines = Vec::new(alloc);
    for (plane, structure) in planes.iter().zip(program.structures.as_slice()) {
        lines.push(line(alloc, plane, structure.fields.as_slice())?)?;
    }
    Ok(lines)
}
