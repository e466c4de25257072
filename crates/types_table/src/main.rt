//! The tables of what all layers speak of: the values of expressions, copies of types, and texts as their characters. Each row was
//! reasoned by hand. Each is tried, and those that answer otherwise are printed.
//!
//! A line in square brackets says what the rows after it try. A row is a line that is indented by four spaces, and its answer after
//! `  = `. Other lines are comments. Expressions and types are written as program_notation says.
#![tactic(auto)]

mod leaves;

use gt_same::Same;
use gt_types::{Bytes, Copied, Ty, Word, eval};
use leaves::Leaves;
use program_notation::{Refusal, expression_of, type_of};
use std::alloc::{AllocError, Global};
use std::io;

/// What a row tries.
#[derive(Clone, Copy, Debug, PartialEq, Eq)]
enum Subject {
    Values,
    Copies,
    Characters,
    Order,
}

fn main(rt: HostRuntime) -> io::Result<()> {
    let mut table = Table::new(rt.alloc());
    for line in rt.lines(rt.alloc()) {
        table.take(&rt, line?)?;
    }
    table.finish(&rt)
}

/// What is tried, the row that is being read, and how the rows before it came out.
#[derive(Drop)]
struct Table {
    subject: Subject,
    row: String,
    rows: u64,
    differ: u64,
}

impl Table {
    fn new(alloc: Global) -> Table {
        Table {
            subject: Subject::Values,
            row: String::new(alloc),
            rows: 0,
            differ: 0,
        }
    }

    // Takes a line: the answer that ends a row, the row itself, or what is tried from here on.
    fn take<R: Print + AllocGlobal>(&mut self, rt: &R, line: String) -> io::Result<()> {
        match line.as_str().strip_prefix("    ") {
            None => self.subject = subject_of(line.as_str()).unwrap_or(self.subject),
            Some(text) => match text.strip_prefix("  = ") {
                None => self.row = String::from_str(rt.alloc(), text)?,
                Some(wanted) => self.close(rt, wanted)?,
            },
        }
        Ok(())
    }

    // Tries the row.
    fn close<R: Print + AllocGlobal>(&mut self, rt: &R, wanted: &str) -> io::Result<()> {
        self.rows = self.rows.saturating_add(1);
        let found = answer(rt.alloc(), self.subject, self.row.as_str())?;
        if found.as_str() != wanted {
            self.differ = self.differ.saturating_add(1);
            println!(rt; "{}: {found}", self.row)?;
        }
        Ok(())
    }

    // Says how many rows there were.
    fn finish(&self, rt: &impl Print) -> io::Result<()> {
        println!(rt; "{} rows, {} differ", self.rows, self.differ)
    }
}

// What a line in square brackets names.
fn subject_of(line: &str) -> Option<Subject> {
    match line {
        "[values]" => Some(Subject::Values),
        "[copies]" => Some(Subject::Copies),
        "[characters]" => Some(Subject::Characters),
        "[order]" => Some(Subject::Order),
        _ => None,
    }
}

// What a row gives.
fn answer(alloc: Global, subject: Subject, row: &str) -> Result<String, AllocError> {
    match subject {
        Subject::Values => refused(alloc, value(alloc, row)),
        Subject::Copies => refused(alloc, copy(alloc, row)),
        Subject::Characters => characters(alloc, row),
        Subject::Order => order(alloc, row),
    }
}

// The text of a row, or why it is none.
fn refused(alloc: Global, text: Result<String, Refusal>) -> Result<String, AllocError> {
    match text {
        Ok(text) => Ok(text),
        Err(refusal) => format!(in alloc; "{refusal}"),
    }
}

// The value of a copy of an expression.
fn value(alloc: Global, row: &str) -> Result<String, Refusal> {
    let expression = expression_of(alloc, row)?.copy(alloc)?;
    match eval(&expression, &Leaves {}) {
        Some(value) => Ok(format!(in alloc; "{value}")?),
        None => Ok(String::from_str(alloc, "none")?),
    }
}

// Whether a type and its copy are the same.
fn copy(alloc: Global, row: &str) -> Result<String, Refusal> {
    let ty = type_of(alloc, row)?;
    let same = is_same_as_its_copy(alloc, &ty)?;
    Ok(String::from_str(alloc, if same { "same" } else { "other" })?)
}

fn is_same_as_its_copy(alloc: Global, ty: &Ty) -> Result<bool, AllocError> {
    Ok(ty.is_same(&ty.copy(alloc)?))
}

// How many characters a text has; of a copy of its bytes how many there are, and the last of them.
fn characters(alloc: Global, row: &str) -> Result<String, AllocError> {
    let word = Word::of(alloc, row)?.copy(alloc)?;
    let bytes = Bytes::of(alloc, word.as_str().as_bytes())?.copy(alloc)?;
    let last = bytes.get(bytes.len().saturating_sub(1)).unwrap_or(0);
    format!(in alloc; "{} {} {last}", word.len(), bytes.len())
}

// How two words with a space between them stand to one another.
fn order(alloc: Global, row: &str) -> Result<String, AllocError> {
    let Some((first, second)) = row.split_once(' ') else {
        return String::from_str(alloc, "not two words");
    };
    let (first, second) = (Word::of(alloc, first)?, Word::of(alloc, second)?);
    let order = if first < second {
        "less"
    } else if first == second {
        "equal"
    } else {
        "greater"
    };
    String::from_str(alloc, order)
}
