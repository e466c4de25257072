// The rows of the table, one line after another.
use crate::edges::edge_text;
use crate::line::{Line, Refusal};
use crate::reading::{MAX_NESTING, read_row};
use gt_space::{MIN_PAGES, Space};
use gt_types::List;
use gt_walk::{Tables, WalkRow};
use std::alloc::{AllocError, Global};
use std::{io, mem};

// The static record of the space, in bytes: it lies in one page below the heap.
const STATICS: u32 = 8;

/// The row that is being read, and how the rows before it came out.
#[derive(Drop)]
pub struct Table {
    alloc: Global,
    comment: String,
    walks: Vec<List<WalkRow>>,
    rows: Vec<WalkRow>,
    space: Space,
    tried: u64,
    differ: u64,
}

impl Table {
    pub fn new(alloc: Global) -> Table {
        Table {
            alloc,
            comment: String::new(alloc),
            walks: Vec::new(alloc),
            rows: Vec::new(alloc),
            space: Space::empty(alloc),
            tried: 0,
            differ: 0,
        }
    }

    /// Takes a line: a comment, with which a row begins, a walk, a row of a walk, bytes, or the visit that ends the row.
    pub fn take(&mut self, rt: &impl Print, text: &str) -> io::Result<()> {
        if text.is_empty() || text.starts_with("##") {
            return Ok(());
        }
        if text.starts_with("#") {
            return Ok(self.begin(text)?);
        }
        match self.read(text) {
            Ok(None) => Ok(()),
            Ok(Some(found)) => self.tell(rt, found.as_str()),
            Err(Refusal::Malformed) => self.tell(rt, text),
            Err(Refusal::Memory) => Ok(Err(AllocError)?),
        }
    }

    /// Says how many rows there were.
    pub fn finish(&self, rt: &impl Print) -> io::Result<()> {
        println!(rt; "{} rows, {} differ", self.tried, self.differ)
    }

    // Begins a row.
    fn begin(&mut self, comment: &str) -> Result<(), AllocError> {
        self.comment = String::from_str(self.alloc, comment)?;
        self.walks.clear();
        self.rows.clear();
        self.space.resize_fresh(MIN_PAGES, STATICS)
    }

    // Says that the row comes out otherwise, and as what.
    fn tell(&mut self, rt: &impl Print, found: &str) -> io::Result<()> {
        self.differ = self.differ.saturating_add(1);
        println!(rt; "{}: {found}", self.comment.as_str())
    }

    // Reads a line of a row. What a visit gives comes back, if that is not what is wanted.
    fn read(&mut self, text: &str) -> Result<Option<String>, Refusal> {
        let (words, wanted) = match text.split_once(" -> ") {
            Some((words, wanted)) => (words, wanted),
            None => (text, ""),
        };
        let mut line = Line::of(self.alloc, words)?;
        if line.takes("visit") {
            return self.visit(&mut line, wanted);
        }
        if line.takes("walk") {
            self.end_walk()?;
            self.rows.push(WalkRow::Note {
                size: line.number()?,
                chain: None,
            })?;
        } else if line.takes("put") {
            self.put(&mut line)?;
        } else {
            self.rows
                .push(read_row(self.alloc, &mut line, MAX_NESTING)?)?;
        }
        Ok(None)
    }

    // Ends the walk that is being read.
    fn end_walk(&mut self) -> Result<(), AllocError> {
        if self.rows.is_empty() {
            return Ok(());
        }
        let rows = mem::replace(&mut self.rows, Vec::new(self.alloc));
        Ok(self.walks.push(List::of(rows))?)
    }

    // Writes bytes.
    fn put(&mut self, line: &mut Line) -> Result<(), Refusal> {
        let addr = line.address()?;
        let bytes = line.bytes(self.alloc)?;
        put_bytes(&mut self.space, addr, bytes.as_slice())
    }

    // Visits the walks that were read.
    fn visit(&mut self, line: &mut Line, wanted: &str) -> Result<Option<String>, Refusal> {
        self.end_walk()?;
        self.tried = self.tried.saturating_add(1);
        let tables = Tables {
            walks: List::of(mem::replace(&mut self.walks, Vec::new(self.alloc))),
            roots: List::new(self.alloc),
            deletable: List::new(self.alloc),
            caches: List::new(self.alloc),
        };
        let walk = line.number()?;
        let count = line.number()?;
        let addr = line.address()?;
        let found = edge_text(self.alloc, &tables, walk, count, &self.space, addr)?;
        if found.as_str() == wanted || found.is_empty() && wanted == "none" {
            Ok(None)
        } else {
            Ok(Some(found))
        }
    }
}

// Writes bytes, where they lie in the space.
fn put_bytes(space: &mut Space, addr: u64, bytes: &[u8]) -> Result<(), Refusal> {
    let start = space.start();
    let end = start + space.len();
    if addr < start || addr > end || bytes.len() as u64 > end - addr {
        return Err(Refusal::Malformed);
    }
    space.copy_in(addr, bytes);
    Ok(())
}
