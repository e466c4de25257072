//! The rows of walks, as they are written.
use crate::line::{Line, Refusal};
use gt_types::{Boxed, Expr, List};
use gt_walk::{Count, Origin, RowExpr, RowLeaf, Tables, WalkRow};
use std::alloc::{AllocError, Global};
use std::mem;

/// The walks that were read, and the roots among them.
#[derive(Drop)]
pub struct Walks {
    alloc: Global,
    walks: List<List<WalkRow>>,
    // The rows of the walk that is being read.
    rows: List<WalkRow>,
    roots: List<u32>,
    // The addresses of the pointers of deletable roots.
    deletable: List<u32>,
}

impl Walks {
    pub fn new(alloc: Global) -> Walks {
        Walks {
            alloc,
            walks: List::new(alloc),
            rows: List::new(alloc),
            roots: List::new(alloc),
            deletable: List::new(alloc),
        }
    }

    /// Takes a line: the note of a walk, one of its rows, or a root. The answer is whether it was one of these.
    pub fn take(&mut self, line: &mut Line) -> Result<bool, Refusal> {
        if line.takes("walk") {
            self.end_walk()?;
            self.rows.push(note(line)?)?;
        } else if line.takes("root") {
            self.begin_root()?;
        } else if line.takes("each") {
            self.take_each(line)?;
        } else if line.takes("deletable") {
            self.deletable.push(line.number()?)?;
        } else {
            return self.take_row(line);
        }
        Ok(true)
    }

    // Begins the walk of a root.
    fn begin_root(&mut self) -> Result<(), AllocError> {
        self.end_walk()?;
        self.rows.push(WalkRow::Note {
            size: 0,
            chain: None,
        })?;
        let walk = u32::try_from(self.walks.len()).unwrap_or(u32::MAX);
        self.roots.push(walk)?;
        Ok(())
    }

    // Makes so many roots, each with one pointer.
    fn take_each(&mut self, line: &mut Line) -> Result<(), Refusal> {
        let times = line.number()?;
        let mut offset = line.number()?;
        let walk = line.number()?;
        for _ in 0..times {
            self.begin_root()?;
            self.rows.push(WalkRow::Ptr {
                offset,
                walk,
                count: Count::Fixed(1),
                reorder: false,
            })?;
            offset = offset.saturating_add(8);
        }
        Ok(())
    }

    fn take_row(&mut self, line: &mut Line) -> Result<bool, Refusal> {
        match read_row(self.alloc, line)? {
            None => Ok(false),
            Some(row) => {
                self.rows.push(row)?;
                Ok(true)
            }
        }
    }

    // Ends the walk that is being read.
    fn end_walk(&mut self) -> Result<(), AllocError> {
        if self.rows.len() == 0 {
            return Ok(());
        }
        let rows = mem::replace(&mut self.rows, List::new(self.alloc));
        Ok(self.walks.push(rows)?)
    }

    /// The tables of the walks, of which none is left.
    pub fn tables(&mut self) -> Result<Tables, AllocError> {
        self.end_walk()?;
        Ok(Tables {
            walks: mem::replace(&mut self.walks, List::new(self.alloc)),
            roots: mem::replace(&mut self.roots, List::new(self.alloc)),
            deletable: mem::replace(&mut self.deletable, List::new(self.alloc)),
            caches: List::new(self.alloc),
        })
    }
}

// The note of a walk: the bytes of an element, and where its chain pointer lies.
fn note(line: &mut Line) -> Result<WalkRow, Refusal> {
    let size = line.number()?;
    let chain = if line.takes("chain") {
        Some(line.number()?)
    } else {
        None
    };
    Ok(WalkRow::Note { size, chain })
}

// A row of a walk; `None` where the line is another.
fn read_row(alloc: Global, line: &mut Line) -> Result<Option<WalkRow>, Refusal> {
    if !line.takes("rep") {
        return read_plain(alloc, line);
    }
    let offset = line.number()?;
    let n = line.number()?;
    let size = line.number()?;
    let elem = element(alloc, line)?;
    Ok(Some(WalkRow::Rep {
        offset,
        n,
        size,
        elem,
    }))
}

// The row of an element.
fn element(alloc: Global, line: &mut Line) -> Result<Boxed<WalkRow>, Refusal> {
    match read_plain(alloc, line)? {
        Some(row) => Ok(Boxed::new(alloc, row)?),
        None => Err(Refusal::Malformed),
    }
}

// A pointer, or a part.
fn read_plain(alloc: Global, line: &mut Line) -> Result<Option<WalkRow>, Refusal> {
    if line.takes("ptr") {
        return Ok(Some(WalkRow::Ptr {
            offset: line.number()?,
            walk: line.number()?,
            count: count(alloc, line)?,
            reorder: false,
        }));
    }
    if line.takes("sub") {
        return Ok(Some(WalkRow::Sub {
            offset: line.number()?,
            walk: line.number()?,
        }));
    }
    Ok(None)
}

// How many elements a pointer names: a number, or `at` and the address of a number of 32 bits.
fn count(alloc: Global, line: &mut Line) -> Result<Count, Refusal> {
    if !line.takes("at") {
        return Ok(Count::Fixed(line.number()?));
    }
    let offset = line.number()?;
    let mut leaves = List::new(alloc);
    leaves.push(RowLeaf {
        origin: Origin::Zero,
        offset,
        bit: 0,
        signed: false,
        width: 32,
    })?;
    Ok(Count::Length(RowExpr {
        expr: Expr::Root(0),
        leaves,
    }))
}
