// The edges that a visit gives, as text.
ghost use Rattle.gt_walk.specs.Rows.{edges_of};

use gt_space::Space;
use gt_walk::{EdgeSink, Tables, visit};
use std::alloc::{AllocError, Global};

// Edges as they are written in the table, with a blank between them, or why one was not added.
#[derive(Drop)]
struct Edges {
    text: String,
    added: Result<(), AllocError>,
}

impl EdgeSink for Edges {
    ghost takes = { λ s e. Unit {0} };

    ghost leaves = { λ s e t. Unit {0} };

    fn edge(&mut self, place: u64, target: u64, walk: u32, count: u32) {
        if self.added.is_ok() {
            self.added = add(&mut self.text, place, target, walk, count);
        }
    }
}

// Adds an edge.
fn add(
    text: &mut String,
    place: u64,
    target: u64,
    walk: u32,
    count: u32,
) -> Result<(), AllocError> {
    if !text.is_empty() {
        text.push(' ')?;
    }
    write!(text, "{place:x}={target:x}:{walk}:{count}")
}

/// The text of the edges that a walk gives on so many elements from an address on.
pub fn edge_text(
    alloc: Global,
    tables: &Tables,
    walk: u32,
    count: u32,
    space: &Space,
    addr: u64,
) -> Result<String, AllocError> {
    let mut edges = Edges {
        text: String::new(alloc),
        added: Ok(()),
    };
    visit(tables, walk, count, space, addr, &mut edges);
    let Edges { text, added } = edges;
    added?;
    Ok(text)
}
