// Edges, and those that a walk gives.
ghost use Rattle.gt_walk.specs.Rows.{edges_of};

use gt_space::Space;
use gt_walk::{EdgeSink, Tables, visit};
use std::alloc::{AllocError, Global};

/// A pointer that is not null: where it lies, the address that it holds, and the walk and the count of the block there.
#[derive(Clone, Copy, Debug, PartialEq, Eq)]
pub struct Edge {
    pub place: u64,
    pub target: u64,
    pub walk: u32,
    pub count: u32,
}

// Edges one after another, or why one was not added.
#[derive(Drop)]
struct Collected {
    edges: Vec<Edge>,
    added: Result<(), AllocError>,
}

impl EdgeSink for Collected {
    ghost takes = { λ s e. Unit {0} };

    ghost leaves = { λ s e t. Unit {0} };

    fn edge(&mut self, place: u64, target: u64, walk: u32, count: u32) {
        let edge = Edge {
            place,
            target,
            walk,
            count,
        };
        if self.added.is_ok() {
            self.added = add_edge(&mut self.edges, edge);
        }
    }
}

/// Adds an edge.
pub fn add_edge(edges: &mut Vec<Edge>, edge: Edge) -> Result<(), AllocError> {
    edges.push(edge)?;
    Ok(())
}

/// The edges that a walk gives on one element at an address.
pub fn walk_edges(
    alloc: Global,
    tables: &Tables,
    walk: u32,
    space: &Space,
    addr: u64,
) -> Result<Vec<Edge>, AllocError> {
    let mut collected = Collected {
        edges: Vec::new(alloc),
        added: Ok(()),
    };
    visit(tables, walk, 1, space, addr, &mut collected);
    let Collected { edges, added } = collected;
    added?;
    Ok(edges)
}

/// The edges that the walks of roots give, one after another.
pub fn root_edges(alloc: Global, tables: &Tables, space: &Space) -> Result<Vec<Edge>, AllocError> {
    let mut edges = Vec::new(alloc);
    for walk in tables.roots.as_slice() {
        let mut more = walk_edges(alloc, tables, *walk, space, 0)?;
        edges.append(&mut more)?;
    }
    Ok(edges)
}
