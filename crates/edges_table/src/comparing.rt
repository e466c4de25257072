// Edges beside edges.
use crate::edges::Edge;
use std::alloc::{AllocError, Global};
use value_notation::hexadecimal;

/// What is seen of one value: the edges of what is read, and those that the walk gives.
#[derive(Drop)]
pub struct Seen {
    pub read: Vec<Edge>,
    pub walked: Vec<Edge>,
    pub bytes: Vec<u8>,
}

impl Seen {
    /// Whether the walk gives the edges of what is read.
    pub fn agrees(&self) -> bool {
        self.read.as_slice() == self.walked.as_slice()
    }

    /// The bytes, and both lists of edges.
    pub fn text(&self, alloc: Global) -> Result<String, AllocError> {
        let bytes = hexadecimal(alloc, self.bytes.as_slice())?;
        let mut text = String::new(alloc);
        write!(text, "{} read", bytes.as_str())?;
        push_edges(&mut text, self.read.as_slice())?;
        write!(text, " walked")?;
        push_edges(&mut text, self.walked.as_slice())?;
        Ok(text)
    }
}

fn push_edges(text: &mut String, edges: &[Edge]) -> Result<(), AllocError> {
    for edge in edges {
        let Edge {
            place,
            target,
            walk,
            count,
        } = edge;
        write!(text, " {place}={target}:{walk}:{count}")?;
    }
    Ok(())
}
