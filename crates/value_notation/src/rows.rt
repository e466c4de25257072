// One row of the table: TYPE CAPACITY [PATH=LEAF].. -> TEXT, or => BYTES.
use crate::leaves::{Refusal, Write};
use crate::structures::Kind;
use std::alloc::Global;

/// A row, but for what it wants.
#[derive(Drop)]
pub struct Row {
    pub kind: Kind,
    pub capacity: u32,
    pub writes: Vec<Write>,
}

impl Row {
    /// The row that words say.
    pub fn read(alloc: Global, text: &str) -> Result<Row, Refusal> {
        let mut words = text.split(' ');
        let Some(kind) = words.next().and_then(Kind::named) else {
            return Err(Refusal::Malformed);
        };
        let Some(capacity) = words.next() else {
            return Err(Refusal::Malformed);
        };
        let Ok(capacity) = capacity.parse::<u32>() else {
            return Err(Refusal::Malformed);
        };
        let mut writes = Vec::new(alloc);
        for word in words {
            writes.push(Write::read(alloc, word)?)?;
        }
        Ok(Row {
            kind,
            capacity,
            writes,
        })
    }
}
