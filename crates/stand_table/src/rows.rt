// One row of the table: TYPE ; VALUE ; BYTES.
use gt_types::{Ty, TypeId};
use gt_value::Value;
use std::alloc::Global;
use value_notation::{Refusal, Sample, read_bytes, read_value, structure_named};

/// A row, but for what it wants: a value of a type, and bytes.
#[derive(Drop)]
pub struct Row {
    pub ty: Ty,
    pub value: Value,
    pub bytes: Vec<u8>,
}

impl Row {
    /// The row that words say.
    pub fn read(on: &Sample, text: &str) -> Result<Row, Refusal> {
        let Some((name, rest)) = text.split_once(" ; ") else {
            return Err(Refusal::Malformed);
        };
        let Some((value, digits)) = rest.split_once(" ; ") else {
            return Err(Refusal::Malformed);
        };
        let Some(id) = structure_named(&on.program, name) else {
            return Err(Refusal::Malformed);
        };
        Ok(Row {
            ty: structure(id),
            value: read_value(on.alloc, value)?,
            bytes: bytes_of(on.alloc, digits)?,
        })
    }
}

// The type of a structure by value.
fn structure(id: TypeId) -> Ty {
    Ty::Node { id, desc: None }
}

// The bytes of which a word has the hexadecimal digits.
fn bytes_of(alloc: Global, word: &str) -> Result<Vec<u8>, Refusal> {
    match word {
        "none" => Ok(Vec::new(alloc)),
        _ => read_bytes(alloc, word.as_bytes()),
    }
}
