// The writes of a row of the static record: PATH=LEAF, or !PATH=LEAF where it has to fit nowhere.
use std::alloc::Global;
use value_notation::{Refusal, Write};

/// A write in the static record.
#[derive(Drop)]
pub struct RootWrite {
    pub write: Write,
    /// It has to fit nowhere.
    pub refused: bool,
}

/// The writes that words say.
pub fn read_writes(alloc: Global, words: &str) -> Result<Vec<RootWrite>, Refusal> {
    let mut writes = Vec::new(alloc);
    for word in words.split(' ') {
        writes.push(read_write(alloc, word)?)?;
    }
    Ok(writes)
}

fn read_write(alloc: Global, word: &str) -> Result<RootWrite, Refusal> {
    match word.strip_prefix("!") {
        Some(write) => Ok(RootWrite {
            write: Write::read(alloc, write)?,
            refused: true,
        }),
        None => Ok(RootWrite {
            write: Write::read(alloc, word)?,
            refused: false,
        }),
    }
}
