// One row through the program.
use crate::rows::{Look, Row};
use gt_io::{MemFiles, MemSink};
use gt_run::top;
use gt_space::Space;
use gt_types::Word;
use std::alloc::{AllocError, Global};

/// A file that the program finds.
#[derive(Drop)]
pub struct File {
    pub name: Word,
    pub text: String,
}

/// How a run ended, and what it wrote, with the bytes that the row looks at.
#[derive(Drop)]
pub struct Came {
    pub status: u8,
    pub output: String,
}

/// Runs the program on a row's words, with its own files and those that all rows share, and with the calls that fail in the row.
pub fn run_row(alloc: Global, shared: &[File], row: &Row) -> Result<Came, AllocError> {
    let mut files = MemFiles::new(alloc, row.failing.reads.as_slice().to_vec(alloc)?);
    add_all(&mut files, shared)?;
    add_all(&mut files, row.files.as_slice())?;
    let mut out = MemSink::new(alloc, row.failing.writes.as_slice().to_vec(alloc)?);
    let mut space = Space::empty(alloc);
    let outcome = top(
        alloc,
        row.words.as_slice(),
        &mut files,
        &mut out,
        &mut space,
    );
    let mut output = String::from_utf8_lossy(alloc, out.bytes())?;
    if let Some(look) = row.look {
        push_bytes(alloc, &mut output, &space, look)?;
    }
    Ok(Came {
        status: outcome.status,
        output,
    })
}

// Adds a line with the bytes at an address, but for those that are no bytes of the space.
fn push_bytes(
    alloc: Global,
    output: &mut String,
    space: &Space,
    look: Look,
) -> Result<(), AllocError> {
    output.push_str("bytes")?;
    for place in 0..look.count {
        if let Some(byte) = byte_at(space, look.address.saturating_add(place as u64)) {
            output.push_str(format!(in alloc; " {byte:02x}")?.as_str())?;
        }
    }
    output.push('\n')
}

// The byte at an address, where it is one of the space.
fn byte_at(space: &Space, address: u64) -> Option<u8> {
    let start = space.start();
    if start <= address && address - start < space.len() {
        Some(space.read_u8(address))
    } else {
        None
    }
}

fn add_all(files: &mut MemFiles, added: &[File]) -> Result<(), AllocError> {
    for file in added {
        files.add(&file.name, file.text.as_str().as_bytes())?;
    }
    Ok(())
}
