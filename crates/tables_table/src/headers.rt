// Rows with a header each.
use crate::walks::print_tables;
use gt_headers::{are_within_limits, declare, declared_programs_are_settled};
use gt_tables::build;
use gt_types::Bytes;
use std::alloc::{AllocError, Global};
use std::io;

// A header's bytes, as the one of its kind.
fn texts_of(alloc: Global, header: &str) -> Result<Vec<Bytes>, AllocError> {
    let mut texts = Vec::new(alloc);
    texts.push(Bytes::of(alloc, header.as_bytes())?)?;
    Ok(texts)
}

// Prints the walks of parts and roots of the program that a header declares.
fn print_header(rt: &impl Print, alloc: Global, header: &str) -> io::Result<()> {
    declared_programs_are_settled();
    println!(rt; "{header}")?;
    let texts = texts_of(alloc, header)?;
    if !are_within_limits(&texts) {
        return println!(rt; "the header is too large");
    }
    let Ok(declared) = declare(alloc, &texts) else {
        return println!(rt; "the header has a fault");
    };
    let tables = build(alloc, &declared.program, &declared.layouts)?;
    let structures = declared.program.structures.len();
    let first = structures.saturating_mul(2).saturating_add(2);
    print_tables(rt, alloc, &tables, first)
}

/// Prints those of each row of the input. A row that begins with `#` says something to a reader.
pub fn print_headers(rt: &HostRuntime) -> io::Result<()> {
    for line in rt.lines(rt.alloc()) {
        let line = line?;
        let text = line.as_str();
        if text.is_empty() || text.starts_with("#") {
            continue;
        }
        print_header(rt, rt.alloc(), text)?;
    }
    Ok(())
}
