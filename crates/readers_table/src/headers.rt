// What sets of headers declare, in one line: structures with the places of the structs to which their fields point, roots, caches,
// and names of typedefs.
use gt_headers::{are_within_limits, declare};
use gt_types::{
    Bytes, Cache, Fault, Program, PtrKind, Root, Stop, Structure, Target, Ty, TypeId, Typedef,
};
use std::alloc::{AllocError, Global};

/// What the headers declare, or their first fault.
pub fn answer(alloc: Global, texts: &[Bytes]) -> Result<String, AllocError> {
    if !are_within_limits(texts) {
        return String::from_str(alloc, "more than headers may be");
    }
    match declare(alloc, texts) {
        Ok(declared) => program_text(alloc, &declared.program),
        Err(stop) => stop_text(alloc, stop),
    }
}

fn pointer_text(alloc: Global, name: &str, ty: &Ty) -> Result<String, AllocError> {
    match ty {
        Ty::Ptr {
            target: Some(Target::Node(TypeId(id))),
            kind: PtrKind::Plain,
            reorder: false,
        } => format!(in alloc; "{name}={id}"),
        _ => format!(in alloc; "{name} is no plain pointer"),
    }
}

fn structure_text(alloc: Global, structure: &Structure) -> Result<String, AllocError> {
    let mut line = format!(in alloc; "{} {{", structure.name.as_str())?;
    for field in structure.fields.as_slice() {
        if !line.as_str().ends_with('{') {
            line.push_str(", ")?;
        }
        line.push_str(pointer_text(alloc, field.name.as_str(), &field.ty)?.as_str())?;
    }
    line.push_str("}")?;
    Ok(line)
}

fn root_text(alloc: Global, root: &Root) -> Result<String, AllocError> {
    let pointer = pointer_text(alloc, root.name.as_str(), &root.ty)?;
    let word = if root.deletable {
        "deletable root"
    } else {
        "root"
    };
    format!(in alloc; "{word} {}", pointer.as_str())
}

fn cache_text(alloc: Global, cache: &Cache) -> Result<String, AllocError> {
    format!(in alloc;
        "cache {}={},{}",
        cache.name.as_str(),
        cache.key.0,
        cache.value.0
    )
}

fn word_text(alloc: Global, word: &Typedef) -> Result<String, AllocError> {
    let star = if word.pointer { "*" } else { "" };
    format!(in alloc; "word {}={star}{}", word.name.as_str(), word.id.0)
}

// Adds a part to a line, after a bar where it is not the first.
fn add(line: &mut String, part: &str) -> Result<(), AllocError> {
    line.push_str(if line.is_empty() { "" } else { " | " })?;
    line.push_str(part)?;
    Ok(())
}

fn program_text(alloc: Global, program: &Program) -> Result<String, AllocError> {
    let mut line = String::new(alloc);
    for structure in program.structures.as_slice() {
        add(&mut line, structure_text(alloc, structure)?.as_str())?;
    }
    for root in program.roots.as_slice() {
        add(&mut line, root_text(alloc, root)?.as_str())?;
    }
    for cache in program.caches.as_slice() {
        add(&mut line, cache_text(alloc, cache)?.as_str())?;
    }
    for word in program.words.as_slice() {
        add(&mut line, word_text(alloc, word)?.as_str())?;
    }
    Ok(line)
}

fn stop_text(alloc: Global, stop: Stop) -> Result<String, AllocError> {
    match stop {
        Stop::Memory => String::from_str(alloc, "out of memory"),
        Stop::At(Fault { number, file, at }) => {
            format!(in alloc; "fault {number} in {file} at {at}")
        }
    }
}
