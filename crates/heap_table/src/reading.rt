// Graphs by their words: the values of the roots, and after a semicolon each an object or the pairs of a cache.
use crate::graphs::{Graph, Object, Pair};
use gt_types::Program;
use gt_value::{BlockKind, Value};
use std::alloc::Global;
use value_notation::{Refusal, read_value, read_values, structure_named};

// What a block of this name holds.
fn kind_named(program: &Program, name: &str) -> Option<BlockKind> {
    match name {
        "strings" => Some(BlockKind::Strings),
        "chars" => Some(BlockKind::Chars),
        "raw" => Some(BlockKind::Raw),
        _ => match name.strip_prefix("*") {
            Some(name) => Some(BlockKind::Pointers(structure_named(program, name)?)),
            None => Some(BlockKind::Nodes(structure_named(program, name)?)),
        },
    }
}

fn read_number(word: &str) -> Result<u32, Refusal> {
    match word.parse::<u32>() {
        Ok(n) => Ok(n),
        Err(_) => Err(Refusal::Malformed),
    }
}

/// The name that a word is.
pub fn read_name(word: &str) -> Result<u64, Refusal> {
    match word.parse::<u64>() {
        Ok(name) => Ok(name),
        Err(_) => Err(Refusal::Malformed),
    }
}

// The first word of a text, and what follows it.
fn first_word(text: &str) -> Result<(&str, &str), Refusal> {
    match text.split_once(' ') {
        Some(both) => Ok(both),
        None => Err(Refusal::Malformed),
    }
}

// An object: ID KIND COUNT CAPACITY VALUE.
fn read_object(alloc: Global, program: &Program, text: &str) -> Result<Object, Refusal> {
    let (id, text) = first_word(text)?;
    let (kind, text) = first_word(text)?;
    let (count, text) = first_word(text)?;
    let (capacity, text) = first_word(text)?;
    let Some(kind) = kind_named(program, kind) else {
        return Err(Refusal::Malformed);
    };
    Ok(Object {
        id: read_name(id)?,
        kind,
        count: read_number(count)?,
        capacity: read_number(capacity)?,
        value: read_value(alloc, text)?,
    })
}

// A pair: KEY=VALUE.
fn read_pair(word: &str) -> Result<Pair, Refusal> {
    match word.split_once('=') {
        Some((key, value)) => Ok(Pair {
            key: read_name(key)?,
            value: read_name(value)?,
        }),
        None => Err(Refusal::Malformed),
    }
}

fn read_pairs(alloc: Global, text: &str) -> Result<Vec<Pair>, Refusal> {
    let mut pairs = Vec::new(alloc);
    for word in text.split(' ') {
        if !word.is_empty() {
            pairs.push(read_pair(word)?)?;
        }
    }
    Ok(pairs)
}

/// The graph that words say.
pub fn read_graph(alloc: Global, program: &Program, text: &str) -> Result<Graph, Refusal> {
    let mut parts = text.split(" ; ");
    let Some(roots) = parts.next() else {
        return Err(Refusal::Malformed);
    };
    let statics = read_values(alloc, roots)?;
    let mut objects = Vec::new(alloc);
    let mut caches = Vec::new(alloc);
    for part in parts {
        match part.strip_prefix("cache") {
            Some(pairs) => caches.push(read_pairs(alloc, pairs)?)?,
            None => objects.push(read_object(alloc, program, part)?)?,
        }
    }
    Ok(Graph {
        objects,
        statics,
        caches,
    })
}
