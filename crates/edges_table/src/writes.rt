// Random writes of leaves.
use crate::random::Random;
use gt_types::Bytes;
use gt_value::Value;
use std::alloc::{AllocError, Global};

/// How deep the parts of a value may nest.
const MOST_NESTED: u32 = 256;

/// A random leaf, and a random path at which it may be written.
#[derive(Drop)]
pub struct Write {
    pub path: Vec<u32>,
    pub leaf: Value,
}

impl Write {
    /// A write for a value: the path leads from the outside in, and the leaf is of the kind that is there.
    pub fn random(alloc: Global, value: &Value, random: &mut Random) -> Result<Write, AllocError> {
        let mut path = Vec::new(alloc);
        let mut part = value;
        for _ in 0..MOST_NESTED {
            let Some((place, next)) = random_part(part, random) else {
                break;
            };
            path.push(place)?;
            part = next;
        }
        let leaf = random_leaf(alloc, part, random)?;
        Ok(Write { path, leaf })
    }
}

// A random part of a value, and its place; None where it has none.
fn random_part<'a>(value: &'a Value, random: &mut Random) -> Option<(u32, &'a Value)> {
    match value {
        Value::Num(_) | Value::Null | Value::To(_) | Value::Raw(_) => None,
        Value::Rec(parts) | Value::Row(parts) => {
            let n = parts.len().min(u32::MAX as usize) as u64;
            if n == 0 {
                return None;
            }
            let place = random.below(n) as u32;
            Some((place, parts.get(place as usize)?))
        }
        Value::Alt { member, value } => {
            let place = match member {
                Some(member) => *member,
                None => 0,
            };
            Some((place, value.get()))
        }
    }
}

// A random leaf of the kind of another.
fn random_leaf(alloc: Global, like: &Value, random: &mut Random) -> Result<Value, AllocError> {
    match like {
        Value::Num(_) => Ok(Value::Num(random_number(random))),
        Value::Raw(_) => {
            let bytes = random.next().to_le_bytes();
            Ok(Value::Raw(Bytes::of(alloc, &bytes)?))
        }
        _ => Ok(random_pointer(random)),
    }
}

// Mostly 0 or 1, else another small number, which may be a tag or a length; at times a negative or a large one.
fn random_number(random: &mut Random) -> i128 {
    match random.below(8) {
        0 => -(random.below(4) as i128),
        1 => i64::from_le_bytes(random.next().to_le_bytes()) as i128,
        2 | 3 => random.below(5) as i128,
        _ => random.below(2) as i128,
    }
}

// Null, or the address of a block of the table. Half of them are the two blocks of items.
fn random_pointer(random: &mut Random) -> Value {
    match random.below(12) {
        0 => Value::Null,
        1..=4 => Value::To(256),
        5 | 6 => Value::To(512),
        7 => Value::To(768),
        8 => Value::To(1024),
        9 => Value::To(1280),
        10 => Value::To(1536),
        _ => Value::To(1792),
    }
}
