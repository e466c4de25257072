// The part of a value at a path, and the value with another part there.
ghost use Rattle.std.specs.Prelude.{◌≡◌, IfOk, map, option_copied};
ghost use Rattle.gt_tree.specs.Trees.{part_at, part_of, with_part, with_part_of};
ghost use Rattle.gt_value.specs.Values.{trees, tree_of};
ghost use Rattle.gt_fit.specs.Values.{maybe_tree};

use gt_fit::item;
use gt_types::Boxed;
use gt_value::Value;
use std::alloc::{AllocError, Global};
use std::mem;

/// The part at a path: places of fields, of the active member and of elements, from the outside in.
#[cycle(parts)]
pub fn part_at<'a>(value: &'a Value, path: &[u32]) -> Option<&'a Value>
    ensures { maybe_tree (option_copied result) ≡ part_at (tree_of value.now) path.now }
{
    match path {
        [] => Some(value),
        [i, rest @ ..] => match value {
            Value::Rec(parts) => part_of(parts.as_slice(), *i, rest),
            Value::Row(parts) => part_of(parts.as_slice(), *i, rest),
            Value::Alt {
                member: None,
                value: there,
            } => part_at(there.get(), rest),
            Value::Alt {
                member: Some(member),
                value: there,
            } => {
                if *member == *i {
                    part_at(there.get(), rest)
                } else {
                    None
                }
            }
            _ => None,
        },
    }
}

// The same in the value at a place of a list.
#[cycle(parts)]
fn part_of<'a>(parts: &'a [Value], i: u32, path: &[u32]) -> Option<&'a Value>
    ensures { maybe_tree (option_copied result) ≡ part_of (trees (map tree_of parts.now)) i path.now }
{
    match item(parts, i as usize) {
        None => None,
        Some(part) => part_at(part, path),
    }
}

/// The value with another part at a path.
#[cycle(placing)]
pub fn with_part(
    alloc: Global,
    value: Value,
    path: &[u32],
    part: Value,
) -> Result<Value, AllocError>
    ensures { IfOk result (λ v. tree_of v ≡ with_part (tree_of value) path.now (tree_of part)) }
{
    match path {
        [] => Ok(part),
        [i, rest @ ..] => match value {
            Value::Rec(parts) => Ok(Value::Rec(with_part_of(alloc, parts, *i, rest, part)?)),
            Value::Row(parts) => Ok(Value::Row(with_part_of(alloc, parts, *i, rest, part)?)),
            Value::Alt {
                member: None,
                value: there,
            } => {
                let made = with_part(alloc, there.into_inner(), rest, part)?;
                Ok(Value::Alt {
                    member: None,
                    value: Boxed::new(alloc, made)?,
                })
            }
            Value::Alt {
                member: Some(member),
                value: there,
            } => {
                if member == *i {
                    let made = with_part(alloc, there.into_inner(), rest, part)?;
                    Ok(Value::Alt {
                        member: Some(member),
                        value: Boxed::new(alloc, made)?,
                    })
                } else {
                    Ok(Value::Alt {
                        member: Some(member),
                        value: there,
                    })
                }
            }
            leaf => Ok(leaf),
        },
    }
}

// The same in the value at a place of a list.
#[cycle(placing)]
fn with_part_of(
    alloc: Global,
    mut parts: Vec<Value>,
    i: u32,
    path: &[u32],
    part: Value,
) -> Result<Vec<Value>, AllocError>
    ensures { IfOk result (λ made. trees (map tree_of made.items) ≡ with_part_of (trees (map tree_of parts.items)) i path.now (tree_of part)) }
{
    let place = i as usize;
    if place >= parts.len() {
        return Ok(parts);
    }
    let old = mem::replace(&mut parts[place], Value::Null);
    let made = with_part(alloc, old, path, part)?;
    parts[place] = made;
    Ok(parts)
}
