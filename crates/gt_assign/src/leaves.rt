// Leaves, and values without their pointers.
ghost use Rattle.std.specs.Prelude.{◌≡◌, IfOk, map};
ghost use Rattle.gt_tree.specs.Trees.{is_leaf, is_word, without_pointers, all_without_pointers};
ghost use Rattle.gt_value.specs.Values.{trees, tree_of};

use gt_types::Boxed;
use gt_value::Value;
use std::alloc::{AllocError, Global};
use std::mem;

/// The value in which each pointer is null. Its other parts are moved.
#[cycle(bare)]
pub fn without_pointers(alloc: Global, value: Value) -> Result<Value, AllocError>
    ensures { IfOk result (λ made. tree_of made ≡ without_pointers (tree_of value)) }
{
    match value {
        Value::Null | Value::To(_) => Ok(Value::Null),
        Value::Rec(parts) => Ok(Value::Rec(all_without_pointers(alloc, parts)?)),
        Value::Row(parts) => Ok(Value::Row(all_without_pointers(alloc, parts)?)),
        Value::Alt {
            member,
            value: there,
        } => {
            let made = without_pointers(alloc, there.into_inner())?;
            Ok(Value::Alt {
                member,
                value: Boxed::new(alloc, made)?,
            })
        }
        Value::Num(_) | Value::Raw(_) => Ok(value),
    }
}

// The values in which each pointer is null. Each is changed at its place.
#[cycle(bare)]
fn all_without_pointers(alloc: Global, mut parts: Vec<Value>) -> Result<Vec<Value>, AllocError>
    ensures { IfOk result (λ made. trees (map tree_of made.items) ≡ all_without_pointers (trees (map tree_of parts.items))) }
{
    for i in 0..parts.len() {
        let old = mem::replace(&mut parts[i], Value::Null);
        let made = without_pointers(alloc, old)?;
        parts[i] = made;
    }
    Ok(parts)
}

/// Whether a value is a leaf that can be written: a number, a pointer, or eight bytes that are never scanned.
pub fn is_word(value: &Value) -> bool
    ensures { result ≡ is_word (tree_of value.now) }
{
    match value {
        Value::Num(_) | Value::Null | Value::To(_) => true,
        Value::Raw(bytes) => bytes.len() == 8,
        Value::Rec(_) | Value::Alt { .. } | Value::Row(_) => false,
    }
}

/// Whether a value has no parts of its own.
pub fn is_leaf(value: &Value) -> bool
    ensures { result ≡ is_leaf (tree_of value.now) }
{
    match value {
        Value::Num(_) | Value::Null | Value::To(_) | Value::Raw(_) => true,
        Value::Rec(_) | Value::Alt { .. } | Value::Row(_) => false,
    }
}
