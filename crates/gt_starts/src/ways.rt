// Steps of the way from a structure to a part of it.
ghost use Rattle.std.specs.Prelude.{◌≡◌, option_copied, slice_get};
ghost use Rattle.gt_tree.specs.Scopes.{◌then◌};
ghost use Rattle.gt_starts.specs.Ways.{name_at, inner_at, is_union, way_to};
ghost use Rattle.gt_starts.specs.Ends.{led};

use crate::tries::Trie;
use gt_types::{Field, Program, Ty, TypeId, Word};

// The field at a place of a structure.
fn field_at<'a>(program: &'a Program, id: TypeId, i: u32) -> Option<&'a Field>
    ensures { option_copied result ≡ (slice_get program.now.structures id.0 then λ s. slice_get s.fields i) }
{
    let structure = program.structures.get(id.0 as usize)?;
    structure.fields.get(i as usize)
}

// The name of the field at a place of a structure.
fn name_at<'a>(program: &'a Program, id: TypeId, i: u32) -> Option<&'a Word>
    ensures { option_copied result ≡ name_at program.now id i }
{
    Some(&field_at(program, id, i)?.name)
}

// The structure by value at a place of a structure.
fn inner_at(program: &Program, id: TypeId, i: u32) -> Option<TypeId>
    ensures { result ≡ inner_at program.now id i }
{
    match field_at(program, id, i)?.ty {
        Ty::Node { id, .. } => Some(id),
        _ => None,
    }
}

// Whether a structure is a union.
fn is_union(program: &Program, id: TypeId) -> bool
    ensures { result ≡ is_union program.now id }
{
    match program.structures.get(id.0 as usize) {
        Some(s) => s.is_union,
        None => false,
    }
}

/// Where a way leads.
#[derive(Clone, Copy)]
pub enum Led {
    /// All names on it are known, and lead to this node.
    Known(u32),
    /// Those up to a union lead to this node.
    Hidden(u32),
    /// No node is there.
    Nowhere,
}

/// Where the way from a structure to a part of it leads from a node. It takes no memory, and its time grows with the path alone.
pub fn node_on_way(
    trie: &Trie,
    program: &Program,
    begin: Option<TypeId>,
    path: &[u32],
    node: u32,
) -> Led
    ensures leads { result ≡ led trie.now node (way_to program.now begin path.now) }
{
    let Some(id) = begin else {
        return Led::Known(node);
    };
    let [i, rest @ ..] = path else {
        return Led::Known(node);
    };
    if is_union(program, id) {
        return Led::Hidden(node);
    }
    let Some(name) = name_at(program, id, *i) else {
        return Led::Hidden(node);
    };
    let Some(next) = trie.child(node, name) else {
        return Led::Nowhere;
    };
    node_on_way(trie, program, inner_at(program, id, *i), rest, next)
}
