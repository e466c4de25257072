// What becomes of each part of a value in which a leaf was replaced: most parts stay as they are.
ghost use Rattle.std.specs.Prelude.{◌≡◌, IfOk, true, cond, Some, None, map, option_copied, option_map};
ghost use Rattle.gt_types.specs.Contains.{HasStructure};
ghost use Rattle.gt_types.specs.Settled.{Settled};
ghost use Rattle.gt_types.specs.declared.types.Ty.{out-Ty};
ghost use Rattle.gt_tree.specs.Trees.{Rec, Alt, Row, End, is_leaf, without_pointers};
ghost use Rattle.gt_tree.specs.Fits.{active_member};
ghost use Rattle.gt_value.specs.Values.{trees, tree_of};
ghost use Rattle.gt_fit.specs.Values.{maybe_tree};
ghost use Rattle.gt_assign.specs.Pasts.{Whole, past_of, desc_was};
ghost use Rattle.gt_assign.specs.Turning.{made, layer_made, tail_made, node_made, struct_made, row_made, member_made, maybe_whole, is_member, rest_whole};
ghost use Rattle.gt_assign.specs.Changes.{changed, Decides, or_null, turned_made};

use crate::beginnings::{begin, common_change, common_part};
use crate::changes::{Change, Parts};
use crate::leaves::is_leaf;
use crate::making::{Making, tail_length};
use crate::seeing::{Around, Seen, desc_value};
use crate::zeros::{zero, zero_member};
use gt_fit::{is_bare, item};
use gt_types::{Boxed, Expr, Field, Structure, Ty, TypeId};
use gt_value::{Value, ValueFail};
use std::alloc::{AllocError, Global};

/// What becomes of a part, by what was around it. `Shape` says that there is no value.
#[cycle(changing)]
pub fn change(
    on: &Making,
    ty: &Ty,
    value: &Value,
    around: &Around,
    depth: usize,
) -> Result<Change, ValueFail>
    requires settled { Settled on.now.program.now }
    ensures { Decides result (tree_of value.now) (made on.now.program.now on.now.capacity depth (past_of around.now) ty.now (Whole (tree_of value.now))) }
{
    if depth == 0 {
        return Err(ValueFail::Shape);
    }
    layer_change(on, ty, value, around, depth - 1)
}

// The same, where its parts nest one less deep.
#[cycle(changing)]
fn layer_change(
    on: &Making,
    ty: &Ty,
    value: &Value,
    around: &Around,
    depth: usize,
) -> Result<Change, ValueFail>
    requires settled { Settled on.now.program.now }
    ensures { Decides result (tree_of value.now) (layer_made on.now.program.now on.now.capacity (made on.now.program.now on.now.capacity depth) (past_of around.now) (out-Ty ty.now) (Whole (tree_of value.now))) }
{
    match ty {
        Ty::Node { id, desc } => node_change(on, *id, desc, value, around, depth),
        Ty::Arr { n, elem } => row_change(on, elem.get(), value, *n as usize, around, depth),
        Ty::Tail { len, elem } => tail_change(
            on,
            elem.get(),
            value,
            tail_length(on, len, around),
            around,
            depth,
        ),
        _ => leaf_change(value),
    }
}

// A leaf.
fn leaf_change(value: &Value) -> Result<Change, ValueFail>
    ensures { Decides result (tree_of value.now) (cond (is_leaf (tree_of value.now)) (Some (tree_of value.now)) None) }
{
    if is_leaf(value) {
        Ok(Change::Kept)
    } else {
        Err(ValueFail::Shape)
    }
}

// A structure by value.
#[cycle(changing)]
fn node_change(
    on: &Making,
    id: TypeId,
    desc: &Option<Expr>,
    value: &Value,
    around: &Around,
    depth: usize,
) -> Result<Change, ValueFail>
    requires settled { Settled on.now.program.now }
    ensures { Decides result (tree_of value.now) (node_made on.now.program.now (made on.now.program.now on.now.capacity depth) (past_of around.now) id desc.now (Whole (tree_of value.now))) }
{
    let Some(structure) = on.program.structures.get(id.0 as usize) else {
        return Err(ValueFail::Shape);
    };
    let inner = (&*around).inside(id, Seen::Whole(&*value));
    if structure.is_union {
        union_change(on, id, desc, structure, value, &inner, depth)
    } else {
        struct_change(on, structure.fields.as_slice(), value, &inner, depth)
    }
}

// A struct.
#[cycle(changing)]
fn struct_change(
    on: &Making,
    fields: &[Field],
    value: &Value,
    inner: &Around,
    depth: usize,
) -> Result<Change, ValueFail>
    requires settled { Settled on.now.program.now }
    ensures { Decides result (tree_of value.now) (struct_made (made on.now.program.now on.now.capacity depth) (past_of inner.now) fields.now (Whole (tree_of value.now))) }
{
    match value {
        Value::Rec(parts) => fields_change(on, fields, parts.as_slice(), inner, depth),
        _ => Err(ValueFail::Shape),
    }
}

// The fields of a struct.
#[cycle(changing)]
fn fields_change(
    on: &Making,
    fields: &[Field],
    parts: &[Value],
    inner: &Around,
    depth: usize,
) -> Result<Change, ValueFail>
    requires settled { Settled on.now.program.now }
    ensures { Decides result (Rec (trees (map tree_of parts.now))) (struct_made (made on.now.program.now on.now.capacity depth) (past_of inner.now) fields.now (Whole (Rec (trees (map tree_of parts.now))))) }
{
    if parts.len() != fields.len() {
        return Err(ValueFail::Shape);
    }
    let mut all = Parts::new(on.alloc, parts.len());
    for (i, part) in parts.iter().enumerate() {
        all.push(change(on, &fields[i].ty, part, inner, depth)?)?;
    }
    Ok(all.finish())
}

// An array with a length, by how many elements it is to have.
#[cycle(changing)]
fn tail_change(
    on: &Making,
    ty: &Ty,
    value: &Value,
    n: Option<usize>,
    around: &Around,
    depth: usize,
) -> Result<Change, ValueFail>
    requires settled { Settled on.now.program.now }
    ensures { Decides result (tree_of value.now) (tail_made (made on.now.program.now on.now.capacity depth) (past_of around.now) ty.now (Whole (tree_of value.now)) n) }
{
    match n {
        None => Err(ValueFail::Shape),
        Some(n) => row_change(on, ty, value, n, around, depth),
    }
}

// An array that is to have so many elements.
#[cycle(changing)]
fn row_change(
    on: &Making,
    ty: &Ty,
    value: &Value,
    n: usize,
    around: &Around,
    depth: usize,
) -> Result<Change, ValueFail>
    requires settled { Settled on.now.program.now }
    ensures { Decides result (tree_of value.now) (row_made (made on.now.program.now on.now.capacity depth) (past_of around.now) ty.now (Whole (tree_of value.now)) n) }
{
    match value {
        Value::Row(parts) => elements_change(on, ty, parts.as_slice(), n, around, depth),
        _ => Err(ValueFail::Shape),
    }
}

// The elements of an array that is to have so many.
#[cycle(changing)]
fn elements_change(
    on: &Making,
    ty: &Ty,
    parts: &[Value],
    n: usize,
    around: &Around,
    depth: usize,
) -> Result<Change, ValueFail>
    requires settled { Settled on.now.program.now }
    ensures { Decides result (Row (trees (map tree_of parts.now))) (row_made (made on.now.program.now on.now.capacity depth) (past_of around.now) ty.now (Whole (Row (trees (map tree_of parts.now)))) n) }
{
    let mut all = Parts::new(on.alloc, parts.len());
    for i in 0..n {
        all.push(element_change(on, ty, item(parts, i), around, depth)?)?;
    }
    Ok(all.finish())
}

// An element of an array: what was there, or zero.
#[cycle(changing)]
fn element_change(
    on: &Making,
    ty: &Ty,
    part: Option<&Value>,
    around: &Around,
    depth: usize,
) -> Result<Change, ValueFail>
    requires settled { Settled on.now.program.now }
    ensures { Decides result (or_null (maybe_tree (option_copied part.entry))) (made on.now.program.now on.now.capacity depth (past_of around.now) ty.now (maybe_whole (maybe_tree (option_copied part.entry)))) }
{
    match part {
        None => Ok(Change::New(zero(on, ty, around, depth)?)),
        Some(part) => change(on, ty, part, around, depth),
    }
}

// A union.
#[cycle(changing)]
fn union_change(
    on: &Making,
    id: TypeId,
    desc: &Option<Expr>,
    structure: &Structure,
    value: &Value,
    inner: &Around,
    depth: usize,
) -> Result<Change, ValueFail>
    requires settled { Settled on.now.program.now }
    requires there { HasStructure on.now.program.now id structure.now }
    requires union { structure.now.is_union ≡ true }
    ensures { Decides result (tree_of value.now) (member_made on.now.program.now (made on.now.program.now on.now.capacity depth) (past_of inner.now) structure.now (Whole (tree_of value.now))
        (active_member (desc_was on.now.program.now (past_of inner.now) desc.now) structure.now.fields)) }
{
    let Value::Alt {
        member,
        value: there,
    } = value
    else {
        return Err(ValueFail::Shape);
    };
    let active = on
        .layouts
        .unions
        .active_member(id, desc_value(on, desc, inner));
    match active {
        None => rest_change(on, id, structure, *member, there.get()),
        Some(place) => place_change(on, id, structure, *member, place, there.get(), inner, depth),
    }
}

// A union of which no member is active: its common structure is left, without pointers.
fn rest_change(
    on: &Making,
    id: TypeId,
    structure: &Structure,
    member: Option<u32>,
    there: &Value,
) -> Result<Change, ValueFail>
    requires settled { Settled on.now.program.now }
    requires there { HasStructure on.now.program.now id structure.now }
    requires union { structure.now.is_union ≡ true }
    ensures { Decides result (Alt member (tree_of there.now)) (option_map (Alt None) (rest_whole on.now.program.now structure.now (Alt member (tree_of there.now)))) }
{
    if member.is_none() {
        return Ok(bare_change(there).inside(on.alloc, None)?);
    }
    let Some(common) = on.layouts.unions.common(id) else {
        return Ok(Change::New(nothing_there(on.alloc)?));
    };
    let Some(part) = common_part(on, common, structure, member, there) else {
        return Err(ValueFail::Shape);
    };
    let bare = bare_change(part);
    let change = common_change(on, common, structure, member, there, bare)?;
    Ok(change.there(on.alloc, None)?)
}

// A union of which no member is active, and that has no common structure.
fn nothing_there(alloc: Global) -> Result<Value, AllocError>
    ensures { IfOk result (λ v. tree_of v ≡ Alt None (Rec End)) }
{
    Ok(Value::Alt {
        member: None,
        value: Boxed::new(alloc, Value::Rec(Vec::new(alloc)))?,
    })
}

// The common structure of a union of which no member is active: its pointers become null.
fn bare_change(part: &Value) -> Change
    ensures { changed result (tree_of part.now) ≡ without_pointers (tree_of part.now) }
{
    if is_bare(part) {
        Change::Kept
    } else {
        Change::Bare
    }
}

// Whether this member of a union was the active one.
fn was_active(member: Option<u32>, place: u32) -> bool
    ensures { result ≡ is_member member place }
{
    match member {
        Some(old) => old == place,
        None => false,
    }
}

// A union of which the member at a place is active.
#[cycle(changing)]
fn place_change(
    on: &Making,
    id: TypeId,
    structure: &Structure,
    member: Option<u32>,
    place: u32,
    there: &Value,
    inner: &Around,
    depth: usize,
) -> Result<Change, ValueFail>
    requires settled { Settled on.now.program.now }
    requires there { HasStructure on.now.program.now id structure.now }
    requires union { structure.now.is_union ≡ true }
    ensures { Decides result (Alt member (tree_of there.now)) (member_made on.now.program.now (made on.now.program.now on.now.capacity depth) (past_of inner.now) structure.now (Whole (Alt member (tree_of there.now))) (Some place)) }
{
    if was_active(member, place) {
        member_change(on, structure, place, there, inner, depth)
    } else {
        turned_change(on, id, structure, member, place, there, inner, depth)
    }
}

// A union of which the member at a place becomes active: it begins with the common structure, and is zero elsewhere.
fn turned_change(
    on: &Making,
    id: TypeId,
    structure: &Structure,
    member: Option<u32>,
    place: u32,
    there: &Value,
    inner: &Around,
    depth: usize,
) -> Result<Change, ValueFail>
    requires settled { Settled on.now.program.now }
    requires there { HasStructure on.now.program.now id structure.now }
    requires union { structure.now.is_union ≡ true }
    ensures { Decides result (Alt member (tree_of there.now)) (turned_made on.now.program.now (made on.now.program.now on.now.capacity depth) (past_of inner.now) structure.now member place (tree_of there.now)) }
{
    let Some(common) = on.layouts.unions.common(id) else {
        return Ok(Change::New(zero_member(on, structure, place, inner, depth)?));
    };
    let Some(field) = structure.fields.get(place as usize) else {
        return Err(ValueFail::Shape);
    };
    let Some(part) = common_part(on, common, structure, member, there) else {
        return Err(ValueFail::Shape);
    };
    let first = begin(on, &field.ty, common, part, inner, depth)?;
    let change = common_change(on, common, structure, member, there, first)?;
    Ok(change.there(on.alloc, Some(place))?)
}

// The active member of a union.
#[cycle(changing)]
fn member_change(
    on: &Making,
    structure: &Structure,
    place: u32,
    there: &Value,
    inner: &Around,
    depth: usize,
) -> Result<Change, ValueFail>
    requires settled { Settled on.now.program.now }
    ensures { Decides result (Alt (Some place) (tree_of there.now)) (member_made on.now.program.now (made on.now.program.now on.now.capacity depth) (past_of inner.now) structure.now (Whole (Alt (Some place) (tree_of there.now))) (Some place)) }
{
    let Some(field) = structure.fields.get(place as usize) else {
        return Err(ValueFail::Shape);
    };
    let change = change(on, &field.ty, there, inner, depth)?;
    Ok(change.inside(on.alloc, Some(place))?)
}
