// A part that was not there: each of its numbers is 0, and each of its pointers null.
ghost use Rattle.std.specs.Prelude.{◌≡◌, true, Some};
ghost use Rattle.gt_types.specs.Contains.{HasStructure};
ghost use Rattle.gt_types.specs.Settled.{Settled};
ghost use Rattle.gt_types.specs.declared.types.Ty.{out-Ty};
ghost use Rattle.gt_tree.specs.Fits.{active_member, types_of};
ghost use Rattle.gt_assign.specs.Pasts.{Nothing, past_of, desc_was};
ghost use Rattle.gt_assign.specs.Turning.{Gives, zero_leaf, made, layer_made, tail_made, node_made, struct_made, fields_made, row_made, member_made, rest_made};
ghost use Rattle.gt_assign.specs.Changes.{GivesAll};

use crate::making::{Making, tail_length};
use crate::seeing::{Around, Seen, desc_value};
use gt_types::{Boxed, Bytes, Expr, Field, Structure, Ty, TypeId};
use gt_value::{Value, ValueFail};
use std::alloc::Global;

/// The value of a part of a type that was not there, by what was around it. `Shape` says that there is none.
#[cycle(zeros)]
pub fn zero(on: &Making, ty: &Ty, around: &Around, depth: usize) -> Result<Value, ValueFail>
    requires settled { Settled on.now.program.now }
    ensures { Gives result (made on.now.program.now on.now.capacity depth (past_of around.now) ty.now Nothing) }
{
    if depth == 0 {
        return Err(ValueFail::Shape);
    }
    zero_layer(on, ty, around, depth - 1)
}

// The same, where its parts nest one less deep.
#[cycle(zeros)]
fn zero_layer(on: &Making, ty: &Ty, around: &Around, depth: usize) -> Result<Value, ValueFail>
    requires settled { Settled on.now.program.now }
    ensures { Gives result (layer_made on.now.program.now on.now.capacity (made on.now.program.now on.now.capacity depth) (past_of around.now) (out-Ty ty.now) Nothing) }
{
    match ty {
        Ty::Node { id, desc } => zero_node(on, *id, desc, around, depth),
        Ty::Arr { n, elem } => zero_row(on, elem.get(), *n as usize, around, depth),
        Ty::Tail { len, elem } => {
            zero_tail(on, elem.get(), tail_length(on, len, around), around, depth)
        }
        _ => zero_leaf(on.alloc, ty),
    }
}

// A leaf that was not there. `Shape` says that the type is of no leaf.
fn zero_leaf(alloc: Global, ty: &Ty) -> Result<Value, ValueFail>
    ensures { Gives result (zero_leaf (out-Ty ty.now)) }
{
    match ty {
        Ty::Num(_) | Ty::Bits { .. } => Ok(Value::Num(0)),
        Ty::Opaque { size, .. } => {
            let mut bytes = Vec::new(alloc);
            bytes.resize(*size as usize, 0)?;
            Ok(Value::Raw(Bytes::from_vec(bytes)))
        }
        Ty::Str(_) | Ty::Ptr { .. } => Ok(Value::Null),
        Ty::Node { .. } | Ty::Arr { .. } | Ty::Tail { .. } => Err(ValueFail::Shape),
    }
}

// The elements of an array with a length, as many as there are.
#[cycle(zeros)]
fn zero_tail(
    on: &Making,
    ty: &Ty,
    n: Option<usize>,
    around: &Around,
    depth: usize,
) -> Result<Value, ValueFail>
    requires settled { Settled on.now.program.now }
    ensures { Gives result (tail_made (made on.now.program.now on.now.capacity depth) (past_of around.now) ty.now Nothing n) }
{
    match n {
        None => Err(ValueFail::Shape),
        Some(n) => zero_row(on, ty, n, around, depth),
    }
}

// The elements of an array.
#[cycle(zeros)]
fn zero_row(
    on: &Making,
    ty: &Ty,
    n: usize,
    around: &Around,
    depth: usize,
) -> Result<Value, ValueFail>
    requires settled { Settled on.now.program.now }
    ensures { Gives result (row_made (made on.now.program.now on.now.capacity depth) (past_of around.now) ty.now Nothing n) }
{
    let mut parts = Vec::new(on.alloc);
    for i in 0..n {
        parts.push(zero(on, ty, around, depth)?)?;
    }
    Ok(Value::Row(parts))
}

// A structure by value.
#[cycle(zeros)]
fn zero_node(
    on: &Making,
    id: TypeId,
    desc: &Option<Expr>,
    around: &Around,
    depth: usize,
) -> Result<Value, ValueFail>
    requires settled { Settled on.now.program.now }
    ensures { Gives result (node_made on.now.program.now (made on.now.program.now on.now.capacity depth) (past_of around.now) id desc.now Nothing) }
{
    let Some(structure) = on.program.structures.get(id.0 as usize) else {
        return Err(ValueFail::Shape);
    };
    let inner = around.inside(id, Seen::Zero);
    if structure.is_union {
        zero_union(on, id, desc, structure, &inner, depth)
    } else {
        zero_struct(on, structure.fields.as_slice(), &inner, depth)
    }
}

// A struct.
#[cycle(zeros)]
fn zero_struct(
    on: &Making,
    fields: &[Field],
    inner: &Around,
    depth: usize,
) -> Result<Value, ValueFail>
    requires settled { Settled on.now.program.now }
    ensures { Gives result (struct_made (made on.now.program.now on.now.capacity depth) (past_of inner.now) fields.now Nothing) }
{
    Ok(Value::Rec(zero_fields(on, fields, inner, depth)?))
}

/// Fields of a struct.
#[cycle(zeros)]
pub fn zero_fields(
    on: &Making,
    fields: &[Field],
    inner: &Around,
    depth: usize,
) -> Result<Vec<Value>, ValueFail>
    requires settled { Settled on.now.program.now }
    ensures { GivesAll result (fields_made (made on.now.program.now on.now.capacity depth) (past_of inner.now) Nothing 0 (types_of fields.now)) }
{
    let mut parts = Vec::new(on.alloc);
    for field in fields {
        parts.push(zero(on, &field.ty, inner, depth)?)?;
    }
    Ok(parts)
}

// A union: its active member, or without one its common structure.
#[cycle(zeros)]
fn zero_union(
    on: &Making,
    id: TypeId,
    desc: &Option<Expr>,
    structure: &Structure,
    inner: &Around,
    depth: usize,
) -> Result<Value, ValueFail>
    requires settled { Settled on.now.program.now }
    requires there { HasStructure on.now.program.now id structure.now }
    requires union { structure.now.is_union ≡ true }
    ensures { Gives result (member_made on.now.program.now (made on.now.program.now on.now.capacity depth) (past_of inner.now) structure.now Nothing (active_member (desc_was on.now.program.now (past_of inner.now) desc.now) structure.now.fields)) }
{
    let value = desc_value(on, desc, inner);
    match on.layouts.unions.active_member(id, value) {
        Some(place) => zero_member(on, structure, place, inner, depth),
        None => {
            let value = zero_rest(on, id, structure, inner, depth)?;
            Ok(Value::Alt {
                member: None,
                value: Boxed::new(on.alloc, value)?,
            })
        }
    }
}

/// The member of a union at a place, which is the active one.
#[cycle(zeros)]
pub fn zero_member(
    on: &Making,
    structure: &Structure,
    place: u32,
    inner: &Around,
    depth: usize,
) -> Result<Value, ValueFail>
    requires settled { Settled on.now.program.now }
    ensures { Gives result (member_made on.now.program.now (made on.now.program.now on.now.capacity depth) (past_of inner.now) structure.now Nothing (Some place)) }
{
    let Some(field) = structure.fields.get(place as usize) else {
        return Err(ValueFail::Shape);
    };
    let value = zero(on, &field.ty, inner, depth)?;
    Ok(Value::Alt {
        member: Some(place),
        value: Boxed::new(on.alloc, value)?,
    })
}

// The common structure of a union of which no member is active.
#[cycle(zeros)]
fn zero_rest(
    on: &Making,
    id: TypeId,
    structure: &Structure,
    inner: &Around,
    depth: usize,
) -> Result<Value, ValueFail>
    requires settled { Settled on.now.program.now }
    requires there { HasStructure on.now.program.now id structure.now }
    requires union { structure.now.is_union ≡ true }
    ensures { Gives result (rest_made on.now.program.now (made on.now.program.now on.now.capacity depth) (past_of inner.now) structure.now Nothing) }
{
    match on.layouts.unions.common(id) {
        None => Ok(Value::Rec(Vec::new(on.alloc))),
        Some(id) => zero(on, &Ty::Node { id, desc: None }, inner, depth),
    }
}
