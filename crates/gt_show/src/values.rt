// The text of a value, piece by piece.
ghost use Rattle.std.specs.Prelude.{◌≡◌, ◌++◌, true, map, codes, encode_utf8_all, IfOk, OnOk};
ghost use Rattle.gt_types.specs.Contains.{HasStructure};
ghost use Rattle.gt_types.specs.Settled.{Settled};
ghost use Rattle.gt_layout.specs.Planes.{IsLaidOut};
ghost use Rattle.gt_unions.specs.Tables.{union_tables};
ghost use Rattle.gt_tree.specs.Fits.{types_of};
ghost use Rattle.gt_value.specs.Values.{trees, tree_of};
ghost use Rattle.gt_show.specs.Shown.{Shows};
ghost use Rattle.gt_show.specs.Parts.{FitsSomewhere, AllFitSomewhere, EachFitsSomewhere, MemberFits, CommonFits, ShowsStruct, ShowsMember, ShowsCommon, ShowsRow, IsAdded, separator};

use crate::names::push_name;
use crate::numbers::{push_bytes, push_number};
use crate::parts::{element_of, node_of, structure_at, structure_of};
use crate::pointers::push_target;
use gt_layout::Layouts;
use gt_types::{Bytes, Program, Structure, Ty, TypeId, Word};
use gt_unions::Unions;
use gt_value::{BlockNames, Value};
use std::alloc::{AllocError, Global};

/// The text of a value of a type, in which `names` tells what pointers name. It takes time by the length of the text, and stack
/// by how deep values stand one inside another. Its only error is out of memory.
pub fn show<N: BlockNames>(
    alloc: Global,
    program: &Program,
    layouts: &Layouts,
    ty: &Ty,
    value: &Value,
    names: &N,
) -> Result<Bytes, AllocError>
    requires settled { Settled program.now }
    requires laid { IsLaidOut program.now layouts.now }
    requires fits { FitsSomewhere program.now (N.blocks names.now) ty.now (tree_of value.now) }
    ensures shown { IfOk result (λ text. Shows program.now (N.blocks names.now) ty.now (tree_of value.now) text) }
{
    let mut text = Bytes::new(alloc);
    let context = Context {
        alloc,
        program,
        unions: &layouts.unions,
        names,
    };
    push_value(&mut text, value, ty, &context)?;
    Ok(text)
}

/// What values are shown beside: the program, the tables of its unions, and the blocks that pointers name.
#[derive(Drop)]
pub struct Context<'a, N: BlockNames> {
    pub alloc: Global,
    pub program: &'a Program,
    pub unions: &'a Unions,
    pub names: &'a N,
    ghost united: { unions.now ≡ union_tables program.now },
}

/// Adds the text of a value of a type.
#[cycle(show)]
pub fn push_value<N: BlockNames>(
    text: &mut Bytes,
    value: &Value,
    ty: &Ty,
    context: &Context<N>,
) -> Result<(), AllocError>
    requires settled { Settled context.now.program.now }
    requires fits { FitsSomewhere context.now.program.now (N.blocks context.now.names.now) ty.now (tree_of value.now) }
    ensures added { OnOk result (IsAdded (Shows context.now.program.now (N.blocks context.now.names.now) ty.now (tree_of value.now)) text.old text.new) }
{
    match value {
        Value::Num(n) => push_number(context.alloc, text, *n),
        Value::Null => text.append(b"null"),
        Value::To(addr) => push_target(
            context.alloc,
            text,
            context.program,
            context.names,
            ty,
            *addr,
        ),
        Value::Raw(bytes) => {
            text.append(b"raw:")?;
            push_bytes(text, bytes.as_slice())
        }
        Value::Rec(parts) => push_struct(text, parts, structure_of(context.program, ty), context),
        Value::Alt { member, value } => {
            let s = structure_of(context.program, ty);
            match member {
                Some(place) => push_member(text, value.get(), s, *place, context),
                None => push_common(text, value.get(), node_of(ty), s, context),
            }
        }
        Value::Row(parts) => push_row(text, parts, element_of(ty), context),
    }
}

// Adds what stands before the part at a place: a comma and a space, but for the first.
fn push_separator(text: &mut Bytes, place: usize) -> Result<(), AllocError>
    ensures added { OnOk result (text.new ≡ text.old ++ separator place) }
{
    if place == 0 {
        return Ok(());
    }
    text.append(b", ")
}

/// Adds what stands before the value of a field.
pub fn push_label(text: &mut Bytes, place: usize, name: &Word) -> Result<(), AllocError>
    ensures added { OnOk result (text.new ≡ text.old ++ separator place ++ encode_utf8_all name.now ++ codes "=") }
{
    push_separator(text, place)?;
    push_name(text, name)?;
    text.push(b'=')
}

// Adds the fields of a struct.
#[cycle(show)]
fn push_struct<N: BlockNames>(
    text: &mut Bytes,
    parts: &[Value],
    s: &Structure,
    context: &Context<N>,
) -> Result<(), AllocError>
    requires settled { Settled context.now.program.now }
    requires fit { AllFitSomewhere context.now.program.now (N.blocks context.now.names.now) (types_of s.now.fields) (trees (map tree_of parts.now)) }
    ensures added { OnOk result (IsAdded (ShowsStruct context.now.program.now (N.blocks context.now.names.now) s.now (trees (map tree_of parts.now))) text.old text.new) }
{
    text.push(b'{')?;
    for (place, part) in parts.iter().enumerate() {
        let Some(f) = s.fields.get(place) else {
            unreachable!()
        };
        push_label(text, place, &f.name)?;
        push_value(text, part, &f.ty, context)?;
    }
    text.push(b'}')
}

// Adds the active member of a union.
#[cycle(show)]
fn push_member<N: BlockNames>(
    text: &mut Bytes,
    value: &Value,
    s: &Structure,
    place: u32,
    context: &Context<N>,
) -> Result<(), AllocError>
    requires settled { Settled context.now.program.now }
    requires fits { MemberFits context.now.program.now (N.blocks context.now.names.now) s.now place (tree_of value.now) }
    ensures added { OnOk result (IsAdded (ShowsMember context.now.program.now (N.blocks context.now.names.now) s.now place (tree_of value.now)) text.old text.new) }
{
    let Some(f) = s.fields.get(place as usize) else {
        unreachable!()
    };
    push_name(text, &f.name)?;
    text.push(b':')?;
    push_value(text, value, &f.ty, context)
}

// Adds a union in which no member is active.
#[cycle(show)]
fn push_common<N: BlockNames>(
    text: &mut Bytes,
    value: &Value,
    id: TypeId,
    s: &Structure,
    context: &Context<N>,
) -> Result<(), AllocError>
    requires settled { Settled context.now.program.now }
    requires there { HasStructure context.now.program.now id s.now }
    requires union { s.now.is_union ≡ true }
    requires fits { CommonFits context.now.program.now (N.blocks context.now.names.now) s.now (tree_of value.now) }
    ensures added { OnOk result (IsAdded (ShowsCommon context.now.program.now (N.blocks context.now.names.now) s.now (tree_of value.now)) text.old text.new) }
{
    text.append(b"none")?;
    let Some(common) = context.unions.common(id) else {
        return Ok(());
    };
    text.push(b':')?;
    let Value::Rec(parts) = value else {
        unreachable!()
    };
    push_struct(text, parts, structure_at(context.program, common), context)
}

/// Adds elements, in brackets.
#[cycle(show)]
pub fn push_row<N: BlockNames>(
    text: &mut Bytes,
    parts: &[Value],
    elem: &Ty,
    context: &Context<N>,
) -> Result<(), AllocError>
    requires settled { Settled context.now.program.now }
    requires fit { EachFitsSomewhere context.now.program.now (N.blocks context.now.names.now) elem.now (trees (map tree_of parts.now)) }
    ensures added { OnOk result (IsAdded (ShowsRow context.now.program.now (N.blocks context.now.names.now) elem.now (trees (map tree_of parts.now))) text.old text.new) }
{
    text.push(b'[')?;
    for (place, part) in parts.iter().enumerate() {
        push_separator(text, place)?;
        push_value(text, part, elem, context)?;
    }
    text.push(b']')
}
