// What becomes of the common structure of a union where another member becomes active, or none: it is moved.
ghost use Rattle.std.specs.Prelude.{◌≡◌, IfOk, Option, Some, option_copied};
ghost use Rattle.gt_types.specs.Settled.{Settled};
ghost use Rattle.gt_types.specs.declared.expressions.Expr.{Expr};
ghost use Rattle.gt_tree.specs.Trees.{Tree};
ghost use Rattle.gt_tree.specs.Scopes.{beginning, type_there};
ghost use Rattle.gt_value.specs.Values.{tree_of};
ghost use Rattle.gt_fit.specs.Values.{maybe_tree};
ghost use Rattle.gt_assign.specs.Pasts.{Begun, past_of};
ghost use Rattle.gt_assign.specs.Turning.{made, node_made, struct_made};
ghost use Rattle.gt_assign.specs.Changes.{changed, Decides};

use crate::changes::Change;
use crate::making::Making;
use crate::seeing::{Around, Seen};
use crate::zeros::zero_fields;
use gt_fit::{beginning, first_type_of, is_of_node, member_type};
use gt_types::{Boxed, Field, Structure, Ty, TypeId};
use gt_value::{Value, ValueFail};
use std::alloc::AllocError;

// ---- the common structure where it was

/// The common structure of a union, in what is there by its active member.
pub fn common_part<'a>(
    on: &Making,
    common: TypeId,
    structure: &Structure,
    member: Option<u32>,
    there: &'a Value,
) -> Option<&'a Value>
    ensures { maybe_tree (option_copied result) ≡ beginning on.now.program.now common (type_there structure.now common member) (tree_of there.now) }
{
    match member {
        None => Some(there),
        Some(place) => beginning(on.program, common, member_type(structure, place), there),
    }
}

// The change of a value, by that of the structure with which it begins. The rest of the value goes.
fn beginning_change(
    on: &Making,
    id: TypeId,
    ty: Option<&Ty>,
    value: &Value,
    change: Change,
) -> Result<Change, AllocError>
    ensures { IfOk result (λ made. (part : Tree) → beginning on.now.program.now id (option_copied ty.entry) (tree_of value.now) ≡ Some part → changed made (tree_of value.now) ≡ changed change part) }
{
    if is_of_node(id, ty) {
        return Ok(change);
    }
    let Value::Rec(parts) = value else {
        return Ok(change);
    };
    match parts.as_slice() {
        [] => Ok(change),
        [first, ..] => {
            let made = beginning_change(on, id, first_type_of(on.program, ty), first, change)?;
            Ok(Change::OfFirst(Boxed::new(on.alloc, made)?))
        }
    }
}

/// The change of what is there in a union, by that of its common structure. The rest of what is there goes.
pub fn common_change(
    on: &Making,
    common: TypeId,
    structure: &Structure,
    member: Option<u32>,
    there: &Value,
    change: Change,
) -> Result<Change, AllocError>
    ensures { IfOk result (λ made. (part : Tree) → beginning on.now.program.now common (type_there structure.now common member) (tree_of there.now) ≡ Some part → changed made (tree_of there.now) ≡ changed change part) }
{
    match member {
        None => Ok(change),
        Some(place) => beginning_change(on, common, member_type(structure, place), there, change),
    }
}

// ---- the common structure where it goes

/// What becomes of the value of a structure where it is put at the beginning of a part of this type, which is zero elsewhere. `Shape`
/// says that there is no value.
#[cycle(begin)]
pub fn begin(
    on: &Making,
    ty: &Ty,
    common: TypeId,
    value: &Value,
    around: &Around,
    depth: usize,
) -> Result<Change, ValueFail>
    requires settled { Settled on.now.program.now }
    ensures { Decides result (tree_of value.now) (made on.now.program.now on.now.capacity depth (past_of around.now) ty.now (Begun common (tree_of value.now))) }
{
    if depth == 0 {
        return Err(ValueFail::Shape);
    }
    match ty {
        Ty::Node { id, .. } => begin_node(on, *id, common, value, around, depth - 1),
        _ => Err(ValueFail::Shape),
    }
}

// The same for a structure by value: it is this one, or a struct of which the first field begins with it.
#[cycle(begin)]
fn begin_node(
    on: &Making,
    id: TypeId,
    common: TypeId,
    value: &Value,
    around: &Around,
    depth: usize,
) -> Result<Change, ValueFail>
    requires settled { Settled on.now.program.now }
    ensures { (desc : Option Expr) → Decides result (tree_of value.now) (node_made on.now.program.now (made on.now.program.now on.now.capacity depth) (past_of around.now) id desc (Begun common (tree_of value.now))) }
{
    if common.0 == id.0 {
        return Ok(Change::Kept);
    }
    let Some(structure) = on.program.structures.get(id.0 as usize) else {
        return Err(ValueFail::Shape);
    };
    if structure.is_union {
        return Err(ValueFail::Shape);
    }
    let inner = (&*around).inside(
        id,
        Seen::Begins {
            id: common,
            value: &*value,
        },
    );
    begin_struct(
        on,
        structure.fields.as_slice(),
        common,
        value,
        &inner,
        depth,
    )
}

// The same for a struct.
#[cycle(begin)]
fn begin_struct(
    on: &Making,
    fields: &[Field],
    common: TypeId,
    value: &Value,
    inner: &Around,
    depth: usize,
) -> Result<Change, ValueFail>
    requires settled { Settled on.now.program.now }
    ensures { Decides result (tree_of value.now) (struct_made (made on.now.program.now on.now.capacity depth) (past_of inner.now) fields.now (Begun common (tree_of value.now))) }
{
    match fields {
        [] => Ok(Change::New(Value::Rec(Vec::new(on.alloc)))),
        [field, others @ ..] => {
            let first = begin(on, &field.ty, common, value, inner, depth)?;
            let rest = zero_fields(on, others, inner, depth)?;
            Ok(Change::Begins {
                first: Boxed::new(on.alloc, first)?,
                rest,
            })
        }
    }
}
