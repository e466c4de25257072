// Whether a value fits its type.
ghost use Rattle.std.specs.Prelude.{◌≡◌, ◌↔◌, ◌≤◌, IsTrue, length, map, pos, true, Some};
ghost use Rattle.gt_types.specs.Contains.{HasStructure};
ghost use Rattle.gt_types.specs.Settled.{Settled};
ghost use Rattle.gt_types.specs.Shapes.{is_pointer};
ghost use Rattle.gt_types.specs.declared.types.Ty.{out-Ty};
ghost use Rattle.gt_fields.specs.FieldNames.{field_names};
ghost use Rattle.gt_tree.specs.Blocks.{MayName};
ghost use Rattle.gt_tree.specs.Scopes.{eval_in};
ghost use Rattle.gt_tree.specs.Trees.{Rec, End, without_pointers, all_without_pointers};
ghost use Rattle.gt_tree.specs.Fits.{Fits, AllFit, EachFits, types_of};
ghost use Rattle.gt_value.specs.Values.{trees, tree_of};
ghost use Rattle.gt_unions.specs.Commons.{common_of};
ghost use Rattle.gt_unions.specs.Tables.{union_tables};
ghost use Rattle.gt_fit.specs.Scoping.{scope_of};
ghost use Rattle.gt_fit.specs.Fitting.{OpaqueFits, RecFits, AltFits, ThereFits, MemberFits, CommonFits, RowFits};

use crate::members::is_active;
use crate::naming::may_name_within;
use crate::rooms::number_fits;
use crate::scoping::{Within, desc_in, eval_in};
use gt_layout::Layouts;
use gt_types::{Expr, Field, Program, Structure, Ty, TypeId};
use gt_value::{BlockNames, Value};

/// Beside what a value is checked: its program with its layouts, the blocks that pointers name, and how many elements have room at
/// its end.
#[derive(Drop)]
pub struct Checking<'a, N: BlockNames> {
    pub program: &'a Program,
    pub layouts: &'a Layouts,
    pub names: &'a N,
    pub capacity: u32,
    ghost named: { layouts.now.names ≡ field_names program.now.structures },
    ghost united: { layouts.now.unions ≡ union_tables program.now },
}

// Whether a type is a pointer's.
fn is_pointer(ty: &Ty) -> bool
    ensures { result ≡ is_pointer ty.now }
{
    match ty {
        Ty::Str(_) | Ty::Ptr { .. } => true,
        _ => false,
    }
}

// Whether opaque bytes are as many as their type says.
fn opaque_fits(bytes: &[u8], ty: &Ty) -> bool
    ensures { IsTrue result ↔ OpaqueFits ty.now bytes.now }
{
    match ty {
        Ty::Opaque { size, .. } => bytes.len() == *size as usize,
        _ => false,
    }
}

// Whether an expression says that there are so many, and there is room for them.
fn is_length<N: BlockNames>(on: &Checking<N>, len: &Expr, n: usize, within: &Within) -> bool
    ensures { IsTrue result ↔ ((eval_in on.now.program.now (scope_of within.now) len.now ≡ Some (pos n)) × (n ≤ on.now.capacity)) }
{
    if n > on.capacity as usize {
        return false;
    }
    match eval_in(on, len, within) {
        None => false,
        Some(value) => value == n as i64,
    }
}

// Whether a value has no part.
fn is_nothing(value: &Value) -> bool
    ensures { IsTrue result ↔ (tree_of value.now ≡ Rec End) }
{
    match value {
        Value::Rec(parts) => match parts.as_slice() {
            [] => true,
            _ => false,
        },
        _ => false,
    }
}

/// Whether each pointer in a value is null.
#[cycle(null)]
pub fn is_bare(value: &Value) -> bool
    ensures { IsTrue result ↔ (without_pointers (tree_of value.now) ≡ tree_of value.now) }
{
    match value {
        Value::To(_) => false,
        Value::Num(_) | Value::Null | Value::Raw(_) => true,
        Value::Rec(parts) => all_bare(parts.as_slice()),
        Value::Row(parts) => all_bare(parts.as_slice()),
        Value::Alt { value, .. } => is_bare(value.get()),
    }
}

#[cycle(null)]
fn all_bare(parts: &[Value]) -> bool
    ensures { IsTrue result ↔ (all_without_pointers (trees (map tree_of parts.now)) ≡ trees (map tree_of parts.now)) }
{
    for part in parts {
        if !is_bare(part) {
            return false;
        }
    }
    true
}

/// Whether a value fits a type, where these structures are around it.
#[cycle(fitting)]
pub fn fits<N: BlockNames>(value: &Value, ty: &Ty, on: &Checking<N>, within: &Within) -> bool
    requires settled { Settled on.now.program.now }
    ensures { IsTrue result ↔ Fits on.now.program.now (N.blocks on.now.names.now) on.now.capacity (scope_of within.now) ty.now (tree_of value.now) }
{
    match value {
        Value::Num(n) => number_fits(ty, *n),
        Value::Null => is_pointer(ty),
        Value::To(addr) => may_name_within(on, ty, *addr, within),
        Value::Raw(bytes) => opaque_fits(bytes.as_slice(), ty),
        Value::Rec(parts) => rec_fits(parts.as_slice(), value, ty, on, within),
        Value::Alt {
            member,
            value: there,
        } => alt_fits(there.get(), value, *member, ty, on, within),
        Value::Row(parts) => row_fits(parts.as_slice(), ty, on, within),
    }
}

// Whether values fit the fields of a struct, which is `whole`.
#[cycle(fitting)]
fn rec_fits<N: BlockNames>(
    parts: &[Value],
    whole: &Value,
    ty: &Ty,
    on: &Checking<N>,
    within: &Within,
) -> bool
    requires settled { Settled on.now.program.now }
    ensures { IsTrue result ↔ RecFits on.now.program.now (N.blocks on.now.names.now) on.now.capacity (scope_of within.now) ty.now (tree_of whole.now) (trees (map tree_of parts.now)) }
{
    let Ty::Node { id, .. } = ty else {
        return false;
    };
    let Some(structure) = on.program.structures.get(id.0 as usize) else {
        return false;
    };
    if structure.is_union {
        return false;
    }
    fields_fit(
        parts,
        structure.fields.as_slice(),
        on,
        &(&*within).inside(*id, &*whole),
    )
}

// Whether values fit these fields, one after another.
#[cycle(fitting)]
fn fields_fit<N: BlockNames>(
    parts: &[Value],
    fields: &[Field],
    on: &Checking<N>,
    inner: &Within,
) -> bool
    requires settled { Settled on.now.program.now }
    ensures { IsTrue result ↔ AllFit on.now.program.now (N.blocks on.now.names.now) on.now.capacity (scope_of inner.now) (types_of fields.now) (trees (map tree_of parts.now)) }
{
    if parts.len() != fields.len() {
        return false;
    }
    for (i, part) in parts.iter().enumerate() {
        if !fits(part, &fields[i].ty, on, inner) {
            return false;
        }
    }
    true
}

// Whether a value fits a union, which is `whole`, as what is there in it.
#[cycle(fitting)]
fn alt_fits<N: BlockNames>(
    there: &Value,
    whole: &Value,
    member: Option<u32>,
    ty: &Ty,
    on: &Checking<N>,
    within: &Within,
) -> bool
    requires settled { Settled on.now.program.now }
    ensures { IsTrue result ↔ AltFits on.now.program.now (N.blocks on.now.names.now) on.now.capacity (scope_of within.now) ty.now (tree_of whole.now) member (tree_of there.now) }
{
    let Ty::Node { id, desc } = ty else {
        return false;
    };
    let Some(structure) = on.program.structures.get(id.0 as usize) else {
        return false;
    };
    let inner = (&*within).inside(*id, &*whole);
    if !structure.is_union {
        return false;
    }
    let value = desc_in(on, desc, &inner);
    if !is_active(&on.layouts.unions, *id, value, member) {
        return false;
    }
    there_fits(there, *id, structure, member, on, &inner)
}

// Whether a value fits the member at a place, or without one the common structure.
#[cycle(fitting)]
fn there_fits<N: BlockNames>(
    there: &Value,
    union: TypeId,
    structure: &Structure,
    member: Option<u32>,
    on: &Checking<N>,
    inner: &Within,
) -> bool
    requires settled { Settled on.now.program.now }
    requires there { HasStructure on.now.program.now union structure.now }
    requires union { structure.now.is_union ≡ true }
    ensures { IsTrue result ↔ ThereFits on.now.program.now (N.blocks on.now.names.now) on.now.capacity (scope_of inner.now) structure.now member (tree_of there.now) }
{
    let Some(place) = member else {
        return common_fits(there, union, structure, on, inner);
    };
    match structure.fields.get(place as usize) {
        None => false,
        Some(field) => fits(there, &field.ty, on, inner),
    }
}

// Whether a value fits the common structure of a union, with null pointers.
#[cycle(fitting)]
fn common_fits<N: BlockNames>(
    there: &Value,
    union: TypeId,
    structure: &Structure,
    on: &Checking<N>,
    inner: &Within,
) -> bool
    requires settled { Settled on.now.program.now }
    requires there { HasStructure on.now.program.now union structure.now }
    requires union { structure.now.is_union ≡ true }
    ensures { IsTrue result ↔ CommonFits on.now.program.now (N.blocks on.now.names.now) on.now.capacity (scope_of inner.now) (common_of on.now.program.now structure.now) (tree_of there.now) }
{
    let Some(id) = on.layouts.unions.common(union) else {
        return is_nothing(there);
    };
    if !is_bare(there) {
        return false;
    }
    fits(there, &Ty::Node { id, desc: None }, on, inner)
}

// Whether values fit an array.
#[cycle(fitting)]
fn row_fits<N: BlockNames>(parts: &[Value], ty: &Ty, on: &Checking<N>, within: &Within) -> bool
    requires settled { Settled on.now.program.now }
    ensures { IsTrue result ↔ RowFits on.now.program.now (N.blocks on.now.names.now) on.now.capacity (scope_of within.now) (out-Ty ty.now) (trees (map tree_of parts.now)) }
{
    match ty {
        Ty::Arr { n, elem } => {
            if parts.len() != *n as usize {
                return false;
            }
            each_fits(parts, elem.get(), on, within)
        }
        Ty::Tail { len, elem } => {
            if !is_length(on, len, parts.len(), within) {
                return false;
            }
            each_fits(parts, elem.get(), on, within)
        }
        _ => false,
    }
}

// Whether each of these values fits a type.
#[cycle(fitting)]
fn each_fits<N: BlockNames>(parts: &[Value], elem: &Ty, on: &Checking<N>, within: &Within) -> bool
    requires settled { Settled on.now.program.now }
    ensures { IsTrue result ↔ EachFits on.now.program.now (N.blocks on.now.names.now) on.now.capacity (scope_of within.now) elem.now (trees (map tree_of parts.now)) }
{
    for part in parts {
        if !fits(part, elem, on, within) {
            return false;
        }
    }
    true
}
