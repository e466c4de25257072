// The paths of expressions in a value.
ghost use Rattle.std.specs.Prelude.{◌≡◌, map, option_copied, slice_get};
ghost use Rattle.std.specs.Str.{bytes_eq};
ghost use Rattle.std.specs.List.{position_from};
ghost use Rattle.gt_types.specs.declared.program.Structure.{Structure};
ghost use Rattle.gt_types.specs.declared.program.Program.{Program};
ghost use Rattle.gt_types.specs.Contains.{HasStructure};
ghost use Rattle.gt_fields.specs.FieldNames.{field_names};
ghost use Rattle.gt_tree.specs.Scopes.{is_of_node, beginning, first_type_of, field_of, member_of, type_of_field, step, number_at, read_path};
ghost use Rattle.gt_tree.specs.Trees.{tree_at};
ghost use Rattle.gt_value.specs.Values.{trees, tree_of};
ghost use Rattle.gt_fit.specs.Values.{typed_of};
ghost use Rattle.gt_fit.specs.Values.{maybe_tree};

use gt_layout::Layouts;
use gt_types::{Field, Program, Structure, Ty, TypeId, Word};
use gt_value::Value;

/// A type and a value of it.
#[derive(Clone, Copy)]
pub struct TypedAt<'a> {
    pub ty: &'a Ty,
    pub value: &'a Value,
}

/// The number in a leaf. None where it is outside i64, or no number.
pub fn number_at(value: &Value) -> Option<i64>
    ensures { result ≡ number_at (tree_of value.now) }
{
    match value {
        Value::Num(n) => i64::try_from(*n).ok(),
        _ => None,
    }
}

// The item at a place.
fn nth<X>(items: &[X], place: usize) -> Option<&X>
    ensures { option_copied result ≡ slice_get items.now place }
{
    items.get(place)
}

/// The value at a place of a list.
pub fn item(parts: &[Value], place: usize) -> Option<&Value>
    ensures { maybe_tree (option_copied result) ≡ tree_at (trees (map tree_of parts.now)) place }
{
    nth(parts, place)
}

/// Whether a type is a structure by value, and this one.
pub fn is_of_node(id: TypeId, ty: Option<&Ty>) -> bool
    ensures { result ≡ is_of_node id (option_copied ty.entry) }
{
    match ty {
        Some(Ty::Node { id: other, .. }) => id.0 == other.0,
        _ => false,
    }
}

/// The type of the first field of a structure by value.
pub fn first_type_of<'a>(program: &'a Program, ty: Option<&Ty>) -> Option<&'a Ty>
    ensures { option_copied result ≡ first_type_of program.now (option_copied ty.entry) }
{
    let Some(Ty::Node { id, .. }) = ty else {
        return None;
    };
    let structure = program.structures.get(id.0 as usize)?;
    let field = structure.fields.get(0)?;
    Some(&field.ty)
}

/// The value of a structure with which a value of a type begins: itself, or its first field, or the first field of that, and so on.
pub fn beginning<'a>(
    program: &Program,
    id: TypeId,
    ty: Option<&Ty>,
    value: &'a Value,
) -> Option<&'a Value>
    ensures { maybe_tree (option_copied result) ≡ beginning program.now id (option_copied ty.entry) (tree_of value.now) }
{
    if is_of_node(id, ty) {
        return Some(value);
    }
    let Value::Rec(parts) = value else {
        return None;
    };
    match parts.as_slice() {
        [] => None,
        [first, ..] => beginning(program, id, first_type_of(program, ty), first),
    }
}

/// The type of the member of a union at a place.
pub fn member_type(structure: &Structure, place: u32) -> Option<&Ty>
    ensures { option_copied result ≡ type_of_field (slice_get structure.now.fields place) }
{
    let field = structure.fields.get(place as usize)?;
    Some(&field.ty)
}

// The field at a place of a struct, by the struct's value.
fn field_of<'a>(field: &'a Field, value: &'a Value, place: usize) -> Option<TypedAt<'a>>
    ensures { typed_of result ≡ field_of field.now (tree_of value.now) place }
{
    let Value::Rec(parts) = value else {
        return None;
    };
    let part = item(parts.as_slice(), place)?;
    Some(TypedAt {
        ty: &field.ty,
        value: part,
    })
}

// A member of a union that is its common structure, by the union's value.
fn member_of<'a>(
    program: &Program,
    structure: &Structure,
    ty: &'a Ty,
    value: &'a Value,
) -> Option<TypedAt<'a>>
    ensures { typed_of result ≡ member_of program.now structure.now ty.now (tree_of value.now) }
{
    let Ty::Node { id, .. } = ty else {
        return None;
    };
    let Value::Alt {
        member,
        value: there,
    } = value
    else {
        return None;
    };
    match member {
        None => Some(TypedAt {
            ty,
            value: there.get(),
        }),
        Some(place) => {
            let part = beginning(program, *id, member_type(structure, *place), there.get())?;
            Some(TypedAt { ty, value: part })
        }
    }
}

/// The place of the first field of a name in a structure of a program.
pub fn place_of(layouts: &Layouts, node: TypeId, name: &Word) -> Option<u32>
    ensures { (program : Program) (s : Structure) → layouts.now.names ≡ field_names program.structures → HasStructure program node s → result ≡ position_from (λ f. bytes_eq f.name name.now) 0 s.fields }
{
    layouts.names.place(node, name)
}

// One step of a path, by the name of a field.
fn step<'a>(
    program: &'a Program,
    layouts: &Layouts,
    ty: &Ty,
    name: &Word,
    value: &'a Value,
) -> Option<TypedAt<'a>>
    requires named { layouts.now.names ≡ field_names program.now.structures }
    ensures { typed_of result ≡ step program.now ty.now name.now (tree_of value.now) }
{
    let Ty::Node { id, .. } = ty else {
        return None;
    };
    let structure = program.structures.get(id.0 as usize)?;
    let place = place_of(layouts, *id, name)? as usize;
    let field = structure.fields.get(place)?;
    if structure.is_union {
        member_of(program, structure, &field.ty, value)
    } else {
        field_of(field, value, place)
    }
}

/// The number to which names of fields lead from a value of a type. None where they lead to no number in i64.
pub fn read_path(
    program: &Program,
    layouts: &Layouts,
    steps: &[Word],
    ty: &Ty,
    value: &Value,
) -> Option<i64>
    requires named { layouts.now.names ≡ field_names program.now.structures }
    ensures { result ≡ read_path program.now steps.now ty.now (tree_of value.now) }
{
    match steps {
        [] => number_at(value),
        [name, rest @ ..] => {
            let next = step(program, layouts, ty, name, value)?;
            read_path(program, layouts, rest, next.ty, next.value)
        }
    }
}
