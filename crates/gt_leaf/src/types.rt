// The type of a leaf, by what it lies in, and of parts on the way to it.
ghost use Rattle.std.specs.Prelude.{◌≡◌, option_copied};
ghost use Rattle.gt_types.specs.Shapes.{count_of, innermost, is_number};
ghost use Rattle.gt_starts.specs.Ways.{field_at};
ghost use Rattle.gt_leaf.specs.HeldTypes.{field_type, root_type, held_type};
ghost use Rattle.gt_leaf.specs.Seeking.{desc_in};
ghost use Rattle.gt_leaf.specs.Unread.{number_name, root_at, part_at};

use gt_types::{Expr, Program, PtrKind, Ty, TypeId, Word};
use gt_value::Holder;

/// What an array has as elements, through arrays of arrays.
pub fn innermost(ty: &Ty) -> &Ty
    ensures { result.now ≡ innermost ty.now }
{
    match ty {
        Ty::Arr { elem, .. } | Ty::Tail { elem, .. } => innermost(elem.get()),
        _ => ty,
    }
}

/// Whether values of a type are numbers.
pub fn is_number(ty: &Ty) -> bool
    ensures { result ≡ is_number ty.now }
{
    matches!(ty, Ty::Num(_) | Ty::Bits { .. })
}

/// The length in a type.
pub fn count_of(ty: &Ty) -> Option<&Expr>
    ensures { option_copied result ≡ count_of ty.now }
{
    match ty {
        Ty::Str(Some(count)) => Some(count),
        Ty::Ptr {
            kind: PtrKind::Length(count),
            ..
        } => Some(count),
        Ty::Tail { len, .. } => Some(len),
        _ => None,
    }
}

/// The `desc` that a type gives to a union.
pub fn desc_in(ty: &Ty) -> Option<&Expr>
    ensures { option_copied result ≡ desc_in (innermost ty.now) }
{
    match innermost(ty) {
        Ty::Node {
            desc: Some(desc),
            ..
        } => Some(desc),
        _ => None,
    }
}

// The type of the field at a place of a structure.
fn field_type<'a>(program: &'a Program, id: TypeId, i: u32) -> Option<&'a Ty>
    ensures { option_copied result ≡ field_type program.now id i }
{
    let structure = program.structures.get(id.0 as usize)?;
    let field = structure.fields.get(i as usize)?;
    Some(innermost(&field.ty))
}

// The type of the root at a place.
fn root_type<'a>(program: &'a Program, i: u32) -> Option<&'a Ty>
    ensures { option_copied result ≡ root_type program.now i }
{
    let root = program.roots.get(i as usize)?;
    Some(innermost(&root.ty))
}

/// The type of a leaf that lies in this, where an element of a block has the type `element`. It takes no memory.
pub fn held_type<'a>(
    program: &'a Program,
    element: Option<&'a Ty>,
    holder: Holder,
) -> Option<&'a Ty>
    ensures { option_copied result ≡ held_type program.now (option_copied element.entry) holder }
{
    match holder {
        Holder::Element => Some(innermost(element?)),
        Holder::Root(i) => root_type(program, i),
        Holder::Field { structure, place } => field_type(program, structure, place),
    }
}

// The type of the field at a place of a structure, of an array too.
fn field_at<'a>(program: &'a Program, id: TypeId, i: u32) -> Option<&'a Ty>
    ensures { option_copied result ≡ field_at program.now id i }
{
    let structure = program.structures.get(id.0 as usize)?;
    let field = structure.fields.get(i as usize)?;
    Some(&field.ty)
}

/// The name of the number at a place of a structure. It takes no memory.
pub fn number_name<'a>(program: &'a Program, id: TypeId, i: u32) -> Option<&'a Word>
    ensures { option_copied result ≡ number_name program.now id i }
{
    let structure = program.structures.get(id.0 as usize)?;
    let field = structure.fields.get(i as usize)?;
    if is_number(&field.ty) {
        Some(&field.name)
    } else {
        None
    }
}

/// The type of the root at a place, of an array too.
pub fn root_at<'a>(program: &'a Program, i: u32) -> Option<&'a Ty>
    ensures { option_copied result ≡ root_at program.now i }
{
    let root = program.roots.get(i as usize)?;
    Some(&root.ty)
}

/// The type of the part at a place of a value: of a field, a member or an element. It takes no memory.
pub fn part_at<'a>(program: &'a Program, ty: &'a Ty, i: u32) -> Option<&'a Ty>
    ensures { option_copied result ≡ part_at program.now ty.now i }
{
    match ty {
        Ty::Node { id, .. } => field_at(program, *id, i),
        Ty::Arr { elem, .. } | Ty::Tail { elem, .. } => Some(elem.get()),
        _ => None,
    }
}
