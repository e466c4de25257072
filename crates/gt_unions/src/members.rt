// The structures of a program, and those that fields hold.
ghost use Rattle.std.specs.Prelude.{◌≡◌, Some, slice_get};
ghost use Rattle.std.specs.Option.{option_copied};
ghost use Rattle.gt_types.specs.Contains.{held_by, itself};
ghost use Rattle.gt_types.specs.Shapes.{innermost};
ghost use Rattle.gt_types.specs.Tails.{elements_of, tail_of};
ghost use Rattle.gt_types.specs.Unions.{may_be_active};
ghost use Rattle.gt_unions.specs.Beginnings.{active_structure};

use gt_types::{Active, Field, Program, Structure, Ty, TypeId};

/// The structure of this number, or None where the program has none.
pub fn structure_of(program: &Program, node: TypeId) -> Option<&Structure>
    ensures { option_copied result ≡ slice_get program.now.structures node.0 }
{
    program.structures.get(node.0 as usize)
}

fn innermost(ty: &Ty) -> &Ty
    ensures { result.now ≡ innermost ty.now }
{
    match ty {
        Ty::Arr { elem, .. } | Ty::Tail { elem, .. } => innermost(elem.get()),
        _ => ty,
    }
}

/// The structure that a type is.
pub fn itself(ty: &Ty) -> Option<TypeId>
    ensures { result ≡ itself ty.now }
{
    match ty {
        Ty::Node { id, .. } => Some(*id),
        _ => None,
    }
}

/// The structure that a type holds by value: itself, or as the elements of an array.
pub fn held_by(ty: &Ty) -> Option<TypeId>
    ensures { result ≡ held_by ty.now }
{
    itself(innermost(ty))
}

/// Whether a member of a union may be the active one.
pub fn may_be_active(active: Active) -> bool
    ensures { result ≡ may_be_active active }
{
    match active {
        Active::Tag(_) | Active::Other => true,
        Active::Always | Active::Never => false,
    }
}

/// The structure that a member is, where it may be active.
pub fn active_structure(f: &Field) -> Option<TypeId>
    ensures { result ≡ active_structure f.now }
{
    if may_be_active(f.active) {
        itself(&f.ty)
    } else {
        None
    }
}

fn elements_of(ty: &Ty) -> Option<&Ty>
    ensures { option_copied result ≡ elements_of ty.now }
{
    match ty {
        Ty::Tail { elem, .. } => Some(elem.get()),
        _ => None,
    }
}

/// The elements of the array with a length that is the last of the fields, where it is one.
pub fn tail_of(fields: &[Field]) -> Option<&Ty>
    ensures { option_copied result ≡ tail_of fields.now }
{
    match fields {
        [.., last] => elements_of(&last.ty),
        [] => None,
    }
}
