// The structures of a program, and those that types hold.
ghost use Rattle.std.specs.Prelude.{◌≡◌, slice_get};
ghost use Rattle.std.specs.Option.{option_copied};
ghost use Rattle.gt_types.specs.Contains.{held_by, itself};
ghost use Rattle.gt_types.specs.Shapes.{count_of, innermost, is_number, is_plain_pointer};
ghost use Rattle.gt_types.specs.Tails.{elements_of, tail_of};

use gt_types::{Expr, Field, Program, PtrKind, Structure, Target, Ty, TypeId};

/// The structure of this number, or None where the program has none.
pub fn structure_of(program: &Program, node: TypeId) -> Option<&Structure>
    ensures structure { option_copied result ≡ slice_get program.now.structures node.0 }
{
    program.structures.get(node.0 as usize)
}

fn innermost(ty: &Ty) -> &Ty
    ensures innermost { result.now ≡ innermost ty.now }
{
    match ty {
        Ty::Arr { elem, .. } | Ty::Tail { elem, .. } => innermost(elem.get()),
        _ => ty,
    }
}

/// The structure that a type is.
pub fn itself(ty: &Ty) -> Option<TypeId>
    ensures itself { result ≡ itself ty.now }
{
    match ty {
        Ty::Node { id, .. } => Some(*id),
        _ => None,
    }
}

/// The structure that a type holds by value: itself, or as the elements of an array.
pub fn held_by(ty: &Ty) -> Option<TypeId>
    ensures held { result ≡ held_by ty.now }
{
    itself(innermost(ty))
}

/// The expression of a type that says how many elements or characters there are.
pub fn count_of(ty: &Ty) -> Option<&Expr>
    ensures count { option_copied result ≡ count_of ty.now }
{
    match ty {
        Ty::Str(Some(count)) => Some(count),
        Ty::Ptr {
            kind: PtrKind::Length(count),
            ..
        } => Some(count),
        Ty::Tail { len, .. } => Some(len),
        _ => None,
    }
}

/// Whether a type is a number or a bit-field.
pub fn is_number(ty: &Ty) -> bool
    ensures number { result ≡ is_number ty.now }
{
    matches!(ty, Ty::Num(_) | Ty::Bits { .. })
}

/// Whether a type is a pointer to a single structure.
pub fn is_plain_pointer(ty: &Ty) -> bool
    ensures plain { result ≡ is_plain_pointer ty.now }
{
    matches!(
        ty,
        Ty::Ptr {
            target: Some(Target::Node(_)),
            kind: PtrKind::Plain,
            ..
        }
    )
}

fn elements_of(ty: &Ty) -> Option<&Ty>
    ensures elements { option_copied result ≡ elements_of ty.now }
{
    match ty {
        Ty::Tail { elem, .. } => Some(elem.get()),
        _ => None,
    }
}

/// The elements of the array with a length that is the last of the fields, where it is one.
pub fn tail_of(fields: &[Field]) -> Option<&Ty>
    ensures tail { option_copied result ≡ tail_of fields.now }
{
    match fields {
        [.., last] => elements_of(&last.ty),
        [] => None,
    }
}
