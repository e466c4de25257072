// What a type holds by value.
ghost use Rattle.std.specs.Prelude.{◌≡◌, true};
ghost use Rattle.std.specs.Bool.{Decides};
ghost use Rattle.gt_types.specs.declared.program.Structure.{Structure};
ghost use Rattle.gt_types.specs.Contains.{HasStructure, held_by, itself};
ghost use Rattle.gt_types.specs.Shapes.{innermost};
ghost use Rattle.gt_rules.specs.Faults.{LacksDesc};

use gt_types::{Program, Ty, TypeId};

// What an array has as elements; a type that is no array is its own.
fn innermost(ty: &Ty) -> &Ty
    ensures innermost { result.now ≡ innermost ty.now }
{
    match ty {
        Ty::Arr { elem, .. } | Ty::Tail { elem, .. } => innermost(elem.get()),
        _ => ty,
    }
}

fn itself(ty: &Ty) -> Option<TypeId>
    ensures itself { result ≡ itself ty.now }
{
    match ty {
        Ty::Node { id, .. } => Some(*id),
        _ => None,
    }
}

/// The structure that a type holds by value: itself, or as the elements of an array.
pub fn held_by(ty: &Ty) -> Option<TypeId>
    ensures held { result ≡ held_by ty.now }
{
    itself(innermost(ty))
}

fn is_union(program: &Program, id: TypeId) -> bool
    ensures decides { Decides result ((s : Structure) × HasStructure program.now id s × (s.is_union ≡ true)) }
{
    match program.structures.get(id.0 as usize) {
        None => false,
        Some(structure) => structure.is_union,
    }
}

fn lacks_own_desc(program: &Program, ty: &Ty) -> bool
    ensures decides { Decides result (LacksDesc program.now ty.now) }
{
    match ty {
        Ty::Node { id, desc: None } => is_union(program, *id),
        _ => false,
    }
}

/// Whether a type holds a union by value that has no `desc` to be read with.
pub fn lacks_desc(program: &Program, ty: &Ty) -> bool
    ensures decides { Decides result (LacksDesc program.now (innermost ty.now)) }
{
    lacks_own_desc(program, innermost(ty))
}
