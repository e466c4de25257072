// What the type of a value is made of.
ghost use Rattle.std.specs.Prelude.{◌≡◌, Some};
ghost use Rattle.gt_types.specs.declared.types.TypeId.{TypeId};
ghost use Rattle.gt_types.specs.declared.types.Ty.{Ty};
ghost use Rattle.gt_types.specs.declared.program.Structure.{Structure};
ghost use Rattle.gt_types.specs.Contains.{HasStructure, itself};
ghost use Rattle.gt_show.specs.Parts.{structure_in, element_in};

use gt_types::{Program, Structure, Ty, TypeId};

/// The structure of this number, which the program has.
pub fn structure_at(program: &Program, node: TypeId) -> &Structure
    requires there { (s : Structure) × HasStructure program.now node s }
    ensures { HasStructure program.now node result.now }
{
    &program.structures.as_slice()[node.0 as usize]
}

/// The structure that a type is, which the program has.
pub fn structure_of<'a>(program: &'a Program, ty: &Ty) -> &'a Structure
    requires there { (s : Structure) × (structure_in program.now ty.now ≡ Some s) }
    ensures { structure_in program.now ty.now ≡ Some result.now }
{
    let Ty::Node { id, .. } = ty else {
        unreachable!()
    };
    structure_at(program, *id)
}

/// The number of the structure that a type is.
pub fn node_of(ty: &Ty) -> TypeId
    requires node { (id : TypeId) × (itself ty.now ≡ Some id) }
    ensures { itself ty.now ≡ Some result }
{
    match ty {
        Ty::Node { id, .. } => *id,
        _ => unreachable!(),
    }
}

/// What an array has as elements.
pub fn element_of(ty: &Ty) -> &Ty
    requires array { (elem : Ty) × (element_in ty.now ≡ Some elem) }
    ensures { element_in ty.now ≡ Some result.now }
{
    match ty {
        Ty::Arr { elem, .. } | Ty::Tail { elem, .. } => elem.get(),
        _ => unreachable!(),
    }
}
