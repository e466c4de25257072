// Where a structure may stand alone.
ghost use Rattle.std.specs.Prelude.{◌≡◌, true, None, Some, IsTrue, IsSome};
ghost use Rattle.std.specs.Bool.{Decides};
ghost use Rattle.gt_types.specs.declared.program.Structure.{Structure};
ghost use Rattle.gt_types.specs.Contains.{HasStructure};
ghost use Rattle.gt_types.specs.Paths.{MayStand, MayStandBeside};
ghost use Rattle.gt_types.specs.Settled.{EndsInPointers, NamesSortable};
ghost use Rattle.gt_types.specs.Shapes.{is_plain_pointer};
ghost use Rattle.gt_types.specs.Tails.{tail_of};
ghost use Rattle.gt_types.specs.declared.types.Ty.{Ty};
ghost use Rattle.gt_paths.specs.Indexes.{IsIndexOf, IsIndexOn, inner_in};

use crate::indexes::PathIndex;
use crate::structures::{is_plain_pointer, structure_of, tail_of};
use gt_types::{Program, PtrKind, Structure, Target, Ty, TypeId};

/// Whether the index has marked a structure as inner.
pub fn is_inner(index: &PathIndex, node: TypeId) -> bool
    ensures decides { Decides result (inner_in index.now node) }
{
    index.is_inner(node)
}

// Whether a union has a `desc` of its own; a struct needs none.
fn is_described(s: &Structure) -> bool
    ensures decides { Decides result (s.now.is_union ≡ true → IsSome s.now.desc) }
{
    !s.is_union || s.desc.is_some()
}

/// Whether a structure may stand alone, as an object or as what a pointer names.
pub fn may_stand(program: &Program, index: &PathIndex, node: TypeId) -> bool
    requires index { IsIndexOf program.now index.now }
    ensures decides { Decides result (MayStand program.now node) }
{
    may_stand_beside(program, index, node)
}

/// The same, where the structures are inner that the index has marked.
pub fn may_stand_beside(program: &Program, index: &PathIndex, node: TypeId) -> bool
    ensures decides { Decides result (MayStandBeside (inner_in index.now) program.now node) }
{
    match structure_of(program, node) {
        Some(s) => {
            if is_inner(index, node) {
                return false;
            }
            is_described(s)
        }
        None => false,
    }
}

/// Whether a structure is a union without a `desc` of its own.
pub fn is_bare_union(program: &Program, node: TypeId) -> bool
    ensures decides { Decides result ((s : Structure) × HasStructure program.now node s × (s.is_union ≡ true) × (s.desc ≡ None)) }
{
    match structure_of(program, node) {
        Some(s) => s.is_union && s.desc.is_none(),
        None => false,
    }
}

// Whether a struct ends in an array with a length, of plain pointers.
fn ends_in_pointers(program: &Program, node: TypeId) -> bool
    ensures decides { Decides result (EndsInPointers program.now node) }
{
    let Some(s) = structure_of(program, node) else {
        return false;
    };
    if s.is_union {
        return false;
    }
    match tail_of(s.fields.as_slice()) {
        Some(elem) => is_plain_pointer(elem),
        None => false,
    }
}

/// Whether a plain pointer whose block is sorted in an image names a struct that ends in plain pointers. Of another type
/// nothing is asked.
pub fn names_sortable(program: &Program, ty: &Ty) -> bool
    ensures decides { Decides result (NamesSortable program.now ty.now) }
{
    match ty {
        Ty::Ptr {
            target: Some(Target::Node(node)),
            kind: PtrKind::Plain,
            reorder: true,
        } => ends_in_pointers(program, *node),
        _ => true,
    }
}
