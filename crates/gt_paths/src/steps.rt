// Where paths lead.
ghost use Rattle.std.specs.Prelude.{◌≡◌, true, MatchOption};
ghost use Rattle.std.specs.Bool.{Decides};
ghost use Rattle.gt_types.specs.declared.types.Ty.{Ty};
ghost use Rattle.gt_types.specs.Paths.{LeadsToNumber, LeadsToOwnPointer};
ghost use Rattle.gt_paths.specs.Indexes.{IsIndexOn};
ghost use Rattle.gt_paths.specs.Steps.{GoesOn, GoesOnNamed, IsNext, LeadsToPointer, NamedGoesOn, PlaceGoesOn, PointerGoesOn, PointsTo, StepsAt};

use crate::indexes::PathIndex;
use crate::structures::{is_number, itself, structure_of};
use gt_types::{Field, Program, PtrKind, Target, Ty, TypeId, Word};

// The type of the field at a place of a structure, where a path may go to it.
fn field_to<'a>(
    program: &'a Program,
    index: &PathIndex,
    node: TypeId,
    place: usize,
) -> Option<&'a Ty>
    requires index { IsIndexOn program.now index.now }
    ensures step { MatchOption result ((type : Ty) → ¬ StepsAt program.now node place type) (λ ty. StepsAt program.now node place ty.now) }
{
    let s = structure_of(program, node)?;
    let f = s.fields.get(place)?;
    if index.may_step(node, place) {
        Some(&f.ty)
    } else {
        None
    }
}

// ---- by name

/// Whether a path leads from a structure to a number or a bit-field.
#[cycle(leads)]
pub fn leads_to_number(program: &Program, index: &PathIndex, node: TypeId, steps: &[Word]) -> bool
    requires index { IsIndexOn program.now index.now }
    ensures decides { Decides result (LeadsToNumber program.now node steps.now) }
{
    match steps {
        [] => false,
        [step, rest @ ..] => {
            if !index.is_distinct() {
                return some_field_leads(program, index, node, step, rest);
            }
            match index.place(node, step) {
                None => false,
                Some(place) => place_leads(program, index, node, rest, place as usize),
            }
        }
    }
}

// Whether the path goes on from some field of this name.
#[cycle(leads)]
fn some_field_leads(
    program: &Program,
    index: &PathIndex,
    node: TypeId,
    step: &Word,
    rest: &[Word],
) -> bool
    requires index { IsIndexOn program.now index.now }
    ensures decides { Decides result (NamedGoesOn program.now node step.now rest.now) }
{
    let Some(s) = structure_of(program, node) else {
        return false;
    };
    for (place, f) in s.fields.as_slice().iter().enumerate() {
        if field_leads(program, index, node, step, rest, place, f) {
            return true;
        }
    }
    false
}

// Whether a field, which is at a place, has this name, and the path goes on from it.
#[cycle(leads)]
fn field_leads(
    program: &Program,
    index: &PathIndex,
    node: TypeId,
    step: &Word,
    rest: &[Word],
    place: usize,
    f: &Field,
) -> bool
    requires index { IsIndexOn program.now index.now }
    ensures decides { Decides result (GoesOnNamed program.now node step.now rest.now place f.now) }
{
    if !is_named(f, step) {
        return false;
    }
    place_leads(program, index, node, rest, place)
}

fn is_named(f: &Field, name: &Word) -> bool
    ensures decides { Decides result (f.now.name ≡ name.now) }
{
    f.name == *name
}

// Whether the path goes on from the field at a place.
#[cycle(leads)]
fn place_leads(
    program: &Program,
    index: &PathIndex,
    node: TypeId,
    rest: &[Word],
    place: usize,
) -> bool
    requires index { IsIndexOn program.now index.now }
    ensures decides { Decides result (PlaceGoesOn program.now node rest.now place) }
{
    match field_to(program, index, node, place) {
        None => false,
        Some(ty) => goes_on(program, index, ty, rest),
    }
}

// Whether the rest of a path leads to a number from a field of this type.
#[cycle(leads)]
fn goes_on(program: &Program, index: &PathIndex, ty: &Ty, rest: &[Word]) -> bool
    requires index { IsIndexOn program.now index.now }
    ensures decides { Decides result (GoesOn program.now rest.now ty.now) }
{
    if rest.is_empty() {
        return is_number(ty);
    }
    match ty {
        Ty::Node { id, .. } => leads_to_number(program, index, *id, rest),
        _ => false,
    }
}

/// The structure by value to which a name leads from a structure, where no structure has two fields of one name.
pub fn next_structure(
    program: &Program,
    index: &PathIndex,
    node: TypeId,
    name: &Word,
) -> Option<TypeId>
    requires index { IsIndexOn program.now index.now }
    requires distinct { index.now.distinct ≡ true }
    ensures next { IsNext program.now node name.now result }
{
    let place = index.place(node, name)?;
    let ty = field_to(program, index, node, place as usize)?;
    itself(ty)
}

// ---- by place

/// Whether a path by places leads from a structure to a plain pointer to this same structure.
pub fn leads_to_own_pointer(
    program: &Program,
    index: &PathIndex,
    node: TypeId,
    places: &[u32],
) -> bool
    requires index { IsIndexOn program.now index.now }
    ensures decides { Decides result (LeadsToOwnPointer program.now node places.now) }
{
    leads_to_pointer(program, index, node, node, places)
}

// Whether a path leads to a plain pointer to the first structure.
#[cycle(chain)]
fn leads_to_pointer(
    program: &Program,
    index: &PathIndex,
    own: TypeId,
    node: TypeId,
    places: &[u32],
) -> bool
    requires index { IsIndexOn program.now index.now }
    ensures decides { Decides result (LeadsToPointer program.now own node places.now) }
{
    match places {
        [] => false,
        [place, rest @ ..] => match field_to(program, index, node, *place as usize) {
            None => false,
            Some(ty) => pointer_goes_on(program, index, own, ty, rest),
        },
    }
}

// Whether the rest of a path leads from a field of this type to such a pointer.
#[cycle(chain)]
fn pointer_goes_on(program: &Program, index: &PathIndex, own: TypeId, ty: &Ty, rest: &[u32]) -> bool
    requires index { IsIndexOn program.now index.now }
    ensures decides { Decides result (PointerGoesOn program.now own rest.now ty.now) }
{
    if rest.is_empty() {
        return points_to(ty, own);
    }
    match ty {
        Ty::Node { id, .. } => leads_to_pointer(program, index, own, *id, rest),
        _ => false,
    }
}

fn points_to(ty: &Ty, node: TypeId) -> bool
    ensures decides { Decides result (PointsTo node ty.now) }
{
    match ty {
        Ty::Ptr {
            target: Some(Target::Node(target)),
            kind: PtrKind::Plain,
            ..
        } => *target == node,
        _ => false,
    }
}
