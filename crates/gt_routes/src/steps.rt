// Where a step of a path leads within a value.
ghost use Rattle.std.specs.Prelude.{◌≡◌, ◌++◌, ◌∷◌, [], ℕ, List, Option, Some, None, Ok, Err, IfOk, OnOk, true, false};
ghost use Rattle.gt_types.specs.Settled.{Settled};
ghost use Rattle.gt_types.specs.Contains.{HasStructure};
ghost use Rattle.gt_types.specs.declared.expressions.Expr.{Expr};
ghost use Rattle.gt_types.specs.declared.program.Structure.{Structure};
ghost use Rattle.gt_types.specs.declared.types.Ty.TheVariants.{Node};
ghost use Rattle.gt_fields.specs.FieldNames.{AreNamesOf};
ghost use Rattle.gt_script.specs.declared.command.Hop.TheVariants.{Name, Index};
ghost use Rattle.gt_tree.specs.Scopes.{typed};
ghost use Rattle.gt_value.specs.Places.{Part};
ghost use Rattle.gt_value.specs.Cursors.{Frame};
ghost use Rattle.gt_next.specs.Spots.{element_of};
ghost use Rattle.gt_next.specs.Paths.{RefusesIn, is_some_type};
ghost use Rattle.gt_routes.specs.Steps.{IsIn, StandsAt, StepsTo, IsInactive, MadeOf, along};

use crate::field_places::place_of_field;
use gt_fields::FieldNames;
use gt_next::Why;
use gt_types::{Program, TypeId, Word};
use gt_value::Cursor;
use smallvec::SmallVec;
use std::alloc::AllocError;

/// Why a step leads nowhere: memory ran out, or it is refused.
#[derive(Clone, Copy, Debug, PartialEq, Eq)]
pub enum WalkFail {
    Memory,
    Refused(Why),
}

/// Where a step leads within a value: a cursor there, the place to which it goes first, and how often it then goes to the first part.
#[derive(Clone, Copy)]
pub struct Step<'a> {
    pub at: Cursor<'a>,
    pub place: u32,
    pub zeros: u32,
}

/// The places of a path, from the outside in. They take memory only where there are more than eight.
pub type Places = SmallVec<u32, 8>;

// A step by one place.
pub fn made<'a>(at: Cursor<'a>, place: u32) -> Step<'a>
    ensures made { MadeOf result at.entry (place ∷ []) }
{
    Step {
        at,
        place,
        zeros: 0,
    }
}

// Adds the places of a step to those of the path before it.
pub fn add_places(places: &mut Places, step: &Step<'_>) -> Result<(), AllocError>
    ensures added { OnOk result (places.new.items ≡ places.old.items ++ along step.now) }
{
    places.push(step.place)?;
    for _ in 0..step.zeros {
        places.push(0)?;
    }
    Ok(())
}

/// A step by a number in an array: to the element at this place. It is refused where there is no such element.
pub fn element_step<'a>(program: &Program, at: &Cursor<'a>, place: u64) -> Result<Step<'a>, Why>
    requires settled { Settled program.now }
    requires stands { IsIn program.now at.now }
    requires row { is_some_type (element_of at.now.ty.now) ≡ true }
    ensures leads { IfOk result (λ to. (frame : Frame) (value : Part) (path : List ℕ) (here : StandsAt frame value path at.now) → frame.program ≡ program.now → StepsTo frame value path at.now (Index place) to.at (along to) here) }
    ensures refused { (why : Why) → result ≡ Err why → (frame : Frame) (value : Part) (path : List ℕ) (here : StandsAt frame value path at.now) → frame.program ≡ program.now → RefusesIn frame.program (typed here.here.p.type here.here.p.tree) (Index place) why }
{
    let _ = program;
    if place >= at.count() as u64 {
        return Err(Why::BadIndex);
    }
    match at.step(place as u32) {
        Some(next) => Ok(made(next, place as u32)),
        None => Err(Why::BadIndex),
    }
}

/// A step by a name in a value of a structure that is no union: to the field of this name. It is refused where there is none.
pub fn field_step<'a>(
    program: &Program,
    fields: &FieldNames,
    at: &Cursor<'a>,
    node: TypeId,
    name: &Word,
) -> Result<Step<'a>, Why>
    requires settled { Settled program.now }
    requires fields { AreNamesOf program.now.structures fields.now }
    requires stands { IsIn program.now at.now }
    requires node { (desc : Option Expr) × (at.now.ty.now ≡ Node node desc) }
    requires no_union { (s : Structure) → HasStructure program.now node s → s.is_union ≡ false }
    ensures leads { IfOk result (λ to. (frame : Frame) (value : Part) (path : List ℕ) (here : StandsAt frame value path at.now) → frame.program ≡ program.now → StepsTo frame value path at.now (Name name.now) to.at (along to) here) }
    ensures refused { (why : Why) → result ≡ Err why → (frame : Frame) (value : Part) (path : List ℕ) (here : StandsAt frame value path at.now) → frame.program ≡ program.now → RefusesIn frame.program (typed here.here.p.type here.here.p.tree) (Name name.now) why }
{
    let Some(place) = place_of_field(program, fields, node, name) else {
        return Err(Why::NoField);
    };
    match at.step(place) {
        Some(next) => Ok(made(next, place)),
        None => Err(Why::NoField),
    }
}

/// A step by a name in a value of a union: to the active member, where it has this name. None where another member has it. It is
/// refused where none has.
pub fn member_step<'a>(
    program: &Program,
    fields: &FieldNames,
    at: &Cursor<'a>,
    node: TypeId,
    name: &Word,
) -> Result<Option<Step<'a>>, Why>
    requires settled { Settled program.now }
    requires fields { AreNamesOf program.now.structures fields.now }
    requires stands { IsIn program.now at.now }
    requires node { (desc : Option Expr) × (at.now.ty.now ≡ Node node desc) }
    requires a_union { (s : Structure) → HasStructure program.now node s → s.is_union ≡ true }
    ensures leads { (to : Step) → result ≡ Ok (Some to) → (frame : Frame) (value : Part) (path : List ℕ) (here : StandsAt frame value path at.now) → frame.program ≡ program.now → StepsTo frame value path at.now (Name name.now) to.at (along to) here }
    ensures inactive { result ≡ Ok None → (frame : Frame) (value : Part) (path : List ℕ) (here : StandsAt frame value path at.now) → frame.program ≡ program.now → IsInactive frame.program here.here.p.tree node name.now }
    ensures refused { (why : Why) → result ≡ Err why → (frame : Frame) (value : Part) (path : List ℕ) (here : StandsAt frame value path at.now) → frame.program ≡ program.now → RefusesIn frame.program (typed here.here.p.type here.here.p.tree) (Name name.now) why }
{
    let Some(place) = place_of_field(program, fields, node, name) else {
        return Err(Why::NoField);
    };
    let Some(member) = at.member() else {
        return Ok(None);
    };
    if member != place {
        return Ok(None);
    }
    match at.step(place) {
        Some(next) => Ok(Some(made(next, place))),
        None => Ok(None),
    }
}
