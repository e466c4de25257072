// Steps to the common structure of a union.
ghost use Rattle.std.specs.Prelude.{◌≡◌, ℕ, List, Option, IfOk, true, Err};
ghost use Rattle.gt_types.specs.Settled.{Settled};
ghost use Rattle.gt_types.specs.Contains.{HasStructure};
ghost use Rattle.gt_types.specs.Unions.{BeginsWith};
ghost use Rattle.gt_types.specs.declared.expressions.Expr.{Expr};
ghost use Rattle.gt_types.specs.declared.program.Structure.{Structure};
ghost use Rattle.gt_types.specs.declared.types.Ty.TheVariants.{Node};
ghost use Rattle.gt_layout.specs.Planes.{IsLaidOut};
ghost use Rattle.gt_fields.specs.FieldNames.{AreNamesOf};
ghost use Rattle.gt_script.specs.declared.command.Hop.TheVariants.{Name};
ghost use Rattle.gt_tree.specs.Scopes.{is_node};
ghost use Rattle.gt_value.specs.Places.{Part};
ghost use Rattle.gt_value.specs.Cursors.{Frame};
ghost use Rattle.gt_next.specs.declared.answer.Why.{Why};
ghost use Rattle.gt_routes.specs.Steps.{IsIn, StandsAt, IsInactive, IsBegin, LeadsFrom, RefusedFrom};

use crate::field_places::place_of_field;
use crate::steps::{Step, made};
use gt_fields::FieldNames;
use gt_layout::Layouts;
use gt_next::Why;
use gt_types::{MAX_DEPTH, Program, Ty, TypeId, Word};
use gt_value::{Cursor, common_structure};

// Whether a type is this structure.
fn is_node(node: TypeId, ty: &Ty) -> bool
    ensures { result ≡ is_node node ty.now }
{
    match ty {
        Ty::Node { id, .. } => node.0 == id.0,
        _ => false,
    }
}

// From the active member of a union to the structure with which it begins: each step goes to the first part. At most MAX_DEPTH
// structures lie one inside another.
fn begin_of<'a>(program: &Program, at: Cursor<'a>, member: u32, common: TypeId) -> Step<'a>
    requires settled { Settled program.now }
    requires stands { IsIn program.now at }
    requires begins { BeginsWith program.now at.ty.now common }
    ensures begin { (frame : Frame) (value : Part) (path : List ℕ) (here : StandsAt frame value path at.entry) → frame.program ≡ program.now → IsBegin frame value path at.entry common member result here }
{
    let mut cursor = at;
    'parts: for zeros in 0..MAX_DEPTH as u32 + 1 {
        if is_node(common, cursor.ty()) {
            return Step {
                at: cursor,
                place: member,
                zeros,
            };
        }
        let Some(next) = cursor.step(0) else {
            unreachable!()
        };
        cursor = next;
    }
    unreachable!()
}

/// A step by the name of a member of a union that is not active. If the member is of the type of the common structure, it leads to the
/// begin of the active member, or, where none is active, to the common structure that is kept. Else it is refused.
pub fn common_step<'a>(
    program: &Program,
    layouts: &Layouts,
    fields: &FieldNames,
    at: &Cursor<'a>,
    node: TypeId,
    name: &Word,
) -> Result<Step<'a>, Why>
    requires settled { Settled program.now }
    requires laid { IsLaidOut program.now layouts.now }
    requires fields { AreNamesOf program.now.structures fields.now }
    requires stands { IsIn program.now at.now }
    requires node { (desc : Option Expr) × (at.now.ty.now ≡ Node node desc) }
    requires a_union { (s : Structure) → HasStructure program.now node s → s.is_union ≡ true }
    requires inactive { (frame : Frame) (value : Part) (path : List ℕ) (here : StandsAt frame value path at.now) → frame.program ≡ program.now → IsInactive frame.program here.here.p.tree node name.now }
    ensures leads { IfOk result (λ to. LeadsFrom program.now at.now (Name name.now) to) }
    ensures refused { (why : Why) → result ≡ Err why → RefusedFrom program.now at.now (Name name.now) why }
{
    let Some(place) = place_of_field(program, fields, node, name) else {
        unreachable!()
    };
    let Some(structure) = program.structures.get(node.0 as usize) else {
        unreachable!()
    };
    let Some(field) = structure.fields.get(place as usize) else {
        unreachable!()
    };
    let Some(common) = common_structure(program, layouts, node, structure) else {
        return Err(Why::Inactive);
    };
    if !is_node(common, &field.ty) {
        return Err(Why::Inactive);
    }
    let Some(member) = at.member() else {
        let Some(next) = at.step(place) else {
            unreachable!()
        };
        return Ok(made(next, place));
    };
    let Some(next) = at.step(member) else {
        unreachable!()
    };
    Ok(begin_of(program, next, member, common))
}
