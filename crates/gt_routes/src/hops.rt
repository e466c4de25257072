// Where a step of a path leads within a value, whatever the step.
ghost use Rattle.std.specs.Prelude.{◌≡◌, Option, IfOk, Err};
ghost use Rattle.gt_types.specs.Settled.{Settled};
ghost use Rattle.gt_types.specs.Contains.{itself};
ghost use Rattle.gt_types.specs.declared.expressions.Expr.{Expr};
ghost use Rattle.gt_types.specs.declared.types.Ty.TheVariants.{Node};
ghost use Rattle.gt_layout.specs.Planes.{IsLaidOut};
ghost use Rattle.gt_fields.specs.FieldNames.{AreNamesOf};
ghost use Rattle.gt_script.specs.declared.command.Hop.TheVariants.{Name};
ghost use Rattle.gt_next.specs.Spots.{element_of};
ghost use Rattle.gt_next.specs.Paths.{is_some_type};
ghost use Rattle.gt_next.specs.declared.answer.Why.{Why};
ghost use Rattle.gt_routes.specs.Steps.{IsIn, LeadsFrom, RefusedFrom};

use crate::commons::common_step;
use crate::steps::{Step, element_step, field_step, member_step};
use gt_fields::FieldNames;
use gt_layout::Layouts;
use gt_next::Why;
use gt_script::Hop;
use gt_types::{Program, Ty, TypeId, Word};
use gt_value::Cursor;

// Whether a type is that of an array.
fn has_elements(ty: &Ty) -> bool
    ensures { result ≡ is_some_type (element_of ty.now) }
{
    match ty {
        Ty::Arr { .. } | Ty::Tail { .. } => true,
        Ty::Num(_) | Ty::Bits { .. } | Ty::Opaque { .. } => false,
        Ty::Str(_) | Ty::Ptr { .. } | Ty::Node { .. } => false,
    }
}

// The structure that a type is.
fn structure_of(ty: &Ty) -> Option<TypeId>
    ensures { result ≡ itself ty.now }
{
    match ty {
        Ty::Node { id, .. } => Some(*id),
        Ty::Num(_) | Ty::Bits { .. } | Ty::Opaque { .. } => None,
        Ty::Str(_) | Ty::Ptr { .. } => None,
        Ty::Arr { .. } | Ty::Tail { .. } => None,
    }
}

/// A step by a name in a value of a structure.
pub fn name_step<'a>(
    program: &Program,
    layouts: &Layouts,
    fields: &FieldNames,
    at: &Cursor<'a>,
    node: TypeId,
    name: &Word,
) -> Result<Step<'a>, Why>
    requires settled { Settled program.now }
    requires laid { IsLaidOut program.now layouts.now }
    requires fields { AreNamesOf program.now.structures fields.now }
    requires stands { IsIn program.now at.now }
    requires node { (desc : Option Expr) × (at.now.ty.now ≡ Node node desc) }
    ensures leads { IfOk result (λ to. LeadsFrom program.now at.now (Name name.now) to) }
    ensures refused { (why : Why) → result ≡ Err why → RefusedFrom program.now at.now (Name name.now) why }
{
    let Some(structure) = program.structures.get(node.0 as usize) else {
        unreachable!()
    };
    if !structure.is_union {
        return field_step(program, fields, at, node, name);
    }
    match member_step(program, fields, at, node, name) {
        Ok(Some(step)) => Ok(step),
        Ok(None) => common_step(program, layouts, fields, at, node, name),
        Err(why) => Err(why),
    }
}

/// A step in a value. One that does not suit the type is refused.
pub fn local_step<'a>(
    program: &Program,
    layouts: &Layouts,
    fields: &FieldNames,
    at: &Cursor<'a>,
    hop: &Hop,
) -> Result<Step<'a>, Why>
    requires settled { Settled program.now }
    requires laid { IsLaidOut program.now layouts.now }
    requires fields { AreNamesOf program.now.structures fields.now }
    requires stands { IsIn program.now at.now }
    ensures leads { IfOk result (λ to. LeadsFrom program.now at.now hop.now to) }
    ensures refused { (why : Why) → result ≡ Err why → RefusedFrom program.now at.now hop.now why }
{
    match hop {
        Hop::Index(place) => {
            if !has_elements(at.ty()) {
                return Err(Why::WrongType);
            }
            element_step(program, at, *place)
        }
        Hop::Name(name) => match structure_of(at.ty()) {
            Some(node) => name_step(program, layouts, fields, at, node, name),
            None => Err(Why::WrongType),
        },
    }
}
