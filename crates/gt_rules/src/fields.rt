// The faults of fields.
ghost use Rattle.std.specs.Prelude.{◌≡◌, IfOk, All, length};
ghost use Rattle.std.specs.Bool.{Decides};
ghost use Rattle.gt_markers.specs.Lookups.{IsLookupOf};
ghost use Rattle.gt_typing.specs.SmallTypes.{HasSmallId};
ghost use Rattle.gt_rules.specs.Parts.{AreChecksFor, IsIndexFor, IsFirstWith, FieldDescFault, FieldFaults, FieldsFaults, LacksItsDesc, TypeFaults};

use crate::known::{Known, Options};
use crate::names::{is_bare, is_named_inner, names_node};
use crate::options::{of_expression, of_reorder};
use crate::purposes::Purpose;
use crate::types::{held_by, lacks_desc};
use gt_drafts::{DeclaredType, DraftField, with_fault};
use gt_markers::{BAD_PATH, MISSING_DESC};
use gt_paths::PathChecks;
use gt_types::{Fault, Field, Program, Ty, TypeId};
use std::alloc::AllocError;

// Whether a type holds a union by value without a `desc`, or what it names is a union without a `desc` of its own.
fn lacks_its_desc(program: &Program, named: Option<TypeId>, ty: &Ty) -> bool
    ensures decides { Decides result (LacksItsDesc program.now named ty.now) }
{
    if lacks_desc(program, ty) {
        return true;
    }
    is_bare(program, named)
}

/// The earliest fault with those that stand at the name of a field or a root: a union without a `desc`, a pointer to an inner structure.
pub fn of_type(
    earliest: Option<Fault>,
    known: Known,
    options: Options,
    at: u32,
    declared: &DeclaredType,
    ty: &Ty,
) -> Option<Fault>
    requires index { IsIndexFor known.draft.now known.program.now known.index.now }
    requires small { HasSmallId declared.now.resolved.base }
    ensures first { IsFirstWith earliest (TypeFaults known.entry.draft.now known.entry.program.now options.entry.options.now declared.now ty.now options.entry.file at) result }
{
    let named = names_node(options.options, declared);
    let undescribed = lacks_its_desc(known.program, named, ty);
    let earliest = with_fault(earliest, undescribed, MISSING_DESC, options.file, at);
    let inner = is_named_inner(known, named);
    with_fault(earliest, inner, BAD_PATH, options.file, at)
}

// The earliest fault with that of the `desc` of a field which holds a union.
fn of_desc(
    earliest: Option<Fault>,
    known: Known,
    checks: &mut PathChecks,
    options: Options,
    ty: &Ty,
) -> Result<Option<Fault>, AllocError>
    requires lookup { IsLookupOf known.draft.now known.lookup.now }
    requires checks { AreChecksFor known.draft.now known.program.now checks.old }
    ensures first { IfOk result (IsFirstWith earliest (FieldDescFault known.entry.draft.now known.entry.program.now checks.old.node options.entry.of_field options.entry.options.now ty.now options.entry.file)) }
    ensures same { checks.new ≡ checks.old }
{
    match held_by(ty) {
        None => Ok(earliest),
        Some(held) => {
            let purpose = Purpose::FieldDesc(held);
            of_expression(earliest, known, checks, options, "desc", purpose)
        }
    }
}

// The earliest fault with those of a field of the structure that is checked.
fn of_field(
    earliest: Option<Fault>,
    known: Known,
    checks: &mut PathChecks,
    file: u32,
    field: &DraftField,
    made: &Field,
) -> Result<Option<Fault>, AllocError>
    requires lookup { IsLookupOf known.draft.now known.lookup.now }
    requires index { IsIndexFor known.draft.now known.program.now known.index.now }
    requires checks { AreChecksFor known.draft.now known.program.now checks.old }
    requires small { HasSmallId field.now.ty.resolved.base }
    ensures first { IfOk result (IsFirstWith earliest (FieldFaults known.entry.draft.now known.entry.program.now checks.old.node file field.now made.now)) }
    ensures same { checks.new ≡ checks.old }
{
    let options = Options {
        of_field: true,
        file,
        options: field.options.as_slice(),
    };
    let own = Purpose::Own;
    let earliest = of_type(earliest, known, options, field.name.at, &field.ty, &made.ty);
    let earliest = of_expression(earliest, known, checks, options, "length", own)?;
    let earliest = of_expression(earliest, known, checks, options, "string_length", own)?;
    let earliest = of_desc(earliest, known, checks, options, &made.ty)?;
    Ok(of_reorder(earliest, known.program, options, &made.ty))
}

/// The earliest fault with those of the fields of the structure that is checked, which the draft and the program have at the same
/// places. It fails only if memory runs out.
pub fn of_fields(
    earliest: Option<Fault>,
    known: Known,
    checks: &mut PathChecks,
    file: u32,
    fields: &[DraftField],
    made: &[Field],
) -> Result<Option<Fault>, AllocError>
    requires lookup { IsLookupOf known.draft.now known.lookup.now }
    requires index { IsIndexFor known.draft.now known.program.now known.index.now }
    requires checks { AreChecksFor known.draft.now known.program.now checks.old }
    requires small { All (λ f. HasSmallId f.ty.resolved.base) fields.now }
    requires same { length fields.now ≡ length made.now }
    ensures first { IfOk result (IsFirstWith earliest (FieldsFaults known.entry.draft.now known.entry.program.now checks.old.node file fields.now made.now)) }
{
    let mut earliest = earliest;
    for (place, field) in fields.iter().enumerate() {
        earliest = of_field(earliest, known, checks, file, field, &made[place])?;
    }
    Ok(earliest)
}
