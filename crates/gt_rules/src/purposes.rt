// What expressions are read for.
ghost use Rattle.std.specs.Prelude.{◌≡◌, IfOk};
ghost use Rattle.std.specs.Bool.{Decides};
ghost use Rattle.gt_types.specs.declared.program.Program.{Program};
ghost use Rattle.gt_drafts.specs.declared.draft.Draft.{Draft};
ghost use Rattle.gt_markers.specs.Lookups.{IsLookupOf};
ghost use Rattle.gt_paths.specs.Indexes.{IsIndexOn};
ghost use Rattle.gt_rules.specs.Parts.{AreChecksFor, IsIndexFor, Fits, RootFits, Serves, ServesRoot};

use crate::known::Known;
use gt_items::Parameter;
use gt_markers::{Scope, are_named, with_names};
use gt_paths::{PathChecks, PathIndex, is_root_count, is_root_desc};
use gt_types::{Expr, Program, TypeId};
use std::alloc::AllocError;

/// What the expression of an option of a structure is read for, which says where its paths may begin.
#[derive(Clone, Copy, Debug, PartialEq, Eq)]
pub enum Purpose {
    /// The length of a field of the structure, or the `desc` of the union itself.
    Own,
    /// The `desc` of a field of the structure that holds this union.
    FieldDesc(TypeId),
}

/// What the expression of an option of a root is read for.
#[derive(Clone, Copy, Debug, PartialEq, Eq)]
pub enum RootPurpose {
    /// The length of the root.
    Count,
    /// The `desc` of the root, which holds this union.
    Desc(TypeId),
}

// Whether an expression is good for a purpose of the structure that is checked.
fn fits(checks: &mut PathChecks, purpose: Purpose, e: &Expr) -> Result<bool, AllocError>
    ensures decides { (draft : Draft) (program : Program) → AreChecksFor draft program checks.old → IfOk result (λ r. Decides r (Fits draft program checks.old.node purpose e.now)) }
    ensures same { checks.new ≡ checks.old }
{
    match purpose {
        Purpose::Own => checks.is_option(e),
        Purpose::FieldDesc(held) => checks.is_field_desc(held, e),
    }
}

// Whether an expression is good for a purpose of a root.
fn fits_root(program: &Program, index: &PathIndex, purpose: RootPurpose, e: &Expr) -> bool
    requires index { IsIndexOn program.now index.now }
    ensures decides { Decides result (RootFits program.now purpose e.now) }
{
    match purpose {
        RootPurpose::Count => is_root_count(program, e),
        RootPurpose::Desc(held) => is_root_desc(program, index, held, e),
    }
}

/// Whether a parameter is an expression whose names all stand for something, and which is good for a purpose of the structure
/// that is checked. It fails only if memory runs out.
pub fn serves(
    known: Known,
    checks: &mut PathChecks,
    purpose: Purpose,
    parameter: &Parameter,
) -> Result<bool, AllocError>
    requires lookup { IsLookupOf known.draft.now known.lookup.now }
    requires checks { AreChecksFor known.draft.now known.program.now checks.old }
    ensures decides { IfOk result (λ r. Decides r (Serves known.entry.draft.now known.entry.program.now checks.old.node purpose parameter.now)) }
    ensures same { checks.new ≡ checks.old }
{
    let Parameter::Expression(raw) = parameter else {
        return Ok(false);
    };
    if !are_named(known.lookup, Scope::Fields, raw) {
        return Ok(false);
    }
    let e = with_names(known.alloc, known.lookup, Scope::Fields, raw)?;
    fits(checks, purpose, &e)
}

/// The same for a purpose of a root.
pub fn serves_root(
    known: Known,
    purpose: RootPurpose,
    parameter: &Parameter,
) -> Result<bool, AllocError>
    requires lookup { IsLookupOf known.draft.now known.lookup.now }
    requires index { IsIndexFor known.draft.now known.program.now known.index.now }
    ensures decides { IfOk result (λ r. Decides r (ServesRoot known.entry.draft.now known.entry.program.now purpose parameter.now)) }
{
    let Parameter::Expression(raw) = parameter else {
        return Ok(false);
    };
    if !are_named(known.lookup, Scope::Roots, raw) {
        return Ok(false);
    }
    let e = with_names(known.alloc, known.lookup, Scope::Roots, raw)?;
    Ok(fits_root(known.program, known.index, purpose, &e))
}
