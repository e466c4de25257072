// The faults of roots.
ghost use Rattle.std.specs.Prelude.{IfOk};
ghost use Rattle.std.specs.Bool.{Decides};
ghost use Rattle.gt_markers.specs.Lookups.{IsLookupOf};
ghost use Rattle.gt_markers.specs.Sound.{IsSound};
ghost use Rattle.gt_declare.specs.Programs.{IsMadeOf};
ghost use Rattle.gt_typing.specs.SmallTypes.{HasSmallId};
ghost use Rattle.gt_rules.specs.Parts.{IsIndexFor, IsFirstWith, HoldsInner, RootDescFault, RootFaults, RootReorderFault, RootsFaults};

use crate::fields::of_type;
use crate::known::{Known, Options};
use crate::names::{held_node, is_named_inner, plain_node};
use crate::options::{of_root_expression, of_root_reorder};
use crate::purposes::RootPurpose;
use crate::types::held_by;
use gt_drafts::{DeclaredType, DraftRoot, with_fault};
use gt_markers::BAD_PATH;
use gt_types::{Fault, Program, Root, Ty};
use std::alloc::AllocError;

// Whether a type holds an inner structure by value.
fn holds_inner(known: Known, ty: &Ty) -> bool
    requires index { IsIndexFor known.draft.now known.program.now known.index.now }
    ensures decides { Decides result (HoldsInner known.entry.draft.now ty.now) }
{
    is_named_inner(known, held_by(ty))
}

// The earliest fault with that of the `desc` of a root which holds a union.
fn of_desc(
    earliest: Option<Fault>,
    known: Known,
    options: Options,
    declared: &DeclaredType,
) -> Result<Option<Fault>, AllocError>
    requires lookup { IsLookupOf known.draft.now known.lookup.now }
    requires index { IsIndexFor known.draft.now known.program.now known.index.now }
    requires small { HasSmallId declared.now.resolved.base }
    ensures first { IfOk result (IsFirstWith earliest (RootDescFault known.entry.draft.now known.entry.program.now options.entry.of_field options.entry.options.now declared.now options.entry.file)) }
{
    match held_node(declared) {
        None => Ok(earliest),
        Some(held) => of_root_expression(earliest, known, options, "desc", RootPurpose::Desc(held)),
    }
}

// The earliest fault with that of a `reorder` at a root which is a plain pointer.
fn of_reorder(
    earliest: Option<Fault>,
    program: &Program,
    options: Options,
    declared: &DeclaredType,
) -> Option<Fault>
    requires small { HasSmallId declared.now.resolved.base }
    ensures first { IsFirstWith earliest (RootReorderFault program.now options.entry.options.now declared.now options.entry.file) result }
{
    match plain_node(options.options, declared) {
        None => earliest,
        Some(node) => of_root_reorder(earliest, program, options, node),
    }
}

// The earliest fault with those of a root.
fn of_root(
    earliest: Option<Fault>,
    known: Known,
    root: &DraftRoot,
    made: &Root,
) -> Result<Option<Fault>, AllocError>
    requires lookup { IsLookupOf known.draft.now known.lookup.now }
    requires index { IsIndexFor known.draft.now known.program.now known.index.now }
    requires small { HasSmallId root.now.ty.resolved.base }
    ensures first { IfOk result (IsFirstWith earliest (RootFaults known.entry.draft.now known.entry.program.now root.now made.now)) }
{
    let file = root.file;
    let options = Options {
        of_field: false,
        file,
        options: root.options.as_slice(),
    };
    let at = root.name.at;
    let earliest = of_type(earliest, known, options, at, &root.ty, &made.ty);
    let inner = holds_inner(known, &made.ty);
    let earliest = with_fault(earliest, inner, BAD_PATH, file, at);
    let earliest = of_root_expression(earliest, known, options, "length", RootPurpose::Count)?;
    let earliest = of_desc(earliest, known, options, &root.ty)?;
    Ok(of_reorder(earliest, known.program, options, &root.ty))
}

/// The earliest fault with those of all roots. It fails only if memory runs out.
pub fn of_roots(earliest: Option<Fault>, known: Known) -> Result<Option<Fault>, AllocError>
    requires sound { IsSound known.draft.now }
    requires made { IsMadeOf known.draft.now known.program.now }
    requires lookup { IsLookupOf known.draft.now known.lookup.now }
    requires index { IsIndexFor known.draft.now known.program.now known.index.now }
    ensures first { IfOk result (IsFirstWith earliest (RootsFaults known.entry.draft.now known.entry.program.now)) }
{
    let roots = known.draft.roots.as_slice();
    let made = known.program.roots.as_slice();
    let mut earliest = earliest;
    for (place, root) in roots.iter().enumerate() {
        earliest = of_root(earliest, known, root, &made[place])?;
    }
    Ok(earliest)
}
