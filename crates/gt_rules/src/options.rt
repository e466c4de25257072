// The faults of options that are read.
ghost use Rattle.std.specs.Prelude.{◌≡◌, IsTrue, IfOk};
ghost use Rattle.std.specs.Option.{option_copied};
ghost use Rattle.std.specs.List.{list_all};
ghost use Rattle.std.specs.Char.{is_ascii};
ghost use Rattle.std.specs.Bool.{Decides};
ghost use Rattle.gt_types.specs.Settled.{EndsInPointers};
ghost use Rattle.gt_markers.specs.Lookups.{IsLookupOf};
ghost use Rattle.gt_rules.specs.Parts.{AreChecksFor, IsIndexFor, IsFirstWith, ExpressionFault, ReorderFault, RootReorderFaultOf, Serves, ServesRoot, read_option};

use crate::known::{Known, Options};
use crate::purposes::{Purpose, RootPurpose, serves, serves_root};
use gt_drafts::with_fault;
use gt_items::RawOption;
use gt_markers::{BAD_PATH, WRONG_PLACE, has_skip, option_named};
use gt_paths::{PathChecks, names_sortable};
use gt_types::{Fault, Program, PtrKind, Target, Ty, TypeId};
use std::alloc::AllocError;

// The option of a name of ASCII characters that is read: the first, and on a field none beside `skip`.
fn read_option<'a>(of_field: bool, options: &'a [RawOption], name: &str) -> Option<&'a RawOption>
    requires ascii { IsTrue (list_all is_ascii name.now) }
    ensures read { option_copied result ≡ read_option of_field name.now options.now }
{
    if of_field && has_skip(options) {
        return None;
    }
    option_named(options, name)
}

/// The earliest fault with that of an expression which is not good for its purpose in the structure that is checked. It fails only if
/// memory runs out.
pub fn of_expression(
    earliest: Option<Fault>,
    known: Known,
    checks: &mut PathChecks,
    options: Options,
    name: &str,
    purpose: Purpose,
) -> Result<Option<Fault>, AllocError>
    requires ascii { IsTrue (list_all is_ascii name.now) }
    requires lookup { IsLookupOf known.draft.now known.lookup.now }
    requires checks { AreChecksFor known.draft.now known.program.now checks.old }
    ensures first { IfOk result (IsFirstWith earliest (ExpressionFault (Serves known.entry.draft.now known.entry.program.now checks.old.node purpose) options.entry.of_field options.entry.options.now name.now options.entry.file)) }
    ensures same { checks.new ≡ checks.old }
{
    let Some(option) = read_option(options.of_field, options.options, name) else {
        return Ok(earliest);
    };
    let good = serves(known, checks, purpose, &option.parameter)?;
    Ok(with_fault(earliest, !good, BAD_PATH, options.file, option.name.at))
}

/// The same of an expression which is not good for its purpose in a root.
pub fn of_root_expression(
    earliest: Option<Fault>,
    known: Known,
    options: Options,
    name: &str,
    purpose: RootPurpose,
) -> Result<Option<Fault>, AllocError>
    requires ascii { IsTrue (list_all is_ascii name.now) }
    requires lookup { IsLookupOf known.draft.now known.lookup.now }
    requires index { IsIndexFor known.draft.now known.program.now known.index.now }
    ensures first { IfOk result (IsFirstWith earliest (ExpressionFault (ServesRoot known.entry.draft.now known.entry.program.now purpose) options.entry.of_field options.entry.options.now name.now options.entry.file)) }
{
    let Some(option) = read_option(options.of_field, options.options, name) else {
        return Ok(earliest);
    };
    let good = serves_root(known, purpose, &option.parameter)?;
    Ok(with_fault(earliest, !good, BAD_PATH, options.file, option.name.at))
}

/// The earliest fault with that of a `reorder` at a field that is not sorted in an image.
pub fn of_reorder(
    earliest: Option<Fault>,
    program: &Program,
    options: Options,
    ty: &Ty,
) -> Option<Fault>
    ensures first { IsFirstWith earliest (ReorderFault program.now options.entry.options.now ty.now options.entry.file) result }
{
    let Some(option) = read_option(true, options.options, "reorder") else {
        return earliest;
    };
    let sortable = names_sortable(program, ty);
    with_fault(
        earliest,
        !sortable,
        WRONG_PLACE,
        options.file,
        option.name.at,
    )
}

// Whether a structure is a struct that ends in plain pointers.
fn ends_in_pointers(program: &Program, node: TypeId) -> bool
    ensures decides { Decides result (EndsInPointers program.now node) }
{
    let sorted = Ty::Ptr {
        target: Some(Target::Node(node)),
        kind: PtrKind::Plain,
        reorder: true,
    };
    names_sortable(program, &sorted)
}

/// The earliest fault with that of a `reorder` at a root that points to a structure, where this does not end in plain pointers.
pub fn of_root_reorder(
    earliest: Option<Fault>,
    program: &Program,
    options: Options,
    node: TypeId,
) -> Option<Fault>
    ensures first { IsFirstWith earliest (RootReorderFaultOf program.now options.entry.options.now options.entry.file node) result }
{
    let Some(option) = read_option(false, options.options, "reorder") else {
        return earliest;
    };
    let sortable = ends_in_pointers(program, node);
    with_fault(
        earliest,
        !sortable,
        WRONG_PLACE,
        options.file,
        option.name.at,
    )
}
