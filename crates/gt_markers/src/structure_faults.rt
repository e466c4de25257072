// The faults of structures and of their fields.
ghost use Rattle.std.specs.Prelude.{◌≡◌, ◌&&◌, ◌∷◌, ◌++◌, [], IfOk, OnOk, IsTrue, List};
ghost use Rattle.std.specs.List.{list_all};
ghost use Rattle.std.specs.Char.{is_ascii};
ghost use Rattle.gt_drafts.specs.declared.draft.Draft.{Draft};
ghost use Rattle.gt_drafts.specs.declared.draft.DraftField.{DraftField};
ghost use Rattle.gt_drafts.specs.FirstFaults.{first_from};
ghost use Rattle.gt_markers.specs.Lookups.{IsLookupOf};
ghost use Rattle.gt_markers.specs.MarkerFaults.{field_faults, fields_faults, is_unmarked, repeated_fault, repeated_faults, structure_faults};
ghost use Rattle.gt_markers.specs.Members.{AreMembers, own_faults};
ghost use Rattle.gt_markers.specs.Options.{option_named};

use crate::field_faults::is_untyped;
use crate::lookups::Lookup;
use crate::marker_faults::{Marker, of_marker};
use crate::members::{Members, tag_value};
use crate::options::{has_option, has_skip, option_named};
use crate::sites::Site;
use crate::{DUPLICATE_TAG, MISSING_DESC, WRONG_PLACE};
use gt_drafts::{Draft, DraftField, DraftStructure, with_fault};
use gt_items::RawOption;
use gt_types::Fault;
use std::alloc::{AllocError, Global};

// A field of a structure, which is its last or not.
#[derive(Clone, Copy)]
struct Member<'a> {
    structure: &'a DraftStructure,
    field: &'a DraftField,
    last: bool,
}

// Whether it is a member of a union, and has neither a tag, nor `default`, nor `skip`.
fn is_unmarked(in_union: bool, options: &[RawOption]) -> bool
    ensures unmarked { result ≡ (in_union && is_unmarked options.now) }
{
    in_union && !(has_option(options, "tag") || has_option(options, "default") || has_skip(options))
}

// The earliest fault with those of a field that do not rest on the fields before it.
fn of_own(
    alloc: Global,
    earliest: Option<Fault>,
    draft: &Draft,
    lookup: &Lookup,
    member: Member,
) -> Result<Option<Fault>, AllocError>
    requires lookup { IsLookupOf draft.now lookup.now }
    ensures earliest { IfOk result (λ r. r ≡ first_from earliest (own_faults draft.now member.entry.structure.now member.entry.last member.entry.field.now)) }
{
    let structure = member.structure;
    let field = member.field;
    let options = field.options.as_slice();
    let site = Site::Field {
        in_union: structure.is_union,
        last: member.last,
        ty: &field.ty,
    };
    let marker = Marker {
        site,
        file: structure.file,
        options,
    };
    let earliest = of_marker(alloc, earliest, draft, lookup, marker)?;
    let at = field.name.at;
    let untyped = is_untyped(options, &field.ty);
    let earliest = with_fault(earliest, untyped, WRONG_PLACE, structure.file, at);
    let unmarked = is_unmarked(structure.is_union, options);
    Ok(with_fault(earliest, unmarked, MISSING_DESC, structure.file, at))
}

// The earliest fault with that of the first option of a name of ASCII characters, where it is repeated.
fn with_repeated_fault(
    earliest: Option<Fault>,
    repeated: bool,
    file: u32,
    options: &[RawOption],
    name: &str,
) -> Option<Fault>
    requires ascii { IsTrue (list_all is_ascii name.now) }
    ensures earliest { result ≡ first_from earliest (repeated_fault repeated file (option_named name.now options.now)) }
{
    match option_named(options, name) {
        Some(option) => with_fault(earliest, repeated, DUPLICATE_TAG, file, option.name.at),
        None => earliest,
    }
}

// The earliest fault with those of a field whose tag, or whose default, a field before has too. It is added to those before.
fn of_repeats(
    alloc: Global,
    earliest: Option<Fault>,
    lookup: &Lookup,
    before: &mut Members,
    structure: &DraftStructure,
    options: &[RawOption],
) -> Result<Option<Fault>, AllocError>
    ensures earliest { IfOk result (λ r. (draft : Draft) (fields : List DraftField) → IsLookupOf draft lookup.now → AreMembers draft fields before.old → r ≡ first_from earliest (repeated_faults draft structure.now.is_union fields structure.now.file options.now)) }
    ensures members { OnOk result ((draft : Draft) (fields : List DraftField) (f : DraftField) → IsLookupOf draft lookup.now → AreMembers draft fields before.old → f.options ≡ options.now → AreMembers draft (fields ++ f ∷ []) before.new) }
{
    let tag = tag_value(alloc, lookup, options)?;
    let same_tag = structure.is_union && before.hold_tag(tag);
    let earliest = with_repeated_fault(earliest, same_tag, structure.file, options, "tag");
    let default_twice = structure.is_union && before.hold_default();
    let earliest = with_repeated_fault(earliest, default_twice, structure.file, options, "default");
    before.add(tag, has_option(options, "default"))?;
    Ok(earliest)
}

// The earliest fault with those of a field, which is added to those before it.
fn of_field(
    alloc: Global,
    earliest: Option<Fault>,
    draft: &Draft,
    lookup: &Lookup,
    before: &mut Members,
    member: Member,
) -> Result<Option<Fault>, AllocError>
    requires lookup { IsLookupOf draft.now lookup.now }
    ensures earliest { IfOk result (λ r. (fields : List DraftField) → AreMembers draft.now fields before.old → r ≡ first_from earliest (field_faults draft.now member.entry.structure.now fields member.entry.last member.entry.field.now)) }
    ensures members { OnOk result ((fields : List DraftField) → AreMembers draft.now fields before.old → AreMembers draft.now (fields ++ member.entry.field.now ∷ []) before.new) }
{
    let options = member.field.options.as_slice();
    let earliest = of_own(alloc, earliest, draft, lookup, member)?;
    of_repeats(alloc, earliest, lookup, before, member.structure, options)
}

// The earliest fault with those of the fields of a structure.
fn of_fields(
    alloc: Global,
    earliest: Option<Fault>,
    draft: &Draft,
    lookup: &Lookup,
    structure: &DraftStructure,
    fields: &[DraftField],
) -> Result<Option<Fault>, AllocError>
    requires lookup { IsLookupOf draft.now lookup.now }
    ensures earliest { IfOk result (λ r. r ≡ first_from earliest (fields_faults draft.now structure.now [] fields.now)) }
{
    let mut earliest = earliest;
    let mut before = Members::new(alloc);
    for (place, field) in fields.iter().enumerate() {
        let last = place + 1 == fields.len();
        let member = Member {
            structure,
            field,
            last,
        };
        earliest = of_field(alloc, earliest, draft, lookup, &mut before, member)?;
    }
    Ok(earliest)
}

/// The earliest fault with those of a structure and of its fields. Its only error is out of memory.
pub fn of_structure(
    alloc: Global,
    earliest: Option<Fault>,
    draft: &Draft,
    lookup: &Lookup,
    structure: &DraftStructure,
) -> Result<Option<Fault>, AllocError>
    requires lookup { IsLookupOf draft.now lookup.now }
    ensures earliest { IfOk result (λ r. r ≡ first_from earliest (structure_faults draft.now structure.now)) }
{
    let marker = Marker {
        site: Site::Structure {
            is_union: structure.is_union,
        },
        file: structure.file,
        options: structure.options.as_slice(),
    };
    let earliest = of_marker(alloc, earliest, draft, lookup, marker)?;
    of_fields(
        alloc,
        earliest,
        draft,
        lookup,
        structure,
        structure.fields.as_slice(),
    )
}
