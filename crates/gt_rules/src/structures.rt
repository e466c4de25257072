// The faults of structures.
ghost use Rattle.std.specs.Prelude.{◌≡◌, IfOk, All, length};
ghost use Rattle.gt_markers.specs.Lookups.{IsLookupOf};
ghost use Rattle.gt_markers.specs.Sound.{IsSound};
ghost use Rattle.gt_declare.specs.Programs.{IsMadeOf};
ghost use Rattle.gt_typing.specs.SmallTypes.{HasSmallId};
ghost use Rattle.gt_rules.specs.Parts.{AreChecksFor, IsIndexFor, IsFirstWith, StructureFaults, StructuresFaults, UnionDescFault};

use crate::chains::of_chains;
use crate::fields::of_fields;
use crate::known::Known;
use crate::purposes::{Purpose, serves};
use gt_drafts::{DraftStructure, with_fault};
use gt_markers::{BAD_PATH, option_named};
use gt_paths::PathChecks;
use gt_types::{Fault, Structure, TypeId};
use std::alloc::AllocError;

// The earliest fault with that of the `desc` of a union itself, which is the structure that is checked.
fn of_union_desc(
    earliest: Option<Fault>,
    known: Known,
    checks: &mut PathChecks,
    drafted: &DraftStructure,
) -> Result<Option<Fault>, AllocError>
    requires lookup { IsLookupOf known.draft.now known.lookup.now }
    requires checks { AreChecksFor known.draft.now known.program.now checks.old }
    ensures first { IfOk result (IsFirstWith earliest (UnionDescFault known.entry.draft.now known.entry.program.now checks.old.node drafted.now)) }
    ensures same { checks.new ≡ checks.old }
{
    if !drafted.is_union {
        return Ok(earliest);
    }
    let Some(option) = option_named(drafted.options.as_slice(), "desc") else {
        return Ok(earliest);
    };
    let good = serves(known, checks, Purpose::Own, &option.parameter)?;
    Ok(with_fault(earliest, !good, BAD_PATH, drafted.file, option.name.at))
}

// The earliest fault with those of a structure and of its fields.
fn of_structure(
    earliest: Option<Fault>,
    known: Known,
    structure: TypeId,
    drafted: &DraftStructure,
    made: &Structure,
) -> Result<Option<Fault>, AllocError>
    requires lookup { IsLookupOf known.draft.now known.lookup.now }
    requires index { IsIndexFor known.draft.now known.program.now known.index.now }
    requires small { All (λ f. HasSmallId f.ty.resolved.base) drafted.now.fields }
    requires same { length drafted.now.fields ≡ length made.now.fields }
    ensures first { IfOk result (IsFirstWith earliest (StructureFaults known.entry.draft.now known.entry.program.now structure drafted.now made.now)) }
{
    let file = drafted.file;
    let options = drafted.options.as_slice();
    let fields = drafted.fields.as_slice();
    let mut checks = PathChecks::new(known.alloc, known.program, known.index, structure);
    let earliest = of_union_desc(earliest, known, &mut checks, drafted)?;
    let earliest = of_chains(earliest, known, structure, file, options)?;
    of_fields(
        earliest,
        known,
        &mut checks,
        file,
        fields,
        made.fields.as_slice(),
    )
}

/// The earliest fault with those of all structures. It fails only if memory runs out.
pub fn of_structures(earliest: Option<Fault>, known: Known) -> Result<Option<Fault>, AllocError>
    requires sound { IsSound known.draft.now }
    requires made { IsMadeOf known.draft.now known.program.now }
    requires lookup { IsLookupOf known.draft.now known.lookup.now }
    requires index { IsIndexFor known.draft.now known.program.now known.index.now }
    ensures first { IfOk result (IsFirstWith earliest (StructuresFaults known.entry.draft.now known.entry.program.now)) }
{
    let structures = known.draft.structures.as_slice();
    let made = known.program.structures.as_slice();
    let mut earliest = earliest;
    for (place, drafted) in structures.iter().enumerate() {
        let structure = TypeId(place as u32);
        earliest = of_structure(earliest, known, structure, drafted, &made[place])?;
    }
    Ok(earliest)
}
