// The first fault of names and types.
ghost use Rattle.std.specs.Prelude.{◌≡◌, ◌||◌, ℕ, Bool, false, nat_le, List, [], length, IfOk};
ghost use Rattle.std.specs.List.{list_any};
ghost use Rattle.std.specs.Str.{bytes_eq};
ghost use Rattle.gt_shapes.specs.Cycles.{Suffice};
ghost use Rattle.gt_resolve.specs.Faults.{faults_of, field_faults, fields_faults, structure_faults, structures_faults, root_faults, roots_faults, cache_faults, caches_faults};
ghost use Rattle.gt_drafts.specs.Shapes.{has_flag};
ghost use Rattle.gt_drafts.specs.FirstFaults.{IsFirstOf, first_from};

use crate::bounds::is_bad_type;
use crate::redefined::redefinition;
use crate::{BAD_BOUND, BY_VALUE_CYCLE, REDEFINED, TOO_MANY, UNDEFINED};
use gt_drafts::{
    Draft, DraftCache, DraftField, DraftRoot, DraftStructure, flag_at, is_undefined_type,
    names_nothing, with_fault,
};
use gt_names::NameIndex;
use gt_scope::Scope;
use gt_shapes::Shapes;
use gt_types::{Fault, MAX_CACHES, MAX_FIELDS, MAX_ROOTS, MAX_STRUCTURES};
use std::alloc::{AllocError, Global};

/// The first fault of names and types: the one at the earliest place over all files, and at one place the one with the lowest
/// number. None where there is no fault.
#[tactic(auto, unfolding(crate::specs::Faults::faults_of))]
pub fn first_fault(
    alloc: Global,
    scope: &Scope,
    draft: &Draft,
    shapes: &Shapes,
) -> Result<Option<Fault>, AllocError>
    ensures first { IfOk result (λ r. (cyclic : List Bool) → Suffice draft.now.structures shapes.now.deep.items cyclic shapes.now.cyclic.items
        → IsFirstOf (faults_of scope.now.declarations.items scope.now.types.items draft.now cyclic shapes.now.deep.items shapes.now.tails.items) r) }
{
    let earliest = redefinition(alloc, scope)?;
    let earliest = of_structures(alloc, earliest, shapes, draft.structures.as_slice())?;
    let earliest = of_roots(earliest, &shapes.tails, draft.roots.as_slice());
    Ok(of_caches(earliest, draft.caches.as_slice()))
}

fn of_structures(
    alloc: Global,
    earliest: Option<Fault>,
    shapes: &Shapes,
    structures: &[DraftStructure],
) -> Result<Option<Fault>, AllocError>
    ensures earliest { IfOk result (λ r. r ≡ first_from earliest (structures_faults shapes.now.cyclic.items shapes.now.deep.items shapes.now.tails.items 0 structures.now)) }
{
    let mut earliest = earliest;
    for (place, structure) in structures.iter().enumerate() {
        earliest = of_structure(alloc, earliest, shapes, place, structure)?;
    }
    Ok(earliest)
}

fn of_structure(
    alloc: Global,
    earliest: Option<Fault>,
    shapes: &Shapes,
    place: usize,
    s: &DraftStructure,
) -> Result<Option<Fault>, AllocError>
    ensures earliest { IfOk result (λ r. r ≡ first_from earliest (structure_faults shapes.now.cyclic.items shapes.now.deep.items shapes.now.tails.items place s.now)) }
{
    let cyclic = flag_at(&shapes.cyclic, place);
    let earliest = with_fault(earliest, cyclic, BY_VALUE_CYCLE, s.file, s.tag.at);
    let many = is_one_too_many(&shapes.deep, place);
    let earliest = with_fault(earliest, many, TOO_MANY, s.file, s.tag.at);
    let fields = s.fields.as_slice();
    of_fields(alloc, earliest, &shapes.tails, s.file, s.is_union, fields)
}

// Whether too many containments stand in a structure, or too many structures before it.
fn is_one_too_many(deep: &[bool], place: usize) -> bool
    ensures same { result ≡ (has_flag deep.now place || nat_le MAX_STRUCTURES place) }
{
    flag_at(deep, place) || MAX_STRUCTURES <= place
}

fn of_fields(
    alloc: Global,
    earliest: Option<Fault>,
    tails: &[bool],
    file: u32,
    in_union: bool,
    fields: &[DraftField],
) -> Result<Option<Fault>, AllocError>
    ensures earliest { IfOk result (λ r. r ≡ first_from earliest (fields_faults tails.now file in_union [] fields.now)) }
{
    let mut names = NameIndex::new(alloc);
    let mut earliest = earliest;
    for (place, field) in fields.iter().enumerate() {
        let named = names.get(&field.name.word).is_some();
        earliest = of_field(earliest, tails, file, in_union, named, place, field);
        names.add(&field.name.word)?;
    }
    Ok(earliest)
}

// A field, of which so many stand before, and which has the name of one of those or not.
fn of_field(
    earliest: Option<Fault>,
    tails: &[bool],
    file: u32,
    in_union: bool,
    named: bool,
    place: usize,
    f: &DraftField,
) -> Option<Fault>
    ensures earliest { (before : List (List ℕ)) → list_any (λ name. bytes_eq name f.now.name.word) before ≡ named → length before ≡ place →
        result ≡ first_from earliest (field_faults tails.now file in_union before f.now) }
{
    let earliest = with_fault(earliest, named, REDEFINED, file, f.name.at);
    let options = f.options.as_slice();
    let undefined = is_undefined_type(options, &f.ty);
    let earliest = with_fault(earliest, undefined, UNDEFINED, file, f.name.at);
    let bad = is_bad_type(tails, in_union, options, &f.ty);
    let earliest = with_fault(earliest, bad, BAD_BOUND, file, f.name.at);
    with_fault(earliest, MAX_FIELDS <= place, TOO_MANY, file, f.name.at)
}

fn of_roots(earliest: Option<Fault>, tails: &[bool], roots: &[DraftRoot]) -> Option<Fault>
    ensures earliest { result ≡ first_from earliest (roots_faults tails.now 0 roots.now) }
{
    let mut earliest = earliest;
    for (place, root) in roots.iter().enumerate() {
        earliest = of_root(earliest, tails, place, root);
    }
    earliest
}

fn of_root(earliest: Option<Fault>, tails: &[bool], place: usize, r: &DraftRoot) -> Option<Fault>
    ensures earliest { result ≡ first_from earliest (root_faults tails.now place r.now) }
{
    let options = r.options.as_slice();
    let undefined = is_undefined_type(options, &r.ty);
    let earliest = with_fault(earliest, undefined, UNDEFINED, r.file, r.name.at);
    let bad = is_bad_type(tails, false, options, &r.ty);
    let earliest = with_fault(earliest, bad, BAD_BOUND, r.file, r.name.at);
    with_fault(earliest, MAX_ROOTS <= place, TOO_MANY, r.file, r.name.at)
}

fn of_caches(earliest: Option<Fault>, caches: &[DraftCache]) -> Option<Fault>
    ensures earliest { result ≡ first_from earliest (caches_faults 0 caches.now) }
{
    let mut earliest = earliest;
    for (place, cache) in caches.iter().enumerate() {
        earliest = of_cache(earliest, place, cache);
    }
    earliest
}

fn of_cache(earliest: Option<Fault>, place: usize, c: &DraftCache) -> Option<Fault>
    ensures earliest { result ≡ first_from earliest (cache_faults place c.now) }
{
    let earliest = with_fault(earliest, names_nothing(c), UNDEFINED, c.file, c.name.at);
    with_fault(earliest, MAX_CACHES <= place, TOO_MANY, c.file, c.name.at)
}
