// The first fault that a draft alone tells.
ghost use Rattle.std.specs.Prelude.{◌≡◌, flat_map, IfOk};
ghost use Rattle.gt_drafts.specs.FirstFaults.{first_from, IsFirstOf};
ghost use Rattle.gt_markers.specs.Lookups.{IsLookupOf};
ghost use Rattle.gt_markers.specs.MarkerFaults.{cache_faults, draft_faults, root_faults, structure_faults};

use crate::field_faults::{of_cache, of_root};
use crate::lookups::Lookup;
use crate::structure_faults::of_structure;
use gt_drafts::{Draft, DraftCache, DraftRoot, DraftStructure};
use gt_types::Fault;
use std::alloc::{AllocError, Global};

fn of_structures(
    alloc: Global,
    earliest: Option<Fault>,
    draft: &Draft,
    lookup: &Lookup,
    structures: &[DraftStructure],
) -> Result<Option<Fault>, AllocError>
    requires lookup { IsLookupOf draft.now lookup.now }
    ensures earliest { IfOk result (λ r. r ≡ first_from earliest (flat_map (structure_faults draft.now) structures.now)) }
{
    let mut earliest = earliest;
    for structure in structures {
        earliest = of_structure(alloc, earliest, draft, lookup, structure)?;
    }
    Ok(earliest)
}

fn of_roots(
    alloc: Global,
    earliest: Option<Fault>,
    draft: &Draft,
    lookup: &Lookup,
    roots: &[DraftRoot],
) -> Result<Option<Fault>, AllocError>
    requires lookup { IsLookupOf draft.now lookup.now }
    ensures earliest { IfOk result (λ r. r ≡ first_from earliest (flat_map (root_faults draft.now) roots.now)) }
{
    let mut earliest = earliest;
    for root in roots {
        earliest = of_root(alloc, earliest, draft, lookup, root)?;
    }
    Ok(earliest)
}

fn of_caches(
    alloc: Global,
    earliest: Option<Fault>,
    draft: &Draft,
    lookup: &Lookup,
    caches: &[DraftCache],
) -> Result<Option<Fault>, AllocError>
    requires lookup { IsLookupOf draft.now lookup.now }
    ensures earliest { IfOk result (λ r. r ≡ first_from earliest (flat_map (cache_faults draft.now) caches.now)) }
{
    let mut earliest = earliest;
    for cache in caches {
        earliest = of_cache(alloc, earliest, draft, lookup, cache)?;
    }
    Ok(earliest)
}

/// The first fault of a draft that needs no program: at the earliest place, and of those at one place the lowest number. `None`
/// says that there is none. Its time is linear in the draft but for the order of tags. Its only error is out of memory.
pub fn first_draft_fault(
    alloc: Global,
    draft: &Draft,
    lookup: &Lookup,
) -> Result<Option<Fault>, AllocError>
    requires lookup { IsLookupOf draft.now lookup.now }
    ensures first { IfOk result (IsFirstOf (draft_faults draft.now)) }
{
    let earliest = of_structures(alloc, None, draft, lookup, draft.structures.as_slice())?;
    let earliest = of_roots(alloc, earliest, draft, lookup, draft.roots.as_slice())?;
    of_caches(alloc, earliest, draft, lookup, draft.caches.as_slice())
}
