// The `desc` of a union.
ghost use Rattle.std.specs.Prelude.{◌≡◌, IfOk};
ghost use Rattle.gt_drafts.specs.declared.draft.Draft.{Draft};
ghost use Rattle.gt_markers.specs.Lookups.{IsLookupOf};
ghost use Rattle.gt_markers.specs.Typing.{own_desc, used_desc, desc_at};

use crate::sayings::expression_named;
use gt_drafts::{Draft, DraftStructure};
use gt_markers::{Lookup, Scope};
use gt_types::Expr;
use std::alloc::{AllocError, Global};

/// The `desc` of a union's own marker; a struct has none. It fails only if memory runs out.
pub fn own_desc(
    alloc: Global,
    lookup: &Lookup,
    structure: &DraftStructure,
) -> Result<Option<Expr>, AllocError>
    ensures desc { IfOk result (λ e. (draft : Draft) → IsLookupOf draft lookup.now → e ≡ own_desc draft structure.now) }
{
    if structure.is_union {
        let options = structure.options.as_slice();
        expression_named(alloc, lookup, Scope::Fields, options, "desc")
    } else {
        Ok(None)
    }
}

// The `desc` with which a structure by value is read: that of its field or root, or else its own.
fn used_desc(
    alloc: Global,
    lookup: &Lookup,
    structure: &DraftStructure,
    given: Option<Expr>,
) -> Result<Option<Expr>, AllocError>
    ensures desc { IfOk result (λ e. (draft : Draft) → IsLookupOf draft lookup.now → e ≡ used_desc draft structure.now given) }
{
    if !structure.is_union {
        return Ok(None);
    }
    match given {
        Some(desc) => Ok(Some(desc)),
        None => own_desc(alloc, lookup, structure),
    }
}

/// The `desc` with which the structure at a place is read, where its field or root has this one. It fails only if memory runs out.
pub fn desc_at(
    alloc: Global,
    lookup: &Lookup,
    draft: &Draft,
    id: usize,
    given: Option<Expr>,
) -> Result<Option<Expr>, AllocError>
    requires lookup { IsLookupOf draft.now lookup.now }
    ensures desc { IfOk result (λ e. e ≡ desc_at draft.now id given) }
{
    match draft.structures.get(id) {
        None => Ok(None),
        Some(structure) => used_desc(alloc, lookup, structure, given),
    }
}
