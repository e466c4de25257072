// The faults of fields, roots and caches by their options and types.
ghost use Rattle.std.specs.Prelude.{◌≡◌, ◌&&◌, ◌||◌, codes, not, is_none, IfOk};
ghost use Rattle.gt_drafts.specs.declared.draft.Draft.{Draft};
ghost use Rattle.gt_drafts.specs.Options.{has_skip};
ghost use Rattle.gt_markers.specs.Expressions.{Names};
ghost use Rattle.gt_drafts.specs.FirstFaults.{first_from};
ghost use Rattle.gt_markers.specs.Lookups.{IsLookupOf};
ghost use Rattle.gt_markers.specs.MarkerFaults.{cache_faults, is_unmarked, root_faults};
ghost use Rattle.gt_markers.specs.Typing.{says, walked_type};

use crate::WRONG_PLACE;
use crate::lookups::Lookup;
use crate::marker_faults::{Marker, of_marker};
use crate::options::{has_option, has_skip};
use crate::sites::Site;
use crate::walking::is_walked;
use gt_drafts::{DeclaredType, Draft, DraftCache, DraftRoot, with_fault};
use gt_items::RawOption;
use gt_types::Fault;
use std::alloc::{AllocError, Global};

/// Whether a type cannot be walked, and `skip` does not stand there.
pub fn is_untyped(options: &[RawOption], ty: &DeclaredType) -> bool
    ensures untyped { (names : Names) (draft : Draft) → result ≡ (not (has_skip options.now) && is_none (walked_type draft (says names options.now) ty.now)) }
{
    if has_skip(options) {
        return false;
    }
    !is_walked(options, ty)
}

/// The earliest fault with those of a cache. Its only error is out of memory.
pub fn of_cache(
    alloc: Global,
    earliest: Option<Fault>,
    draft: &Draft,
    lookup: &Lookup,
    cache: &DraftCache,
) -> Result<Option<Fault>, AllocError>
    requires lookup { IsLookupOf draft.now lookup.now }
    ensures earliest { IfOk result (λ r. r ≡ first_from earliest (cache_faults draft.now cache.now)) }
{
    let marker = Marker {
        site: Site::Cache,
        file: cache.file,
        options: cache.options.as_slice(),
    };
    of_marker(alloc, earliest, draft, lookup, marker)
}

/// The earliest fault with those of a root. Its only error is out of memory.
pub fn of_root(
    alloc: Global,
    earliest: Option<Fault>,
    draft: &Draft,
    lookup: &Lookup,
    root: &DraftRoot,
) -> Result<Option<Fault>, AllocError>
    requires lookup { IsLookupOf draft.now lookup.now }
    ensures earliest { IfOk result (λ r. r ≡ first_from earliest (root_faults draft.now root.now)) }
{
    let options = root.options.as_slice();
    let marker = Marker {
        site: Site::Root { ty: &root.ty },
        file: root.file,
        options,
    };
    let earliest = of_marker(alloc, earliest, draft, lookup, marker)?;
    let untyped = is_untyped(options, &root.ty);
    Ok(with_fault(earliest, untyped, WRONG_PLACE, root.file, root.name.at))
}
