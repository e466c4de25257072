// Roots.
ghost use Rattle.std.specs.Prelude.{◌≡◌, IfOk};
ghost use Rattle.gt_markers.specs.Lookups.{IsLookupOf};
ghost use Rattle.gt_typing.specs.SmallTypes.{IsSmallType};
ghost use Rattle.gt_declare.specs.Programs.{root_of};

use gt_drafts::{Draft, DraftRoot};
use gt_layout::Plane;
use gt_markers::{Lookup, Scope, has_option};
use gt_types::{Copied, Root};
use gt_typing::field_type;
use std::alloc::{AllocError, Global};

/// A root, as the program has it. `planes` are those of the structures of the draft, by place. It fails only if memory runs out.
pub fn root_of(
    alloc: Global,
    draft: &Draft,
    lookup: &Lookup,
    planes: &[Plane],
    root: &DraftRoot,
) -> Result<Root, AllocError>
    requires lookup { IsLookupOf draft.now lookup.now }
    requires small { IsSmallType root.now.ty }
    ensures made { IfOk result (λ made. made ≡ root_of draft.now planes.now root.now) }
{
    let options = root.options.as_slice();
    Ok(Root {
        name: root.name.word.copy(alloc)?,
        ty: field_type(
            alloc,
            draft,
            lookup,
            Scope::Roots,
            planes,
            options,
            &root.ty,
        )?,
        deletable: has_option(options, "deletable"),
    })
}
