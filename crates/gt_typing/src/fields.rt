// The type of a field or a root.
ghost use Rattle.std.specs.Prelude.{◌≡◌, IfOk};
ghost use Rattle.gt_markers.specs.Lookups.{IsLookupOf};
ghost use Rattle.gt_markers.specs.NameScopes.{names_of};
ghost use Rattle.gt_markers.specs.Typing.{declared_type, type_by};
ghost use Rattle.gt_typing.specs.SmallTypes.{IsSmallType};

use crate::sayings::{expression_named, type_options};
use crate::skipped::{faulty_type, skipped_type};
use crate::walked::walked_type;
use gt_drafts::{DeclaredType, Draft};
use gt_items::RawOption;
use gt_layout::Plane;
use gt_markers::{Lookup, Scope, has_skip};
use gt_types::Ty;
use std::alloc::{AllocError, Global};

/// The type that options give; None where neither `skip` stands there nor the type can be walked. `planes` are those of the structures
/// of the draft, by place. It fails only if memory runs out.
pub fn type_by(
    alloc: Global,
    draft: &Draft,
    lookup: &Lookup,
    scope: Scope,
    planes: &[Plane],
    options: &[RawOption],
    ty: &DeclaredType,
) -> Result<Option<Ty>, AllocError>
    requires lookup { IsLookupOf draft.now lookup.now }
    requires small { IsSmallType ty.now }
    ensures made { IfOk result (λ t. t ≡ type_by (names_of scope draft.now) draft.now planes.now options.now ty.now) }
{
    if has_skip(options) {
        return Ok(Some(skipped_type(planes, ty)));
    }
    let options = type_options(alloc, lookup, scope, options)?;
    walked_type(alloc, lookup, draft, options, ty)
}

/// The type that is declared: the one that options give, or what counts for it where it is a fault. `planes` are those of the structures
/// of the draft, by place. It fails only if memory runs out.
pub fn field_type(
    alloc: Global,
    draft: &Draft,
    lookup: &Lookup,
    scope: Scope,
    planes: &[Plane],
    options: &[RawOption],
    ty: &DeclaredType,
) -> Result<Ty, AllocError>
    requires lookup { IsLookupOf draft.now lookup.now }
    requires small { IsSmallType ty.now }
    ensures made { IfOk result (λ t. t ≡ declared_type (names_of scope draft.now) draft.now planes.now options.now ty.now) }
{
    match type_by(alloc, draft, lookup, scope, planes, options, ty)? {
        Some(made) => Ok(made),
        None => {
            let length = expression_named(alloc, lookup, scope, options, "length")?;
            faulty_type(alloc, planes, ty, length)
        }
    }
}
