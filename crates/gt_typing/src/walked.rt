// The types of what is walked.
ghost use Rattle.std.specs.Prelude.{◌≡◌, IfOk, All, option_map};
ghost use Rattle.gt_markers.specs.Lookups.{IsLookupOf};
ghost use Rattle.gt_markers.specs.Typing.{of_elements, value_type, single_type, array_type, walked_type};
ghost use Rattle.gt_typing.specs.SmallTypes.{HasSmallId, IsSmall, IsSmallType};

use crate::arrays::{array_of, bits_type};
use crate::descs::desc_at;
use crate::pointers::{node, pointer_or_atomic};
use crate::sayings::of_elements;
use gt_drafts::{Amount, BaseType, DeclaredType, Draft};
use gt_items::Stars;
use gt_markers::{Lookup, TypeOptions};
use gt_types::Ty;
use std::alloc::{AllocError, Global};

// A number, or a structure by value.
fn value_type(
    alloc: Global,
    lookup: &Lookup,
    draft: &Draft,
    options: TypeOptions,
    base: &BaseType,
) -> Result<Option<Ty>, AllocError>
    requires lookup { IsLookupOf draft.now lookup.now }
    requires small { HasSmallId base.now }
    ensures made { IfOk result (λ t. t ≡ value_type draft.now options base.now) }
{
    match base {
        BaseType::Number { scalar, .. } => Ok(Some(Ty::Num(*scalar))),
        BaseType::Structure(id) => Ok(Some(Ty::Node {
            id: node(*id),
            desc: desc_at(alloc, lookup, draft, *id, options.desc)?,
        })),
        _ => Ok(None),
    }
}

// What is no array: None where it can be no part of a walked value.
fn single_type(
    alloc: Global,
    lookup: &Lookup,
    draft: &Draft,
    options: TypeOptions,
    ty: &DeclaredType,
) -> Result<Option<Ty>, AllocError>
    requires lookup { IsLookupOf draft.now lookup.now }
    requires small { HasSmallId ty.now.resolved.base }
    ensures made { IfOk result (λ t. t ≡ single_type draft.now options ty.now) }
{
    if ty.is_function {
        return Ok(None);
    }
    match ty.resolved.stars {
        Stars::Zero => value_type(alloc, lookup, draft, options, &ty.resolved.base),
        stars => Ok(pointer_or_atomic(options, &ty.resolved.base, stars)),
    }
}

// An array of what the type is without its bounds: None where that can be no part of a walked value.
fn walked_array(
    alloc: Global,
    lookup: &Lookup,
    draft: &Draft,
    options: TypeOptions,
    ty: &DeclaredType,
    bound: Amount,
    bounds: &[Amount],
) -> Result<Option<Ty>, AllocError>
    requires lookup { IsLookupOf draft.now lookup.now }
    requires small { HasSmallId ty.now.resolved.base }
    requires bounds { IsSmall bound × All IsSmall bounds.now }
    ensures made { IfOk result (λ t. t ≡ option_map (array_type options.length bound bounds.now) (single_type draft.now (of_elements options) ty.now)) }
{
    let length = options.length;
    let elem = single_type(alloc, lookup, draft, of_elements(options.desc), ty)?;
    array_of(alloc, length, bound, bounds, elem)
}

/// The type that options give what has no `skip`; None where it can be no part of a walked value. It fails only if memory runs out.
pub fn walked_type(
    alloc: Global,
    lookup: &Lookup,
    draft: &Draft,
    options: TypeOptions,
    ty: &DeclaredType,
) -> Result<Option<Ty>, AllocError>
    requires lookup { IsLookupOf draft.now lookup.now }
    requires small { IsSmallType ty.now }
    ensures made { IfOk result (λ t. t ≡ walked_type draft.now options ty.now) }
{
    if let Some(count) = ty.bits {
        return Ok(bits_type(&ty.resolved.base, count));
    }
    match ty.bounds.as_slice() {
        [] => single_type(alloc, lookup, draft, options, ty),
        [bound, rest @ ..] => walked_array(alloc, lookup, draft, options, ty, *bound, rest),
    }
}
