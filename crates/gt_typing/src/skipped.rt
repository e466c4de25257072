// The types of what is passed over with `skip`.
ghost use Rattle.std.specs.Prelude.{◌≡◌, ◌*◌, min, All, IfOk};
ghost use Rattle.gt_types.specs.declared.limits.TheConstants.{TOO_LARGE};
ghost use Rattle.gt_layout.specs.Storages.{held_extent, extent_at};
ghost use Rattle.gt_markers.specs.Typing.{base_extent, single_extent, elements, faulty_by, opaque_element, opaque_type, or_opaque, skipped_single, skipped_type};
ghost use Rattle.gt_typing.specs.SmallTypes.{IsSmall, IsSmallType};

use crate::arrays::{array_type, bits_type, number_of};
use gt_drafts::{Amount, BaseType, DeclaredType};
use gt_items::Stars;
use gt_layout::{Extent, Plane, extent};
use gt_types::{Expr, TOO_LARGE, Ty};
use std::alloc::{AllocError, Global};

// Size and alignment of the structure at a place, held within the limit.
fn structure_extent(planes: &[Plane], id: usize) -> Extent
    ensures { result ≡ held_extent (extent_at planes.now id) }
{
    match planes.get(id) {
        Some(plane) => Extent {
            size: plane.size.min(TOO_LARGE),
            align: plane.align,
        },
        None => Extent { size: 0, align: 1 },
    }
}

// Size and alignment of a base, held within the limit.
fn base_extent(planes: &[Plane], base: &BaseType) -> Extent
    ensures { result ≡ held_extent (base_extent planes.now base.now) }
{
    match base {
        BaseType::Number { scalar, .. } => extent(&Ty::Num(*scalar), planes),
        BaseType::Float => Extent { size: 4, align: 4 },
        BaseType::Double => Extent { size: 8, align: 8 },
        BaseType::Structure(id) => structure_extent(planes, *id),
        _ => Extent { size: 0, align: 1 },
    }
}

// Size and alignment of what is no array, held within the limit.
fn single_extent(planes: &[Plane], ty: &DeclaredType) -> Extent
    ensures { result ≡ held_extent (single_extent planes.now ty.now) }
{
    match ty.resolved.stars {
        Stars::Zero if !ty.is_function => base_extent(planes, &ty.resolved.base),
        _ => Extent { size: 8, align: 8 },
    }
}

// The bytes of all elements of an array of arrays, of which one takes so many, held within the limit.
fn size_of_all(bounds: &[Amount], size: u32) -> u32
    requires small { All IsSmall bounds.now }
    ensures { result ≡ min (elements bounds.now * size) TOO_LARGE }
{
    match bounds {
        [] => size.min(TOO_LARGE),
        [bound, rest @ ..] => {
            let inner = size_of_all(rest, size);
            let all = number_of(*bound) as u64 * inner as u64;
            all.min(TOO_LARGE as u64) as u32
        }
    }
}

// Bytes that are never scanned, as many as all elements take, held within the limit.
fn opaque_type(planes: &[Plane], ty: &DeclaredType) -> Ty
    requires small { IsSmallType ty.now }
    ensures { result ≡ opaque_type planes.now ty.now }
{
    let single = single_extent(planes, ty);
    Ty::Opaque {
        size: size_of_all(ty.bounds.as_slice(), single.size),
        align: single.align,
    }
}

// A type, or bytes that are never scanned.
fn or_opaque(planes: &[Plane], ty: &DeclaredType, made: Option<Ty>) -> Ty
    requires small { IsSmallType ty.now }
    ensures { result ≡ or_opaque planes.now ty.now made }
{
    match made {
        Some(made) => made,
        None => opaque_type(planes, ty),
    }
}

// One element of an array, as bytes that are never scanned.
fn opaque_element(planes: &[Plane], ty: &DeclaredType) -> Ty
    ensures { result ≡ opaque_element planes.now ty.now }
{
    let single = single_extent(planes, ty);
    Ty::Opaque {
        size: single.size.min(TOO_LARGE),
        align: single.align,
    }
}

/// What a type that is a fault counts as: bytes that are never scanned. An array with `length`, which says how many elements it has, is one
/// also then, and its elements are such bytes. It fails only if memory runs out.
pub fn faulty_type(
    alloc: Global,
    planes: &[Plane],
    ty: &DeclaredType,
    length: Option<Expr>,
) -> Result<Ty, AllocError>
    requires small { IsSmallType ty.now }
    ensures made { IfOk result (λ t. t ≡ faulty_by planes.now ty.now length ty.now.bits ty.now.bounds) }
{
    if length.is_none() || ty.bits.is_some() {
        return Ok(opaque_type(planes, ty));
    }
    match ty.bounds.as_slice() {
        [] => Ok(opaque_type(planes, ty)),
        [bound, bounds @ ..] => {
            array_type(alloc, length, *bound, bounds, opaque_element(planes, ty))
        }
    }
}

// What is no array and no bit-field: a number where it is one, and else bytes that are never scanned.
fn skipped_single(planes: &[Plane], ty: &DeclaredType) -> Ty
    requires small { IsSmallType ty.now }
    ensures { result ≡ skipped_single planes.now ty.now ty.now.resolved.base }
{
    match (&ty.resolved.base, ty.resolved.stars) {
        (BaseType::Number { scalar, .. }, Stars::Zero) if !ty.is_function => Ty::Num(*scalar),
        _ => opaque_type(planes, ty),
    }
}

/// The type of what has `skip`: a number or a bit-field where it is one, and else bytes that are never scanned.
pub fn skipped_type(planes: &[Plane], ty: &DeclaredType) -> Ty
    requires small { IsSmallType ty.now }
    ensures { result ≡ skipped_type planes.now ty.now }
{
    if let Some(count) = ty.bits {
        return or_opaque(planes, ty, bits_type(&ty.resolved.base, count));
    }
    match ty.bounds.as_slice() {
        [] => skipped_single(planes, ty),
        _ => opaque_type(planes, ty),
    }
}
