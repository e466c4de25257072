// What a type takes, from the planes of the structures.
ghost use Rattle.std.specs.Prelude.{◌≡◌, ◌*◌, min};
ghost use Rattle.gt_types.specs.Contains.{held_by};
ghost use Rattle.gt_types.specs.declared.limits.TheConstants.{TOO_LARGE};
ghost use Rattle.gt_layout.specs.Storages.{bytes_of, extent_at, extent_of, storage_of, held_extent, held_storage};

use crate::planes::{Extent, Plane};
use crate::storages::Storage;
use gt_types::{Scalar, TOO_LARGE, Ty, TypeId, Width};

fn bytes_of(number: Scalar) -> u32
    ensures { result ≡ bytes_of number }
{
    match number {
        Scalar::Bool => 1,
        Scalar::Int { width, .. } => match width {
            Width::W1 => 1,
            Width::W2 => 2,
            Width::W4 => 4,
            Width::W8 => 8,
        },
    }
}

fn aligned_to_itself(size: u32) -> Extent
    ensures size { result.size ≡ size }
    ensures align { result.align ≡ size }
{
    Extent { size, align: size }
}

// Size and alignment of the structure at a place, held within the limit.
fn extent_at(known: &[Plane], place: usize) -> Extent
    ensures { result ≡ held_extent (extent_at known.now place) }
{
    match known.get(place) {
        Some(plane) => Extent {
            size: plane.size.min(TOO_LARGE),
            align: plane.align,
        },
        None => Extent { size: 0, align: 1 },
    }
}

// So many elements, held within the limit.
fn repeat(n: u32, elem: Extent) -> Extent
    ensures size { result.size ≡ min (n * elem.size) TOO_LARGE }
    ensures align { result.align ≡ elem.align }
{
    let size = n as u64 * elem.size as u64;
    Extent {
        size: size.min(TOO_LARGE as u64) as u32,
        align: elem.align,
    }
}

/// The size and the alignment of a type, where `known` has the planes of the structures that it holds by value, each at the
/// place of its structure. A size above the limit is held as one more than it. It takes no memory.
pub fn extent(ty: &Ty, known: &[Plane]) -> Extent
    ensures { result ≡ held_extent (extent_of known.now ty.now) }
{
    match ty {
        Ty::Num(number) => aligned_to_itself(bytes_of(*number)),
        Ty::Bits { unit, .. } => aligned_to_itself(bytes_of(*unit)),
        Ty::Opaque { size, align } => Extent {
            size: (*size).min(TOO_LARGE),
            align: *align,
        },
        Ty::Str(_) | Ty::Ptr { .. } => aligned_to_itself(8),
        Ty::Node { id, .. } => extent_at(known, id.0 as usize),
        Ty::Arr { n, elem } => repeat(*n, extent(elem.get(), known)),
        Ty::Tail { elem, .. } => Extent {
            size: 0,
            align: extent(elem.get(), known).align,
        },
    }
}

/// What a field of this type takes of its structure, as [`extent`] has it.
pub fn storage(ty: &Ty, known: &[Plane]) -> Storage
    ensures { result ≡ held_storage (storage_of known.now ty.now) }
{
    match ty {
        Ty::Bits { unit, count } => Storage::Bits {
            unit: bytes_of(*unit),
            count: *count,
        },
        _ => Storage::Bytes(extent(ty, known)),
    }
}

/// The structure that a type holds by value: itself, or as the elements of an array.
pub fn held_by(ty: &Ty) -> Option<TypeId>
    ensures { result ≡ held_by ty.now }
{
    match ty {
        Ty::Node { id, .. } => Some(*id),
        Ty::Arr { elem, .. } | Ty::Tail { elem, .. } => held_by(elem.get()),
        _ => None,
    }
}
