// Where the leaves of a value lie.
ghost use Rattle.std.specs.Prelude.{◌≡◌, ◌≤◌, ◌-◌, MatchOption};
ghost use Rattle.gt_types.specs.Settled.{Settled};
ghost use Rattle.gt_layout.specs.Planes.{IsLaidOut};
ghost use Rattle.gt_layout.specs.Excess.{IsWithin};
ghost use Rattle.gt_space.specs.Range.{IsInside};
ghost use Rattle.gt_tree.specs.Trees.{Tree, Trees, Rec};
ghost use Rattle.gt_tree.specs.Scopes.{outside};
ghost use Rattle.gt_tree.specs.Reshapes.{LeadsToLeaf};
ghost use Rattle.gt_value.specs.Bytes.{IsRoomFor, StandsFor, StandForStatics};
ghost use Rattle.gt_value.specs.declared.places.Holder.TheVariants.{Element};
ghost use Rattle.gt_value.specs.Places.{IsPlaceOf, IsStaticPlaceOf, HasBits, content_at, leaf_kind};
ghost use Rattle.gt_value.specs.Finding.{length_read};

use crate::bits::{bits_at, number_at};
use crate::cursors::Cursor;
use crate::readers::{worth, worth_of};
use crate::sources::{Around, Source, shape_of};
use gt_layout::Layouts;
use gt_space::Space;
use gt_types::{Program, PtrKind, Ty, TypeId};

/// What a leaf holds: a number in so many bits, with a sign or without, or a pointer.
#[derive(Clone, Copy, Debug, PartialEq, Eq)]
pub enum LeafKind {
    Number { signed: bool, width: u32 },
    Pointer,
}

/// What a leaf is: a number, null, or a pointer to the block at this address.
#[derive(Clone, Copy, Debug, PartialEq, Eq)]
pub enum LeafContent {
    Num(i128),
    Null,
    To(u64),
}

/// What a leaf lies in, the innermost: an element of a block, a root, or a field of a structure.
#[derive(Clone, Copy, Debug, PartialEq, Eq)]
pub enum Holder {
    Element,
    Root(u32),
    Field { structure: TypeId, place: u32 },
}

/// Where a leaf lies: the address of its first byte, its first bit in that byte, counted from the lowest, what it holds, and what it
/// lies in. It is not active where a union around it has no active member: a pointer there is null. `length` is the value of the
/// length in a pointer's type; None where the type has none, or the length has no value.
#[derive(Clone, Copy, Debug, PartialEq, Eq)]
pub struct Place {
    pub addr: u64,
    pub bit: u8,
    pub kind: LeafKind,
    pub active: bool,
    pub holder: Holder,
    pub length: Option<i64>,
}

// What a leaf of a type holds; None where a value of it is no leaf.
pub fn leaf_kind(ty: &Ty) -> Option<LeafKind>
    ensures { result ≡ leaf_kind ty.now }
{
    match ty {
        Ty::Opaque { size, .. } if *size == 8 => Some(LeafKind::Number {
            signed: true,
            width: 64,
        }),
        Ty::Opaque { .. } => None,
        Ty::Str(_) | Ty::Ptr { .. } => Some(LeafKind::Pointer),
        _ => {
            let shape = shape_of(ty)?;
            Some(LeafKind::Number {
                signed: shape.signed,
                width: shape.width,
            })
        }
    }
}

// The value of the length in a type, where it has one.
pub fn read_count(source: &Source<'_>, around: Around, ty: &Ty) -> Option<i64>
    requires laid { IsLaidOut source.now.program.now source.now.layouts.now }
    ensures { result ≡ length_read source.now around ty.now }
{
    match ty {
        Ty::Str(count) => worth_of(count, source, around),
        Ty::Ptr {
            kind: PtrKind::Length(count),
            ..
        } => worth(count, source, around),
        Ty::Tail { len, .. } => worth(len, source, around),
        _ => None,
    }
}

/// Where the leaf lies to which a path leads in the value that stands at an address, of an element of a block with room for so many
/// elements at its end. A path names places of fields, of the active member and of elements, from the outside in. None where it
/// leads to no leaf, or to bytes that are never scanned and not eight.
pub fn leaf_at(
    program: &Program,
    layouts: &Layouts,
    space: &Space,
    ty: &Ty,
    addr: u64,
    capacity: u32,
    path: &[u32],
) -> Option<Place>
    requires settled { Settled program.now }
    requires laid { IsLaidOut program.now layouts.now }
    requires within { IsWithin program.now layouts.now }
    requires inside { IsRoomFor program.now layouts.now capacity ty.now space.now addr }
    requires stands { (value : Tree) × StandsFor program.now layouts.now capacity ty.now space.now addr value }
    ensures leaf { MatchOption result ((value : Tree) → StandsFor program.now layouts.now capacity ty.now space.now addr value → ¬ LeadsToLeaf value path.now) (λ place. (statics : Trees) (value : Tree) → StandsFor program.now layouts.now capacity ty.now space.now addr value → IsPlaceOf program.now layouts.now.structures (outside statics) Element ty.now space.now addr value path.now place) }
{
    let start = Cursor::at_element(program, layouts, space, ty, addr, capacity);
    let there = start.follow(path)?;
    there.leaf()
}

/// The same in the static record, of which the first place of a path is that of a root.
pub fn leaf_in_statics(
    program: &Program,
    layouts: &Layouts,
    space: &Space,
    path: &[u32],
) -> Option<Place>
    requires settled { Settled program.now }
    requires laid { IsLaidOut program.now layouts.now }
    requires within { IsWithin program.now layouts.now }
    requires inside { IsInside space.now space.now.start layouts.now.statics.size }
    requires stands { (values : Trees) × StandForStatics program.now layouts.now space.now values }
    ensures leaf { MatchOption result ((values : Trees) → StandForStatics program.now layouts.now space.now values → ¬ LeadsToLeaf (Rec values) path.now) (λ place. (values : Trees) → StandForStatics program.now layouts.now space.now values → IsStaticPlaceOf program.now layouts.now space.now values path.now place) }
{
    let [root, rest @ ..] = path else {
        return None;
    };
    let start = Cursor::at_root(program, layouts, space, *root)?;
    let there = start.follow(rest)?;
    there.leaf()
}

/// What the leaf at a place is.
pub fn read_leaf(space: &Space, place: Place) -> LeafContent
    requires from_start { space.now.start ≤ place.addr }
    requires bits { HasBits space.now (place.addr - space.now.start) place.bit place.kind }
    ensures content { result ≡ content_at space.now place }
{
    let from = place.addr - space.start();
    match place.kind {
        LeafKind::Number { signed, width } => {
            LeafContent::Num(number_at(space, from, place.bit as u64, signed, width))
        }
        LeafKind::Pointer => {
            if !place.active {
                return LeafContent::Null;
            }
            let address = bits_at(space, from, place.bit as u64, 64);
            if address == 0 {
                LeafContent::Null
            } else {
                LeafContent::To(address)
            }
        }
    }
}
