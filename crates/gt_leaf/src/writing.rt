// One leaf written where it lies.
ghost use Rattle.std.specs.Prelude.{◌≡◌, ◌≢◌, ◌↔◌, ℕ, ℤ, IsTrue, Option, option_copied};
ghost use Rattle.gt_types.specs.declared.expressions.Expr.{Expr};
ghost use Rattle.gt_types.specs.declared.program.Program.{Program};
ghost use Rattle.gt_types.specs.Shapes.{count_of, is_pointer};
ghost use Rattle.gt_types.specs.Settled.{Settled};
ghost use Rattle.gt_layout.specs.declared.planes.Layouts.{Layouts};
ghost use Rattle.gt_layout.specs.Planes.{IsLaidOut};
ghost use Rattle.gt_layout.specs.Excess.{IsWithin};
ghost use Rattle.gt_space.specs.Range.{Range, IsInside, KeepsAddresses};
ghost use Rattle.gt_tree.specs.Trees.{Tree, Trees};
ghost use Rattle.gt_tree.specs.Scopes.{◌then◌, eval_in};
ghost use Rattle.gt_value.specs.Bytes.{IsElement, IsRoomFor};
ghost use Rattle.gt_value.specs.Places.{Part};
ghost use Rattle.gt_leaf.specs.Tables.{IsTableOf};
ghost use Rattle.gt_leaf.specs.Unread.{Around, IsUnread};
ghost use Rattle.gt_leaf.specs.HeldTypes.{IsOfPart};
ghost use Rattle.gt_leaf.specs.Verdicts.{IsFit, IsMisfit};
ghost use Rattle.gt_leaf.specs.KnownPlaces.{HasLeafAt};
ghost use Rattle.gt_leaf.specs.Writing.{StandsBeside, StaticsStandBeside, is_number_leaf, takes_number, has_word, LeafFits, IsAlone, MayPut, MayPutElement, WritesElement, LeavesLeaf, MisfitsLeaf, LeavesElement, MisfitsElement, MayPutStatics, WritesStatics, LeavesStatics, MisfitsStatics};
ghost use Rattle.gt_leaf.specs.declared.writing.LeafWrite.TheVariants.{Written, NotInPlace, Misfit};
ghost use Rattle.gt_leaf.specs.declared.writing.LeafVerdict.TheVariants as LeafVerdict;
ghost use Rattle.gt_leaf.specs.declared.writing.LeafVerdict.TheVariants.{InPlace};
ghost use Rattle.gt_value.specs.declared.places.Place.{Place};

use crate::reads::Reads;
use crate::types::held_type;
use gt_fit::{has_room, may_name, number_fits};
use gt_layout::Layouts;
use gt_space::Space;
use gt_store::store_leaf;
use gt_types::{Program, Ty};
use gt_value::{BlockNames, LeafContent, Place, leaf_at, leaf_in_statics};

/// What became of the write of one leaf.
#[derive(Clone, Copy, Debug, PartialEq, Eq)]
pub enum LeafWrite {
    /// It is written.
    Written,
    /// The whole value has to be looked at: no leaf is there, an expression reads it, it is a pointer in a union without an active
    /// member, or eight bytes that are never scanned have no room for the number. Nothing has changed.
    NotInPlace,
    /// No value fits with this leaf. Nothing has changed.
    Misfit,
}

/// What is found out about the write of one leaf before it is done.
#[derive(Clone, Copy, Debug, PartialEq, Eq)]
pub enum LeafVerdict {
    /// It may be written where it lies, which is this place.
    InPlace(Place),
    /// The whole value has to be looked at, as in `LeafWrite`.
    NotInPlace,
    /// No value fits with this leaf.
    Misfit,
}

// Whether a number fits a type.
fn takes_number(ty: &Ty, n: i128) -> bool
    ensures { result ≡ takes_number ty.now n }
{
    match ty {
        Ty::Opaque { size, .. } => *size == 8 && has_room(true, 64, n),
        _ => number_fits(ty, n),
    }
}

// Whether values of a type are pointers.
fn is_pointer(ty: &Ty) -> bool
    ensures { result ≡ is_pointer ty.now }
{
    matches!(ty, Ty::Str(_) | Ty::Ptr { .. })
}

// Whether a leaf is a number.
fn is_number(leaf: LeafContent) -> bool
    ensures { result ≡ is_number_leaf leaf }
{
    matches!(leaf, LeafContent::Num(_))
}

// Whether a leaf fits a type, where the length in the type has this value.
fn leaf_fits<N: BlockNames>(names: &N, ty: &Ty, length: Option<i64>, leaf: LeafContent) -> bool
    ensures { (value : Expr → Option ℤ) → length ≡ (count_of ty.now then value) → IsTrue result ↔ LeafFits (N.blocks names.now) value ty.now leaf }
{
    match leaf {
        LeafContent::Num(n) => takes_number(ty, n),
        LeafContent::Null => is_pointer(ty),
        LeafContent::To(address) => may_name(names, ty, length, address),
    }
}

// Whether a leaf is no number without room in eight bytes that are never scanned.
fn has_word(ty: &Ty, leaf: LeafContent) -> bool
    ensures { result ≡ has_word ty.now leaf }
{
    match ty {
        Ty::Opaque { .. } => match leaf {
            LeafContent::Num(n) => has_room(true, 64, n),
            _ => true,
        },
        _ => true,
    }
}

// Whether a leaf can be looked at alone at a place, of a part of this type, which expressions read or not.
fn is_alone(unread: bool, ty: Option<&Ty>, place: Place, leaf: LeafContent) -> bool
    ensures { (program : Program) (around : Around) (p : Part) → IsTrue unread ↔ IsUnread program around p.active p.holder → IsOfPart program p place (option_copied ty.entry) → IsTrue result ↔ IsAlone program around p leaf }
{
    match ty {
        None => false,
        Some(ty) => { (place.active || is_number(leaf)) && unread && has_word(ty, leaf) }
    }
}

// Whether a leaf fits at a place, of a part of this type.
fn fits_at<N: BlockNames>(names: &N, ty: Option<&Ty>, place: Place, leaf: LeafContent) -> bool
    ensures { (program : Program) (p : Part) → IsOfPart program p place (option_copied ty.entry) → IsTrue result ↔ LeafFits (N.blocks names.now) (eval_in program p.scope) p.type leaf }
{
    match ty {
        None => false,
        Some(ty) => leaf_fits(names, ty, place.length, leaf),
    }
}

// Judges a leaf at its place, of a part of this type, which expressions read or not.
fn judge_at<N: BlockNames>(
    unread: bool,
    names: &N,
    ty: Option<&Ty>,
    place: Place,
    leaf: LeafContent,
) -> LeafVerdict
    ensures there { (other : Place) → result ≡ InPlace other → other ≡ place }
    ensures fit { (other : Place) → result ≡ InPlace other → (program : Program) (around : Around) (p : Part) → IsTrue unread ↔ IsUnread program around p.active p.holder → IsOfPart program p place (option_copied ty.entry)
        → IsFit program (N.blocks names.now) around p leaf }
    ensures not_alone { result ≡ LeafVerdict.NotInPlace → (program : Program) (around : Around) (p : Part) → IsTrue unread ↔ IsUnread program around p.active p.holder → IsOfPart program p place (option_copied ty.entry) → ¬ IsAlone program around p leaf }
    ensures misfit { result ≡ LeafVerdict.Misfit → (program : Program) (around : Around) (p : Part) → IsTrue unread ↔ IsUnread program around p.active p.holder → IsOfPart program p place (option_copied ty.entry) → IsMisfit program (N.blocks names.now) around p leaf }
{
    if !is_alone(unread, ty, place, leaf) {
        return LeafVerdict::NotInPlace;
    }
    if !fits_at(names, ty, place, leaf) {
        return LeafVerdict::Misfit;
    }
    LeafVerdict::InPlace(place)
}

/// Judges the write of the leaf at a path of an element of a block, with room for so many elements at its end, before it is done:
/// `write_leaf` is this and `store_leaf`. It takes no memory, and its time grows with the path alone; where a string is written, its
/// characters are looked through as well.
pub fn judge_leaf<N: BlockNames>(
    program: &Program,
    layouts: &Layouts,
    reads: &Reads,
    names: &N,
    space: &Space,
    ty: &Ty,
    addr: u64,
    capacity: u32,
    path: &[u32],
    leaf: LeafContent,
) -> LeafVerdict
    requires settled { Settled program.now }
    requires laid { IsLaidOut program.now layouts.now }
    requires within { IsWithin program.now layouts.now }
    requires table { IsTableOf program.now reads.now }
    requires element { IsElement program.now ty.now }
    requires inside { IsRoomFor program.now layouts.now capacity ty.now space.now addr }
    requires stands { (statics : Trees) × (value : Tree) × StandsBeside program.now layouts.now (N.blocks names.now) statics capacity ty.now space.now addr value }
    ensures in_place { (place : Place) → result ≡ InPlace place → MayPutElement program.now layouts.now (N.blocks names.now) capacity ty.now addr path.now leaf space.now place }
    ensures not_in_place { result ≡ LeafVerdict.NotInPlace → LeavesElement program.now layouts.now (N.blocks names.now) capacity ty.now addr path.now leaf space.now }
    ensures misfit { result ≡ LeafVerdict.Misfit → MisfitsElement program.now layouts.now (N.blocks names.now) capacity ty.now addr path.now leaf space.now }
{
    match leaf_at(program, layouts, space, ty, addr, capacity, path) {
        None => LeafVerdict::NotInPlace,
        Some(place) => judge_at(
            reads.is_unread(program, Some(ty), path, place),
            names,
            held_type(program, Some(ty), place.holder),
            place,
            leaf,
        ),
    }
}

/// The same for the static record, of which the first place of a path is that of a root.
pub fn judge_static_leaf<N: BlockNames>(
    program: &Program,
    layouts: &Layouts,
    reads: &Reads,
    names: &N,
    space: &Space,
    path: &[u32],
    leaf: LeafContent,
) -> LeafVerdict
    requires settled { Settled program.now }
    requires laid { IsLaidOut program.now layouts.now }
    requires within { IsWithin program.now layouts.now }
    requires table { IsTableOf program.now reads.now }
    requires inside { IsInside space.now space.now.start layouts.now.statics.size }
    requires stands { (values : Trees) × StaticsStandBeside program.now layouts.now (N.blocks names.now) space.now values }
    ensures in_place { (place : Place) → result ≡ InPlace place → MayPutStatics program.now layouts.now (N.blocks names.now) path.now leaf space.now place }
    ensures not_in_place { result ≡ LeafVerdict.NotInPlace → LeavesStatics program.now layouts.now (N.blocks names.now) path.now leaf space.now }
    ensures misfit { result ≡ LeafVerdict.Misfit → MisfitsStatics program.now layouts.now (N.blocks names.now) path.now leaf space.now }
{
    match leaf_in_statics(program, layouts, space, path) {
        None => LeafVerdict::NotInPlace,
        Some(place) => judge_at(
            reads.is_unread_static(program, path, place),
            names,
            held_type(program, None, place.holder),
            place,
            leaf,
        ),
    }
}

/// Writes the leaf at a path in the bytes of an element of a block with room for so many elements at its end, where no expression
/// reads it and it fits: what the element becomes is then what the write of this leaf makes, and no other bit changes. A path names
/// places of fields, of the active member and of elements, from the outside in; eight bytes that are never scanned take a number. It
/// takes no memory, and its time grows as that of [`judge_leaf`] does.
pub fn write_leaf<N: BlockNames>(
    program: &Program,
    layouts: &Layouts,
    reads: &Reads,
    names: &N,
    space: &mut Space,
    ty: &Ty,
    addr: u64,
    capacity: u32,
    path: &[u32],
    leaf: LeafContent,
) -> LeafWrite
    requires settled { Settled program.now }
    requires laid { IsLaidOut program.now layouts.now }
    requires within { IsWithin program.now layouts.now }
    requires table { IsTableOf program.now reads.now }
    requires element { IsElement program.now ty.now }
    requires inside { IsRoomFor program.now layouts.now capacity ty.now space.old addr }
    requires stands { (statics : Trees) × (value : Tree) × StandsBeside program.now layouts.now (N.blocks names.now) statics capacity ty.now space.old addr value }
    ensures addresses { KeepsAddresses space.old space.new }
    ensures written { result ≡ Written → WritesElement program.now layouts.now (N.blocks names.now) capacity ty.now addr path.now leaf space.old space.new }
    ensures elsewhere { result ≢ Written → space.new ≡ space.old }
    ensures in_place { result ≡ NotInPlace → LeavesElement program.now layouts.now (N.blocks names.now) capacity ty.now addr path.now leaf space.old }
    ensures misfit { result ≡ Misfit → MisfitsElement program.now layouts.now (N.blocks names.now) capacity ty.now addr path.now leaf space.old }
{
    match judge_leaf(
        program, layouts, reads, names, space, ty, addr, capacity, path, leaf,
    ) {
        LeafVerdict::InPlace(place) => {
            store_leaf(space, place, leaf);
            LeafWrite::Written
        }
        LeafVerdict::NotInPlace => LeafWrite::NotInPlace,
        LeafVerdict::Misfit => LeafWrite::Misfit,
    }
}

/// The same for the static record, of which the first place of a path is that of a root.
pub fn write_static_leaf<N: BlockNames>(
    program: &Program,
    layouts: &Layouts,
    reads: &Reads,
    names: &N,
    space: &mut Space,
    path: &[u32],
    leaf: LeafContent,
) -> LeafWrite
    requires settled { Settled program.now }
    requires laid { IsLaidOut program.now layouts.now }
    requires within { IsWithin program.now layouts.now }
    requires table { IsTableOf program.now reads.now }
    requires inside { IsInside space.old space.old.start layouts.now.statics.size }
    requires stands { (values : Trees) × StaticsStandBeside program.now layouts.now (N.blocks names.now) space.old values }
    ensures addresses { KeepsAddresses space.old space.new }
    ensures written { result ≡ Written → WritesStatics program.now layouts.now (N.blocks names.now) path.now leaf space.old space.new }
    ensures elsewhere { result ≢ Written → space.new ≡ space.old }
    ensures in_place { result ≡ NotInPlace → LeavesStatics program.now layouts.now (N.blocks names.now) path.now leaf space.old }
    ensures misfit { result ≡ Misfit → MisfitsStatics program.now layouts.now (N.blocks names.now) path.now leaf space.old }
{
    match judge_static_leaf(program, layouts, reads, names, space, path, leaf) {
        LeafVerdict::InPlace(place) => {
            store_leaf(space, place, leaf);
            LeafWrite::Written
        }
        LeafVerdict::NotInPlace => LeafWrite::NotInPlace,
        LeafVerdict::Misfit => LeafWrite::Misfit,
    }
}

/// Judges the write of the leaf at a path of an element of a block before it is done, where the place at which the leaf lies is known:
/// what it promises is what [`judge_leaf`] does, and the path is not walked again. It takes no memory.
pub fn judge_leaf_at<N: BlockNames>(
    program: &Program,
    reads: &Reads,
    names: &N,
    ty: &Ty,
    path: &[u32],
    place: Place,
    leaf: LeafContent,
) -> LeafVerdict
    requires settled { Settled program.now }
    requires table { IsTableOf program.now reads.now }
    ensures in_place { (other : Place) → result ≡ InPlace other → (layouts : Layouts) (statics : Trees) (capacity : ℕ) (range : Range) (addr : ℕ) (value : Tree) → HasLeafAt program.now layouts (N.blocks names.now) statics capacity ty.now range addr value path.now place
        → MayPut program.now layouts (N.blocks names.now) statics capacity ty.now addr value path.now leaf range other }
    ensures not_in_place { result ≡ LeafVerdict.NotInPlace → (layouts : Layouts) (statics : Trees) (capacity : ℕ) (range : Range) (addr : ℕ) (value : Tree) → HasLeafAt program.now layouts (N.blocks names.now) statics capacity ty.now range addr value path.now place
        → LeavesLeaf program.now layouts statics ty.now value path.now leaf }
    ensures misfit { result ≡ LeafVerdict.Misfit → (layouts : Layouts) (statics : Trees) (capacity : ℕ) (range : Range) (addr : ℕ) (value : Tree) → HasLeafAt program.now layouts (N.blocks names.now) statics capacity ty.now range addr value path.now place
        → MisfitsLeaf program.now (N.blocks names.now) statics capacity ty.now value path.now leaf }
{
    judge_at(
        reads.is_unread(program, Some(ty), path, place),
        names,
        held_type(program, Some(ty), place.holder),
        place,
        leaf,
    )
}
