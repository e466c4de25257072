// Leaves as values, and where eight bytes that are never scanned lie.
ghost use Rattle.std.specs.Prelude.{◌≡◌, ◌<◌, ◌^◌, List, IsTrue, IfOk, true, option_copied};
ghost use Rattle.gt_types.specs.declared.types.Ty.{Ty};
ghost use Rattle.gt_graph.specs.Objects.{Object};
ghost use Rattle.gt_tree.specs.Numbers.{has_room, two's_complement};
ghost use Rattle.gt_value.specs.Values.{tree_of};
ghost use Rattle.gt_value.specs.declared.places.Place.{Place};
ghost use Rattle.gt_leaf.specs.declared.writing.LeafVerdict.TheVariants.{InPlace, Misfit};
ghost use Rattle.gt_leaf.specs.Writing.{is_number_leaf};
ghost use Rattle.gt_next.specs.Spots.{type_of_part};
ghost use Rattle.gt_next.specs.Leaves.{is_word_type};
ghost use Rattle.gt_writes.specs.SpotWrites.{LeafSuits, IsTreeOf};
ghost use Rattle.gt_writes.specs.Typing.{type_of_field, type_of_root, type_along, type_in_statics, is_some_word};
ghost use Rattle.gt_writes.specs.Rewriting.{IsWordOf, HasWord, IsInActive};

use gt_leaf::LeafVerdict;
use gt_types::{Bytes, Program, Ty, TypeId};
use gt_value::{LeafContent, Value};
use std::alloc::{AllocError, Global};

// ---- types

// Whether values of a type are eight bytes that are never scanned.
fn is_word(ty: &Ty) -> bool
    ensures { result ≡ is_word_type ty.now }
{
    match ty {
        Ty::Opaque { size, .. } => *size == 8,
        _ => false,
    }
}

// The type of the field at a place of a structure.
fn field_type<'a>(program: &'a Program, id: TypeId, place: u32) -> Option<&'a Ty>
    ensures { option_copied result ≡ type_of_field program.now id place }
{
    let structure = program.structures.get(id.0 as usize)?;
    let field = structure.fields.get(place as usize)?;
    Some(&field.ty)
}

// The type of the part at a place.
fn part_type<'a>(program: &'a Program, ty: &'a Ty, place: u32) -> Option<&'a Ty>
    ensures { option_copied result ≡ type_of_part program.now ty.now place }
{
    match ty {
        Ty::Node { id, .. } => field_type(program, *id, place),
        Ty::Arr { elem, .. } | Ty::Tail { elem, .. } => Some(elem.get()),
        _ => None,
    }
}

/// Whether a path leads from values of a type to eight bytes that are never scanned.
pub fn is_word_at(program: &Program, ty: Option<&Ty>, path: &[u32]) -> bool
    ensures { result ≡ is_some_word (type_along program.now (option_copied ty.entry) path.now) }
{
    let Some(ty) = ty else {
        return false;
    };
    let [place, rest @ ..] = path else {
        return is_word(ty);
    };
    is_word_at(program, part_type(program, ty, *place), rest)
}

// The type of the root at a place.
fn root_type<'a>(program: &'a Program, place: u32) -> Option<&'a Ty>
    ensures { option_copied result ≡ type_of_root program.now place }
{
    let root = program.roots.get(place as usize)?;
    Some(&root.ty)
}

/// Whether a path leads in the static record to eight bytes that are never scanned.
pub fn is_word_in_statics(program: &Program, path: &[u32]) -> bool
    ensures { result ≡ is_some_word (type_in_statics program.now path.now) }
{
    let [place, rest @ ..] = path else {
        return false;
    };
    is_word_at(program, root_type(program, *place), rest)
}

// ---- values

// The bits of a number that has room in eight bytes: a negative one is its two's complement.
fn bits_of_word(n: i128) -> u64
    requires room { IsTrue (has_room true 64 n) }
    ensures bits { result ≡ two's_complement 64 n }
{
    let size = n.unsigned_abs();
    if n < 0 {
        ((1u128 << 64) - size) as u64
    } else {
        size as u64
    }
}

// The eight bytes of a number.
fn word_of(alloc: Global, n: i128) -> Result<Bytes, AllocError>
    requires room { IsTrue (has_room true 64 n) }
    ensures word { IfOk result (IsWordOf n) }
{
    Bytes::of(alloc, &bits_of_word(n).to_le_bytes())
}

/// What a leaf is as a value, where eight bytes that are never scanned lie or not.
pub fn leaf_value(alloc: Global, is_word: bool, leaf: LeafContent) -> Result<Value, AllocError>
    requires word { is_word ≡ true → HasWord leaf }
    ensures value { IfOk result (λ v. (objects : List Object) (type : Ty) → is_word ≡ is_word_type type → LeafSuits objects type leaf → IsTreeOf type leaf (tree_of v)) }
{
    match leaf {
        LeafContent::Num(n) => {
            if is_word {
                Ok(Value::Raw(word_of(alloc, n)?))
            } else {
                Ok(Value::Num(n))
            }
        }
        LeafContent::Null => Ok(Value::Null),
        LeafContent::To(address) => Ok(Value::To(address)),
    }
}

// ---- verdicts

// Whether a leaf is a number.
fn is_number(leaf: LeafContent) -> bool
    ensures { result ≡ is_number_leaf leaf }
{
    matches!(leaf, LeafContent::Num(_))
}

/// A verdict by which no number is written in place where a union around it has no active member.
pub fn only_active(verdict: LeafVerdict, leaf: LeafContent) -> LeafVerdict
    ensures place { (place : Place) → result ≡ InPlace place → verdict ≡ InPlace place }
    ensures active { (place : Place) → result ≡ InPlace place → IsInActive place leaf }
    ensures misfit { result ≡ Misfit → verdict ≡ Misfit }
{
    match verdict {
        LeafVerdict::InPlace(place) => {
            if place.active || !is_number(leaf) {
                LeafVerdict::InPlace(place)
            } else {
                LeafVerdict::NotInPlace
            }
        }
        LeafVerdict::NotInPlace => LeafVerdict::NotInPlace,
        LeafVerdict::Misfit => LeafVerdict::Misfit,
    }
}
