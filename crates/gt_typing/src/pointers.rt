// Pointers that are walked.
ghost use Rattle.std.specs.Prelude.{◌≡◌, ◌<◌, ◌^◌, ℕ, true, List};
ghost use Rattle.gt_types.specs.declared.types.Scalar.{Scalar};
ghost use Rattle.gt_items.specs.declared.items.Keyword.{Keyword};
ghost use Rattle.gt_drafts.specs.declared.types.BaseType.TheVariants.{Structure, Number, Undefined};
ghost use Rattle.gt_markers.specs.Typing.{node, kind_by, pointer_type, pointer_or_atomic};
ghost use Rattle.gt_typing.specs.SmallTypes.{HasSmallId};

use gt_drafts::BaseType;
use gt_items::Stars;
use gt_markers::TypeOptions;
use gt_types::{Expr, PtrKind, Target, Ty, TypeId};

/// A structure, by its place.
pub fn node(id: usize) -> TypeId
    requires small { id < 2 ^ 32 }
    ensures { result ≡ node id }
{
    TypeId(id as u32)
}

// A pointer with a length names so many elements, another a single one.
fn kind_by(length: Option<Expr>) -> PtrKind
    ensures { result ≡ kind_by length }
{
    match length {
        Some(count) => PtrKind::Length(count),
        None => PtrKind::Plain,
    }
}

// A pointer to a structure.
fn structure_pointer(options: TypeOptions, id: TypeId, stars: Stars) -> Option<Ty>
    ensures { (place : ℕ) → id ≡ node place → result ≡ pointer_type options (Structure place) stars }
{
    match stars {
        Stars::One => Some(Ty::Ptr {
            target: Some(Target::Node(id)),
            kind: kind_by(options.length),
            reorder: options.reorder,
        }),
        Stars::Two => {
            let length = options.length;
            match length {
                None => None,
                Some(count) => Some(Ty::Ptr {
                    target: Some(Target::Pointers(id)),
                    kind: PtrKind::Length(count),
                    reorder: options.reorder,
                }),
            }
        }
        _ => None,
    }
}

// A pointer to characters.
fn character_pointer(options: TypeOptions, stars: Stars) -> Option<Ty>
    ensures { (scalar : Scalar) → result ≡ pointer_type options (Number scalar true) stars }
{
    match stars {
        Stars::One => Some(Ty::Str(options.string_length)),
        Stars::Two => {
            let length = options.length;
            match length {
                None => None,
                Some(count) => Some(Ty::Ptr {
                    target: Some(Target::Strings),
                    kind: PtrKind::Length(count),
                    reorder: options.reorder,
                }),
            }
        }
        _ => None,
    }
}

// A pointer to what is not defined.
fn undefined_pointer(options: TypeOptions, stars: Stars) -> Option<Ty>
    ensures { (keyword : Keyword) (tag : List ℕ) → result ≡ pointer_type options (Undefined keyword tag) stars }
{
    match stars {
        Stars::One if options.maybe_undef => Some(Ty::Ptr {
            target: None,
            kind: PtrKind::Undef,
            reorder: options.reorder,
        }),
        _ => None,
    }
}

// A pointer that is walked, or None where none can be.
fn pointer_type(options: TypeOptions, base: &BaseType, stars: Stars) -> Option<Ty>
    requires small { HasSmallId base.now }
    ensures { result ≡ pointer_type options base.now stars }
{
    match base {
        BaseType::Structure(id) => {
            let id = *id;
            structure_pointer(options, node(id), stars)
        }
        BaseType::Number { is_char, .. } => {
            if *is_char {
                character_pointer(options, stars)
            } else {
                None
            }
        }
        BaseType::Undefined { .. } => undefined_pointer(options, stars),
        _ => None,
    }
}

/// A pointer: with `atomic` it names a block that is never scanned, and else it is one that is walked, or None where none can be.
pub fn pointer_or_atomic(options: TypeOptions, base: &BaseType, stars: Stars) -> Option<Ty>
    requires small { HasSmallId base.now }
    ensures { result ≡ pointer_or_atomic options base.now stars }
{
    if options.atomic {
        return Some(Ty::Ptr {
            target: None,
            kind: PtrKind::Atomic,
            reorder: options.reorder,
        });
    }
    pointer_type(options, base, stars)
}
