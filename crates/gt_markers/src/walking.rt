// Whether a type can be a part of a walked value.
ghost use Rattle.std.specs.Prelude.{◌≡◌, ℕ, is_some, not};
ghost use Rattle.gt_drafts.specs.Shapes.{is_nil};
ghost use Rattle.gt_drafts.specs.declared.draft.Draft.{Draft};
ghost use Rattle.gt_markers.specs.Expressions.{Names};
ghost use Rattle.gt_markers.specs.declared.type_options.TypeOptions.{TypeOptions};
ghost use Rattle.gt_markers.specs.Typing.{says, of_elements, pointer_type, pointer_or_atomic, value_type, single_type, bits_type, walked_type};
ghost use Rattle.gt_markers.specs.Walking.{AreOptionsOf};

use crate::options::has_option;
use gt_drafts::{BaseType, DeclaredType};
use gt_items::{RawOption, Stars};

/// The options that make a pointer one that can be walked: whether it has `length`, `atomic` and `maybe_undef`.
#[derive(Clone, Copy)]
pub struct PointerOptions {
    counted: bool,
    atomic: bool,
    maybe_undef: bool,
}

fn is_pointer_walked(options: PointerOptions, base: &BaseType, stars: Stars) -> bool
    ensures walked { (says : TypeOptions) → AreOptionsOf says options → result ≡ is_some (pointer_type says base.now stars) }
{
    match (base, stars) {
        (BaseType::Structure(_), Stars::One) => true,
        (BaseType::Structure(_), Stars::Two) => options.counted,
        (BaseType::Number { is_char: true, .. }, Stars::One) => true,
        (BaseType::Number { is_char: true, .. }, Stars::Two) => options.counted,
        (BaseType::Undefined { .. }, Stars::One) => options.maybe_undef,
        _ => false,
    }
}

fn is_value_walked(base: &BaseType) -> bool
    ensures walked { (draft : Draft) (says : TypeOptions) → result ≡ is_some (value_type draft says base.now) }
{
    matches!(base, BaseType::Number { .. } | BaseType::Structure(_))
}

// Whether what is no array can be walked.
fn is_single_walked(options: PointerOptions, ty: &DeclaredType) -> bool
    ensures walked { (draft : Draft) (says : TypeOptions) → AreOptionsOf says options → result ≡ is_some (single_type draft says ty.now) }
{
    if ty.is_function {
        return false;
    }
    let base = &ty.resolved.base;
    match ty.resolved.stars {
        Stars::Zero => is_value_walked(base),
        stars => options.atomic || is_pointer_walked(options, base, stars),
    }
}

fn is_number(base: &BaseType) -> bool
    ensures number { (count : ℕ) → result ≡ is_some (bits_type base.now count) }
{
    matches!(base, BaseType::Number { .. })
}

fn pointer_options(options: &[RawOption]) -> PointerOptions
    ensures options { (names : Names) → AreOptionsOf (says names options.now) result }
{
    PointerOptions {
        counted: has_option(options, "length"),
        atomic: has_option(options, "atomic"),
        maybe_undef: has_option(options, "maybe_undef"),
    }
}

// Of the elements of an array the options say nothing of pointers.
fn options_of_elements() -> PointerOptions
    ensures options { (says : TypeOptions) → AreOptionsOf (of_elements says) result }
{
    PointerOptions {
        counted: false,
        atomic: false,
        maybe_undef: false,
    }
}

fn is_array(ty: &DeclaredType) -> bool
    ensures array { result ≡ not (is_nil ty.now.bounds) }
{
    !ty.bounds.is_empty()
}

/// Whether a type can be walked, with these options.
pub fn is_walked(options: &[RawOption], ty: &DeclaredType) -> bool
    ensures walked { (names : Names) (draft : Draft) → result ≡ is_some (walked_type draft (says names options.now) ty.now) }
{
    if ty.bits.is_some() {
        return is_number(&ty.resolved.base);
    }
    if is_array(ty) {
        is_single_walked(options_of_elements(), ty)
    } else {
        is_single_walked(pointer_options(options), ty)
    }
}
