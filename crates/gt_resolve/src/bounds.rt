// Bounds, bit counts and tails that may not stand.
ghost use Rattle.std.specs.Prelude.{◌≡◌, ◌&&◌, false, pos, int_le};
ghost use Rattle.std.specs.List.{list_any};
ghost use Rattle.std.specs.Option.{option_map_or};
ghost use Rattle.gt_types.specs.Shapes.{bits_of};
ghost use Rattle.gt_resolve.specs.Faults.{is_bad_bound, unit_bits, is_bad_count, is_bad_field, is_misused_tail, is_bad_type};
ghost use Rattle.gt_drafts.specs.Shapes.{held_type};

use gt_drafts::{Amount, BaseType, DeclaredType, Resolved, flag_at, has_skip, held_type};
use gt_items::{RawOption, Stars};
use gt_types::{MAX_BOUND, MAX_DIMENSIONS, Scalar, Width};

fn is_within(n: i64, most: i64) -> bool
    ensures same { result ≡ (int_le (pos 1) n && int_le n most) }
{
    1 <= n && n <= most
}

fn is_bad_bound(bound: Amount) -> bool
    ensures same { result ≡ is_bad_bound bound }
{
    match bound {
        Amount::Unread => false,
        Amount::Is(n) => !is_within(n, MAX_BOUND as i64),
        Amount::NoExpression | Amount::Undefined | Amount::NoValue => true,
    }
}

fn bits_of(scalar: Scalar) -> i64
    ensures same { result ≡ pos (bits_of scalar) }
{
    match scalar {
        Scalar::Bool => 1,
        Scalar::Int { width, .. } => match width {
            Width::W1 => 8,
            Width::W2 => 16,
            Width::W4 => 32,
            Width::W8 => 64,
        },
    }
}

// Whether a bit-field of the type may not have so many bits: it is no number by value, or there are too few or too many.
fn is_bad_count(resolved: &Resolved, count: Amount) -> bool
    ensures same { result ≡ is_bad_count (unit_bits resolved.now) count }
{
    match (&resolved.base, resolved.stars, count) {
        (BaseType::Number { scalar, .. }, Stars::Zero, Amount::Is(n)) => {
            !is_within(n, bits_of(*scalar))
        }
        _ => true,
    }
}

// Whether it is a bit-field that may not stand.
fn is_bad_bit_field(ty: &DeclaredType) -> bool
    ensures same { result ≡ option_map_or (is_bad_field ty.now) ty.now.bits false }
{
    match ty.bits {
        None => false,
        Some(count) => !ty.bounds.is_empty() || is_bad_count(&ty.resolved, count),
    }
}

// Whether something of a tail type stands by value where none may.
fn is_misused_tail(tails: &[bool], in_union: bool, options: &[RawOption], ty: &DeclaredType) -> bool
    ensures same { result ≡ is_misused_tail tails.now in_union options.now ty.now }
{
    match held_type(ty) {
        None => false,
        Some(id) => flag_at(tails, id) && !(in_union && ty.bounds.is_empty() && !has_skip(options)),
    }
}

fn some_bad_bound(bounds: &[Amount]) -> bool
    ensures same { result ≡ list_any is_bad_bound bounds.now }
{
    bounds.iter().any(|bound| is_bad_bound(*bound))
}

/// Whether a bound or the bit count is bad, or a tail stands where none may.
#[tactic(auto, unfolding(crate::specs::Faults::is_bad_type))]
pub fn is_bad_type(tails: &[bool], in_union: bool, options: &[RawOption], ty: &DeclaredType) -> bool
    ensures same { result ≡ is_bad_type tails.now in_union options.now ty.now }
{
    if ty.bounds.len() > MAX_DIMENSIONS {
        return true;
    }
    if some_bad_bound(ty.bounds.as_slice()) {
        return true;
    }
    if is_bad_bit_field(ty) {
        return true;
    }
    is_misused_tail(tails, in_union, options, ty)
}
