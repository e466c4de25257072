// Types without a definition or without a size.
ghost use Rattle.std.specs.Prelude.{◌≡◌, ◌||◌, false};
ghost use Rattle.std.specs.List.{list_any};
ghost use Rattle.std.specs.Option.{option_map_or};
ghost use Rattle.gt_drafts.specs.Undefined.{is_unknown, is_undefined, is_sizeless, is_zero, has_no_target, names_undefined, is_undefined_type, is_nothing};

use crate::options::may_point;
use crate::{Amount, BaseType, DeclaredType, DraftCache, Resolved};
use gt_items::{RawOption, Stars};

fn is_unknown(base: &BaseType) -> bool
    ensures same { result ≡ is_unknown base.now }
{
    match base {
        BaseType::Unknown => true,
        _ => false,
    }
}

fn is_undefined(base: &BaseType) -> bool
    ensures same { result ≡ is_undefined base.now }
{
    match base {
        BaseType::Undefined { .. } => true,
        _ => false,
    }
}

fn is_sizeless(base: &BaseType) -> bool
    ensures same { result ≡ is_sizeless base.now }
{
    match base {
        BaseType::Sizeless | BaseType::Undefined { .. } => true,
        _ => false,
    }
}

// Whether there is no star.
fn is_zero(stars: Stars) -> bool
    ensures same { result ≡ is_zero stars }
{
    match stars {
        Stars::Zero => true,
        _ => false,
    }
}

// Whether it is a type by value that has no size, or a pointer to something undefined that may not stand.
fn has_no_target(options: &[RawOption], resolved: &Resolved) -> bool
    ensures same { result ≡ has_no_target options.now resolved.now }
{
    if is_zero(resolved.stars) {
        is_sizeless(&resolved.base)
    } else {
        is_undefined(&resolved.base) && !may_point(options)
    }
}

fn is_undefined_amount(amount: Amount) -> bool
    ensures same { result ≡ names_undefined amount }
{
    match amount {
        Amount::Undefined => true,
        _ => false,
    }
}

fn has_undefined_bits(bits: Option<Amount>) -> bool
    ensures same { result ≡ option_map_or names_undefined bits false }
{
    match bits {
        None => false,
        Some(amount) => is_undefined_amount(amount),
    }
}

fn has_undefined_bound(bounds: &[Amount]) -> bool
    ensures same { result ≡ list_any names_undefined bounds.now }
{
    bounds.iter().any(|bound| is_undefined_amount(*bound))
}

/// Whether something of the type has no definition or no size: its base, a bound or its bit count.
#[tactic(auto, unfolding(crate::specs::Undefined::is_undefined_type))]
pub fn is_undefined_type(options: &[RawOption], ty: &DeclaredType) -> bool
    ensures same { result ≡ is_undefined_type options.now ty.now }
{
    if is_unknown(&ty.resolved.base) {
        return true;
    }
    if !ty.is_function && has_no_target(options, &ty.resolved) {
        return true;
    }
    if has_undefined_bound(ty.bounds.as_slice()) {
        return true;
    }
    has_undefined_bits(ty.bits)
}

// Whether a key or a value has no definition.
fn is_nothing(resolved: &Resolved) -> bool
    ensures same { result ≡ is_nothing resolved.now }
{
    is_unknown(&resolved.base) || is_undefined(&resolved.base)
}

/// Whether the key or the value of a cache has no definition.
pub fn names_nothing(cache: &DraftCache) -> bool
    ensures same { result ≡ (is_nothing cache.now.key || is_nothing cache.now.value) }
{
    is_nothing(&cache.key) || is_nothing(&cache.value)
}
