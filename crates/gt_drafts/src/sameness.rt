// Whether parts of types are the same.
ghost use Rattle.std.specs.Prelude.{◌≡◌};
ghost use Rattle.gt_drafts.specs.Sameness.{same_bool, same_keyword, same_scalar, same_stars, same_width};

use gt_items::{Keyword, Stars};
use gt_types::{Scalar, Width};

/// Whether two answers are the same.
pub fn same_bool(a: bool, b: bool) -> bool
    ensures same { result ≡ same_bool a b }
{
    if a { b } else { !b }
}

fn same_width(a: Width, b: Width) -> bool
    ensures same { result ≡ same_width a b }
{
    match (a, b) {
        (Width::W1, Width::W1)
        | (Width::W2, Width::W2)
        | (Width::W4, Width::W4)
        | (Width::W8, Width::W8) => true,
        _ => false,
    }
}

/// Whether two scalars are the same.
pub fn same_scalar(a: Scalar, b: Scalar) -> bool
    ensures same { result ≡ same_scalar a b }
{
    match a {
        Scalar::Bool => match b {
            Scalar::Bool => true,
            Scalar::Int { .. } => false,
        },
        Scalar::Int { width, signed } => match b {
            Scalar::Bool => false,
            Scalar::Int {
                width: other,
                signed: sign,
            } => same_width(width, other) && same_bool(signed, sign),
        },
    }
}

/// Whether two keywords are the same.
pub fn same_keyword(a: Keyword, b: Keyword) -> bool
    ensures same { result ≡ same_keyword a b }
{
    match (a, b) {
        (Keyword::Struct, Keyword::Struct)
        | (Keyword::Union, Keyword::Union)
        | (Keyword::Enum, Keyword::Enum) => true,
        _ => false,
    }
}

/// Whether as many stars stand after two types.
pub fn same_stars(a: Stars, b: Stars) -> bool
    ensures same { result ≡ same_stars a b }
{
    match (a, b) {
        (Stars::Zero, Stars::Zero)
        | (Stars::One, Stars::One)
        | (Stars::Two, Stars::Two)
        | (Stars::More, Stars::More) => true,
        _ => false,
    }
}
