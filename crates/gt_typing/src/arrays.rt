// Arrays and bit-fields.
ghost use Rattle.std.specs.Prelude.{◌≡◌, ◌<◌, ◌^◌, IfOk, All, option_map};
ghost use Rattle.gt_markers.specs.Typing.{amount, arrays, array_type, bits_type};
ghost use Rattle.gt_typing.specs.SmallTypes.{IsSmall};

use gt_drafts::{Amount, BaseType};
use gt_types::{Boxed, Expr, Ty};
use std::alloc::{AllocError, Global};

/// How many elements, or bits, there are.
pub fn number_of(bound: Amount) -> u32
    requires small { amount bound < 2 ^ 32 }
    ensures { result ≡ amount bound }
{
    match bound {
        Amount::Is(n) if n >= 0 => n as u32,
        _ => 0,
    }
}

// Arrays of elements, the outermost dimension first.
fn arrays(alloc: Global, bounds: &[Amount], elem: Ty) -> Result<Ty, AllocError>
    requires small { All IsSmall bounds.now }
    ensures made { IfOk result (λ t. t ≡ arrays bounds.now elem) }
{
    match bounds {
        [] => Ok(elem),
        [bound, rest @ ..] => {
            let n = number_of(*bound);
            let elem = arrays(alloc, rest, elem)?;
            Ok(Ty::Arr {
                n,
                elem: Boxed::new(alloc, elem)?,
            })
        }
    }
}

/// An array, of which `length` replaces the outermost dimension. It fails only if memory runs out.
pub fn array_type(
    alloc: Global,
    length: Option<Expr>,
    bound: Amount,
    bounds: &[Amount],
    elem: Ty,
) -> Result<Ty, AllocError>
    requires small { IsSmall bound × All IsSmall bounds.now }
    ensures made { IfOk result (λ t. t ≡ array_type length bound bounds.now elem) }
{
    let elem = arrays(alloc, bounds, elem)?;
    let elem = Boxed::new(alloc, elem)?;
    match length {
        Some(len) => Ok(Ty::Tail { len, elem }),
        None => Ok(Ty::Arr {
            n: number_of(bound),
            elem,
        }),
    }
}

/// An array of elements of a type, of which `length` replaces the outermost dimension; None where there are no elements. It fails only
/// if memory runs out.
pub fn array_of(
    alloc: Global,
    length: Option<Expr>,
    bound: Amount,
    bounds: &[Amount],
    elem: Option<Ty>,
) -> Result<Option<Ty>, AllocError>
    requires bounds { IsSmall bound × All IsSmall bounds.now }
    ensures made { IfOk result (λ t. t ≡ option_map (array_type length bound bounds.now) elem) }
{
    match elem {
        None => Ok(None),
        Some(elem) => Ok(Some(array_type(alloc, length, bound, bounds, elem)?)),
    }
}

/// A bit-field of a number; None where it is of no number.
pub fn bits_type(base: &BaseType, count: Amount) -> Option<Ty>
    requires small { amount count < 2 ^ 8 }
    ensures { result ≡ bits_type base.now (amount count) }
{
    match base {
        BaseType::Number { scalar, .. } => Some(Ty::Bits {
            unit: *scalar,
            count: number_of(count) as u8,
        }),
        _ => None,
    }
}
