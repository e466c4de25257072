// Whether a number has room in the bits of its type.
ghost use Rattle.std.specs.Prelude.{◌≡◌, ◌^◌, nat_lt};
ghost use Rattle.gt_types.specs.Shapes.{bits_of};
ghost use Rattle.gt_tree.specs.Numbers.{is_signed, has_room};
ghost use Rattle.gt_tree.specs.PathLaws.{has_room_in};

use gt_types::{Scalar, Ty, Width};

// Whether a number is below so great a power of 2.
fn is_below(n: u128, bits: u32) -> bool
    ensures { result ≡ nat_lt n (2 ^ bits) }
{
    if bits >= 128 {
        return true;
    }
    n < 2u128.pow(bits)
}

/// Whether a number can be held in so many bits, with a sign or without.
pub fn has_room(signed: bool, bits: u32, n: i128) -> bool
    ensures { result ≡ has_room signed bits n }
{
    if n >= 0 {
        let room = if signed { bits.saturating_sub(1) } else { bits };
        is_below(n as u128, room)
    } else {
        signed && is_below((-(n + 1)) as u128, bits.saturating_sub(1))
    }
}

fn bits_of(number: Scalar) -> u32
    ensures { result ≡ bits_of number }
{
    match number {
        Scalar::Bool => 1,
        Scalar::Int {
            width: Width::W1,
            ..
        } => 8,
        Scalar::Int {
            width: Width::W2,
            ..
        } => 16,
        Scalar::Int {
            width: Width::W4,
            ..
        } => 32,
        Scalar::Int {
            width: Width::W8,
            ..
        } => 64,
    }
}

fn is_signed(number: Scalar) -> bool
    ensures { result ≡ is_signed number }
{
    match number {
        Scalar::Bool => false,
        Scalar::Int { signed, .. } => signed,
    }
}

/// Whether a number has room in the bits of a type. It has none in a type that is no number's.
pub fn number_fits(ty: &Ty, n: i128) -> bool
    ensures { result ≡ has_room_in ty.now n }
{
    match ty {
        Ty::Num(number) => has_room(is_signed(*number), bits_of(*number), n),
        Ty::Bits { unit, count } => has_room(is_signed(*unit), *count as u32, n),
        _ => false,
    }
}
