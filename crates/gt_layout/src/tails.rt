// The array with a length at the end of a structure.
ghost use Rattle.std.specs.Prelude.{◌≡◌};
ghost use Rattle.std.specs.Option.{option_copied};
ghost use Rattle.gt_types.specs.Tails.{elements_of, tail_of};
ghost use Rattle.gt_layout.specs.Places.{last_offset};

use crate::planes::FieldSpot;
use gt_types::{Field, Ty};

fn elements_of(ty: &Ty) -> Option<&Ty>
    ensures { option_copied result ≡ elements_of ty.now }
{
    match ty {
        Ty::Tail { elem, .. } => Some(elem.get()),
        _ => None,
    }
}

/// The elements of the array with a length that is the last of the fields, where it is one.
pub fn tail_of(fields: &[Field]) -> Option<&Ty>
    ensures { option_copied result ≡ tail_of fields.now }
{
    match fields {
        [.., last] => elements_of(&last.ty),
        [] => None,
    }
}

/// The offset of the last field.
pub fn last_offset(spots: &[FieldSpot]) -> u32
    ensures { result ≡ last_offset spots.now }
{
    match spots {
        [.., last] => last.offset,
        [] => 0,
    }
}
