// What a type contains by value, and flags of structures.
ghost use Rattle.std.specs.Prelude.{◌≡◌};
ghost use Rattle.gt_drafts.specs.Shapes.{has_flag, held_type, structure_by_value};

use crate::{BaseType, DeclaredType};
use gt_items::Stars;

/// The flag of a structure; there is none after the last.
pub fn flag_at(flags: &[bool], id: usize) -> bool
    ensures same { result ≡ has_flag flags.now id }
{
    match flags.get(id) {
        None => false,
        Some(flag) => *flag,
    }
}

/// The structure that something of the type contains by value, alone or in an array.
pub fn held_type(ty: &DeclaredType) -> Option<usize>
    ensures same { result ≡ held_type ty.now }
{
    if ty.is_function {
        return None;
    }
    structure_by_value(&ty.resolved.base, ty.resolved.stars)
}

fn structure_by_value(base: &BaseType, stars: Stars) -> Option<usize>
    ensures same { result ≡ structure_by_value base.now stars }
{
    match base {
        BaseType::Structure(id) => match stars {
            Stars::Zero => Some(*id),
            _ => None,
        },
        _ => None,
    }
}
