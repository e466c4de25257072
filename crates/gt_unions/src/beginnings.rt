// What a structure begins with.
ghost use Rattle.std.specs.Prelude.{◌≡◌};
ghost use Rattle.std.specs.Bool.{Decides};
ghost use Rattle.gt_types.specs.Settled.{Settled};
ghost use Rattle.gt_unions.specs.Beginnings.{Begins, first_of, first_structure};

use crate::members::{itself, structure_of};
use gt_types::{Field, MAX_DEPTH, Program, TypeId};

fn are_same(a: TypeId, b: TypeId) -> bool
    ensures { Decides result (a ≡ b) }
{
    a == b
}

fn first_structure(fields: &[Field]) -> Option<TypeId>
    ensures { result ≡ first_structure fields.now }
{
    match fields {
        [] => None,
        [first, ..] => itself(&first.ty),
    }
}

// The structure that is the first field of a struct, where it is one.
fn first_of(program: &Program, node: TypeId) -> Option<TypeId>
    ensures { result ≡ first_of program.now node }
{
    match structure_of(program, node) {
        Some(s) if !s.is_union => first_structure(s.fields.as_slice()),
        _ => None,
    }
}

/// Whether a structure is another, or begins with it. It takes at most MAX_DEPTH steps.
pub fn begins_with(program: &Program, outer: TypeId, node: TypeId) -> bool
    requires { Settled program.now }
    ensures { Decides result (Begins program.now outer node) }
{
    let mut at = outer;
    'structs: for _ in 0..MAX_DEPTH + 1 {
        if are_same(at, node) {
            return true;
        }
        let Some(next) = first_of(program, at) else {
            return false;
        };
        at = next;
    }
    false
}
