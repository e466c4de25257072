// What structures begin with.
ghost use Rattle.std.specs.Prelude.{◌≡◌, MatchOption};
ghost use Rattle.std.specs.Bool.{Decides};
ghost use Rattle.gt_types.specs.declared.types.TypeId.{TypeId};
ghost use Rattle.gt_paths.specs.Starts.{AreJoined, NeverMeet};
ghost use Rattle.gt_unions.specs.Beginnings.{Begins, first_of, first_structure};

use crate::structures::{itself, structure_of};
use gt_types::{Field, Program, TypeId};

fn first_structure(fields: &[Field]) -> Option<TypeId>
    ensures { result ≡ first_structure fields.now }
{
    match fields {
        [] => None,
        [first, ..] => itself(&first.ty),
    }
}

// The structure that is the first field of a struct, where it is one.
fn first_of(program: &Program, node: TypeId) -> Option<TypeId>
    ensures { result ≡ first_of program.now node }
{
    match structure_of(program, node) {
        Some(s) if !s.is_union => first_structure(s.fields.as_slice()),
        _ => None,
    }
}

fn are_same(a: TypeId, b: TypeId) -> bool
    ensures { Decides result (a ≡ b) }
{
    a == b
}

/// Whether a structure is another, or begins with it. It takes a step for each structure that it begins with.
pub fn begins_with(program: &Program, outer: TypeId, node: TypeId) -> bool
    ensures { Decides result (Begins program.now outer node) }
{
    let mut at = outer;
    'structs: for _ in 0..program.structures.as_slice().len() + 1 {
        if are_same(at, node) {
            return true;
        }
        let Some(next) = first_of(program, at) else {
            return false;
        };
        at = next;
    }
    false
}

/// The first structure with which two begin, or None where they begin with no structure both.
pub fn join(program: &Program, a: TypeId, b: TypeId) -> Option<TypeId>
    ensures joined { MatchOption result (NeverMeet program.now a b) (AreJoined program.now a b) }
{
    let mut at = a;
    'structs: for _ in 0..program.structures.as_slice().len() + 1 {
        if begins_with(program, b, at) {
            return Some(at);
        }
        let Some(next) = first_of(program, at) else {
            return None;
        };
        at = next;
    }
    None
}
