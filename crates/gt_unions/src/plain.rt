// Structs that contain no union and no array with a length.
ghost use Rattle.std.specs.Prelude.{◌≡◌, Bool, Some, All, slice_get};
ghost use Rattle.std.specs.Bool.{Decides};
ghost use Rattle.gt_types.specs.Settled.{Settled};
ghost use Rattle.gt_types.specs.Unions.{IsPlainStruct};
ghost use Rattle.gt_unions.specs.Beginnings.{AreKnown, HoldsPlain, HoldsShallow, IsPlain, IsShallow};

use crate::members::{held_by, structure_of, tail_of};
use gt_types::{Field, MAX_DEPTH, Program, TypeId};

/// Whether a structure and all that it contains are structs that end in no array with a length. What is found of each structure is noted,
/// so that the fields of each are looked at once, however often it is contained and asked for.
pub fn is_plain(program: &Program, known: &mut Vec<Option<bool>>, node: TypeId) -> bool
    requires settled { Settled program.now }
    requires known { AreKnown program.now known.old.items }
    ensures known { AreKnown program.now known.new.items }
    ensures plain { Decides result (IsPlain program.now node) }
{
    find_plain(program, known, MAX_DEPTH, node)
}

// The same, where structures nest at most so deep inside it.
#[cycle(plain)]
fn find_plain(program: &Program, known: &mut Vec<Option<bool>>, depth: usize, node: TypeId) -> bool
    requires shallow { IsShallow program.now depth node }
    requires known { AreKnown program.now known.old.items }
    ensures known { AreKnown program.now known.new.items }
    ensures plain { Decides result (IsPlain program.now node) }
{
    if let Some(plain) = note_at(known, node) {
        return plain;
    }
    let plain = look_inside(program, known, depth, node);
    note(program, known, node, plain);
    plain
}

// What is noted of a structure.
fn note_at(known: &[Option<bool>], node: TypeId) -> Option<bool>
    ensures noted { (plain : Bool) → result ≡ Some plain → slice_get known.now node.0 ≡ Some (Some plain) }
{
    match known.get(node.0 as usize) {
        Some(plain) => *plain,
        None => None,
    }
}

// Notes what was found of a structure.
fn note(program: &Program, known: &mut Vec<Option<bool>>, node: TypeId, plain: bool)
    requires known { AreKnown program.now known.old.items }
    requires plain { Decides plain (IsPlain program.now node) }
    ensures known { AreKnown program.now known.new.items }
{
    let _ = program;
    let place = node.0 as usize;
    if place < known.len() {
        known[place] = Some(plain);
    }
}

// Whether a structure is a struct that ends in no array with a length, as all are that it contains.
#[cycle(plain)]
fn look_inside(program: &Program, known: &mut Vec<Option<bool>>, depth: usize, node: TypeId) -> bool
    requires shallow { IsShallow program.now depth node }
    requires known { AreKnown program.now known.old.items }
    ensures known { AreKnown program.now known.new.items }
    ensures plain { Decides result (IsPlain program.now node) }
{
    let Some(s) = structure_of(program, node) else {
        return false;
    };
    if s.is_union || tail_of(s.fields.as_slice()).is_some() {
        return false;
    }
    all_hold_plain(program, known, depth, s.fields.as_slice())
}

#[cycle(plain)]
fn all_hold_plain(
    program: &Program,
    known: &mut Vec<Option<bool>>,
    depth: usize,
    fields: &[Field],
) -> bool
    requires shallow { All (HoldsShallow program.now depth) fields.now }
    requires known { AreKnown program.now known.old.items }
    ensures known { AreKnown program.now known.new.items }
    ensures plain { Decides result (All (HoldsPlain program.now) fields.now) }
{
    for f in fields {
        if !holds_plain(program, known, depth, f) {
            return false;
        }
    }
    true
}

#[cycle(plain)]
fn holds_plain(program: &Program, known: &mut Vec<Option<bool>>, depth: usize, f: &Field) -> bool
    requires shallow { HoldsShallow program.now depth f.now }
    requires known { AreKnown program.now known.old.items }
    ensures known { AreKnown program.now known.new.items }
    ensures plain { Decides result (HoldsPlain program.now f.now) }
{
    match held_by(&f.ty) {
        None => true,
        Some(next) => find_plain(program, known, depth - 1, next),
    }
}
