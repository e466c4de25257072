// Structs that contain no union and no array with a length.
ghost use Rattle.std.specs.Prelude.{◌≡◌, ◌∷◌, ◌≤◌, [], length, IfOk, OnOk};
ghost use Rattle.std.specs.Bool.{Decides};
ghost use Rattle.gt_types.specs.declared.limits.TheConstants.{MAX_STRUCTURES};
ghost use Rattle.gt_types.specs.Unions.{IsPlainStruct};
ghost use Rattle.gt_paths.specs.Containers.{AreContainersOf};
ghost use Rattle.gt_paths.specs.Marks.{AddsHeldOdd, AddsOdd, AreOdd, ArePlain, MarksOthers};

use crate::climbing::climb;
use crate::containers::Containers;
use crate::structures::{held_by, structure_of, tail_of};
use gt_types::{Field, List, Program, TypeId};
use indexmap::IndexSet;
use std::alloc::{AllocError, Global};

// Whether a structure is a struct that does not end in an array with a length.
fn is_plain_struct(program: &Program, node: TypeId) -> bool
    ensures { Decides result (IsPlainStruct program.now node) }
{
    let Some(s) = structure_of(program, node) else {
        return false;
    };
    if s.is_union {
        return false;
    }
    tail_of(s.fields.as_slice()).is_none()
}

// Adds a structure that is no plain struct.
fn add_odd(program: &Program, odd: &mut IndexSet<u32>, node: TypeId) -> Result<(), AllocError>
    ensures added { OnOk result (AddsOdd program.now odd.old.keys node odd.new.keys) }
{
    if is_plain_struct(program, node) {
        return Ok(());
    }
    odd.insert(node.0)?;
    Ok(())
}

// Adds what a field holds, if it is no plain struct.
fn add_odd_field(program: &Program, odd: &mut IndexSet<u32>, f: &Field) -> Result<(), AllocError>
    ensures added { OnOk result (AddsHeldOdd program.now odd.old.keys (f.now ∷ []) odd.new.keys) }
{
    match held_by(&f.ty) {
        None => Ok(()),
        Some(inner) => {
            add_odd(program, odd, inner)?;
            Ok(())
        }
    }
}

// Adds what fields hold that is no plain struct.
fn add_odd_fields(
    program: &Program,
    odd: &mut IndexSet<u32>,
    fields: &[Field],
) -> Result<(), AllocError>
    ensures added { OnOk result (AddsHeldOdd program.now odd.old.keys fields.now odd.new.keys) }
{
    for f in fields {
        add_odd_field(program, odd, f)?;
    }
    Ok(())
}

// The structures, and what they hold, that are no plain structs.
fn odd_structures(alloc: Global, program: &Program) -> Result<IndexSet<u32>, AllocError>
    requires few { length program.now.structures ≤ MAX_STRUCTURES }
    ensures odd { IfOk result (λ odd. AreOdd program.now odd.keys) }
{
    let mut odd = IndexSet::new(alloc);
    for (place, s) in program.structures.as_slice().iter().enumerate() {
        add_odd(program, &mut odd, TypeId(place as u32))?;
        add_odd_fields(program, &mut odd, s.fields.as_slice())?;
    }
    Ok(odd)
}

// Marks the structures that are not among these.
fn mark_others(
    alloc: Global,
    program: &Program,
    found: &IndexSet<u32>,
) -> Result<List<bool>, AllocError>
    requires few { length program.now.structures ≤ MAX_STRUCTURES }
    ensures marks { IfOk result (MarksOthers found.now.keys (length program.now.structures)) }
{
    let mut marks = Vec::new(alloc);
    for place in 0..program.structures.len() as u32 {
        marks.push(!found.contains(&place))?;
    }
    Ok(List::of(marks))
}

/// For each structure, whether it and all that it contains are structs that end in no array with a length. It answers want
/// of memory alone.
pub fn plain_marks(
    alloc: Global,
    program: &Program,
    containers: &Containers,
) -> Result<List<bool>, AllocError>
    requires few { length program.now.structures ≤ MAX_STRUCTURES }
    requires containers { AreContainersOf program.now containers.now }
    ensures plain { IfOk result (ArePlain program.now) }
{
    let odd = odd_structures(alloc, program)?;
    let found = climb(program, containers, odd)?;
    let marks = mark_others(alloc, program, &found)?;
    Ok(marks)
}
