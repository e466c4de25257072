// The layout of all structures: each after those that it contains.
ghost use Rattle.std.specs.Prelude.{◌≡◌, ◌<◌, length, OnOk, IfOk, All};
ghost use Rattle.gt_types.specs.declared.types.TypeId.{TypeId};
ghost use Rattle.gt_types.specs.Settled.{Settled};
ghost use Rattle.gt_layout.specs.Progress.{Grows, IsLaid, AreSound, IsHeldLaid, IsWithinDepth, HoldsWithinDepth, AreHeldPlanes};

use crate::drafts::plane;
use crate::extents::held_by;
use crate::planes::Plane;
use gt_types::{List, MAX_DEPTH, Program, Structure, Ty};
use std::alloc::{AllocError, Global};

// The mark of what is not laid out yet.
fn unlaid(alloc: Global) -> Plane
    ensures { result.align ≡ 0 }
{
    Plane {
        size: 0,
        align: 0,
        fields: List::new(alloc),
    }
}

// Lays out a structure, after those that it contains, unless it is laid out already.
#[cycle(order)]
fn lay_out(
    alloc: Global,
    program: &Program,
    place: usize,
    depth: usize,
    known: &mut Vec<Plane>,
) -> Result<(), AllocError>
    requires settled { Settled program.now }
    requires inside { place < length program.now.structures }
    requires all { length known.old.items ≡ length program.now.structures }
    requires sound { AreSound known.old.items }
    requires shallow { IsWithinDepth program.now place depth }
    ensures grows { OnOk result (Grows program.now known.old.items known.new.items) }
    ensures laid { OnOk result (IsLaid known.new.items place) }
{
    if known[place].align != 0 {
        return Ok(());
    }
    let structure = &program.structures.as_slice()[place];
    for field in structure.fields.as_slice() {
        lay_out_inner(alloc, program, &field.ty, depth, known)?;
    }
    let made = plane(alloc, structure, known.as_slice())?;
    known[place] = made;
    Ok(())
}

// Lays out the structure that a field holds by value, where it holds one.
#[cycle(order)]
fn lay_out_inner(
    alloc: Global,
    program: &Program,
    ty: &Ty,
    depth: usize,
    known: &mut Vec<Plane>,
) -> Result<(), AllocError>
    requires settled { Settled program.now }
    requires all { length known.old.items ≡ length program.now.structures }
    requires sound { AreSound known.old.items }
    requires shallow { HoldsWithinDepth program.now ty.now depth }
    ensures grows { OnOk result (Grows program.now known.old.items known.new.items) }
    ensures laid { OnOk result (IsHeldLaid known.new.items ty.now) }
{
    match held_by(ty) {
        None => Ok(()),
        Some(inner) => lay_out(alloc, program, inner.0 as usize, depth - 1, known),
    }
}

// So many marks.
fn unlaid_all(alloc: Global, structures: &[Structure]) -> Result<Vec<Plane>, AllocError>
    ensures all { IfOk result (λ known. length known.items ≡ length structures.now) }
    ensures unlaid { IfOk result (λ known. All (λ plane. plane.align ≡ 0) known.items) }
{
    let mut known = Vec::new(alloc);
    for _ in structures {
        known.push(unlaid(alloc))?;
    }
    Ok(known)
}

/// The planes of all structures, each as it is held within the limit.
pub fn lay_out_all(alloc: Global, program: &Program) -> Result<Vec<Plane>, AllocError>
    requires { Settled program.now }
    ensures { IfOk result (λ known. AreHeldPlanes program.now known.items) }
{
    let mut known = unlaid_all(alloc, program.structures.as_slice())?;
    for place in 0..program.structures.len() {
        lay_out(alloc, program, place, MAX_DEPTH, &mut known)?;
    }
    Ok(known)
}
