// The planes of structures: each is laid out after those that it contains.
ghost use Rattle.std.specs.Prelude.{◌≡◌, ◌<◌, length, OnOk, IfOk, All};
ghost use Rattle.gt_layout.specs.Progress.{AreSound, IsLaid};
ghost use Rattle.gt_markers.specs.Lookups.{IsLookupOf};
ghost use Rattle.gt_markers.specs.Sound.{IsSound};
ghost use Rattle.gt_drafts.specs.Shapes.{held_type, structure_by_value};
ghost use Rattle.gt_declare.specs.Making.{AreHeldBy, Grows, HoldsShallow, IsHeldLaid, IsShallow};

use crate::structures::structure_without_chains;
use gt_drafts::{BaseType, DeclaredType, Draft, DraftStructure};
use gt_items::Stars;
use gt_layout::{Plane, plane};
use gt_markers::Lookup;
use gt_types::{List, MAX_DEPTH};
use std::alloc::{AllocError, Global};

// The structure that a base without a star is.
fn structure_by_value(base: &BaseType, stars: Stars) -> Option<usize>
    ensures held { result ≡ structure_by_value base.now stars }
{
    match (base, stars) {
        (BaseType::Structure(id), Stars::Zero) => Some(*id),
        _ => None,
    }
}

// The structure that something of this type contains by value, alone or in an array.
fn held_type(ty: &DeclaredType) -> Option<usize>
    ensures held { result ≡ held_type ty.now }
{
    if ty.is_function {
        None
    } else {
        structure_by_value(&ty.resolved.base, ty.resolved.stars)
    }
}

// The mark of what is not laid out yet.
fn unlaid(alloc: Global) -> Plane
    ensures unlaid { result.align ≡ 0 }
{
    Plane {
        size: 0,
        align: 0,
        fields: List::new(alloc),
    }
}

// So many marks.
fn unlaid_all(alloc: Global, structures: &[DraftStructure]) -> Result<Vec<Plane>, AllocError>
    ensures all { IfOk result (λ known. length known.items ≡ length structures.now) }
    ensures unlaid { IfOk result (λ known. All (λ plane. plane.align ≡ 0) known.items) }
{
    let mut known = Vec::new(alloc);
    for _ in structures {
        known.push(unlaid(alloc))?;
    }
    Ok(known)
}

// Lays out a structure, after those that it contains, unless it is laid out already.
#[cycle(order)]
fn lay_out(
    alloc: Global,
    draft: &Draft,
    lookup: &Lookup,
    place: usize,
    depth: usize,
    known: &mut Vec<Plane>,
) -> Result<(), AllocError>
    requires draft { IsSound draft.now }
    requires lookup { IsLookupOf draft.now lookup.now }
    requires inside { place < length draft.now.structures }
    requires all { length known.old.items ≡ length draft.now.structures }
    requires sound { AreSound known.old.items }
    requires shallow { IsShallow draft.now depth place }
    ensures grows { OnOk result (Grows draft.now known.old.items known.new.items) }
    ensures laid { OnOk result (IsLaid known.new.items place) }
{
    if known[place].align != 0 {
        return Ok(());
    }
    let structure = &draft.structures.as_slice()[place];
    for field in structure.fields.as_slice() {
        lay_out_inner(alloc, draft, lookup, &field.ty, depth, known)?;
    }
    let made = structure_without_chains(alloc, draft, lookup, known.as_slice(), structure)?;
    let laid = plane(alloc, &made, known.as_slice())?;
    known[place] = laid;
    Ok(())
}

// Lays out the structure that something of this type contains by value, where it contains one.
#[cycle(order)]
fn lay_out_inner(
    alloc: Global,
    draft: &Draft,
    lookup: &Lookup,
    ty: &DeclaredType,
    depth: usize,
    known: &mut Vec<Plane>,
) -> Result<(), AllocError>
    requires draft { IsSound draft.now }
    requires lookup { IsLookupOf draft.now lookup.now }
    requires all { length known.old.items ≡ length draft.now.structures }
    requires sound { AreSound known.old.items }
    requires shallow { HoldsShallow draft.now depth ty.now }
    ensures grows { OnOk result (Grows draft.now known.old.items known.new.items) }
    ensures laid { OnOk result (IsHeldLaid known.new.items ty.now) }
{
    match held_type(ty) {
        None => Ok(()),
        Some(inner) => lay_out(alloc, draft, lookup, inner, depth - 1, known),
    }
}

/// The planes of the structures of a draft, by place, each as it is held within the limit of sizes. Each structure is laid out once, after
/// those that it contains. It fails only if memory runs out.
pub fn planes_of(alloc: Global, draft: &Draft, lookup: &Lookup) -> Result<Vec<Plane>, AllocError>
    requires sound { IsSound draft.now }
    requires lookup { IsLookupOf draft.now lookup.now }
    ensures held { IfOk result (λ known. AreHeldBy draft.now known.items) }
{
    let mut known = unlaid_all(alloc, draft.structures.as_slice())?;
    for place in 0..draft.structures.len() {
        lay_out(alloc, draft, lookup, place, MAX_DEPTH, &mut known)?;
    }
    Ok(known)
}
