// How structures grow with the room at their end.
ghost use Rattle.std.specs.Prelude.{◌≡◌, ◌<◌, ℕ, Some, None, IfOk, OnOk, filter_map, option_to_list, length, replicate, slice_get, AllPairs};
ghost use Rattle.std.specs.Bool.{Decides};
ghost use Rattle.gt_types.specs.Settled.{Settled};
ghost use Rattle.gt_layout.specs.declared.planes.Growth.{Growth};
ghost use Rattle.gt_layout.specs.Planes.{AreLaidOut};
ghost use Rattle.gt_layout.specs.Excess.{IsTooLarge};
ghost use Rattle.gt_layout.specs.Growths.{AreGrowths, AreTails};
ghost use Rattle.gt_layout.specs.Progress.{AreFound, IsFound, IsPlaceOf, IsWithinDepth, KeepsFound, own_tail, type_id, with_tail, with_tails};

use crate::extents::extent;
use crate::planes::{Growth, Plane, TailSpot};
use crate::tails::{last_offset, tail_of};
use gt_types::{List, MAX_DEPTH, Program, Structure, Ty};
use std::alloc::{AllocError, Global};

// The first of these arrays whose elements are not smaller, found by halves.
fn place_of(tails: &[TailSpot], elem_size: u32) -> usize
    requires { AllPairs (λ tail other. tail.elem_size < other.elem_size) tails.now }
    ensures { IsPlaceOf elem_size tails.now result }
{
    let mut low = 0;
    let mut high = tails.len();
    while low < high {
        let middle = low + (high - low) / 2;
        if tails[middle].elem_size < elem_size {
            low = middle + 1;
        } else {
            high = middle;
        }
    }
    low
}

// Adds an array with a length: where there are arrays of such elements already, the last of them counts.
fn add_tail(tails: &mut Vec<TailSpot>, tail: TailSpot) -> Result<(), AllocError>
    requires { AllPairs (λ known other. known.elem_size < other.elem_size) tails.old.items }
    ensures { OnOk result (tails.new.items ≡ with_tail tail tails.old.items) }
{
    let place = place_of(tails.as_slice(), tail.elem_size);
    if place < tails.len() && tails[place].elem_size == tail.elem_size {
        tails[place].offset = tails[place].offset.max(tail.offset);
        return Ok(());
    }
    tails.insert(place, tail)?;
    Ok(())
}

// Adds arrays with a length.
fn add_tails(tails: &mut Vec<TailSpot>, more: &[TailSpot]) -> Result<(), AllocError>
    requires { AllPairs (λ tail other. tail.elem_size < other.elem_size) tails.old.items }
    ensures { OnOk result (tails.new.items ≡ with_tails more.now tails.old.items) }
{
    for tail in more {
        add_tail(tails, *tail)?;
    }
    Ok(())
}

// The array with a length at the end of a struct, where there is one.
fn own_tail(structure: &Structure, plane: &Plane, planes: &[Plane]) -> Option<TailSpot>
    ensures { result ≡ own_tail planes.now structure.now plane.now }
{
    match tail_of(structure.fields.as_slice()) {
        None => None,
        Some(elem) => Some(TailSpot {
            offset: last_offset(plane.fields.as_slice()),
            elem_size: extent(elem, planes).size,
        }),
    }
}

// The arrays with a length inside a struct.
fn tails_of_struct(
    alloc: Global,
    structure: &Structure,
    plane: &Plane,
    planes: &[Plane],
) -> Result<Vec<TailSpot>, AllocError>
    ensures { IfOk result (λ tails. tails.items ≡ option_to_list (own_tail planes.now structure.now plane.now)) }
{
    let mut tails = Vec::new(alloc);
    if let Some(tail) = own_tail(structure, plane, planes) {
        tails.push(tail)?;
    }
    Ok(tails)
}

// Whether it was found how a structure grows.
fn is_found(known: &[Option<Growth>], place: usize) -> bool
    ensures { Decides result (IsFound known.now place) }
{
    matches!(known.get(place), Some(Some(_)))
}

// What was found of a structure.
fn tails_at(known: &[Option<Growth>], place: usize) -> &[TailSpot]
    ensures { (growth : Growth) → slice_get known.now place ≡ Some (Some growth) → result.now ≡ growth.tails }
{
    match known.get(place) {
        Some(Some(growth)) => growth.tails.as_slice(),
        _ => &[],
    }
}

// Finds how a structure grows, unless it was found already.
#[cycle(growths)]
fn find_growth(
    alloc: Global,
    program: &Program,
    planes: &[Plane],
    place: usize,
    depth: usize,
    known: &mut Vec<Option<Growth>>,
) -> Result<(), AllocError>
    requires settled { Settled program.now }
    requires laid_out { AreLaidOut program.now planes.now }
    requires within { (other : ℕ) → ¬ IsTooLarge program.now planes.now other }
    requires inside { place < length program.now.structures }
    requires all { length known.old.items ≡ length program.now.structures }
    requires right { AreFound program.now planes.now known.old.items }
    requires shallow { IsWithinDepth program.now place depth }
    ensures keeps { OnOk result (KeepsFound known.old.items known.new.items) }
    ensures right { OnOk result (AreFound program.now planes.now known.new.items) }
    ensures found { OnOk result (IsFound known.new.items place) }
{
    if is_found(known.as_slice(), place) {
        return Ok(());
    }
    let tails = find_tails(alloc, program, planes, place, depth, known)?;
    known[place] = Some(Growth {
        tails: List::of(tails),
    });
    Ok(())
}

// The arrays with a length inside a structure, after those inside its members. Members of one type are looked at once.
#[cycle(growths)]
fn find_tails(
    alloc: Global,
    program: &Program,
    planes: &[Plane],
    place: usize,
    depth: usize,
    known: &mut Vec<Option<Growth>>,
) -> Result<Vec<TailSpot>, AllocError>
    requires settled { Settled program.now }
    requires laid_out { AreLaidOut program.now planes.now }
    requires within { (other : ℕ) → ¬ IsTooLarge program.now planes.now other }
    requires inside { place < length program.now.structures }
    requires all { length known.old.items ≡ length program.now.structures }
    requires right { AreFound program.now planes.now known.old.items }
    requires shallow { IsWithinDepth program.now place depth }
    ensures keeps { OnOk result (KeepsFound known.old.items known.new.items) }
    ensures right { OnOk result (AreFound program.now planes.now known.new.items) }
    ensures tails { IfOk result (λ tails. AreTails program.now planes.now (type_id place) tails.items) }
{
    let structure = &program.structures.as_slice()[place];
    if !structure.is_union {
        return tails_of_struct(alloc, structure, &planes[place], planes);
    }
    let mut tails = Vec::new(alloc);
    // The structures whose arrays are among them already.
    let mut taken = vec![in alloc; false; program.structures.len()]?;
    for field in structure.fields.as_slice() {
        if let Ty::Node { id, .. } = &field.ty {
            let inner = id.0 as usize;
            if !taken[inner] {
                taken[inner] = true;
                find_growth(alloc, program, planes, inner, depth - 1, known)?;
                add_tails(&mut tails, tails_at(known.as_slice(), inner))?;
            }
        }
    }
    Ok(tails)
}

// Nothing found yet of so many structures.
fn none_found(alloc: Global, structures: &[Structure]) -> Result<Vec<Option<Growth>>, AllocError>
    ensures { IfOk result (λ known. known.items ≡ replicate (length structures.now) None) }
{
    let mut known = Vec::new(alloc);
    for _ in structures {
        known.push(None)?;
    }
    Ok(known)
}

// What was found, in the order of the structures.
fn all_found(alloc: Global, known: Vec<Option<Growth>>) -> Result<List<Growth>, AllocError>
    ensures { IfOk result (λ growths. growths ≡ filter_map (λ growth. growth) known.items) }
{
    let mut growths = Vec::new(alloc);
    for growth in known {
        if let Some(growth) = growth {
            growths.push(growth)?;
        }
    }
    Ok(List::of(growths))
}

/// How each structure of a program grows, where these are their planes, and none is too large. Each structure is looked at once, with
/// at most `MAX_DEPTH` calls inside one another. The time is linear in the number of all members, and for each union in the number of
/// structures, at most 4,096, and in the arrays of its distinct member types, of which each list has at most one for each structure;
/// each array is sought by halves, and a new size of elements moves the larger ones by one place.
pub fn growths_of(
    alloc: Global,
    program: &Program,
    planes: &[Plane],
) -> Result<List<Growth>, AllocError>
    requires settled { Settled program.now }
    requires laid_out { AreLaidOut program.now planes.now }
    requires within { (place : ℕ) → ¬ IsTooLarge program.now planes.now place }
    ensures made { IfOk result (AreGrowths program.now planes.now) }
{
    let mut known = none_found(alloc, program.structures.as_slice())?;
    for place in 0..program.structures.len() {
        find_growth(alloc, program, planes, place, MAX_DEPTH, &mut known)?;
    }
    all_found(alloc, known)
}
