// Which structures contain which by value.
ghost use Rattle.std.specs.Prelude.{◌≡◌, ◌⊎◌, ℕ, ◌+◌, ◌<◌, ◌↔◌, true, IsTrue, Some, [], ◌∷◌, ◌++◌, length, map, filter_map, not, slice_get, IfOk, OnOk};
ghost use Rattle.std.specs.List.{list_any};
ghost use Rattle.gt_drafts.specs.declared.draft.DraftStructure.{DraftStructure};
ghost use Rattle.gt_shapes.specs.Cycles.{comes_before, FirstSoFar, IsPreceded};
ghost use Rattle.gt_drafts.specs.Shapes.{has_flag, held_in, held_type, is_nil};
ghost use Rattle.gt_shapes.specs.Graphs.{Reached, edges_at, nested_flags, one_deeper};

use crate::reach::{edges_at, reach};
use gt_drafts::{DraftField, DraftStructure, flag_at, held_type};
use gt_types::{List, MAX_DEPTH};
use std::alloc::{AllocError, Global};

// Adds the structure that a field contains by value, where it does.
fn push_inner(ids: &mut List<usize>, field: &DraftField) -> Result<(), AllocError>
    ensures pushed { OnOk result (ids.new ≡ ids.old ++ filter_map (λ f. held_type f.ty) (field.now ∷ [])) }
{
    match held_type(&field.ty) {
        None => Ok(()),
        Some(id) => Ok(ids.push(id)?),
    }
}

// The structures that a structure's fields contain by value, in order.
fn held_in(alloc: Global, s: &DraftStructure) -> Result<List<usize>, AllocError>
    ensures held { IfOk result (λ ids. ids ≡ held_in s.now) }
{
    let mut ids = List::new(alloc);
    for field in s.fields.as_slice() {
        push_inner(&mut ids, field)?;
    }
    Ok(ids)
}

/// The graph in which an edge leads from each structure to each that it contains by value.
pub fn containments(
    alloc: Global,
    structures: &[DraftStructure],
) -> Result<Vec<List<usize>>, AllocError>
    ensures graph { IfOk result (λ graph. graph.items ≡ map held_in structures.now) }
{
    let mut graph = Vec::new(alloc);
    for s in structures {
        graph.push(held_in(alloc, s)?)?;
    }
    Ok(graph)
}

// Whether an edge leads to a place with a flag.
fn some_flag(flags: &[bool], edges: &[usize]) -> bool
    ensures some { result ≡ list_any (has_flag flags.now) edges.now }
{
    edges.iter().any(|place| flag_at(flags, *place))
}

fn one_deeper(alloc: Global, graph: &[List<usize>], flags: &[bool]) -> Result<Vec<bool>, AllocError>
    ensures flags { IfOk result (λ deeper. deeper.items ≡ one_deeper graph.now flags.now) }
{
    let mut deeper = Vec::new(alloc);
    for edges in graph {
        deeper.push(some_flag(flags, edges.as_slice()))?;
    }
    Ok(deeper)
}

fn with_edges(alloc: Global, graph: &[List<usize>]) -> Result<Vec<bool>, AllocError>
    ensures flags { IfOk result (λ flags. flags.items ≡ map (λ edges. not (is_nil edges)) graph.now) }
{
    let mut flags = Vec::new(alloc);
    for edges in graph {
        flags.push(!edges.is_empty())?;
    }
    Ok(flags)
}

/// For each structure whether more than MAX_DEPTH containments stand one inside another from it on.
#[tactic(auto, unfolding(crate::specs::Graphs::nested_flags))]
pub fn too_deep(alloc: Global, graph: &[List<usize>]) -> Result<Vec<bool>, AllocError>
    ensures flags { IfOk result (λ flags. flags.items ≡ nested_flags graph.now MAX_DEPTH) }
{
    let mut flags = with_edges(alloc, graph)?;
    for _round in 0..MAX_DEPTH {
        flags = one_deeper(alloc, graph, &flags)?;
    }
    Ok(flags)
}

// Whether a path leads from a place back to it. From one that is not deep none does.
fn is_cyclic(
    alloc: Global,
    graph: &[List<usize>],
    deep: &[bool],
    place: usize,
) -> Result<bool, AllocError>
    requires deep { Reached graph.now (edges_at graph.now place) place → slice_get deep.now place ≡ Some true }
    requires within { place < length graph.now }
    ensures cycle { IfOk result (λ cycle. IsTrue cycle ↔ Reached graph.now (edges_at graph.now place) place) }
{
    if !flag_at(deep, place) {
        return Ok(false);
    }
    let reached = reach(alloc, graph, edges_at(graph, place))?;
    Ok(flag_at(&reached, place))
}

// Whether the tag of one structure stands before the tag of another.
fn comes_before(structures: &[DraftStructure], i: usize, j: usize) -> bool
    requires first { i < length structures.now }
    requires second { j < length structures.now }
    ensures same { (s t : DraftStructure) → slice_get structures.now i ≡ Some s → slice_get structures.now j ≡ Some t → result ≡ comes_before s t }
{
    let s = &structures[i];
    let t = &structures[j];
    s.file < t.file || (s.file == t.file && s.tag.at < t.tag.at)
}

// The first structure that is too deep among one more than so many, by that among so many.
fn first_with(
    structures: &[DraftStructure],
    deep: &[bool],
    first: Option<usize>,
    place: usize,
) -> Option<usize>
    requires within { place < length structures.now }
    requires so_far { FirstSoFar structures.now deep.now place first }
    ensures so_far { FirstSoFar structures.now deep.now (place + 1) result }
{
    if !flag_at(deep, place) {
        return first;
    }
    let Some(other) = first else {
        return Some(place);
    };
    if comes_before(structures, place, other) {
        Some(place)
    } else {
        Some(other)
    }
}

// The structure that is too deep and whose tag stands first.
fn first_deep(structures: &[DraftStructure], deep: &[bool]) -> Option<usize>
    ensures first { FirstSoFar structures.now deep.now (length structures.now) result }
{
    let mut first: Option<usize> = None;
    for place in 0..structures.len() {
        first = first_with(structures, deep, first, place);
    }
    first
}

// Whether a structure contains itself, where none that is too deep stands before it.
fn is_first_cyclic(
    alloc: Global,
    graph: &[List<usize>],
    structures: &[DraftStructure],
    deep: &[bool],
    first: Option<usize>,
    place: usize,
) -> Result<bool, AllocError>
    requires deep { Reached graph.now (edges_at graph.now place) place → slice_get deep.now place ≡ Some true }
    requires within { place < length graph.now }
    requires same { length graph.now ≡ length structures.now }
    requires first { FirstSoFar structures.now deep.now (length structures.now) first }
    ensures only { IfOk result (λ cycle. IsTrue cycle → Reached graph.now (edges_at graph.now place) place) }
    ensures known { IfOk result (λ cycle. Reached graph.now (edges_at graph.now place) place → IsTrue cycle ⊎ IsPreceded structures.now deep.now place) }
{
    let Some(first) = first else {
        return Ok(false);
    };
    if comes_before(structures, first, place) {
        return Ok(false);
    }
    is_cyclic(alloc, graph, deep, place)
}

/// For each structure whether it contains itself. Where one that is too deep stands before it, this may be left unsaid: a fault stands
/// at that one. So one structure alone is searched from, where no two have their tags at one place.
pub fn cyclic(
    alloc: Global,
    graph: &[List<usize>],
    structures: &[DraftStructure],
    deep: &[bool],
) -> Result<Vec<bool>, AllocError>
    requires deep { (i : ℕ) → Reached graph.now (edges_at graph.now i) i → slice_get deep.now i ≡ Some true }
    requires same { length graph.now ≡ length structures.now }
    ensures count { IfOk result (λ flags. length flags.items ≡ length graph.now) }
    ensures only { IfOk result (λ flags. (i : ℕ) → i < length graph.now → slice_get flags.items i ≡ Some true → Reached graph.now (edges_at graph.now i) i) }
    ensures known { IfOk result (λ flags. (i : ℕ) → i < length graph.now → Reached graph.now (edges_at graph.now i) i → (slice_get flags.items i ≡ Some true) ⊎ IsPreceded structures.now deep.now i) }
{
    let first = first_deep(structures, deep);
    let mut flags = Vec::new(alloc);
    for place in 0..graph.len() {
        flags.push(is_first_cyclic(alloc, graph, structures, deep, first, place)?)?;
    }
    Ok(flags)
}
