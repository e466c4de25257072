// Which structures are of a tail type: those that are reached from structs that end in an array with `length`, along edges from
// each structure to the unions of which it is a member.
ghost use Rattle.std.specs.Prelude.{◌≡◌, [], ◌∷◌, ◌++◌, length, map, replicate, filter_map, if◌then◌else◌, IfOk, OnOk};
ghost use Rattle.gt_shapes.specs.Graphs.{AreReached, with_edge, with_edges, with_turned};
ghost use Rattle.gt_drafts.specs.Shapes.{is_tail_array, ends_in_tail, member_structure};
ghost use Rattle.gt_shapes.specs.TailGraphs.{is_tail_struct, members_of, tail_structs};

use crate::reach::reach;
use gt_drafts::{DraftField, DraftStructure, has_length, has_skip, held_type};
use gt_types::List;
use std::alloc::{AllocError, Global};

fn is_tail_array(f: &DraftField) -> bool
    ensures array { result ≡ is_tail_array f.now }
{
    has_length(f.options.as_slice()) && !f.ty.bounds.is_empty() && !f.ty.is_function
}

fn ends_in_tail(fields: &[DraftField]) -> bool
    ensures tail { result ≡ ends_in_tail fields.now }
{
    if fields.is_empty() {
        return false;
    }
    is_tail_array(&fields[fields.len() - 1])
}

fn is_tail_struct(s: &DraftStructure) -> bool
    ensures tail { result ≡ is_tail_struct s.now }
{
    !s.is_union && ends_in_tail(s.fields.as_slice())
}

// Adds a place, where it is one of those that are wanted.
fn push_if(places: &mut Vec<usize>, wanted: bool, place: usize) -> Result<(), AllocError>
    ensures pushed { OnOk result (places.new.items ≡ places.old.items ++ (if wanted then place ∷ [] else [])) }
{
    if wanted {
        places.push(place)?;
    }
    Ok(())
}

// The places of the structs that end in an array with `length`.
fn tail_structs(alloc: Global, structures: &[DraftStructure]) -> Result<Vec<usize>, AllocError>
    ensures places { IfOk result (λ places. places.items ≡ tail_structs 0 structures.now) }
{
    let mut places = Vec::new(alloc);
    for (place, s) in structures.iter().enumerate() {
        push_if(&mut places, is_tail_struct(s), place)?;
    }
    Ok(places)
}

fn member_structure(f: &DraftField) -> Option<usize>
    ensures member { result ≡ member_structure f.now }
{
    if has_skip(f.options.as_slice()) {
        return None;
    }
    if !f.ty.bounds.is_empty() {
        return None;
    }
    held_type(&f.ty)
}

// Adds the structure that a member of a union is, where it is one.
fn push_member(ids: &mut List<usize>, field: &DraftField) -> Result<(), AllocError>
    ensures pushed { OnOk result (ids.new ≡ ids.old ++ filter_map member_structure (field.now ∷ [])) }
{
    match member_structure(field) {
        None => Ok(()),
        Some(id) => Ok(ids.push(id)?),
    }
}

fn members_in(alloc: Global, fields: &[DraftField]) -> Result<List<usize>, AllocError>
    ensures members { IfOk result (λ ids. ids ≡ filter_map member_structure fields.now) }
{
    let mut ids = List::new(alloc);
    for field in fields {
        push_member(&mut ids, field)?;
    }
    Ok(ids)
}

// The structures that are members of a union; a struct has none.
fn members_of(alloc: Global, s: &DraftStructure) -> Result<List<usize>, AllocError>
    ensures members { IfOk result (λ ids. ids ≡ members_of s.now) }
{
    if !s.is_union {
        return Ok(List::new(alloc));
    }
    members_in(alloc, s.fields.as_slice())
}

fn all_members(alloc: Global, structures: &[DraftStructure]) -> Result<Vec<List<usize>>, AllocError>
    ensures members { IfOk result (λ graph. graph.items ≡ map members_of structures.now) }
{
    let mut graph = Vec::new(alloc);
    for s in structures {
        graph.push(members_of(alloc, s)?)?;
    }
    Ok(graph)
}

fn no_edges(alloc: Global, places: usize) -> Result<Vec<List<usize>>, AllocError>
    ensures none { IfOk result (λ graph. graph.items ≡ replicate places []) }
{
    let mut graph = Vec::new(alloc);
    for _place in 0..places {
        graph.push(List::new(alloc))?;
    }
    Ok(graph)
}

fn add_edge(graph: &mut [List<usize>], from: usize, to: usize) -> Result<(), AllocError>
    ensures added { OnOk result (graph.new ≡ with_edge graph.old from to) }
{
    if from >= graph.len() {
        return Ok(());
    }
    graph[from].push(to)?;
    Ok(())
}

fn add_edges(graph: &mut [List<usize>], froms: &[usize], to: usize) -> Result<(), AllocError>
    ensures added { OnOk result (graph.new ≡ with_edges froms.now to graph.old) }
{
    for from in froms {
        add_edge(graph, *from, to)?;
    }
    Ok(())
}

// The graph with its edges turned round.
fn reverse_edges(alloc: Global, graph: &[List<usize>]) -> Result<Vec<List<usize>>, AllocError>
    ensures turned { IfOk result (λ turned. turned.items ≡ with_turned 0 graph.now (replicate (length graph.now) [])) }
{
    let mut turned = no_edges(alloc, graph.len())?;
    for (place, edges) in graph.iter().enumerate() {
        add_edges(&mut turned, edges.as_slice(), place)?;
    }
    Ok(turned)
}

/// For each structure whether it is of a tail type.
pub fn tail_types(alloc: Global, structures: &[DraftStructure]) -> Result<Vec<bool>, AllocError>
    ensures tails { IfOk result (λ tails. AreReached (with_turned 0 (map members_of structures.now) (replicate (length structures.now) [])) (tail_structs 0 structures.now) tails.items) }
{
    let members = all_members(alloc, structures)?;
    let unions = reverse_edges(alloc, &members)?;
    let structs = tail_structs(alloc, structures)?;
    reach(alloc, &unions, &structs)
}
