// For each structure those that may be outermost around it.
ghost use Rattle.std.specs.Prelude.{◌≡◌, Some, IfOk, IfSome, OnOk, option_copied, slice_get};
ghost use Rattle.gt_paths.specs.Containers.{AreContainersOf};
ghost use Rattle.gt_paths.specs.Ancestors.{AreAncestors, TellAncestors};
ghost use Rattle.gt_paths.specs.Outers.{AreOutersOf};

use crate::containers::Containers;
use gt_sets::StructureSet;
use gt_types::{List, MAX_DEPTH, MAX_STRUCTURES, Program, TypeId};
use std::alloc::{AllocError, Global};
use std::rc::Rc;

// The set of a structure, where it is known.
fn recall(known: &[Option<Rc<StructureSet>>], node: u32) -> Option<&Rc<StructureSet>>
    ensures known { IfSome result (λ set. slice_get known.now node ≡ Some (Some set.now)) }
{
    match known.get(node as usize) {
        Some(Some(set)) => Some(set),
        _ => None,
    }
}

// Keeps the set of a structure, where there is a place for it.
fn remember(
    known: &mut Vec<Option<Rc<StructureSet>>>,
    node: u32,
    set: &Rc<StructureSet>,
) -> Result<(), AllocError>
    ensures told { (containers : Containers) → TellAncestors containers known.old.items → AreAncestors containers node set.now.value → OnOk result (TellAncestors containers known.new.items) }
{
    let place = node as usize;
    if place < known.len() {
        known[place] = Some(set.clone()?);
    }
    Ok(())
}

// The set of a structure: it itself, and those above each that contains it.
fn ancestors_of(
    alloc: Global,
    containers: &Containers,
    node: u32,
    depth: usize,
    known: &mut Vec<Option<Rc<StructureSet>>>,
) -> Result<Rc<StructureSet>, AllocError>
    requires told { TellAncestors containers.now known.old.items }
    ensures ancestors { IfOk result (λ set. AreAncestors containers.now node set.value) }
    ensures told { OnOk result (TellAncestors containers.now known.new.items) }
{
    if let Some(set) = recall(known, node) {
        return set.clone();
    }
    let mut found = StructureSet::new(alloc)?;
    found.insert(node)?;
    for outer in containers.of(TypeId(node)) {
        if depth == 0 {
            return Err(AllocError);
        }
        let above = ancestors_of(alloc, containers, *outer, depth - 1, known)?;
        found.insert_all(&above);
    }
    let set = Rc::new(alloc, found)?;
    remember(known, node, &set)?;
    Ok(set)
}

// So many structures of which nothing is known yet.
fn empty_memo(alloc: Global, count: usize) -> Result<Vec<Option<Rc<StructureSet>>>, AllocError>
    ensures none { (containers : Containers) → IfOk result (λ known. TellAncestors containers known.items) }
{
    let mut known = Vec::new(alloc);
    for _ in 0..count {
        known.push(None)?;
    }
    Ok(known)
}

/// For each structure of a program those that may be outermost around it: itself, and all that contain it at some depth.
#[derive(Drop)]
pub struct Outers {
    sets: List<Rc<StructureSet>>,
}

impl Outers {
    /// Those of each structure of a program. Each containment is taken once, and joins 64 words; each structure takes 512 bytes. Its only
    /// error is out of memory, which it also says of structures that nest deeper than `MAX_DEPTH`: no program that headers declare has any.
    pub fn of_program(
        alloc: Global,
        program: &Program,
        containers: &Containers,
    ) -> Result<Outers, AllocError>
        requires containers { AreContainersOf program.now containers.now }
        ensures outers { IfOk result (AreOutersOf program.now) }
    {
        let count = program.structures.len();
        if count > MAX_STRUCTURES {
            return Err(AllocError);
        }
        let mut known = empty_memo(alloc, count)?;
        let mut sets = List::new(alloc);
        for node in 0..count as u32 {
            sets.push(ancestors_of(alloc, containers, node, MAX_DEPTH, &mut known)?)?;
        }
        Ok(Outers { sets })
    }

    /// Those of a structure; None where the program has no structure of this number.
    pub fn of(&self, node: TypeId) -> Option<&Rc<StructureSet>>
        ensures outers { option_copied result ≡ slice_get self.now.sets node.0 }
    {
        self.sets.get(node.0 as usize)
    }
}
