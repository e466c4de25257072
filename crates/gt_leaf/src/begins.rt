// Sets of structures at which paths begin.
ghost use Rattle.gt_leaf.specs.Seeking.{IsContainer};
ghost use Rattle.gt_paths.specs.Containers.{AreContainersOf};
ghost use Rattle.gt_paths.specs.Outers.{IsOuter, AreOutersOf};
ghost use Rattle.gt_sets.specs.Sets.{IsIn};
ghost use Rattle.std.specs.Prelude.{◌≡◌, ◌↔◌, ℕ, Contains, IfOk};

use gt_paths::{Containers, Outers};
use gt_sets::StructureSet;
use gt_types::{Program, TypeId};
use std::alloc::{AllocError, Global};
use std::rc::Rc;

/// The set of one structure.
pub fn only(alloc: Global, id: u32) -> Result<Rc<StructureSet>, AllocError>
    ensures one { IfOk result (λ s. (i : ℕ) → IsIn s.value i ↔ (i ≡ id)) }
{
    let mut set = StructureSet::new(alloc)?;
    set.insert(id)?;
    Ok(Rc::new(alloc, set)?)
}

/// The set of these structures.
fn set_of(alloc: Global, ids: &[u32]) -> Result<StructureSet, AllocError>
    ensures these { IfOk result (λ s. (i : ℕ) → IsIn s i ↔ Contains ids.now i) }
{
    let mut set = StructureSet::new(alloc)?;
    for id in ids {
        set.insert(*id)?;
    }
    Ok(set)
}

/// The structures that contain one.
pub fn containers_of(
    alloc: Global,
    program: &Program,
    containers: &Containers,
    node: u32,
) -> Result<Rc<StructureSet>, AllocError>
    requires containers { AreContainersOf program.now containers.now }
    ensures containers { IfOk result (λ s. (i : ℕ) → IsIn s.value i ↔ IsContainer program.now node i) }
{
    let set = set_of(alloc, containers.of(TypeId(node)))?;
    Ok(Rc::new(alloc, set)?)
}

/// The structures that may be outermost around one: itself, and all that contain it at some depth. Its only error is out of memory, which
/// it says of a number that no structure has.
pub fn outers_of<'a>(
    program: &Program,
    outers: &'a Outers,
    node: u32,
) -> Result<&'a Rc<StructureSet>, AllocError>
    requires outers { AreOutersOf program.now outers.now }
    ensures outers { IfOk result (λ s. (i : ℕ) → IsIn s.now.value i ↔ IsOuter program.now node i) }
{
    match outers.of(TypeId(node)) {
        Some(set) => Ok(set),
        None => Err(AllocError),
    }
}
