// Which structures contain a structure.
ghost use Rattle.std.specs.Prelude.{◌≡◌, ◌∷◌, ◌≤◌, ℕ, [], true, length, Contains, IfOk, OnOk};
ghost use Rattle.gt_types.specs.declared.limits.TheConstants.{MAX_STRUCTURES};
ghost use Rattle.gt_paths.specs.Containers.{AddsHeld, AddsNumber, Adds, AreContainersOf, containers_of};

use crate::structures::held_by;
use gt_types::{Field, List, Program, TypeId};
use indexmap::IndexMap;
use std::alloc::{AllocError, Global};

/// For each structure the numbers of those that contain it, in ascending order.
#[derive(Drop)]
pub struct Containers {
    lists: IndexMap<u32, List<u32>>,
}

// Whether a number is the last of these.
fn ends_with(ids: &[u32], id: u32) -> bool
    ensures there { result ≡ true → Contains ids.now id }
{
    match ids {
        [] => false,
        [.., last] => *last == id,
    }
}

// Numbers with one more at the end, if it is not the last already.
fn with_number(ids: List<u32>, id: u32) -> Result<List<u32>, AllocError>
    ensures added { IfOk result (AddsNumber ids id) }
{
    if ends_with(ids.as_slice(), id) {
        return Ok(ids);
    }
    let mut made = ids;
    made.push(id)?;
    Ok(made)
}

impl Containers {
    /// The containers of each structure of a program. Its only error is out of memory.
    pub fn of_program(alloc: Global, program: &Program) -> Result<Containers, AllocError>
        requires few { length program.now.structures ≤ MAX_STRUCTURES }
        ensures containers { IfOk result (AreContainersOf program.now) }
    {
        let mut made = Containers {
            lists: IndexMap::new(alloc),
        };
        for (place, s) in program.structures.as_slice().iter().enumerate() {
            made.add_fields(alloc, place as u32, s.fields.as_slice())?;
        }
        Ok(made)
    }

    /// The containers of a structure.
    pub fn of(&self, inner: TypeId) -> &[u32]
        ensures containers { result.now ≡ containers_of self.now inner.0 }
    {
        match self.lists.get(&inner.0) {
            None => &[],
            Some(list) => list.as_slice(),
        }
    }

    // The containers of a structure, which are taken out.
    fn take(&mut self, alloc: Global, inner: u32) -> List<u32>
        ensures taken { result ≡ containers_of self.old inner }
        ensures left { (id : ℕ) → ¬ (id ≡ inner) → containers_of self.new id ≡ containers_of self.old id }
    {
        match self.lists.swap_remove(&inner) {
            None => List::new(alloc),
            Some(list) => list,
        }
    }

    // Adds a container of a structure, where it is not the last that was added.
    fn add(&mut self, alloc: Global, inner: u32, outer: u32) -> Result<(), AllocError>
        ensures added { OnOk result (Adds self.old inner outer self.new) }
    {
        let list = with_number(self.take(alloc, inner), outer)?;
        self.lists.insert(inner, list)?;
        Ok(())
    }

    // Adds a structure to the containers of what a field holds.
    fn add_field(&mut self, alloc: Global, outer: u32, f: &Field) -> Result<(), AllocError>
        ensures added { OnOk result (AddsHeld self.old outer (f.now ∷ []) self.new) }
    {
        match held_by(&f.ty) {
            None => Ok(()),
            Some(inner) => {
                self.add(alloc, inner.0, outer)?;
                Ok(())
            }
        }
    }

    // Adds a structure to the containers of what its fields hold.
    fn add_fields(&mut self, alloc: Global, outer: u32, fields: &[Field]) -> Result<(), AllocError>
        ensures added { OnOk result (AddsHeld self.old outer fields.now self.new) }
    {
        for f in fields {
            self.add_field(alloc, outer, f)?;
        }
        Ok(())
    }
}
