// The structures that contain others at any depth.
ghost use Rattle.std.specs.Prelude.{◌≡◌, nat_eq, IfOk, OnOk};
ghost use Rattle.indexmap.specs.IndexSet.{IsUnique, insert_all};
ghost use Rattle.gt_paths.specs.Containers.{AreContainersOf};
ghost use Rattle.gt_paths.specs.Climbs.{AreAbove};

use crate::containers::Containers;
use gt_types::{Program, TypeId};
use indexmap::IndexSet;
use std::alloc::{AllocError, Global};

// Adds the numbers that are new.
fn add_all(found: &mut IndexSet<u32>, ids: &[u32]) -> Result<(), AllocError>
    requires unique { IsUnique nat_eq found.old }
    ensures added { OnOk result (found.new.keys ≡ insert_all nat_eq found.old.keys ids.now) }
    ensures unique { OnOk result (IsUnique nat_eq found.new) }
{
    for id in ids {
        found.insert(*id)?;
    }
    Ok(())
}

/// Structures, and all that contain one of them at any depth. Each containment is taken once.
pub fn climb(
    program: &Program,
    containers: &Containers,
    from: IndexSet<u32>,
) -> Result<IndexSet<u32>, AllocError>
    requires containers { AreContainersOf program.now containers.now }
    ensures above { IfOk result (λ found. AreAbove program.now from.keys found.keys) }
{
    let most = from.len() + program.structures.as_slice().len();
    let mut found = from;
    'steps: for step in 0..most {
        let Some(id) = found.get_index(step).copied() else {
            return Ok(found);
        };
        add_all(&mut found, containers.of(TypeId(id)))?;
    }
    Ok(found)
}
