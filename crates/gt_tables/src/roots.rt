// The walks of roots.
ghost use Rattle.std.specs.Prelude.{◌≡◌, ◌≤◌, ◌+◌, ◌*◌, ◌++◌, [], ◌∷◌, ℕ, List, true, false, length, flat_map, IfOk, OnOk, All, Contains};
ghost use Rattle.std.specs.List.{filter};
ghost use Rattle.gt_types.specs.Shapes.{dimensions};
ghost use Rattle.gt_layout.specs.Progress.{HoldsWithinDepth};
ghost use Rattle.gt_types.specs.Contains.{HasStructure};
ghost use Rattle.gt_walk.specs.Nested.{parts_in};
ghost use Rattle.gt_tables.specs.Building.{IsSource, first_of, AreRows, AreParts, Grows, Shallow, IsThere, number_of_walks, AreServed, ServesRoot, ServesRoots, IsWalkOfRoot};
ghost use Rattle.gt_tables.specs.Counting.{Counted};
ghost use Rattle.gt_edges.specs.Edges.{has_walk};

use crate::forms::{add_row, note};
use crate::parts::Parts;
use crate::rows::type_row;
use crate::sizes::root_address;
use crate::sources::{Lies, Source};
use gt_types::{MAX_DEPTH, Root};
use gt_walk::WalkRow;
use std::alloc::AllocError;

// The rows of a root, which lies at an address.
fn root_rows(
    source: &Source<'_>,
    parts: &mut Parts,
    root: &Root,
    address: u32,
) -> Result<Vec<WalkRow>, AllocError>
    requires source { IsSource source.now }
    requires parts { AreParts source.now.program.now parts.old }
    requires shallow { HoldsWithinDepth source.now.program.now root.now.ty 33 }
    requires flat { dimensions root.now.ty ≤ 4 }
    requires served { AreServed source.now parts.old }
    requires root { Contains source.now.program.now.roots root.now }
    ensures grows { OnOk result (Grows source.now.program.now parts.old parts.new) }
    ensures counted { IfOk result (λ rows. (n : ℕ) (own hand : List ℕ) → Counted source.now parts.old n own hand → Counted source.now parts.new (n + 1) own (hand ++ flat_map parts_in rows.items)) }
    ensures served { OnOk result (AreServed source.now parts.new) }
    ensures serves { IfOk result (λ rows. ServesRoot source.now parts.new.walks.items root.now address rows.items) }
    ensures rows { IfOk result (λ rows. AreRows (first_of source.now) parts.new.walks.items Shallow rows.items) }
{
    let mut rows = note(source.alloc, source.layouts.statics.size, None)?;
    let lies = Lies::in_root();
    let row = type_row(source, parts, lies, &root.ty, address, MAX_DEPTH + 1)?;
    add_row(&mut rows, row)?;
    Ok(rows)
}

// Adds the walk of a root, unless it is deletable.
fn add_root(
    source: &Source<'_>,
    parts: &mut Parts,
    root: &Root,
    address: u32,
    roots: &mut Vec<u32>,
) -> Result<(), AllocError>
    requires source { IsSource source.now }
    requires parts { AreParts source.now.program.now parts.old }
    requires shallow { HoldsWithinDepth source.now.program.now root.now.ty 33 }
    requires flat { dimensions root.now.ty ≤ 4 }
    requires served { AreServed source.now parts.old }
    requires root { Contains source.now.program.now.roots root.now }
    requires roots { All (IsThere (first_of source.now) parts.old.walks.items) roots.old.items }
    ensures grows { OnOk result (Grows source.now.program.now parts.old parts.new) }
    ensures counted { OnOk result ((n : ℕ) (hand : List ℕ) → Counted source.now parts.old (n + 2 * length roots.old.items) roots.old.items hand → Counted source.now parts.new (n + 2 * length roots.new.items) roots.new.items hand) }
    ensures served { OnOk result (AreServed source.now parts.new) }
    ensures serves { OnOk result (root.now.deletable ≡ false → (walk : ℕ) × (roots.new.items ≡ roots.old.items ++ walk ∷ []) × IsWalkOfRoot source.now parts.new.walks.items root.now address walk) }
    ensures skips { OnOk result (root.now.deletable ≡ true → roots.new.items ≡ roots.old.items) }
    ensures roots { OnOk result (All (IsThere (first_of source.now) parts.new.walks.items) roots.new.items) }
    ensures count { OnOk result (length roots.new.items ≡ length roots.old.items + number_of_walks root.now.deletable) }
{
    if root.deletable {
        return Ok(());
    }
    let rows = root_rows(source, parts, root, address)?;
    let walk = parts.add(source.first_part(), rows)?;
    roots.push(walk)?;
    Ok(())
}

// The walks of the roots that are not deletable.
pub fn root_walks(source: &Source<'_>, parts: &mut Parts) -> Result<Vec<u32>, AllocError>
    requires source { IsSource source.now }
    requires parts { AreParts source.now.program.now parts.old }
    requires served { AreServed source.now parts.old }
    ensures grows { OnOk result (Grows source.now.program.now parts.old parts.new) }
    ensures counted { IfOk result (λ roots. (n : ℕ) (hand : List ℕ) → Counted source.now parts.old n [] hand → Counted source.now parts.new (n + 2 * length roots.items) roots.items hand) }
    ensures serves { IfOk result (λ roots. ServesRoots source.now parts.new.walks.items (length source.now.program.now.roots) roots.items) }
    ensures roots { IfOk result (λ roots. All (IsThere (first_of source.now) parts.new.walks.items) roots.items) }
    ensures count { IfOk result (λ roots. length roots.items ≡ length (filter has_walk source.now.program.now.roots)) }
{
    let spots = source.layouts.statics.fields.as_slice();
    let mut roots = Vec::new(source.alloc);
    let all = source.program.roots.as_slice();
    for (i, root) in all.iter().enumerate() {
        let address = root_address(source.start, spots, i);
        add_root(source, parts, root, address, &mut roots)?;
    }
    Ok(roots)
}
