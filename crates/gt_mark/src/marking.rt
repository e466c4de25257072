//! Marking from a block and from the roots.
ghost use Rattle.std.specs.Prelude.{◌≡◌, ℕ, List, [], ◌∷◌, None, Contains, All};
ghost use Rattle.gt_walk.specs.Rows.{Edge, edges_of};
ghost use Rattle.gt_mark.specs.Steps.{Task, Suits, Goes, Holds, state_of, with_targets};
ghost use Rattle.gt_mark.specs.Wide.{Wide};
ghost use Rattle.gt_mark.specs.Reached.{Walks, CanMark, NamesBlock, root_edges, root_targets};
ghost use Rattle.gt_mark.specs.Marks.{Marks};
ghost use Rattle.gt_mark.specs.Rounds.{AreRounds};

use crate::marker::Marker;
use gt_pages::Pages;
use gt_space::Space;
use gt_walk::{EdgeSink, Tables, visit};

/// Marks the block that starts at an address, which is walked by this walk with so many elements, and all blocks that edges reach from
/// there. The answer is the number of rounds: one, and one more for each pass over blocks for which the stack of 64 had no room. It
/// takes no memory, and its time is linear in the newly marked blocks and in the elements and rows that are walked in them, and for each
/// pass in the pages from the first to the last block that was left to it.
pub fn mark_from(
    tables: &Tables,
    space: &Space,
    pages: &mut Pages,
    addr: u64,
    walk: u32,
    count: u32,
) -> u32
    requires ready { (walks : Walks) × (walks addr ≡ record { walk = walk; count = count }) × CanMark tables.now space.now walks pages.old.slots (addr ∷ []) }
    ensures marked { (walks : Walks) → walks addr ≡ record { walk = walk; count = count } → CanMark tables.now space.now walks pages.old.slots (addr ∷ [])
        → Marks tables.now space.now walks (addr ∷ []) pages.old pages.new }
    ensures rounds { (walks : Walks) → walks addr ≡ record { walk = walk; count = count } → CanMark tables.now space.now walks pages.old.slots (addr ∷ [])
        → AreRounds tables.now space.now walks (addr ∷ []) pages.old.slots pages.new.slots result }
{
    pages.sound();
    let mut marker = Marker::new(pages);
    marker.edge(0, addr, walk, count);
    marker.walk_stack(tables, space);
    marker.walk_rest(tables, space)
}

// Marks the blocks that one root names, and those that edges reach from there.
fn take_root(tables: &Tables, space: &Space, walk: u32, marker: &mut Marker<'_>)
    requires ready { (t : Task tables.now space.now) × (begun : List ℕ) × Holds t begun None (state_of marker.old) × All (Suits t) (edges_of tables.now walk 1 space.now 0) }
    ensures same_reference { marker.new.pages.ghost_name ≡ marker.old.pages.ghost_name }
    ensures goes { (t : Task tables.now space.now) (begun : List ℕ) → Holds t begun None (state_of marker.old) → All (Suits t) (edges_of tables.now walk 1 space.now 0)
        → Goes t (with_targets (edges_of tables.now walk 1 space.now 0) begun) None (state_of marker.old) (state_of marker.new) }
    ensures wide { (t : Task tables.now space.now) (begun : List ℕ) → Holds t begun None (state_of marker.old) → All (Suits t) (edges_of tables.now walk 1 space.now 0)
        → ((e : Edge) → Contains (edges_of tables.now walk 1 space.now 0) e → Contains t.starts e.target) → Wide t (state_of marker.old) None → Wide t (state_of marker.new) None }
    ensures empty { marker.new.stack.items ≡ [] }
{
    visit(tables, walk, 1, space, 0, marker);
    marker.walk_stack(tables, space);
}

/// The same from the blocks that the roots name.
pub fn mark_roots(tables: &Tables, space: &Space, pages: &mut Pages) -> u32
    requires ready { (walks : Walks) × All (NamesBlock pages.old.slots walks) (root_edges tables.now space.now) × CanMark tables.now space.now walks pages.old.slots (root_targets tables.now space.now) }
    ensures marked { (walks : Walks) → All (NamesBlock pages.old.slots walks) (root_edges tables.now space.now) → CanMark tables.now space.now walks pages.old.slots (root_targets tables.now space.now)
        → Marks tables.now space.now walks (root_targets tables.now space.now) pages.old pages.new }
    ensures rounds { (walks : Walks) → All (NamesBlock pages.old.slots walks) (root_edges tables.now space.now) → CanMark tables.now space.now walks pages.old.slots (root_targets tables.now space.now)
        → AreRounds tables.now space.now walks (root_targets tables.now space.now) pages.old.slots pages.new.slots result }
{
    pages.sound();
    let mut marker = Marker::new(pages);
    for walk in tables.roots.as_slice() {
        take_root(tables, space, *walk, &mut marker);
    }
    marker.walk_rest(tables, space)
}
