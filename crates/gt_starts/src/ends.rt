// The table of how paths go on and end.
ghost use Rattle.std.specs.Prelude.{◌≡◌, ◌≤◌, ℕ, List, Some, vec_len, OnOk, OnErr};
ghost use Rattle.gt_starts.specs.Begins.{sets_at};
ghost use Rattle.gt_starts.specs.Ends.{AddsEnds};
ghost use Rattle.gt_starts.specs.Nodes.{Grows, AreApart};
ghost use Rattle.gt_starts.specs.Tries.{node_of};

use crate::begins::{Begins, extended};
use crate::tries::Trie;
use gt_sets::StructureSet;
use gt_types::Word;
use std::alloc::{AllocError, Global};
use std::rc::Rc;

/// Adds structures at the last of these names after a node, and after each node to which the names before it lead from there. Its time
/// grows with the names. Its only error is out of memory; the rows are then as before.
pub fn add_ends(
    alloc: Global,
    trie: &mut Trie,
    ends: &mut Vec<Begins>,
    node: u32,
    names: &[Word],
    begins: &Rc<StructureSet>,
) -> Result<(), AllocError>
    requires there { (path : List (List ℕ)) × (node_of trie.old path ≡ Some node) }
    requires apart { AreApart trie.old }
    ensures grows { Grows trie.old trie.new }
    ensures apart { AreApart trie.new }
    ensures added { OnOk result ((before : List (List ℕ)) → node_of trie.old before ≡ Some node → AddsEnds trie.new before names.now ends.old.items ends.new.items begins.now.value) }
    ensures longer { vec_len ends.old ≤ vec_len ends.new }
    ensures unchanged { OnErr result ((i : ℕ) → sets_at ends.new.items i ≡ sets_at ends.old.items i) }
{
    let [.., last] = names else {
        return Ok(());
    };
    let [name, rest @ ..] = names else {
        return Ok(());
    };
    let end = trie.add_child(node, last)? as usize;
    let row = extended(alloc, ends, end, begins)?;
    let next = trie.add_child(node, name)?;
    add_ends(alloc, trie, ends, next, rest, begins)?;
    ends[end] = row;
    Ok(())
}
