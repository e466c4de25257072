// Paths of names, each with the structures at which it begins.
ghost use Rattle.std.specs.Prelude.{◌≡◌, ◌⊎◌, ◌↔◌, ℕ, List, true, Some, OnOk, OnErr};
ghost use Rattle.gt_sets.specs.Sets.{IsIn};
ghost use Rattle.gt_starts.specs.Ways.{way_to, LeadsAlong};
ghost use Rattle.gt_starts.specs.Paths.{BeginsIn, EndsFrom};

use crate::begins::{Begins, any_at, extended, has_at};
use crate::ends::add_ends;
use crate::tries::{ROOT, Trie};
use crate::ways::{Led, node_on_way};
use gt_sets::StructureSet;
use gt_types::{Program, TypeId, Word};
use std::alloc::{AllocError, Global};
use std::marker::Model;
use std::rc::Rc;

/// Paths of names, each with the structures at which it begins. Each name of a path makes at most two nodes, which take some 65 bytes each:
/// that to which the names up to it lead, and that of the path's last name in its place. A set that is added with a path takes 8 bytes at
/// each name, up to eight sets; where there are more, they are joined into one of 512 bytes. Contracts see the paths with these sets.
#[derive(Drop)]
pub struct PathSet {
    alloc: Global,
    trie: Trie,
    // Of each node where the path to it begins.
    begins: Vec<Begins>,
    // Of each node to which some names and a last one lead where the paths begin that have these names first, and go on to end in the last
    // one.
    ends: Vec<Begins>,
}

impl Model for PathSet {
    ghost use Rattle.gt_starts.specs.Paths.{Starts};
    ghost use Rattle.gt_starts.specs.Ends.{AreEndsOf};

    ghost Value = { Starts };

    ghost view = { λ p. record { trie = p.trie; begins = p.begins.items } };

    ghost invariant = { λ p. AreEndsOf (record { trie = p.trie; begins = p.begins.items }) p.ends.items };
}

impl PathSet {
    /// No paths. It takes no memory.
    pub fn new(alloc: Global) -> PathSet
        ensures none { (names : List (List ℕ)) (begin : ℕ) → ¬ BeginsIn result names begin }
    {
        PathSet {
            alloc,
            trie: Trie::new(alloc),
            begins: Vec::new(alloc),
            ends: Vec::new(alloc),
        }
    }

    /// Adds a path that begins at each of these structures. It keeps the set and does not copy it. Its time grows with the path alone. Its
    /// only error is out of memory; the paths are then as before.
    pub fn add(&mut self, names: &[Word], begins: &Rc<StructureSet>) -> Result<(), AllocError>
        ensures added { OnOk result ((path : List (List ℕ)) (begin : ℕ) → BeginsIn self.new path begin ↔ (BeginsIn self.old path begin ⊎ ((path ≡ names.now) × IsIn begins.now.value begin))) }
        ensures unchanged { OnErr result ((path : List (List ℕ)) (begin : ℕ) → BeginsIn self.new path begin ↔ BeginsIn self.old path begin) }
    {
        let node = self.trie.add(names)? as usize;
        let here = extended(self.alloc, &mut self.begins, node, begins)?;
        add_ends(
            self.alloc,
            &mut self.trie,
            &mut self.ends,
            ROOT,
            names,
            begins,
        )?;
        self.begins[node] = here;
        Ok(())
    }

    /// Whether a path that begins at a structure may lead from there to the leaf at a path of places, whose field has the name `last`. It
    /// takes no memory, and its time grows with the path alone.
    pub fn leads(&self, program: &Program, begin: TypeId, path: &[u32], last: &Word) -> bool
        ensures leads { result ≡ true ↔ ((names : List (List ℕ)) × BeginsIn self.now names begin.0 × LeadsAlong (way_to program.now (Some begin) path.now) last.now names) }
    {
        match node_on_way(&self.trie, program, Some(begin), path, ROOT) {
            Led::Known(node) => has_at(&self.begins, node as usize, begin.0),
            Led::Hidden(node) => match self.trie.child(node, last) {
                Some(end) => has_at(&self.ends, end as usize, begin.0),
                None => false,
            },
            Led::Nowhere => false,
        }
    }

    /// Whether some path that begins anywhere ends in a name. It takes no memory, and its time grows with the name, and with the logarithm
    /// of the number of nodes.
    pub fn ends(&self, last: &Word) -> bool
        ensures ends { result ≡ true ↔ ((begin : ℕ) × EndsFrom self.now last.now begin) }
    {
        match self.trie.child(ROOT, last) {
            Some(end) => any_at(&self.ends, end as usize),
            None => false,
        }
    }
}
