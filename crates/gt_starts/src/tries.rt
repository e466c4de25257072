// Paths of names by number.
ghost use Rattle.std.specs.Prelude.{◌≡◌, ℕ, List, Some, None, IfOk};
ghost use Rattle.gt_starts.specs.Tries.{number_of, child, node_of};
ghost use Rattle.gt_starts.specs.Nodes.{Grows, AreApart};

use gt_names::NameIndex;
use gt_types::Word;
use std::alloc::{AllocError, Global};
use std::collections::BTreeMap;
use std::marker::Model;

/// The node of the path without names.
pub const ROOT: u32 = 0;

// A step from a node by the number of a name.
#[derive(Clone, Copy, PartialEq, Eq, PartialOrd, Ord)]
pub struct Step {
    pub from: u32,
    pub name: u32,
}

/// Paths of names as nodes, to which names lead from the root one after another. Each name is kept once. Contracts see the names and the
/// steps.
#[derive(Drop)]
pub struct Trie {
    names: NameIndex,
    steps: BTreeMap<Step, u32>,
    // How many nodes there are.
    count: u32,
}

impl Model for Trie {
    ghost use Rattle.gt_starts.specs.Tries.{Trie};

    ghost Value = { Trie };

    ghost use Rattle.gt_starts.specs.Nodes.{IsTrie};

    ghost view = { λ t. record { names = t.names; steps = t.steps.entries } };

    ghost invariant = { λ t. IsTrie (record { names = t.names; steps = t.steps.entries }) t.count };
}

impl Trie {
    /// The root alone. It takes no memory.
    pub fn new(alloc: Global) -> Trie
        ensures none { (name : List ℕ) → number_of result name ≡ None }
    {
        Trie {
            names: NameIndex::new(alloc),
            steps: BTreeMap::new(alloc),
            count: 1,
        }
    }

    /// The node to which a name leads from a node. It takes no memory, and its time grows with the logarithm of the number of nodes.
    pub fn child(&self, node: u32, name: &Word) -> Option<u32>
        ensures child { result ≡ child self.now node name.now }
    {
        let number = self.names.get(name)?;
        let name = u32::try_from(number).ok()?;
        self.steps.get(&Step { from: node, name }).copied()
    }

    // The number of a name, which is added where it is new. Its only error is out of memory.
    fn add_name(&mut self, name: &Word) -> Result<usize, AllocError>
        ensures number { IfOk result (λ number. number_of self.new name.now ≡ Some number) }
        ensures children { (node : ℕ) (other : List ℕ) → child self.new node other ≡ child self.old node other }
        ensures grows { Grows self.old self.new }
        ensures apart { AreApart self.new }
    {
        self.names.add(name)
    }

    /// The node to which names lead from the root, which is made where there is none. It takes 12 bytes for each node, and its time grows
    /// with the names. Its only error is out of memory; no path is lost where it fails.
    pub fn add(&mut self, names: &[Word]) -> Result<u32, AllocError>
        ensures node { IfOk result (λ node. node_of self.new names.now ≡ Some node) }
        ensures grows { Grows self.old self.new }
        ensures apart { AreApart self.new }
    {
        // The loop asks that no two paths lead to one node, which the fields say.
        let _ = &self.count;
        let mut node = ROOT;
        for name in names {
            node = self.add_child(node, name)?;
        }
        Ok(node)
    }

    /// The node to which a name leads from a node, which is made where there is none. Its only error is out of memory; no path is lost
    /// where it fails.
    pub fn add_child(&mut self, node: u32, name: &Word) -> Result<u32, AllocError>
        requires there { (path : List (List ℕ)) × (node_of self.old path ≡ Some node) }
        requires apart { AreApart self.old }
        ensures child { IfOk result (λ next. child self.new node name.now ≡ Some next) }
        ensures grows { Grows self.old self.new }
        ensures apart { AreApart self.new }
    {
        if let Some(next) = self.child(node, name) {
            return Ok(next);
        }
        let number = self.add_name(name)?;
        let Ok(name) = u32::try_from(number) else {
            return Err(AllocError);
        };
        let next = self.count;
        let count = next.checked_add(1).ok_or(AllocError)?;
        self.steps.insert(Step { from: node, name }, next)?;
        self.count = count;
        Ok(next)
    }
}
