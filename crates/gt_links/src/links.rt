ghost use Rattle.std.specs.Prelude.{◌≡◌, ℕ, ◌+◌, ◌^◌, ◌<◌, ◌≤◌, [], ◌∷◌, ◌++◌, length, nat_eq, slice_get, IfOk, IfSome, IfNone, Some, None};
ghost use Rattle.std.specs.List.{IsDistinct};
ghost use Rattle.gt_links.specs.Lists.{empty_lists, nodes_of, with_nodes, without, Holds, IsInList, IsFree, StandsAt, AreDisjoint};

use crate::rings::{Neighbour, Rings};
use std::alloc::{AllocError, Global};
use std::marker::Model;

/// Lists of nodes, where lists and nodes go by their numbers and each node is in at most one list.
///
/// Each call but `new` takes constant time and no memory.
#[derive(Drop)]
pub struct Links {
    rings: Rings,
}

impl Model for Links {
    ghost use Rattle.gt_links.specs.Lists.{Lists};

    ghost Value = { Lists };

    ghost use Rattle.gt_links.specs.Links.{lists_of, IsMadeOf};

    ghost view = { λ a. lists_of a.rings };

    ghost invariant = { λ a. IsMadeOf a.rings (lists_of a.rings) };
}

impl Links {
    /// So many lists, numbered from 0 and empty, and so many nodes, numbered from 0 and in no list. It takes time
    /// and memory in proportion to both, and fails only when out of memory.
    pub fn new(alloc: Global, lists: u32, nodes: u32) -> Result<Links, AllocError>
        ensures empty { IfOk result (λ links. links ≡ empty_lists lists nodes) }
    {
        Ok(Links {
            rings: Rings::new(alloc, lists, nodes)?,
        })
    }

    /// Puts a node that is in no list at the front of a list.
    pub fn push_front(&mut self, list: u32, node: u32)
        requires list { list < length self.old.lists }
        requires node { node < self.old.nodes }
        requires free { IsFree self.old node }
        ensures front { self.new ≡ with_nodes self.old list (node ∷ nodes_of self.old list) }
    {
        self.rings.insert_after(Neighbour::Head(list), node, list);
    }

    /// Puts a node that is in no list at the back of a list.
    pub fn push_back(&mut self, list: u32, node: u32)
        requires list { list < length self.old.lists }
        requires node { node < self.old.nodes }
        requires free { IsFree self.old node }
        ensures back { self.new ≡ with_nodes self.old list (nodes_of self.old list ++ node ∷ []) }
    {
        let last = self.rings.entry(Neighbour::Head(list)).previous;
        self.rings.insert_after(last, node, list);
    }

    /// Takes a node out of the list that it is in.
    pub fn unlink(&mut self, node: u32)
        requires node { node < self.old.nodes }
        requires linked { IsInList self.old node }
        ensures taken { (i : ℕ) → Holds self.old i node
            → self.new ≡ with_nodes self.old i (without node (nodes_of self.old i)) }
        ensures free { IsFree self.new node }
    {
        self.rings.remove(node);
    }

    /// Moves a node to the back of the list that it is in.
    pub fn move_back(&mut self, node: u32)
        requires node { node < self.old.nodes }
        requires linked { IsInList self.old node }
        ensures moved { (i : ℕ) → Holds self.old i node
            → self.new ≡ with_nodes self.old i (without node (nodes_of self.old i) ++ node ∷ []) }
    {
        let list = self.list_of(node).unwrap();
        self.unlink(node);
        self.push_back(list, node);
    }

    /// The first node of a list, or `None` where the list is empty.
    pub fn first(&self, list: u32) -> Option<u32>
        requires { list < length self.now.lists }
        ensures first { result ≡ slice_get (nodes_of self.now list) 0 }
        ensures held { IfSome result (λ node. Holds self.now list node) }
        ensures bounded { IfSome result (λ node. node < self.now.nodes) }
    {
        self.rings.entry(Neighbour::Head(list)).next.node()
    }

    /// The node after a node in its list, or `None` where the node is the last or is in no list.
    pub fn next(&self, node: u32) -> Option<u32>
        requires { node < self.now.nodes }
        ensures after { (i k : ℕ) → StandsAt self.now i k node
            → result ≡ slice_get (nodes_of self.now i) (k + 1) }
        ensures held { (i : ℕ) → Holds self.now i node
            → IfSome result (λ after. Holds self.now i after) }
        ensures free { IsFree self.now node → result ≡ None }
        ensures bounded { IfSome result (λ after. after < self.now.nodes) }
    {
        let entry = self.rings.entry(Neighbour::Node(node));
        if entry.list.is_none() {
            return None;
        }
        entry.next.node()
    }

    /// The list that a node is in, or `None` where it is in no list.
    pub fn list_of(&self, node: u32) -> Option<u32>
        requires { node < self.now.nodes }
        ensures linked { IfSome result (λ i. Holds self.now i node) }
        ensures within { IfSome result (λ i. i < length self.now.lists) }
        ensures free { IfNone result (IsFree self.now node) }

        // There is no other list that it could be.
        ensures one { (i : ℕ) → Holds self.now i node → result ≡ Some i }
    {
        self.rings.entry(Neighbour::Node(node)).list
    }

    /// Does nothing, and tells a proof what holds of the lists at all times: no node stands twice, in one list or in
    /// two, each is below the number of nodes, no list has more nodes than there are, and of lists and of nodes there
    /// are fewer than 2 ^ 32 each.
    pub fn lists_are_disjoint(&self)
        ensures distinct { (i : ℕ) → IsDistinct nat_eq (nodes_of self.now i) }
        ensures disjoint { AreDisjoint self.now }
        ensures bounded { (i x : ℕ) → Holds self.now i x → x < self.now.nodes }
        ensures short { (i : ℕ) → length (nodes_of self.now i) ≤ self.now.nodes }
        ensures nodes { self.now.nodes < 2 ^ 32 }
        ensures lists { length self.now.lists < 2 ^ 32 }
    {
        let _rings = &self.rings;
    }
}
