ghost use Rattle.std.specs.Prelude.{◌≡◌, IfOk, None};
ghost use Rattle.gt_links.specs.Rings.{node_of, index_of, IsPlace, lone_entries, entry_of, next_of, Writes, Joins, LinksAgree, Splices, Inserts, Removes};

use std::alloc::{AllocError, Global};

/// Where a link leads: to the head of a list, or to a node.
#[derive(Clone, Copy)]
pub(crate) enum Neighbour {
    Head(u32),
    Node(u32),
}

/// The links of a place, and of a node the list that it is in.
#[derive(Clone, Copy)]
pub(crate) struct Entry {
    pub(crate) previous: Neighbour,
    pub(crate) next: Neighbour,
    pub(crate) list: Option<u32>,
}

/// The entries of the heads and then of the nodes, in one vector. Along `next` the places form rings, and along
/// `previous` the same rings backwards.
#[derive(Drop)]
pub(crate) struct Rings {
    lists: u32,
    entries: Vec<Entry>,
}

impl Neighbour {
    /// The node that the place is, or `None` at a head.
    pub(crate) fn node(self) -> Option<u32>
        ensures { result ≡ node_of self }
    {
        match self {
            Neighbour::Head(_) => None,
            Neighbour::Node(node) => Some(node),
        }
    }
}

impl Entry {
    /// The entry of a place that is alone on its ring.
    fn alone(place: Neighbour) -> Self
        ensures { result ≡ record { previous = place; next = place; list = None } }
    {
        Entry {
            previous: place,
            next: place,
            list: None,
        }
    }
}

impl Rings {
    /// So many heads and nodes, each alone.
    pub(crate) fn new(alloc: Global, lists: u32, nodes: u32) -> Result<Self, AllocError>
        ensures lists { IfOk result (λ rings. rings.lists ≡ lists) }
        ensures alone { IfOk result (λ rings. rings.entries.items ≡ lone_entries lists nodes) }
    {
        let heads = (0..lists).map(|list| Entry::alone(Neighbour::Head(list)));
        let nodes = (0..nodes).map(|node| Entry::alone(Neighbour::Node(node)));
        Ok(Rings {
            lists,
            entries: heads.chain(nodes).collect(alloc)?,
        })
    }

    pub(crate) fn entry(&self, place: Neighbour) -> Entry
        requires { IsPlace self.now place }
        ensures { result ≡ entry_of self.now place }
    {
        self.entries[self.index(place)]
    }

    /// Puts a node that is alone right after `before`, and says that it is in this list.
    pub(crate) fn insert_after(&mut self, before: Neighbour, node: u32, list: u32)
        requires agree { LinksAgree self.old }
        requires before { IsPlace self.old before }
        requires node { IsPlace self.old (Neighbour.Node node) }
        requires alone { next_of self.old (Neighbour.Node node) ≡ Neighbour.Node node }
        ensures { Inserts self.old self.new before node list }
    {
        self.splice(before, Neighbour::Node(node));
        self.set_list(node, Some(list));
    }

    /// Takes a node off its ring, so that it is alone and in no list.
    pub(crate) fn remove(&mut self, node: u32)
        requires agree { LinksAgree self.old }
        requires node { IsPlace self.old (Neighbour.Node node) }
        ensures { Removes self.old self.new node }
    {
        let before = self.entry(Neighbour::Node(node)).previous;
        self.splice(before, Neighbour::Node(node));
        self.set_list(node, None);
    }

    /// Exchanges what comes after `first` with what comes after `second`. So a `second` that is alone comes right
    /// after `first`, and one that is right after `first` is alone.
    fn splice(&mut self, first: Neighbour, second: Neighbour)
        requires agree { LinksAgree self.old }
        requires first { IsPlace self.old first }
        requires second { IsPlace self.old second }
        ensures agree { LinksAgree self.new }
        ensures spliced { Splices self.old self.new first second }
    {
        let after_first = self.entry(first).next;
        let after_second = self.entry(second).next;
        self.join(first, after_second);
        self.join(second, after_first);
    }

    /// Makes `after` come right after `before`, in both directions.
    fn join(&mut self, before: Neighbour, after: Neighbour)
        requires before { IsPlace self.old before }
        requires after { IsPlace self.old after }
        ensures { Joins self.old self.new before after }
    {
        self.set_next(before, after);
        self.set_previous(after, before);
    }

    fn set_next(&mut self, place: Neighbour, next: Neighbour)
        requires { IsPlace self.old place }
        ensures { Writes self.old self.new place
            (record (entry_of self.old place) { next = next }) }
    {
        let index = self.index(place);
        self.entries[index].next = next;
    }

    fn set_previous(&mut self, place: Neighbour, previous: Neighbour)
        requires { IsPlace self.old place }
        ensures { Writes self.old self.new place
            (record (entry_of self.old place) { previous = previous }) }
    {
        let index = self.index(place);
        self.entries[index].previous = previous;
    }

    fn set_list(&mut self, node: u32, list: Option<u32>)
        requires { IsPlace self.old (Neighbour.Node node) }
        ensures { Writes self.old self.new (Neighbour.Node node)
            (record (entry_of self.old (Neighbour.Node node)) { list = list }) }
    {
        let index = self.index(Neighbour::Node(node));
        self.entries[index].list = list;
    }

    /// Where a place stands in the vector.
    fn index(&self, place: Neighbour) -> usize
        ensures { result ≡ index_of self.now place }
    {
        match place {
            Neighbour::Head(list) => list as usize,
            Neighbour::Node(node) => self.lists as usize + node as usize,
        }
    }
}
