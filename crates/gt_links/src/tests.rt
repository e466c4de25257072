ghost use Rattle.std.specs.Prelude.{◌≡◌, ◌<◌, length, slice_get};
ghost use Rattle.gt_links.specs.Lists.{nodes_of};
ghost use Rattle.gt_links.specs.declared.tests.TheConstants.{LISTS, NODES};

use crate::Links;
use crate::plain::Plain;
use std::alloc::{AllocError, Global};
use std::process::Abort;
use std::test::Fail;

const LISTS: u32 = 4;

const NODES: u32 = 12;

#[derive(Clone, Copy)]
enum Call {
    PushFront,
    PushBack,
    Unlink,
    MoveBack,
}

/// Linked lists and plain ones that have been through the same calls.
#[derive(Drop)]
struct Both {
    links: Links,
    plain: Plain,
    ghost lists: { length links.lists ≡ LISTS },
    ghost nodes: { links.nodes ≡ NODES },
}

impl Both {
    fn new(alloc: Global) -> Result<Both, AllocError> {
        Ok(Both {
            links: Links::new(alloc, LISTS, NODES)?,
            plain: Plain::new(alloc, LISTS)?,
        })
    }

    /// Makes the call of both, and says whether the node was where the call wants it.
    fn call(&mut self, call: Call, list: u32, node: u32) -> Result<bool, AllocError>
        requires list { list < LISTS }
        requires node { node < NODES }
    {
        match (call, self.links.list_of(node)) {
            (Call::PushFront, None) => {
                self.links.push_front(list, node);
                self.plain.push_front(list, node)?;
            }
            (Call::PushBack, None) => {
                self.links.push_back(list, node);
                self.plain.push_back(list, node)?;
            }
            (Call::Unlink, Some(_)) => {
                self.links.unlink(node);
                self.plain.unlink(node);
            }
            (Call::MoveBack, Some(_)) => {
                self.links.move_back(node);
                self.plain.move_back(node)?;
            }
            _ => return Ok(false),
        }
        Ok(true)
    }

    /// Wants the same nodes in each list, and each node in the same list.
    fn compare(&self, rt: &impl Abort) {
        for list in 0..LISTS {
            match self.plain.nodes(list) {
                Some(nodes) => follow(rt, &self.links, list, nodes),
                None => panic!(rt; "no list {list}"),
            }
        }
        for node in 0..NODES {
            assert_eq!(rt;
                self.links.list_of(node),
                self.plain.list_of(node),
                "node {node}"
            );
        }
    }
}

/// The call that a number draws.
fn drawn_call(number: u32) -> Call {
    match number % 4 {
        0 => Call::PushFront,
        1 => Call::PushBack,
        2 => Call::Unlink,
        _ => Call::MoveBack,
    }
}

/// The second node of a list: what a caller learns from the clauses alone.
fn second_of(links: &Links, list: u32) -> Option<u32>
    requires { list < length links.now.lists }
    ensures { result ≡ slice_get (nodes_of links.now list) 1 }
{
    let first = links.first(list)?;
    links.next(first)
}

/// Follows the nodes of a list and wants exactly these.
fn follow(rt: &impl Abort, links: &Links, list: u32, nodes: &[u32])
    requires lists { list < length links.now.lists }
    requires nodes { links.now.nodes ≡ NODES }
{
    assert_eq!(rt;
        second_of(links, list),
        nodes.get(1).copied(),
        "second in list {list}"
    );
    let mut found = links.first(list);
    for node in nodes {
        assert_eq!(rt; found, Some(*node), "in list {list}");
        assert!(rt; *node < NODES);
        assert_eq!(rt; links.list_of(*node), Some(list), "node {node}");
        found = links.next(*node);
    }
    assert_eq!(rt; found, None, "at the end of list {list}");
}

#[test]
fn lists_after_each_call(rt: HostRuntime) -> Result<(), Fail> {
    let mut both = Both::new(rt.alloc())?;
    for (call, list, node, first, second) in [
        (Call::PushFront, 0, 3, [3].as_slice(), [].as_slice()),
        (Call::PushFront, 0, 5, [5, 3].as_slice(), [].as_slice()),
        (Call::PushBack, 0, 0, [5, 3, 0].as_slice(), [].as_slice()),
        (Call::PushBack, 1, 11, [5, 3, 0].as_slice(), [11].as_slice()),
        (Call::MoveBack, 0, 5, [3, 0, 5].as_slice(), [11].as_slice()),
        (Call::MoveBack, 0, 0, [3, 5, 0].as_slice(), [11].as_slice()),
        (Call::MoveBack, 0, 0, [3, 5, 0].as_slice(), [11].as_slice()),
        (Call::Unlink, 0, 5, [3, 0].as_slice(), [11].as_slice()),
        (Call::PushFront, 1, 5, [3, 0].as_slice(), [5, 11].as_slice()),
        (Call::Unlink, 0, 3, [0].as_slice(), [5, 11].as_slice()),
        (Call::Unlink, 0, 0, [].as_slice(), [5, 11].as_slice()),
    ] {
        assert!(rt; both.call(call, list, node)?);
        follow(&rt, &both.links, 0, first);
        follow(&rt, &both.links, 1, second);
    }
    both.links.lists_are_disjoint();
    assert_eq!(rt; both.links.next(3), None, "in no list");
    Ok(())
}

#[test]
fn mixed_calls_leave_the_lists_of_the_plain_program(rt: HostRuntime) -> Result<(), Fail> {
    let mut both = Both::new(rt.alloc())?;
    let mut drawn = 1u32;
    let mut calls = 0u32;
    for _ in 0..800 {
        // The multiplier and the increment are those of Numerical Recipes; the low bits repeat soon.
        drawn = drawn.wrapping_mul(1664525).wrapping_add(1013904223);
        let number = drawn >> 8;
        if both.call(drawn_call(number), number / 4 % LISTS, number / 16 % NODES)? {
            calls = calls.saturating_add(1);
        }
        both.compare(&rt);
    }
    assert!(rt; calls >= 300, "only {calls} of the calls were made");
    Ok(())
}
