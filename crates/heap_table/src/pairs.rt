// The pairs of caches.
ghost use Rattle.std.specs.Prelude.{◌≡◌, ◌≢◌, ◌≤◌, All, AllPairs, length, map};
ghost use Rattle.std.specs.Bool.{Decides};
ghost use Rattle.std.specs.List.{AllZip};
ghost use Rattle.gt_tree.specs.Blocks.{Nodes};
ghost use Rattle.gt_value.specs.Names.{kind_of};
ghost use Rattle.gt_graph.specs.Objects.{pairs_in};
ghost use Rattle.gt_graph.specs.Good.{IsSingle, ArePairsOf};
ghost use Rattle.heap_table.specs.Graphs.{objects_of, pairs_of, IsPairOf};

use crate::blocks::find;
use crate::graphs::{Object, Pair};
use gt_types::{Cache, TypeId};
use gt_value::BlockKind;

// Whether an object is a single structure of a type.
fn holds_one(o: &Object, node: TypeId) -> bool
    ensures { Decides result ((kind_of o.now.kind ≡ Nodes node) × (o.now.count ≡ 1)) }
{
    o.kind == BlockKind::Nodes(node) && o.count == 1
}

// Whether a name is that of a single structure of a type.
fn is_single(objects: &[Object], id: u64, node: TypeId) -> bool
    ensures { Decides result (IsSingle (objects_of objects.now) id node) }
{
    match find(objects, id) {
        Some(o) => holds_one(o, node),
        None => false,
    }
}

// Whether a pair is one of a cache's types.
fn is_pair(objects: &[Object], cache: &Cache, pair: &Pair) -> bool
    ensures { Decides result (IsPairOf (objects_of objects.now) cache.now pair.now) }
{
    is_single(objects, pair.key, cache.key) && is_single(objects, pair.value, cache.value)
}

// Whether each pair is one of a cache's types.
fn are_singles(objects: &[Object], cache: &Cache, pairs: &[Pair]) -> bool
    ensures { Decides result (All (IsPairOf (objects_of objects.now) cache.now) pairs.now) }
{
    let [first, rest @ ..] = pairs else {
        return true;
    };
    is_pair(objects, cache, first) && are_singles(objects, cache, rest)
}

// Whether no pair has this key.
fn is_no_key(pairs: &[Pair], key: u64) -> bool
    ensures { Decides result (All (λ other. key ≢ other.key) pairs.now) }
{
    pairs.iter().all(|other| other.key != key)
}

// Whether no key stands twice.
fn has_distinct_keys(pairs: &[Pair]) -> bool
    ensures { Decides result (AllPairs (λ pair other. pair.key ≢ other.key) pairs.now) }
{
    let [first, rest @ ..] = pairs else {
        return true;
    };
    is_no_key(rest, first.key) && has_distinct_keys(rest)
}

// Whether these are pairs of a cache.
fn are_pairs_of(objects: &[Object], cache: &Cache, pairs: &[Pair]) -> bool
    ensures { Decides result (ArePairsOf (objects_of objects.now) cache.now (pairs_of pairs.now)) }
{
    are_singles(objects, cache, pairs) && has_distinct_keys(pairs)
}

/// Whether there are as many lists of pairs as caches, and each has pairs of its cache.
pub fn are_pairs(objects: &[Object], caches: &[Cache], lists: &[Vec<Pair>]) -> bool
    ensures { Decides result (AllZip (ArePairsOf (objects_of objects.now)) caches.now (map (λ pairs. pairs_of pairs.items) lists.now)) }
{
    let [cache, others @ ..] = caches else {
        return lists.is_empty();
    };
    let [pairs, rest @ ..] = lists else {
        return false;
    };
    are_pairs_of(objects, cache, pairs.as_slice()) && are_pairs(objects, others, rest)
}

/// Whether there is room for all pairs.
pub fn have_room(lists: &[Vec<Pair>], room: usize) -> bool
    ensures { Decides result (pairs_in (map (λ pairs. pairs_of pairs.items) lists.now) ≤ room) }
{
    match lists {
        [] => true,
        [first, rest @ ..] => first.len() <= room && have_room(rest, room - first.len()),
    }
}
