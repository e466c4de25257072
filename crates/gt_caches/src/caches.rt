// The pairs of caches.
ghost use Rattle.std.specs.Prelude.{◌≡◌, ◌≤◌, ◌<◌, ◌+◌, ℕ, [], List, Some, None, IfOk, IfSome, OnOk, OnErr, MatchOption, length, map, replicate, slice_get, slice_set};
ghost use Rattle.gt_graph.specs.Objects.{pairs_in};
ghost use Rattle.gt_graph.specs.Good.{MAX_PAIRS};
ghost use Rattle.gt_next.specs.Caching.{value_of_key, with_pair};
ghost use Rattle.gt_caches.specs.Pairs.{Entry, pairs_of, staying, decided, IsEntryAt};
ghost use Rattle.gt_caches.specs.Kept.{staying_in};
ghost use Rattle.gt_caches.specs.Staying.{entry_in};

use crate::keyed::KeyedPairs;
use std::alloc::{AllocError, Global};
use std::marker::Model;

/// A pair of a cache: the addresses of its key and of its value, and whether it stays when a collection ends.
#[derive(Clone, Copy, Debug, PartialEq, Eq)]
pub struct Pair {
    pub key: u64,
    pub value: u64,
    pub stays: bool,
}

/// Caches, which contracts see as their entries in order. How many pairs they have together is known without counting.
#[derive(Drop)]
pub struct Caches {
    caches: Vec<KeyedPairs>,
    total: usize,
}

impl Model for Caches {
    ghost use Rattle.std.specs.Prelude.{◌≡◌};
    ghost use Rattle.gt_graph.specs.Objects.{pairs_in};
    ghost use Rattle.gt_caches.specs.Pairs.{Entries, pairs_of};

    ghost Value = { Entries };

    ghost view = { λ c. c.caches.items };

    ghost invariant = { λ c. c.total ≡ pairs_in (pairs_of c.caches.items) };
}

impl Caches {
    /// So many caches without a pair. It fails only if memory runs out.
    pub fn new(alloc: Global, count: usize) -> Result<Caches, AllocError>
        ensures none { IfOk result (λ c. c ≡ replicate count []) }
    {
        let mut caches = Vec::new(alloc);
        for _ in 0..count {
            caches.push(KeyedPairs::new(alloc))?;
        }
        Ok(Caches { caches, total: 0 })
    }

    /// How many pairs all caches have together.
    pub fn len(&self) -> usize
        ensures pairs { result ≡ pairs_in (pairs_of self.now) }
    {
        self.total
    }

    /// The value of a key in a cache, or None where it has none.
    pub fn value(&self, cache: usize, key: u64) -> Option<u64>
        requires there { cache < length self.now }
        ensures value { (pairs : List (ℕ × ℕ)) → slice_get (pairs_of self.now) cache ≡ Some pairs → result ≡ value_of_key key pairs }
    {
        self.caches[cache].value(key)
    }

    /// Gives a key this value: an old key keeps its place, and a new one stands last. If memory runs out, nothing changes.
    pub fn put(&mut self, cache: usize, key: u64, value: u64) -> Result<(), AllocError>
        requires there { cache < length self.old }
        requires few { pairs_in (pairs_of self.old) ≤ MAX_PAIRS }
        ensures put { OnOk result ((pairs : List (ℕ × ℕ)) → slice_get (pairs_of self.old) cache ≡ Some pairs → pairs_of self.new ≡ slice_set (pairs_of self.old) cache (with_pair key value pairs)) }
        ensures unchanged { OnErr result (self.new ≡ self.old) }
    {
        let pairs = &mut self.caches[cache];
        let before = pairs.len();
        pairs.put(key, value)?;
        self.total += pairs.len() - before;
        Ok(())
    }

    /// The pair at a place of a cache, with whether it stays, or None from its end on.
    pub fn get(&self, cache: usize, i: usize) -> Option<Pair>
        requires there { cache < length self.now }
        ensures pair { (pairs : List (ℕ × ℕ)) → slice_get (pairs_of self.now) cache ≡ Some pairs → MatchOption result (slice_get pairs i ≡ None) (λ pair. slice_get pairs i ≡ Some (pair.key, pair.value)) }
        ensures stays { IfSome result (λ pair. IsEntryAt self.now cache i (entry_in pair)) }
    {
        let (key, held) = self.caches[cache].get(i)?;
        Some(Pair {
            key,
            value: held.value,
            stays: held.stays,
        })
    }

    /// Says whether the pair at a place of a cache stays when a collection ends. It takes no memory.
    pub fn decide(&mut self, cache: usize, i: usize, stays: bool)
        requires there { (e : Entry) × IsEntryAt self.old cache i e }
        ensures decided { self.new ≡ decided self.old cache i stays }
    {
        self.caches[cache].decide(i, stays);
    }

    /// Drops the pairs that do not stay, and says how many these were. It takes no memory.
    pub fn keep_staying(&mut self) -> u32
        requires few { pairs_in (pairs_of self.old) ≤ MAX_PAIRS }
        ensures kept { pairs_of self.new ≡ staying self.old }
        ensures dropped { pairs_in (pairs_of self.new) + result ≡ pairs_in (pairs_of self.old) }
    {
        let dropped = keep_staying(&mut self.caches);
        self.total -= dropped;
        dropped as u32
    }
}

// Drops the pairs that do not stay, and says how many these were.
fn keep_staying(caches: &mut [KeyedPairs]) -> usize
    requires few { pairs_in (pairs_of caches.old) ≤ MAX_PAIRS }
    ensures kept { caches.new ≡ map staying_in caches.old }
    ensures dropped { pairs_in (pairs_of caches.new) + result ≡ pairs_in (pairs_of caches.old) }
{
    let mut dropped = 0;
    for cache in caches.iter_mut() {
        dropped += cache.keep_staying();
    }
    dropped
}
