// The pairs of one cache.
ghost use Rattle.std.specs.Prelude.{◌≡◌, ◌+◌, ◌≤◌, ◌<◌, [], IfOk, OnOk, OnErr, MatchOption, None, Some, filter, length, map, option_map, slice_get};
ghost use Rattle.gt_next.specs.Caching.{value_of_key, with_pair};
ghost use Rattle.gt_caches.specs.Pairs.{decided_at, pair_of};
ghost use Rattle.gt_caches.specs.Held.{entry_of};
ghost use Rattle.gt_caches.specs.Kept.{staying_in};

use indexmap::IndexMap;
use std::alloc::{AllocError, Global};
use std::marker::Model;

// The value of a key, and whether the pair stays.
#[derive(Clone, Copy)]
pub(crate) struct Held {
    pub(crate) value: u64,
    pub(crate) stays: bool,
}

// The pairs of one cache, which contracts see as its entries in order.
#[derive(Drop)]
pub(crate) struct KeyedPairs {
    held: IndexMap<u64, Held>,
}

impl Model for KeyedPairs {
    ghost use Rattle.std.specs.Prelude.{List, map};
    ghost use Rattle.gt_caches.specs.Pairs.{Entry};
    ghost use Rattle.gt_caches.specs.Held.{entry_of};

    ghost Value = { List Entry };

    ghost view = { λ p. map entry_of p.held.entries };
}

impl KeyedPairs {
    // No pairs. It takes no memory.
    pub(crate) fn new(alloc: Global) -> KeyedPairs
        ensures none { result ≡ [] }
    {
        KeyedPairs {
            held: IndexMap::new(alloc),
        }
    }

    // How many pairs there are.
    pub(crate) fn len(&self) -> usize
        ensures len { result ≡ length self.now }
    {
        self.held.len()
    }

    // The value of a key.
    pub(crate) fn value(&self, key: u64) -> Option<u64>
        ensures value { result ≡ value_of_key key (map pair_of self.now) }
    {
        let held = self.held.get(&key)?;
        Some(held.value)
    }

    // Gives a key this value. If memory runs out, nothing changes.
    pub(crate) fn put(&mut self, key: u64, value: u64) -> Result<(), AllocError>
        ensures put { OnOk result (map pair_of self.new ≡ with_pair key value (map pair_of self.old)) }
        ensures more { OnOk result ((length self.old ≤ length self.new) × (length self.new ≤ length self.old + 1)) }
        ensures unchanged { OnErr result (self.new ≡ self.old) }
    {
        self.held.insert(key, Held { value, stays: true })?;
        Ok(())
    }

    // The key at a place with what is held of it, or None from the end on.
    pub(crate) fn get(&self, i: usize) -> Option<(u64, Held)>
        ensures entry { option_map entry_of result ≡ slice_get self.now i }
    {
        let (key, held) = self.held.get_index(i)?;
        Some((*key, *held))
    }

    // Says whether the pair at a place stays.
    pub(crate) fn decide(&mut self, i: usize, stays: bool)
        requires there { i < length self.old }
        ensures decided { self.new ≡ decided_at self.old i stays }
    {
        self.held[i].stays = stays;
    }

    // Drops the pairs that do not stay, and says how many these were.
    pub(crate) fn keep_staying(&mut self) -> usize
        ensures kept { self.new ≡ staying_in self.old }
        ensures dropped { length self.new + result ≡ length self.old }
    {
        let before = self.held.len();
        self.held.retain(
            |_key: &u64, held: &mut Held| -> bool
                ensures { (result ≡ held.old.stays) × (held.new ≡ held.old) }
            { held.stays },
        );
        before - self.held.len()
    }
}
