// Distinct places of roots.
ghost use Rattle.gt_leaf.specs.Collecting.{with_place};
ghost use Rattle.std.specs.List.{list_any};
ghost use Rattle.std.specs.Prelude.{◌≡◌, [], nat_eq, OnOk};

use indexmap::IndexSet;
use std::alloc::{AllocError, Global};
use std::marker::Model;

/// Distinct places of roots. Whether a place is one of them is found in constant time. Contracts see their list.
#[derive(Drop)]
pub struct PlaceSet {
    places: IndexSet<u32>,
}

impl Model for PlaceSet {
    ghost use Rattle.std.specs.Prelude.{ℕ, List};

    ghost Value = { List ℕ };

    ghost view = { λ p. p.places.keys };
}

impl PlaceSet {
    /// No places. It takes no memory.
    pub fn new(alloc: Global) -> PlaceSet
        ensures empty { result ≡ [] }
    {
        PlaceSet {
            places: IndexSet::new(alloc),
        }
    }

    /// Whether a place is one of them. It takes no memory.
    pub fn has(&self, place: u32) -> bool
        ensures there { result ≡ list_any (nat_eq place) self.now }
    {
        self.places.contains(&place)
    }

    /// Adds a place, where it is new. Its only error is out of memory.
    pub fn add(&mut self, place: u32) -> Result<(), AllocError>
        ensures added { OnOk result (self.new ≡ with_place self.old place) }
    {
        self.places.insert(place)?;
        Ok(())
    }
}
