// Distinct names, each with its place.
ghost use Rattle.std.specs.Prelude.{◌≡◌, ◌<◌, [], ◌∷◌, ◌++◌, length, position, IfOk, IfSome, OnOk, OnErr, Some, None};
ghost use Rattle.std.specs.Str.{bytes_eq};
ghost use Rattle.gt_names.specs.Lists.{with_name};
ghost use Rattle.gt_names.specs.Places.{hash_number, number_in, place_at};

use crate::places::{Places, hash_of, number_of};
use gt_types::{Copied, Word};
use std::alloc::{AllocError, Global};
use std::collections::BTreeMap;
use std::marker::Model;

/// Distinct names in the order in which they were added. A place is found in constant time, or in the logarithm of the number of names
/// where many have like hashes. Contracts see their list.
#[derive(Drop)]
pub struct NameIndex {
    alloc: Global,
    names: Vec<Word>,
    // Of each hash the place of the first name with it.
    places: Places,
    // The names whose hash another name had before.
    crowded: BTreeMap<Word, u32>,
}

impl Model for NameIndex {
    ghost use Rattle.std.specs.Prelude.{ℕ, List};

    ghost Value = { List (List ℕ) };

    ghost use Rattle.gt_names.specs.Places.{AreIndexed};

    ghost view = { λ n. n.names.items };

    ghost invariant = { λ n. AreIndexed n.places.places.items n.places.others n.crowded n.names.items };
}

impl NameIndex {
    /// No names. It takes no memory.
    pub fn new(alloc: Global) -> NameIndex
        ensures empty { result ≡ [] }
    {
        NameIndex {
            alloc,
            names: Vec::new(alloc),
            places: Places::new(alloc),
            crowded: BTreeMap::new(alloc),
        }
    }

    /// The place of a name, from 0.
    pub fn get(&self, name: &Word) -> Option<usize>
        ensures place { result ≡ position (λ other. bytes_eq other name.now) self.now }
        ensures within { IfSome result (λ i. i < length self.now) }
    {
        if let Some(number) = self.crowded.get(name) {
            return Some(*number as usize);
        }
        place_by_hash(&self.places, &self.names, name)
    }

    /// Adds a name at the end where it is new, and gives its place. Out of memory, the names are as before.
    pub fn add(&mut self, name: &Word) -> Result<usize, AllocError>
        ensures added { OnOk result (self.new ≡ with_name self.old name.now) }
        ensures place { IfOk result (λ i. Some i ≡ position (λ other. bytes_eq other name.now) self.new) }
        ensures unchanged { OnErr result (self.new ≡ self.old) }
    {
        if let Some(place) = self.get(name) {
            return Ok(place);
        }
        let place = self.names.len();
        self.push(name)?;
        Ok(place)
    }

    /// How many names there are.
    pub fn len(&self) -> usize
        ensures names { result ≡ length self.now }
    {
        self.names.len()
    }

    // Adds a new name at the end. Out of memory, the names are as before.
    fn push(&mut self, name: &Word) -> Result<(), AllocError>
        requires new { position (λ other. bytes_eq other name.now) self.old ≡ None }
        ensures added { OnOk result (self.new ≡ self.old ++ name.now ∷ []) }
        ensures unchanged { OnErr result (self.new ≡ self.old) }
    {
        let number = number_of(self.names.len())?;
        let text = name.copy(self.alloc)?;
        self.names.reserve(1)?;
        self.places.make_room(self.alloc, &self.names)?;
        let hash = hash_of(name);
        if self.places.get(hash).is_some() {
            self.crowded.insert(name.copy(self.alloc)?, number)?;
            self.names.push_reserved(text);
            return Ok(());
        }
        self.places.put(hash, number)?;
        self.names.push_reserved(text);
        Ok(())
    }
}

// The place of a name, where it is the first one with its hash.
fn place_by_hash(places: &Places, names: &[Word], name: &Word) -> Option<usize>
    ensures place { result ≡ place_at names.now name.now (number_in places.now.places.items places.now.others (hash_number name.now)) }
{
    let place = match places.get(hash_of(name)) {
        Some(number) => number as usize,
        None => return None,
    };
    match names.get(place) {
        Some(other) if other == name => Some(place),
        _ => None,
    }
}
