// Numbers by hashes, so that no choice of hashes makes a look-up a walk.
ghost use Rattle.std.specs.Prelude.{◌≡◌, ◌<◌, ◌==◌, ℕ, [], None, Some, cond, replicate, IfOk, OnOk, OnErr, vec_len};
ghost use Rattle.gt_names.specs.Places.{hash_number, place_number, number_in, first_with, is_free, AreTaken};

use gt_types::Word;
use std::alloc::{AllocError, Global};
use std::collections::BTreeMap;
use std::hash::{FoldHasher, Hasher};

/// How many places there are at first. They are a power of two, and at least four times as many as names.
const FIRST_PLACES: usize = 8;

/// A hash and its number.
#[derive(Clone, Copy)]
pub struct Numbered {
    pub hash: u32,
    pub number: u32,
}

/// The number of each hash. It stands at the place that the last bits of the hash name, or in the map where that place is taken.
#[derive(Drop)]
pub struct Places {
    places: Vec<Option<Numbered>>,
    others: BTreeMap<u32, u32>,
}

impl Places {
    /// No numbers. It takes no memory.
    pub fn new(alloc: Global) -> Places
        ensures none { result.places.items ≡ [] }
        ensures taken { AreTaken result.places.items result.others }
    {
        Places {
            places: Vec::new(alloc),
            others: BTreeMap::new(alloc),
        }
    }

    /// The number of a hash.
    pub fn get(&self, hash: u32) -> Option<u32>
        ensures number { result ≡ number_in self.now.places.items self.now.others hash }
    {
        if self.places.is_empty() {
            return None;
        }
        match self.places[self.place(hash)] {
            None => None,
            Some(found) if found.hash == hash => Some(found.number),
            Some(_) => self.others.get(&hash).copied(),
        }
    }

    /// Makes room for a name after those that are there. The number of a hash is the place of the first name with it.
    pub fn make_room(&mut self, alloc: Global, names: &[Word]) -> Result<(), AllocError>
        requires taken { AreTaken self.old.places.items self.old.others }
        requires first { (hash : ℕ) → number_in self.old.places.items self.old.others hash ≡ first_with names.now hash }
        ensures taken { AreTaken self.new.places.items self.new.others }
        ensures first { (hash : ℕ) → number_in self.new.places.items self.new.others hash ≡ first_with names.now hash }
        ensures some { OnOk result (0 < vec_len self.new.places) }
    {
        let count = self.places.len();
        if names.len() < count / 4 {
            return Ok(());
        }
        *self = Places::of_names(alloc, names, count.saturating_mul(2).max(FIRST_PLACES))?;
        Ok(())
    }

    /// Gives a hash a number.
    pub fn put(&mut self, hash: u32, number: u32) -> Result<(), AllocError>
        requires some { 0 < vec_len self.old.places }
        requires taken { AreTaken self.old.places.items self.old.others }
        ensures taken { AreTaken self.new.places.items self.new.others }
        ensures put { OnOk result ((other : ℕ) → number_in self.new.places.items self.new.others other ≡ cond (hash == other) (Some number) (number_in self.old.places.items self.old.others other)) }
        ensures unchanged { OnErr result ((other : ℕ) → number_in self.new.places.items self.new.others other ≡ number_in self.old.places.items self.old.others other) }
        ensures count { vec_len self.new.places ≡ vec_len self.old.places }
    {
        let place = self.place(hash);
        let old = self.places[place];
        if is_free(old, hash) {
            self.places[place] = Some(Numbered { hash, number });
            return Ok(());
        }
        self.others.insert(hash, number)?;
        Ok(())
    }

    // The hashes of names among so many places.
    fn of_names(alloc: Global, names: &[Word], count: usize) -> Result<Places, AllocError>
        requires some { 0 < count }
        ensures taken { IfOk result (λ made. AreTaken made.places.items made.others) }
        ensures first { IfOk result (λ made. (hash : ℕ) → number_in made.places.items made.others hash ≡ first_with names.now hash) }
        ensures count { IfOk result (λ made. vec_len made.places ≡ count) }
    {
        let mut places = Places {
            places: free_places(alloc, count)?,
            others: BTreeMap::new(alloc),
        };
        let mut place = names.len();
        while place > 0 {
            place -= 1;
            places.put(hash_of(&names[place]), number_of(place)?)?;
        }
        Ok(places)
    }

    // The place of a hash.
    fn place(&self, hash: u32) -> usize
        requires some { 0 < vec_len self.now.places }
        ensures place { result ≡ place_number hash (vec_len self.now.places) }
        ensures within { result < vec_len self.now.places }
    {
        hash as usize & (self.places.len() - 1)
    }
}

// So many places without a number.
fn free_places(alloc: Global, count: usize) -> Result<Vec<Option<Numbered>>, AllocError>
    ensures free { IfOk result (λ places. places.items ≡ replicate count None) }
    ensures count { IfOk result (λ places. vec_len places ≡ count) }
{
    let mut places = Vec::with_capacity(alloc, count)?;
    for _place in 0..count {
        places.push(None)?;
    }
    Ok(places)
}

// Whether a hash may stand where this stands.
fn is_free(old: Option<Numbered>, hash: u32) -> bool
    ensures free { result ≡ is_free old hash }
{
    match old {
        None => true,
        Some(old) => old.hash == hash,
    }
}

/// The number of the name at a place.
pub fn number_of(place: usize) -> Result<u32, AllocError>
    ensures number { IfOk result (λ number. number ≡ place) }
{
    match u32::try_from(place) {
        Ok(number) => Ok(number),
        Err(_) => Err(AllocError),
    }
}

/// The hash of a name, for which others can have the same.
#[tactic(auto, unfolding(crate::specs::Places::hash_number))]
pub fn hash_of(name: &Word) -> u32
    ensures hash { result ≡ hash_number name.now }
{
    let mut hasher = FoldHasher::default();
    hasher.write(name.as_str().as_bytes());
    (hasher.finish() & 0xFFFF_FFFF) as u32
}
