// Sets of structures.
ghost use Rattle.std.specs.Prelude.{◌≡◌, ◌⊎◌, ◌↔◌, ℕ, true, length, IfOk, OnOk};
ghost use Rattle.gt_bits.specs.Sets.{IsNext};
ghost use Rattle.gt_sets.specs.Sets.{IsIn};

use gt_types::MAX_STRUCTURES;
use std::alloc::{AllocError, Global};
use std::marker::Model;

/// How many words of 64 bits have a bit for each structure of a program.
const WORDS: usize = MAX_STRUCTURES / 64;

/// Structures of a program by their numbers, one bit each. Contracts see the words of their bits.
#[derive(Drop)]
pub struct StructureSet {
    words: Vec<u64>,
}

impl Model for StructureSet {
    ghost use Rattle.std.specs.Prelude.{◌≡◌, ℕ, List, length};
    ghost use Rattle.gt_sets.specs.declared.sets.TheConstants.{WORDS};

    ghost Value = { List ℕ };

    ghost view = { λ s. s.words.items };

    ghost invariant = { λ s. length s.words.items ≡ WORDS };
}

impl StructureSet {
    /// No structures. It takes 512 bytes; its only error is out of memory.
    pub fn new(alloc: Global) -> Result<StructureSet, AllocError>
        ensures empty { IfOk result (λ s. (i : ℕ) → ¬ IsIn s i) }
    {
        let words = vec![in alloc; 0; WORDS]?;
        Ok(StructureSet { words })
    }

    /// Adds a structure, where it is new. Its only error is out of memory, which it says of a number from `MAX_STRUCTURES` on: no
    /// program has a structure of this number.
    pub fn insert(&mut self, id: u32) -> Result<(), AllocError>
        ensures added { OnOk result ((i : ℕ) → IsIn self.new i ↔ ((i ≡ id) ⊎ IsIn self.old i)) }
    {
        if id as usize >= MAX_STRUCTURES {
            return Err(AllocError);
        }
        gt_bits::insert(&mut self.words, id);
        Ok(())
    }

    /// Whether a structure is one of them. It takes no memory, and constant time.
    pub fn has(&self, id: u32) -> bool
        ensures there { result ≡ true ↔ IsIn self.now id }
    {
        gt_bits::has(&self.words, id)
    }

    /// The first structure of the set whose number is not below `from`. It takes no memory, and at most 64 words are looked at.
    pub fn next(&self, from: u32) -> Option<u32>
        ensures next { IsNext self.now from result }
    {
        gt_bits::next(&self.words, from)
    }

    /// Whether there is any structure. It takes no memory, and at most 64 words are looked at.
    pub fn any(&self) -> bool
        ensures some { result ≡ true ↔ ((i : ℕ) × IsIn self.now i) }
    {
        self.next(0).is_some()
    }

    /// Adds the structures of another set. It takes no memory, and constant time: 64 words are joined.
    pub fn insert_all(&mut self, other: &StructureSet)
        ensures added { (i : ℕ) → IsIn self.new i ↔ (IsIn self.old i ⊎ IsIn other.now i) }
    {
        join(&mut self.words, &other.words);
    }
}

// Joins sets of as many words, word by word.
fn join(words: &mut [u64], others: &[u64])
    requires same { length words.old ≡ length others.now }
    ensures len { length words.new ≡ length words.old }
    ensures joined { (i : ℕ) → IsIn words.new i ↔ (IsIn words.old i ⊎ IsIn others.now i) }
{
    for k in 0..words.len() {
        words[k] |= others[k];
    }
}
