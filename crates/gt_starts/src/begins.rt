// Sets of structures that are shared.
ghost use Rattle.std.specs.Prelude.{◌≡◌, ◌⊎◌, ◌↔◌, ◌<◌, ◌≤◌, ℕ, [], true, map, vec_len, IfOk, OnOk};
ghost use Rattle.gt_sets.specs.Sets.{IsIn};
ghost use Rattle.gt_starts.specs.Begins.{IsInSome, sets_at};

use gt_sets::StructureSet;
use std::alloc::{AllocError, Global};
use std::marker::Model;
use std::rc::Rc;

/// How many sets are shared. Where there are more, they are joined.
const MOST_SETS: usize = 8;

/// The structures of some sets, which are shared. It takes 8 bytes for each of at most `MOST_SETS` of them. Contracts see the list of sets.
#[derive(Drop)]
pub struct Begins {
    sets: Vec<Rc<StructureSet>>,
}

impl Model for Begins {
    ghost use Rattle.std.specs.Prelude.{ℕ, List, map};

    ghost Value = { List (List ℕ) };

    ghost view = { λ b. map (λ set. set.value) b.sets.items };
}

impl Begins {
    /// No structures. It takes no memory.
    pub fn new(alloc: Global) -> Begins
        ensures none { result ≡ [] }
    {
        Begins {
            sets: Vec::new(alloc),
        }
    }

    /// Whether a structure is one of them. It takes no memory, and constant time.
    pub fn has(&self, begin: u32) -> bool
        ensures there { result ≡ true ↔ IsInSome self.now begin }
    {
        has_some(&self.sets, begin)
    }

    /// Whether there is any structure. It takes no memory, and constant time.
    pub fn any(&self) -> bool
        ensures some { result ≡ true ↔ ((begin : ℕ) × IsInSome self.now begin) }
    {
        any_some(&self.sets)
    }

    /// These structures and those of one more set, which is shared. It takes constant time. Its only error is out of memory.
    pub fn with(&self, alloc: Global, set: &Rc<StructureSet>) -> Result<Begins, AllocError>
        ensures added { IfOk result (λ made. (begin : ℕ) → IsInSome made begin ↔ (IsInSome self.now begin ⊎ IsIn set.now.value begin)) }
    {
        let mut sets = self.shared(alloc)?;
        sets.push(set.clone()?)?;
        Ok(Begins { sets })
    }

    // Fewer than `MOST_SETS` sets that have these structures: the same, or one that they are joined to.
    fn shared(&self, alloc: Global) -> Result<Vec<Rc<StructureSet>>, AllocError>
        ensures same { IfOk result (λ made. (begin : ℕ) → IsInSome (map (λ set. set.value) made.items) begin ↔ IsInSome self.now begin) }
    {
        if self.sets.len() < MOST_SETS {
            return copied(alloc, &self.sets);
        }
        joined(alloc, &self.sets)
    }
}

// The same sets, with room for one more.
fn copied(alloc: Global, sets: &[Rc<StructureSet>]) -> Result<Vec<Rc<StructureSet>>, AllocError>
    ensures { IfOk result (λ made. map (λ set. set.value) made.items ≡ map (λ set. set.value) sets.now) }
{
    let mut made = Vec::with_capacity(alloc, sets.len().saturating_add(1))?;
    for set in sets {
        made.push(set.clone()?)?;
    }
    Ok(made)
}

// One set that has the structures of all of these.
fn joined(alloc: Global, sets: &[Rc<StructureSet>]) -> Result<Vec<Rc<StructureSet>>, AllocError>
    ensures { IfOk result (λ made. (begin : ℕ) → IsInSome (map (λ set. set.value) made.items) begin ↔ IsInSome (map (λ set. set.value) sets.now) begin) }
{
    let mut whole = StructureSet::new(alloc)?;
    for set in sets {
        whole.insert_all(set);
    }
    let mut made = Vec::new(alloc);
    made.push(Rc::new(alloc, whole)?)?;
    Ok(made)
}

// Whether one of some sets has a structure.
fn has_some(sets: &[Rc<StructureSet>], begin: u32) -> bool
    ensures { result ≡ true ↔ IsInSome (map (λ set. set.value) sets.now) begin }
{
    let [set, rest @ ..] = sets else {
        return false;
    };
    set.has(begin) || has_some(rest, begin)
}

// Whether one of some sets has any structure.
fn any_some(sets: &[Rc<StructureSet>]) -> bool
    ensures { result ≡ true ↔ ((begin : ℕ) × IsInSome (map (λ set. set.value) sets.now) begin) }
{
    let [set, rest @ ..] = sets else {
        return false;
    };
    set.any() || any_some(rest)
}

/// Makes room for the row of a number; the new rows have no structures. Its only error is out of memory.
pub fn make_room(alloc: Global, rows: &mut Vec<Begins>, n: usize) -> Result<(), AllocError>
    ensures same { (i : ℕ) → sets_at rows.new.items i ≡ sets_at rows.old.items i }
    ensures room { OnOk result (n < vec_len rows.new) }
    ensures longer { vec_len rows.old ≤ vec_len rows.new }
{
    while rows.len() <= n {
        rows.push(Begins::new(alloc))?;
    }
    Ok(())
}

/// What the row of a number is with one more set; there is room for it from now on. Its only error is out of memory.
pub fn extended(
    alloc: Global,
    rows: &mut Vec<Begins>,
    n: usize,
    set: &Rc<StructureSet>,
) -> Result<Begins, AllocError>
    ensures same { (i : ℕ) → sets_at rows.new.items i ≡ sets_at rows.old.items i }
    ensures room { OnOk result (n < vec_len rows.new) }
    ensures longer { vec_len rows.old ≤ vec_len rows.new }
    ensures added { IfOk result (λ made. (begin : ℕ) → IsInSome made begin ↔ (IsInSome (sets_at rows.old.items n) begin ⊎ IsIn set.now.value begin)) }
{
    make_room(alloc, rows, n)?;
    rows[n].with(alloc, set)
}

/// Whether the row of a number has a structure. It takes no memory, and constant time.
pub fn has_at(rows: &[Begins], n: usize, begin: u32) -> bool
    ensures there { result ≡ true ↔ IsInSome (sets_at rows.now n) begin }
{
    match rows.get(n) {
        Some(row) => row.has(begin),
        None => false,
    }
}

/// Whether the row of a number has any structure. It takes no memory, and constant time.
pub fn any_at(rows: &[Begins], n: usize) -> bool
    ensures some { result ≡ true ↔ ((begin : ℕ) × IsInSome (sets_at rows.now n) begin) }
{
    match rows.get(n) {
        Some(row) => row.any(),
        None => false,
    }
}
