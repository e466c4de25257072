// The walks of parts and roots, which parts have one already, and by which rows walks are found.
ghost use Rattle.std.specs.Prelude.{◌≡◌, ◌≤◌, ◌⊎◌, ◌+◌, ◌++◌, [], ◌∷◌, ℕ, Option, length, Some, None, IfOk, IfSome, OnOk};
ghost use Rattle.std.specs.Bool.{Decides};
ghost use Rattle.std.specs.BTreeMap.{get};
ghost use Rattle.gt_tables.specs.Building.{part_cmp, case_cmp, HaveTurns, StandsAt, IsFound, Shares, Keeps};
ghost use Rattle.gt_tables.specs.Counting.{Stays};
ghost use Rattle.gt_tables.specs.declared.sources.Part.{Part};

use crate::sources::Part;
use gt_alike::{are_alike, print_of};
use gt_types::List;
use gt_walk::WalkRow;
use std::alloc::{AllocError, Global};
use std::collections::BTreeMap;

// By what the walk of a part is found, whatever its structure: the number of the walk's rows, and how many walks with that number stood
// before it.
#[derive(Clone, Copy, PartialEq, Eq, PartialOrd, Ord)]
pub struct Case {
    pub print: u64,
    pub turn: u32,
}

// Where the walk with some rows stands; or that there is none, and by what it is to be found.
#[derive(Clone, Copy)]
pub enum Found {
    There(u32),
    Missing(Case),
}

// Walks; of each part that was looked at its walk, or that it has no edges; and where walks stand.
#[derive(Drop)]
pub struct Parts {
    pub walks: Vec<List<WalkRow>>,
    pub known: BTreeMap<Part, Option<u32>>,
    pub cases: BTreeMap<Case, u32>,
}

impl Parts {
    pub fn new(alloc: Global) -> Parts
        ensures walks { result.walks.items ≡ [] }
        ensures known { (part : Part) → get part_cmp result.known part ≡ None }
        ensures cases { (case : Case) → get case_cmp result.cases case ≡ None }
    {
        Parts {
            walks: Vec::new(alloc),
            known: BTreeMap::new(alloc),
            cases: BTreeMap::new(alloc),
        }
    }

    // The walk of a part that was looked at, or that it has no edges.
    pub fn get(&self, part: Option<Part>) -> Option<Option<u32>>
        ensures known { IfSome result (λ walk. (p : Part) × (part ≡ Some p) × (get part_cmp self.now.known p ≡ Some walk)) }
        ensures unknown { result ≡ None → (p : Part) → part ≡ Some p → get part_cmp self.now.known p ≡ None }
    {
        match part {
            Some(part) => self.known.get(&part).copied(),
            None => None,
        }
    }

    // Adds a walk, where the walks have numbers from the first on, and answers its number.
    pub fn add(&mut self, first: u32, rows: Vec<WalkRow>) -> Result<u32, AllocError>
        ensures number { IfOk result (λ n. n ≡ first + length self.old.walks.items) }
        ensures walks { OnOk result (self.new.walks.items ≡ self.old.walks.items ++ rows.items ∷ []) }
        ensures known { self.new.known ≡ self.old.known }
        ensures cases { self.new.cases ≡ self.old.cases }
    {
        let Some(number) = next_number(first, self.walks.len()) else {
            return Err(AllocError);
        };
        self.walks.push(List::of(rows))?;
        Ok(number)
    }

    // Whether the walk at a place has these rows.
    fn is_at(&self, place: u32, rows: &[WalkRow]) -> bool
        ensures decides { Decides result (StandsAt self.now.walks.items place rows.now) }
    {
        match self.walks.get(place as usize) {
            Some(walk) => are_alike(walk.as_slice(), rows),
            None => false,
        }
    }

    // Where the walk of a part with these rows stands. It takes about the logarithm of the number of walks, unless others have the
    // same number.
    fn find(&self, rows: &[WalkRow]) -> Result<Found, AllocError>
        requires turns { HaveTurns self.now.cases }
        ensures found { IfOk result (IsFound self.now.walks.items self.now.cases rows.now) }
    {
        let print = print_of(rows);
        for turn in 0..u32::MAX {
            let case = Case { print, turn };
            match self.cases.get(&case) {
                None => return Ok(Found::Missing(case)),
                Some(place) => {
                    if self.is_at(*place, rows) {
                        return Ok(Found::There(*place));
                    }
                }
            }
        }
        Err(AllocError)
    }

    // The walk of a part with these rows: the one that stands already, or a new one.
    fn share(&mut self, first: u32, rows: Vec<WalkRow>) -> Result<u32, AllocError>
        requires turns { HaveTurns self.old.cases }
        ensures known { self.new.known ≡ self.old.known }
        ensures shares { IfOk result (Shares first rows.items self.old.walks.items self.old.cases self.new.walks.items self.new.cases) }
    {
        let found = self.find(&rows)?;
        match found {
            Found::There(place) => match next_number(first, place as usize) {
                Some(walk) => Ok(walk),
                None => Err(AllocError),
            },
            Found::Missing(case) => {
                let walk = self.add(first, rows)?;
                self.cases.insert(case, walk - first)?;
                Ok(walk)
            }
        }
    }

    // Keeps the walk of a part, where it has more than its note.
    pub fn keep(
        &mut self,
        first: u32,
        part: Option<Part>,
        rows: Vec<WalkRow>,
    ) -> Result<Option<u32>, AllocError>
        requires turns { HaveTurns self.old.cases }
        ensures keeps { IfOk result (λ walk. Keeps first part rows.items self.old self.new walk) }
        ensures bare { IfOk result (λ walk. walk ≡ None → length rows.items ≤ 1) }
        ensures stays { OnOk result (Stays part self.old self.new) }
    {
        if rows.len() > 1 {
            let walk = self.share(first, rows)?;
            self.know(part, Some(walk))?;
            return Ok(Some(walk));
        }
        self.know(part, None)?;
        Ok(None)
    }

    // Keeps what was found of a part: its walk, or that it has no edges.
    fn know(&mut self, part: Option<Part>, walk: Option<u32>) -> Result<(), AllocError>
        ensures walks { self.new.walks ≡ self.old.walks }
        ensures cases { self.new.cases ≡ self.old.cases }
        ensures known { OnOk result ((q : Part) (n : ℕ) → get part_cmp self.new.known q ≡ Some (Some n) → (get part_cmp self.old.known q ≡ Some (Some n)) ⊎ ((p : Part) × (part ≡ Some p) × (q.node ≡ p.node) × (walk ≡ Some n))) }
        ensures kept { OnOk result ((q : Part) (w : Option ℕ) → get part_cmp self.new.known q ≡ Some w → (get part_cmp self.old.known q ≡ Some w) ⊎ ((part ≡ Some q) × (walk ≡ w))) }
        ensures stays { OnOk result (Stays part self.old self.new) }
    {
        match part {
            Some(part) => {
                self.known.insert(part, walk)?;
                Ok(())
            }
            None => Ok(()),
        }
    }
}

// The number after so many walks, where there is one.
fn next_number(first: u32, walks: usize) -> Option<u32>
    ensures { IfSome result (λ n. n ≡ first + walks) }
{
    match u32::try_from(walks) {
        Ok(walks) => first.checked_add(walks),
        Err(_) => None,
    }
}
