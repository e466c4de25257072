// A list of items, as public types have it in place of a vector.
ghost use Rattle.std.specs.Prelude.{◌≡◌, ◌==◌, ℕ, List, [], ◌∷◌, ◌++◌, length, IfErr, OnOk, OnErr, slice_get};
ghost use Rattle.std.specs.Option.{option_copied};
ghost use Rattle.std.specs.Cmp.Lexicographic.{pointwise, slice_cmp, slice_partial_cmp, lists_equiv, lists_agrees, lists_total, lists_ties, lists_po, lists_per};

use crate::Copied;
use std::alloc::{AllocError, AllocFailed, Global};
use std::cmp::Ordering;
use std::marker::Model;

/// Items that contracts see as their list.
#[derive(Debug, Drop)]
pub struct List<X> {
    items: Vec<X>,
}

impl<X> Model for List<X> {
    ghost use Rattle.std.specs.Prelude.{List};

    ghost Value = { List X };

    ghost view = { λ a. a.items.items };
}

impl<X> List<X> {
    /// No items. It takes no memory.
    pub fn new(alloc: Global) -> List<X>
        ensures empty { result ≡ [] }
    {
        List {
            items: Vec::new(alloc),
        }
    }

    /// The items of a vector, which it takes over. It takes no memory.
    pub fn of(items: Vec<X>) -> List<X>
        ensures items { result ≡ items.items }
    {
        List { items }
    }

    /// The vector of the items. It takes no memory.
    pub fn into_vec(self) -> Vec<X>
        ensures items { result.items ≡ self }
    {
        self.items
    }

    /// The items as a slice.
    pub fn as_slice(&self) -> &[X]
        ensures items { result.now ≡ self.now }
    {
        &self.items
    }

    /// How many items there are.
    pub fn len(&self) -> usize
        ensures items { result ≡ length self.now }
    {
        self.items.len()
    }

    /// Whether there is no item.
    pub fn is_empty(&self) -> bool
        ensures empty { result ≡ (length self.now == 0) }
    {
        self.items.is_empty()
    }

    /// The item at a place counted from 0, or None from the end on.
    pub fn get(&self, at: usize) -> Option<&X>
        ensures item { option_copied result ≡ slice_get self.now at }
    {
        self.items.get(at)
    }

    /// Adds an item at the end. Out of memory, the items are as before, and the item comes back.
    pub fn push(&mut self, item: X) -> Result<(), AllocFailed<X>>
        ensures added { OnOk result (self.new ≡ self.old ++ item ∷ []) }
        ensures unchanged { OnErr result (self.new ≡ self.old) }
        ensures returned { IfErr result (λ e. e.value ≡ item) }
    {
        self.items.push(item)
    }
}

impl<X: Copied + Drop> Copied for List<X> {
    fn copy(&self, alloc: Global) -> Result<List<X>, AllocError> {
        let mut made = Vec::new(alloc);
        for item in &self.items {
            made.push(item.copy(alloc)?)?;
        }
        Ok(List { items: made })
    }
}

impl<X: PartialEq> PartialEq for List<X> {
    ghost eq = { pointwise X.eq };

    ghost laws = { lists_per X.laws };

    fn eq(&self, other: &List<X>) -> bool {
        self.items.as_slice() == other.items.as_slice()
    }
}

impl<X: Eq> Eq for List<X> {
    ghost laws = { lists_equiv X.Eq.laws };
}

impl<X: PartialOrd> PartialOrd for List<X> {
    ghost partial_cmp = { slice_partial_cmp X.partial_cmp };

    ghost laws = { lists_po X.PartialOrd.laws };

    fn partial_cmp(&self, other: &List<X>) -> Option<Ordering> {
        self.items.as_slice().partial_cmp(other.items.as_slice())
    }
}

impl<X: Ord> Ord for List<X> {
    ghost cmp = { slice_cmp X.cmp };

    ghost total = { lists_total X.total };

    ghost matches_partial_cmp = { lists_agrees X.matches_partial_cmp };

    ghost matches_eq = { lists_ties X.cmp X.matches_eq };

    fn cmp(&self, other: &List<X>) -> Ordering {
        self.items.as_slice().cmp(other.items.as_slice())
    }
}
