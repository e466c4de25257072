// A stack, as the searches of this crate keep what is open.
ghost use Rattle.std.specs.Prelude.{◌≡◌, ◌==◌, List, [], ◌∷◌, length, reverse, OnOk, OnErr, MatchOption};
ghost use Rattle.std.specs.Option.{option_copied};
ghost use Rattle.gt_search.specs.Searching.{bottom};

use std::alloc::{AllocFailed, Global};
use std::marker::Model;

/// Items that contracts see as their list, the last one first.
#[derive(Drop)]
pub struct Stack<X> {
    items: Vec<X>,
}

impl<X> Model for Stack<X> {
    ghost use Rattle.std.specs.Prelude.{List, reverse};

    ghost Value = { List X };

    ghost view = { λ s. reverse s.items.items };
}

impl<X> Stack<X> {
    /// No items. It takes no memory.
    pub fn new(alloc: Global) -> Stack<X>
        ensures empty { result ≡ [] }
    {
        Stack {
            items: Vec::new(alloc),
        }
    }

    /// Puts an item on top. Out of memory, the items are as before.
    pub fn push(&mut self, item: X) -> Result<(), AllocFailed<X>>
        ensures added { OnOk result (self.new ≡ item ∷ self.old) }
        ensures unchanged { OnErr result (self.new ≡ self.old) }
    {
        self.items.push(item)
    }

    /// Takes the item on top, if there is one.
    pub fn pop(&mut self) -> Option<X>
        ensures taken { MatchOption result ((self.old ≡ []) × (self.new ≡ [])) (λ item. self.old ≡ item ∷ self.new) }
    {
        self.items.pop()
    }

    /// The lowest item, if there is one.
    pub fn bottom(&self) -> Option<&X>
        ensures lowest { option_copied result ≡ bottom self.now }
    {
        self.items.first()
    }

    /// Whether there is no item.
    pub fn is_empty(&self) -> bool
        ensures empty { result ≡ (length self.now == 0) }
    {
        self.items.is_empty()
    }
}
