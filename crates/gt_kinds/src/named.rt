// Things with names, by their places.
ghost use Rattle.std.specs.Prelude.{◌≡◌, ℕ, List, [], IfOk};
ghost use Rattle.gt_kinds.specs.Places.{places_from};

use gt_names::Table;
use gt_types::{Cache, Root, Structure, Typedef, Word};
use std::alloc::{AllocError, Global};

/// A thing of a program that has a name.
pub trait Named {
    ghost called: { Self → List ℕ };

    /// The name.
    fn name(&self) -> &Word
        ensures name { result.now ≡ called self.now };
}

impl Named for Structure {
    ghost called = { λ s. s.name };

    fn name(&self) -> &Word {
        &self.name
    }
}

impl Named for Root {
    ghost called = { λ r. r.name };

    fn name(&self) -> &Word {
        &self.name
    }
}

impl Named for Cache {
    ghost called = { λ c. c.name };

    fn name(&self) -> &Word {
        &self.name
    }
}

impl Named for Typedef {
    ghost called = { λ w. w.name };

    fn name(&self) -> &Word {
        &self.name
    }
}

/// The places of things by their names: of each name the first.
#[tactic(auto, unfolding(crate::specs::Places::places_from))]
pub fn places_of<T: Named>(alloc: Global, things: &[T]) -> Result<Table<usize>, AllocError>
    ensures places { IfOk result (λ made. made ≡ places_from T.called [] 0 things.now) }
{
    let mut made = Table::new(alloc);
    for (place, thing) in things.iter().enumerate() {
        made = made.with(alloc, thing.name(), place)?;
    }
    Ok(made)
}
