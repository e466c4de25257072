// Constants by name.
ghost use Rattle.std.specs.Prelude.{◌≡◌, ℕ, List, [], slice_get, OnOk, OnErr};
ghost use Rattle.gt_names.specs.Entries.{first_some};
ghost use Rattle.gt_scope.specs.FirstValues.{value_named, value_in};

use gt_drafts::Values;
use gt_names::NameIndex;
use gt_types::Word;
use std::alloc::{AllocError, Global};
use std::marker::Model;

/// The value of each name, which is found in constant time. The first value of a name stays. Contracts see the
/// list of names and the list of their values.
#[derive(Drop)]
pub struct Constants {
    names: NameIndex,
    values: Vec<i64>,
}

impl Model for Constants {
    ghost use Rattle.std.specs.Prelude.{◌≡◌, ℕ, ℤ, List, length};

    ghost Value = { List (List ℕ) × List ℤ };

    ghost view = { λ c. (c.names, c.values.items) };

    ghost invariant = { λ c. length c.names ≡ length c.values.items };
}

impl Constants {
    /// No names. It takes no memory.
    pub fn new(alloc: Global) -> Constants
        ensures empty { result ≡ ([], []) }
    {
        Constants {
            names: NameIndex::new(alloc),
            values: Vec::new(alloc),
        }
    }

    /// Adds a value, which counts where its name is new. Out of memory, the values are as before.
    pub fn add(&mut self, name: &Word, value: i64) -> Result<(), AllocError>
        ensures added { OnOk result ((word : List ℕ) → value_in self.new word ≡ first_some (value_in self.old word) (value_named name.now value word)) }
        ensures unchanged { OnErr result (self.new ≡ self.old) }
    {
        if self.names.get(name).is_some() {
            return Ok(());
        }
        self.values.push(value)?;
        match self.names.add(name) {
            Ok(_) => Ok(()),
            Err(stop) => {
                self.values.pop();
                Err(stop)
            }
        }
    }
}

impl Values for Constants {
    ghost value_of = { value_in };

    fn value(&self, name: &Word) -> Option<i64> {
        match self.names.get(name) {
            Some(place) => value_at(&self.values, place),
            None => None,
        }
    }
}

fn value_at(values: &[i64], place: usize) -> Option<i64>
    ensures { result ≡ slice_get values.now place }
{
    values.get(place).copied()
}
