// The variables of a script.
ghost use Rattle.std.specs.Prelude.{◌≡◌, ◌≤◌, ℕ, OnOk, OnErr, IsSome, IsTrue, is_some};
ghost use Rattle.std.specs.Bool.{Decides};
ghost use Rattle.std.specs.Ordering.{nat_cmp};
ghost use Rattle.gt_next.specs.States.{Variables, no_variables, meaning, with_variable, without_variable, count_of_variables, IsFullOfVariables};
ghost use Rattle.gt_objects.specs.InBytes.{HasPlaces, known_in};
ghost use Rattle.gt_vars.specs.Held.{KeepsThose};

use gt_next::MAX_VARIABLES;
use gt_objects::Objects;
use gt_types::{Copied, Word};
use std::alloc::{AllocError, Global};
use std::collections::BTreeMap;
use std::marker::Model;

/// Variables, which contracts see as a finite map from names to the addresses of objects.
#[derive(Drop)]
pub struct Vars {
    alloc: Global,
    addresses: BTreeMap<Word, u64>,
}

impl Model for Vars {
    ghost use Rattle.std.specs.FinMap as fin;
    ghost use Rattle.std.specs.Coded.{coded_list, coded_ℕ};
    ghost use Rattle.gt_next.specs.States.{Variables};
    ghost use Rattle.gt_vars.specs.Held.{variables_of};

    ghost Value = { Variables };

    ghost coded = { fin.code (coded_list coded_ℕ) coded_ℕ };

    ghost view = { λ v. variables_of v.addresses.entries };
}

impl Vars {
    /// No variables. It takes no memory.
    pub fn new(alloc: Global) -> Vars
        ensures empty { result ≡ no_variables }
    {
        Vars {
            alloc,
            addresses: BTreeMap::new(alloc),
        }
    }

    /// The address that a variable means, or None where it is not bound.
    pub fn get(&self, name: &Word) -> Option<u64>
        ensures meaning { result ≡ meaning self.now name.now }
    {
        self.addresses.get(name).copied()
    }

    /// Whether as many variables are bound as may be, and this is none of them.
    pub fn is_full(&self, name: &Word) -> bool
        ensures full { Decides result (IsFullOfVariables self.now name.now) }
    {
        self.addresses.len() >= MAX_VARIABLES && self.addresses.get(name).is_none()
    }

    /// Binds a variable. If memory runs out, nothing changed.
    pub fn bind(&mut self, name: &Word, address: u64) -> Result<(), AllocError>
        ensures bound { OnOk result (self.new ≡ with_variable self.old name.now address) }
        ensures unchanged { OnErr result (self.new ≡ self.old) }
    {
        let name = name.copy(self.alloc)?;
        self.addresses.insert(name, address)?;
        Ok(())
    }

    /// Binds a variable that is bound already to another address. It takes no memory.
    pub fn rebind(&mut self, name: &Word, address: u64)
        requires bound { IsSome (meaning self.old name.now) }
        ensures bound { self.new ≡ with_variable self.old name.now address }
    {
        if let Some(place) = self.addresses.get_mut(name) {
            *place = address;
        }
    }

    /// Takes back the binding of a variable that had this meaning, or none, before. It takes no memory.
    pub fn take_back(&mut self, name: &Word, before: Option<u64>)
        requires bound { IsSome (meaning self.old name.now) }
        ensures as_before { (v : Variables) (address : ℕ) → self.old ≡ with_variable v name.now address → before ≡ meaning v name.now → self.new ≡ v }
    {
        match before {
            Some(address) => self.rebind(name, address),
            None => {
                let _ = self.addresses.remove(name);
            }
        }
    }

    /// Unbinds a variable. It takes no memory.
    pub fn unbind(&mut self, name: &Word)
        ensures unbound { self.new ≡ without_variable self.old name.now }
    {
        let _ = self.addresses.remove(name);
    }

    /// Keeps the variables of the objects that are there, and unbinds the others. It takes no memory.
    pub fn keep(&mut self, objects: &Objects)
        requires places { HasPlaces objects.now }
        ensures kept { KeepsThose (λ id. IsTrue (is_some (known_in objects.now id))) self.old self.new }
        ensures few { count_of_variables self.new ≤ count_of_variables self.old }
    {
        self.addresses
            .retain(|_, address| objects.known_block(*address).is_some());
    }
}
