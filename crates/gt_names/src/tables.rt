// Values by names.
ghost use Rattle.std.specs.Prelude.{◌≡◌, [], position, slice_get, IfOk};
ghost use Rattle.std.specs.Option.{option_copied};
ghost use Rattle.std.specs.Str.{bytes_eq};
ghost use Rattle.gt_names.specs.Entries.{value_in, with_last, with_value};

use crate::names::NameIndex;
use gt_types::{Copied, Word};
use std::alloc::{AllocError, Global};
use std::marker::Model;

/// The item at a place, from 0.
pub fn item_at<X>(items: &[X], place: usize) -> Option<&X>
    ensures item { option_copied result ≡ slice_get items.now place }
{
    items.get(place)
}

/// A name and its value.
#[derive(Drop)]
pub struct Entry<T> {
    pub name: Word,
    pub value: T,
}

/// What each name was first given, in the order of the names' first values. A value is found in constant time. Contracts
/// see the list of entries.
#[derive(Drop)]
pub struct Table<T> {
    names: NameIndex,
    entries: Vec<Entry<T>>,
}

impl<T> Model for Table<T> {
    ghost use Rattle.std.specs.Prelude.{◌≡◌, List, map};
    ghost use Rattle.gt_names.specs.declared.tables.Entry.{Entry};

    ghost Value = { List (Entry T) };

    ghost view = { λ t. t.entries.items };

    ghost invariant = { λ t. t.names ≡ map (λ e. e.name) t.entries.items };
}

impl<T> Table<T> {
    /// No values. It takes no memory.
    pub fn new(alloc: Global) -> Table<T>
        ensures empty { result ≡ [] }
    {
        Table {
            names: NameIndex::new(alloc),
            entries: Vec::new(alloc),
        }
    }

    /// The entries, in the order in which their names were added.
    pub fn entries(&self) -> &[Entry<T>]
        ensures entries { result.now ≡ self.now }
    {
        &self.entries
    }

    /// The place of a name among the entries, from 0.
    pub fn place(&self, name: &Word) -> Option<usize>
        ensures place { result ≡ position (λ e. bytes_eq e.name name.now) self.now }
    {
        self.names.get(name)
    }

    /// The value of a name.
    pub fn get(&self, name: &Word) -> Option<&T>
        ensures value { option_copied result ≡ value_in self.now name.now }
    {
        match self.place(name) {
            None => None,
            Some(place) => match item_at(&self.entries, place) {
                None => None,
                Some(entry) => Some(&entry.value),
            },
        }
    }
}

// Entries with one more at the end.
fn with_entry<T: Drop>(
    before: Vec<Entry<T>>,
    name: Word,
    value: T,
) -> Result<Vec<Entry<T>>, AllocError>
    ensures added { IfOk result (λ made. made.items ≡ with_last before.items name value) }
{
    let mut entries = before;
    entries.push(Entry { name, value })?;
    Ok(entries)
}

impl<T: Drop> Table<T> {
    /// The table with a value for a name that has none. Its only error is out of memory.
    pub fn with(self, alloc: Global, name: &Word, value: T) -> Result<Table<T>, AllocError>
        ensures added { IfOk result (λ made. made ≡ with_value self name.now value) }
    {
        if self.place(name).is_some() {
            return Ok(self);
        }
        let mut names = self.names;
        let name_of_entry = name.copy(alloc)?;
        names.add(name)?;
        let entries = with_entry(self.entries, name_of_entry, value)?;
        Ok(Table { names, entries })
    }
}
