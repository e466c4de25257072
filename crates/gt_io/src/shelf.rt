// Files kept in memory, by their names.
ghost use Rattle.std.specs.Prelude.{◌≡◌, OnOk, OnErr};
ghost use Rattle.gt_io.specs.Held.{Held, none_held, with_contents};
ghost use Rattle.gt_io.specs.Reads.{ReadsWithin};

use crate::ReadFail;
use gt_types::{Bytes, Copied, Word};
use std::alloc::{AllocError, Global};
use std::collections::BTreeMap;
use std::marker::Model;

/// Files by their names.
#[derive(Drop)]
pub struct Shelf {
    alloc: Global,
    files: BTreeMap<Word, Bytes>,
}

impl Model for Shelf {
    ghost use Rattle.gt_io.specs.Held.{Held, held_of};
    ghost use Rattle.std.specs.FinMap as map;
    ghost use Rattle.std.specs.Coded.{coded_list, coded_ℕ};

    ghost Value = { Held };

    ghost coded = { map.code (coded_list coded_ℕ) (coded_list coded_ℕ) };

    ghost view = { λ s. held_of s.files.entries };
}

impl Shelf {
    /// No files. It takes no memory.
    pub fn new(alloc: Global) -> Shelf
        ensures empty { result ≡ none_held }
    {
        Shelf {
            alloc,
            files: BTreeMap::new(alloc),
        }
    }

    /// Makes these bytes the contents of a file. Out of memory, nothing changed.
    pub fn put(&mut self, name: &Word, bytes: &[u8]) -> Result<(), AllocError>
        ensures added { OnOk result (self.new ≡ with_contents self.old name.now bytes.now) }
        ensures unchanged { OnErr result (self.new ≡ self.old) }
    {
        let name = name.copy(self.alloc)?;
        let bytes = Bytes::of(self.alloc, bytes)?;
        self.files.insert(name, bytes)?;
        Ok(())
    }

    /// A copy of a file's bytes, where there are at most `limit`.
    pub fn read(&self, alloc: Global, name: &Word, limit: u64) -> Result<Option<Bytes>, ReadFail>
        ensures answer { ReadsWithin self.now name.now limit result }
    {
        let Some(bytes) = self.files.get(name) else {
            return Ok(None);
        };
        if bytes.len() as u64 > limit {
            return Err(ReadFail::TooLong);
        }
        Ok(Some(bytes.copy(alloc)?))
    }
}
