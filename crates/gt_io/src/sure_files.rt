// Files in memory that never fail.
ghost use Rattle.std.specs.Prelude.{◌≡◌, Some, OnOk, OnErr};

use crate::shelf::Shelf;
use crate::{Files, ReadFail, WriteFail};
use gt_types::{Bytes, Word};
use std::alloc::{AllocError, Global};

/// A store of files in memory that tells what it holds and never answers `Failed`.
#[derive(Drop)]
pub struct SureFiles {
    shelf: Shelf,
}

impl SureFiles {
    ghost use Rattle.gt_io.specs.SureFiles.{sure_files_of};
    ghost use Rattle.gt_io.specs.Held.{none_held, with_contents};

    /// A store without files. It takes no memory.
    pub fn new(alloc: Global) -> SureFiles
        ensures empty { sure_files_of result ≡ none_held }
    {
        SureFiles {
            shelf: Shelf::new(alloc),
        }
    }

    /// Makes these bytes the contents of a file. Out of memory, nothing changed.
    pub fn add(&mut self, name: &Word, bytes: &[u8]) -> Result<(), AllocError>
        ensures added { OnOk result (sure_files_of self.new ≡ with_contents (sure_files_of self.old) name.now bytes.now) }
        ensures unchanged { OnErr result (sure_files_of self.new ≡ sure_files_of self.old) }
    {
        self.shelf.put(name, bytes)
    }
}

impl Files for SureFiles {
    ghost use Rattle.std.specs.Prelude.{◌≢◌, Err};
    ghost use Rattle.gt_io.specs.declared.fail.ReadFail.TheVariants.{Failed};
    ghost use Rattle.gt_io.specs.SureFiles.{sure_files_of};

    ghost told = { λ f. Some (sure_files_of f) };

    ghost faults = { λ _. 0 };

    ghost reads = { λ _ _ _ result _. result ≢ Err Failed };

    fn read(&mut self, alloc: Global, name: &Word, limit: u64) -> Result<Option<Bytes>, ReadFail> {
        self.shelf.read(alloc, name, limit)
    }

    fn write(&mut self, name: &Word, bytes: &[u8]) -> Result<(), WriteFail> {
        self.shelf.put(name, bytes)?;
        Ok(())
    }
}
