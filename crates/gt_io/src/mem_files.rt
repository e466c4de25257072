// Files in memory, of which the calls that are to fail are given.
ghost use Rattle.std.specs.Prelude.{◌≡◌, Some, OnOk, OnErr};

use crate::schedule::Schedule;
use crate::shelf::Shelf;
use crate::{Files, ReadFail, WriteFail};
use gt_types::{Bytes, Word};
use std::alloc::{AllocError, Global};

/// A store of files in memory. It tells what it holds. Reads and writes are counted together, and a call whose number is
/// among those that are to fail answers `Failed` and changes nothing that is held.
#[derive(Drop)]
pub struct MemFiles {
    shelf: Shelf,
    schedule: Schedule,
}

impl MemFiles {
    ghost use Rattle.gt_io.specs.MemFiles.{files_of, scheduled_of, calls_of, faults_of};
    ghost use Rattle.gt_io.specs.Held.{none_held, with_contents};

    /// A store without files; `fails` are the numbers of the calls that are to fail, from 1. It takes no memory.
    pub fn new(alloc: Global, fails: Vec<u64>) -> MemFiles
        ensures empty { files_of result ≡ none_held }
        ensures fails { scheduled_of result ≡ fails.items }
        ensures fresh { (calls_of result ≡ 0) × (faults_of result ≡ 0) }
    {
        MemFiles {
            shelf: Shelf::new(alloc),
            schedule: Schedule::new(fails),
        }
    }

    /// Makes these bytes the contents of a file, as no counted call. Out of memory, nothing changed.
    pub fn add(&mut self, name: &Word, bytes: &[u8]) -> Result<(), AllocError>
        ensures added { OnOk result (files_of self.new ≡ with_contents (files_of self.old) name.now bytes.now) }
        ensures unchanged { OnErr result (files_of self.new ≡ files_of self.old) }
        ensures fails { scheduled_of self.new ≡ scheduled_of self.old }
    {
        self.shelf.put(name, bytes)
    }
}

impl Files for MemFiles {
    ghost use Rattle.gt_io.specs.MemFiles.{files_of, faults_of, IsRead};

    ghost told = { λ f. Some (files_of f) };

    ghost faults = { faults_of };

    ghost reads = { IsRead };

    fn read(&mut self, alloc: Global, name: &Word, limit: u64) -> Result<Option<Bytes>, ReadFail> {
        if self.schedule.next_fails() {
            return Err(ReadFail::Failed);
        }
        self.shelf.read(alloc, name, limit)
    }

    fn write(&mut self, name: &Word, bytes: &[u8]) -> Result<(), WriteFail> {
        if self.schedule.next_fails() {
            return Err(WriteFail::Failed);
        }
        self.shelf.put(name, bytes)?;
        Ok(())
    }
}
