// A store of files, as the program sees it.
ghost use Rattle.std.specs.Prelude.{◌≡◌, ℕ, List, Option, Result};
ghost use Rattle.gt_io.specs.declared.fail.ReadFail.{ReadFail};
ghost use Rattle.gt_io.specs.declared.fail.ReadFail.TheVariants.{Failed};
ghost use Rattle.gt_io.specs.declared.fail.WriteFail.TheVariants.{Failed as WriteFailed};
ghost use Rattle.gt_io.specs.Held.{Held};
ghost use Rattle.gt_io.specs.Reads.{Reads};
ghost use Rattle.gt_io.specs.Writes.{Writes};
ghost use Rattle.gt_io.specs.Counts.{HasCause};

use crate::{ReadFail, WriteFail};
use gt_types::{Bytes, Word};
use std::alloc::Global;

/// Files that are read and written whole, by their names.
pub trait Files {
    /// What is held under each name, where the store tells it.
    ghost told: { Self → Option Held };

    /// How often a call has failed. It never falls, and stops at its type's end.
    ghost faults: { Self → ℕ };

    /// What one read is: the store before, the name, the limit, the answer, and the store after.
    ghost reads: { Self → List ℕ → ℕ → Result (Option (List ℕ)) ReadFail → Self → Type 0 };

    /// The bytes of a file, at most `limit` of them, or None where there is no such file. It changes nothing that is held.
    fn read(&mut self, alloc: Global, name: &Word, limit: u64) -> Result<Option<Bytes>, ReadFail>
        ensures answer { Reads (told self.old) name.now limit result }
        ensures held { told self.new ≡ told self.old }
        ensures cause { HasCause Failed (faults self.old) (faults self.new) result }
        ensures step { reads self.old name.now limit result self.new };

    /// Makes these bytes the contents of a file, and leaves all others.
    fn write(&mut self, name: &Word, bytes: &[u8]) -> Result<(), WriteFail>
        ensures answer { Writes (told self.old) name.now bytes.now result (told self.new) }
        ensures cause { HasCause WriteFailed (faults self.old) (faults self.new) result };
}
