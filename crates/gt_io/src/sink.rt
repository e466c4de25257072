// Where the program's output goes.
ghost use Rattle.std.specs.Prelude.{ℕ, Option, List, Result};
ghost use Rattle.gt_io.specs.declared.fail.WriteFail.{WriteFail};
ghost use Rattle.gt_io.specs.declared.fail.WriteFail.TheVariants.{Failed};
ghost use Rattle.gt_io.specs.Appends.{Appends};
ghost use Rattle.gt_io.specs.Counts.{HasCause};

use crate::WriteFail;

/// A place that takes bytes, one text after another.
pub trait Sink {
    /// The bytes that it took so far, where it tells them.
    ghost written: { Self → Option (List ℕ) };

    /// How often a call has failed. It never falls, and stops at its type's end.
    ghost faults: { Self → ℕ };

    /// What is known of one write: the sink before, the bytes, the answer, and the sink after. It stands beside what `written` says of the bytes.
    ghost writes: { Self → List ℕ → Result (Unit {0}) WriteFail → Self → Type 0 };

    /// Takes these bytes after those that it took before.
    fn write_all(&mut self, bytes: &[u8]) -> Result<(), WriteFail>
        ensures answer { Appends (written self.old) bytes.now result (written self.new) }
        ensures cause { HasCause Failed (faults self.old) (faults self.new) result }
        ensures step { writes self.old bytes.now result self.new };
}
