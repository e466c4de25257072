// The standard output: the trusted edge. Nothing is said of what a terminal got, and of a write only that a failure is counted.
ghost use Rattle.std.specs.Prelude.{None};

use crate::{Sink, WriteFail};
use std::io::{Stdout, Write};

/// The standard output of the program. It tells nothing of what it took.
#[derive(Drop)]
pub struct HostOut {
    out: Stdout,
    faults: u64,
}

impl HostOut {
    /// The sink over a runtime's standard output.
    pub fn new(out: Stdout) -> HostOut {
        HostOut { out, faults: 0 }
    }
}

impl Sink for HostOut {
    ghost use Rattle.gt_io.specs.declared.fail.WriteFail.TheVariants.{Failed};
    ghost use Rattle.gt_io.specs.Counts.{HasCause};

    ghost written = { λ _. None };

    ghost faults = { λ s. s.faults };

    ghost writes = { λ before _ result after. HasCause Failed before.faults after.faults result };

    fn write_all(&mut self, bytes: &[u8]) -> Result<(), WriteFail> {
        match self.out.write_all(bytes) {
            Ok(()) => Ok(()),
            // A part of the bytes may be written, whatever the error: so it is never told as out of memory.
            Err(_) => {
                self.faults = self.faults.saturating_add(1);
                Err(WriteFail::Failed)
            }
        }
    }
}
