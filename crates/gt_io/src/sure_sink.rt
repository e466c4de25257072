// A sink in memory that never fails.
ghost use Rattle.std.specs.Prelude.{◌≡◌, Some, [], List, ℕ};

use crate::{Sink, WriteFail};
use gt_types::Bytes;
use std::alloc::Global;

/// A sink that keeps its bytes, tells them, and never answers `Failed`.
#[derive(Drop)]
pub struct SureSink {
    bytes: Bytes,
}

impl SureSink {
    ghost use Rattle.gt_io.specs.SureSink.{sure_bytes_of};

    /// A sink without bytes. It takes no memory.
    pub fn new(alloc: Global) -> SureSink
        ensures empty { sure_bytes_of result ≡ [] }
    {
        SureSink {
            bytes: Bytes::new(alloc),
        }
    }

    /// The bytes that it took.
    pub fn bytes(&self) -> &[u8]
        ensures bytes { result.now ≡ sure_bytes_of self.now }
    {
        self.bytes.as_slice()
    }
}

impl Sink for SureSink {
    ghost use Rattle.std.specs.Prelude.{false};
    ghost use Rattle.gt_io.specs.MemSink.{AnswersWrite};
    ghost use Rattle.gt_io.specs.SureSink.{sure_bytes_of};

    ghost written = { λ s. Some (sure_bytes_of s) };

    ghost faults = { λ _. 0 };

    ghost writes = { λ before bytes result after. AnswersWrite false (sure_bytes_of before) bytes result (sure_bytes_of after) };

    fn write_all(&mut self, bytes: &[u8]) -> Result<(), WriteFail> {
        Ok(self.bytes.append(bytes)?)
    }
}
