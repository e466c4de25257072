// A sink in memory, of which the calls that are to fail are given.
ghost use Rattle.std.specs.Prelude.{◌≡◌, Some, [], List, ℕ};

use crate::schedule::Schedule;
use crate::{Sink, WriteFail};
use gt_types::Bytes;
use std::alloc::Global;

/// A sink that keeps its bytes and tells them. A call whose number is among those that are to fail answers `Failed` and
/// takes nothing.
#[derive(Drop)]
pub struct MemSink {
    bytes: Bytes,
    schedule: Schedule,
}

impl MemSink {
    ghost use Rattle.gt_io.specs.MemSink.{bytes_of, scheduled_of, calls_of, faults_of};

    /// A sink without bytes; `fails` are the numbers of the calls that are to fail, from 1. It takes no memory.
    pub fn new(alloc: Global, fails: Vec<u64>) -> MemSink
        ensures empty { bytes_of result ≡ [] }
        ensures fails { scheduled_of result ≡ fails.items }
        ensures fresh { (calls_of result ≡ 0) × (faults_of result ≡ 0) }
    {
        MemSink {
            bytes: Bytes::new(alloc),
            schedule: Schedule::new(fails),
        }
    }

    /// The bytes that it took.
    pub fn bytes(&self) -> &[u8]
        ensures bytes { result.now ≡ bytes_of self.now }
    {
        self.bytes.as_slice()
    }
}

impl Sink for MemSink {
    ghost use Rattle.gt_io.specs.MemSink.{bytes_of, faults_of, IsWrite};

    ghost written = { λ s. Some (bytes_of s) };

    ghost faults = { faults_of };

    ghost writes = { IsWrite };

    fn write_all(&mut self, bytes: &[u8]) -> Result<(), WriteFail> {
        if self.schedule.next_fails() {
            return Err(WriteFail::Failed);
        }
        Ok(self.bytes.append(bytes)?)
    }
}
