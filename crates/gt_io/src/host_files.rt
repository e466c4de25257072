// The files of the machine: the trusted edge. Nothing is said of what a file holds.
ghost use Rattle.std.specs.Prelude.{◌≤◌, None, IfOk, IfSome, length};

use crate::{Files, ReadFail, WriteFail};
use gt_types::{Bytes, Word};
use std::alloc::Global;
use std::fs::{self, File};
use std::io::{self, ErrorKind, Read, Write};

/// How many bytes one call of the machine is asked for.
const CHUNK_BYTES: usize = 65536;

/// The files of the machine, read and written whole. It tells nothing of what they hold.
#[derive(Drop)]
pub struct HostFiles {
    rt: HostRuntime,
    faults: u64,
}

impl HostFiles {
    /// The files that the program's runtime reaches.
    pub fn new(rt: HostRuntime) -> HostFiles {
        HostFiles { rt, faults: 0 }
    }
}

impl Files for HostFiles {
    ghost use Rattle.gt_io.specs.declared.fail.ReadFail.TheVariants.{Failed};
    ghost use Rattle.gt_io.specs.Counts.{HasCause};

    ghost told = { λ _. None };

    ghost faults = { λ f. f.faults };

    ghost reads = { λ before _ _ result after. HasCause Failed before.faults after.faults result };

    fn read(&mut self, alloc: Global, name: &Word, limit: u64) -> Result<Option<Bytes>, ReadFail> {
        let mut file = match fs::open(&self.rt, name.as_str()) {
            Ok(file) => file,
            Err(error) => return match error.kind() {
                ErrorKind::NotFound => Ok(None),
                ErrorKind::OutOfMemory => Err(ReadFail::Memory),
                _ => {
                    self.faults = self.faults.saturating_add(1);
                    Err(ReadFail::Failed)
                }
            },
        };
        match read_within(alloc, &mut file, limit) {
            Ok(Some(bytes)) => Ok(Some(bytes)),
            Ok(None) => Err(ReadFail::TooLong),
            Err(error) => match error.kind() {
                ErrorKind::OutOfMemory => Err(ReadFail::Memory),
                _ => {
                    self.faults = self.faults.saturating_add(1);
                    Err(ReadFail::Failed)
                }
            },
        }
    }

    fn write(&mut self, name: &Word, bytes: &[u8]) -> Result<(), WriteFail> {
        match fs::write(&self.rt, name.as_str(), bytes) {
            Ok(()) => Ok(()),
            Err(error) => match error.kind() {
                ErrorKind::OutOfMemory => Err(WriteFail::Memory),
                _ => {
                    self.faults = self.faults.saturating_add(1);
                    Err(WriteFail::Failed)
                }
            },
        }
    }
}

// The bytes of a file, at most `limit` of them, or None where there are more.
fn read_within(alloc: Global, file: &mut File, limit: u64) -> io::Result<Option<Bytes>>
    ensures within { IfOk result (λ found. IfSome found (λ bytes. length bytes ≤ limit)) }
{
    let mut bytes = Bytes::new(alloc);
    let mut chunk = vec![in alloc; 0u8; CHUNK_BYTES]?;
    read_to(&mut bytes, file, &mut chunk, limit)?;
    if bytes.len() as u64 > limit {
        return Ok(None);
    }
    Ok(Some(bytes))
}

// Adds a file's bytes until it ends, or until there is one byte beyond the limit. A read that is interrupted is tried again.
fn read_to(bytes: &mut Bytes, file: &mut File, chunk: &mut [u8], limit: u64) -> io::Result<()> {
    for _ in 0..u64::MAX {
        let room = limit.saturating_sub(bytes.len() as u64).saturating_add(1);
        let ask = room.min(chunk.len() as u64) as usize;
        match file.read(&mut chunk[..ask]) {
            Ok(0) => break,
            Ok(got) => {
                bytes.append(&chunk[..got])?;
                if bytes.len() as u64 > limit {
                    break;
                }
            }
            Err(error) if error.kind() == ErrorKind::Interrupted => {}
            Err(error) => return Err(error),
        }
    }
    Ok(())
}
