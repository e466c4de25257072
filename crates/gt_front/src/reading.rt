// The files that a call names, read in their order: each header, and then the script.
ghost use Rattle.std.specs.Prelude.{◌≡◌, ◌≤◌, IfErr, IfOk, IsErrOf, List, length, ℕ, Some};
ghost use Rattle.gt_io.specs.Counts.{Rose};
ghost use Rattle.gt_front.specs.Order.{AreRead};
ghost use Rattle.gt_front.specs.Reading.{AreHeadersRead, HasStopped, IsAnswered, IsStopAt, IsStopIn};
ghost use Rattle.gt_front.specs.Texts.{IsTextOf, headers_from};

use crate::{FileWhy, MAX_HEADER_BYTES};
use gt_io::{Files, ReadFail};
use gt_types::{Bytes, Word};
use std::alloc::{AllocFailed, Global};

/// Why a file was not read: out of memory, or the place of its word and why it is refused.
#[derive(Clone, Copy, Debug, PartialEq, Eq)]
pub enum ReadStop {
    Memory,
    Refused { word: u32, why: FileWhy },
}

impl<T: Drop> From<AllocFailed<T>> for ReadStop {
    ghost use Rattle.std.specs.Prelude.{◌≡◌};
    ghost use Rattle.gt_front.specs.declared.reading.ReadStop.TheVariants.{Memory};

    ghost from_gives = { λ _ stop. stop ≡ Memory };

    fn from(_: AllocFailed<T>) -> ReadStop {
        ReadStop::Memory
    }
}

/// The texts of the headers, read in their order up to the first that is refused.
pub fn read_headers<F: Files>(
    alloc: Global,
    files: &mut F,
    names: &[Word],
) -> Result<Vec<Bytes>, ReadStop>
    requires few { length names.now ≤ 64 }
    ensures read { IfOk result (λ texts. AreHeadersRead (F.told files.old) names.now texts.items) }
    ensures stopped { IfErr result (IsStopIn (F.told files.old) names.now) }
    ensures told { F.told files.new ≡ F.told files.old }
    ensures later { F.faults files.old ≤ F.faults files.new }
    ensures cause { (at : ℕ) → IsErrOf result (ReadStop.Refused at FileWhy.Fault) → Rose (F.faults files.old) (F.faults files.new) }
    ensures all { IfOk result (λ texts. AreRead F.reads files.old (headers_from 1 names.now) texts.items files.new) }
    ensures stops { IfErr result (λ stop. HasStopped F.reads files.old (headers_from 1 names.now) stop files.new) }
{
    let mut texts = Vec::new(alloc);
    let mut word = 1;
    for name in names {
        match read_file(alloc, files, name, word, MAX_HEADER_BYTES) {
            Ok(text) => texts.push(text)?,
            Err(stop) => return Err(stop),
        }
        word += 1;
    }
    Ok(texts)
}

/// The bytes of one file, whose word stands at this place.
pub fn read_file<F: Files>(
    alloc: Global,
    files: &mut F,
    name: &Word,
    word: u32,
    limit: u64,
) -> Result<Bytes, ReadStop>
    ensures read { IfOk result (IsTextOf (F.told files.old) (record { word = word; name = name.now; limit = limit })) }
    ensures stopped { IfErr result (IsStopAt (F.told files.old) (record { word = word; name = name.now; limit = limit })) }
    ensures told { F.told files.new ≡ F.told files.old }
    ensures later { F.faults files.old ≤ F.faults files.new }
    ensures cause { (at : ℕ) → IsErrOf result (ReadStop.Refused at FileWhy.Fault) → Rose (F.faults files.old) (F.faults files.new) }
    ensures one { IfOk result (λ text. F.reads files.old name.now limit (Ok (Some text)) files.new) }
    ensures answered { IfErr result (λ stop. IsAnswered F.reads files.old (record { word = word; name = name.now; limit = limit }) stop files.new) }
{
    match files.read(alloc, name, limit) {
        Ok(Some(bytes)) => Ok(bytes),
        Ok(None) => Err(refuse(word, FileWhy::Missing)),
        Err(ReadFail::TooLong) => Err(refuse(word, FileWhy::TooLong)),
        Err(ReadFail::Failed) => Err(refuse(word, FileWhy::Fault)),
        Err(ReadFail::Memory) => Err(ReadStop::Memory),
    }
}

fn refuse(word: u32, why: FileWhy) -> ReadStop
    ensures { result ≡ ReadStop.Refused word why }
{
    ReadStop::Refused { word, why }
}
