// The rows of the table, one line after another.
ghost use Rattle.value_notation.specs.Trials.{IsReady};

use crate::leaves::LeafStop;
use crate::rows::Row;
use crate::verdicts::are_bytes_for;
use std::alloc::AllocError;
use value_notation::{MALFORMED, Refusal, Sample, remark, word_difference};

/// What a row comes out as, if that is not what it wants.
pub fn difference(on: &Sample, line: &str) -> Result<Option<String>, AllocError>
    requires ready { IsReady on.now.program on.now.layouts }
{
    let Some((words, wanted)) = line.split_once(" -> ") else {
        return remark(on.alloc, MALFORMED);
    };
    match Row::read(on, words) {
        Ok(row) => row_difference(on, &row, wanted),
        Err(Refusal::Malformed) => remark(on.alloc, MALFORMED),
        Err(Refusal::Memory) => Err(AllocError),
    }
}

// The same of a row that is read.
fn row_difference(on: &Sample, row: &Row, wanted: &str) -> Result<Option<String>, AllocError>
    requires ready { IsReady on.now.program on.now.layouts }
{
    let found = match are_bytes_for(on, &row.ty, &row.value, row.bytes.as_slice()) {
        Ok(true) => "stands",
        Ok(false) => "does not stand",
        Err(LeafStop::NoLeaves) => "no leaves",
        Err(LeafStop::TooLarge) => "too large",
        Err(LeafStop::Memory) => return Err(AllocError),
    };
    word_difference(on.alloc, found, wanted)
}
