// The rows of the table, one line after another.
ghost use Rattle.std.specs.Prelude.{◌≡◌};
ghost use Rattle.gt_tree.specs.Trees.{Trees, Rec};
ghost use Rattle.gt_tree.specs.Fits.{StaticsFit};
ghost use Rattle.gt_value.specs.Values.{tree_of};
ghost use Rattle.value_notation.specs.Blocks.{blocks};
ghost use Rattle.value_notation.specs.Trials.{IsReady};

use crate::blocks::try_block;
use crate::records::{last_record, record_bytes, refuses};
use crate::texts::{push_ascii, record_text};
use crate::writes::{RootWrite, read_writes};
use gt_value::Value;
use std::alloc::AllocError;
use value_notation::{
    MALFORMED, Refusal, Sample, Stop, hexadecimal, remark, stopped, text_difference,
    word_difference,
};

/// What a row comes out as, if that is not what it wants.
pub fn difference(on: &Sample, line: &str) -> Result<Option<String>, AllocError>
    requires ready { IsReady on.now.program on.now.layouts }
{
    if let Some(row) = line.strip_prefix("statics ") {
        return record_difference(on, row);
    }
    if let Some(row) = line.strip_prefix("block ") {
        return block_difference(on, row);
    }
    remark(on.alloc, MALFORMED)
}

// The same of a row of the static record.
fn record_difference(on: &Sample, row: &str) -> Result<Option<String>, AllocError>
    requires ready { IsReady on.now.program on.now.layouts }
{
    if let Some((words, wanted)) = row.split_once(" => ") {
        return compare_record(on, words, wanted, true);
    }
    match row.split_once(" -> ") {
        Some((words, wanted)) => compare_record(on, words, wanted, false),
        None => remark(on.alloc, MALFORMED),
    }
}

// The same, by the writes that words say, and by what is wanted: bytes or a text.
fn compare_record(
    on: &Sample,
    words: &str,
    wanted: &str,
    in_bytes: bool,
) -> Result<Option<String>, AllocError>
    requires ready { IsReady on.now.program on.now.layouts }
{
    let writes = match read_writes(on.alloc, words) {
        Ok(writes) => writes,
        Err(Refusal::Malformed) => return remark(on.alloc, MALFORMED),
        Err(Refusal::Memory) => return Err(AllocError),
    };
    match refuses(on, writes.as_slice()) {
        Ok(true) => match seen_record(on, writes.as_slice(), in_bytes) {
            Ok(seen) => text_difference(seen, wanted),
            Err(stop) => stopped(on.alloc, stop),
        },
        Ok(false) => remark(on.alloc, "a write fits that has to fit nowhere"),
        Err(stop) => stopped(on.alloc, stop),
    }
}

// The static record after writes, in bytes or as a text.
fn seen_record(on: &Sample, writes: &[RootWrite], in_bytes: bool) -> Result<String, Stop>
    requires ready { IsReady on.now.program on.now.layouts }
{
    let values = last_record(on, writes)?;
    shown_record(on, &values, in_bytes)
}

// A static record in bytes or as a text.
fn shown_record(on: &Sample, values: &Value, in_bytes: bool) -> Result<String, Stop>
    requires ready { IsReady on.now.program on.now.layouts }
    requires fits { (parts : Trees) × (tree_of values.now ≡ Rec parts) × StaticsFit on.now.program blocks parts }
{
    if in_bytes {
        let bytes = record_bytes(on, values)?;
        Ok(hexadecimal(on.alloc, &bytes)?)
    } else {
        Ok(record_text(on, values)?)
    }
}

// The same of a row of a block.
fn block_difference(on: &Sample, row: &str) -> Result<Option<String>, AllocError>
    requires ready { IsReady on.now.program on.now.layouts }
{
    let Some((words, wanted)) = row.split_once(" -> ") else {
        return remark(on.alloc, MALFORMED);
    };
    match try_block(on, words) {
        Ok(shown) => {
            let mut text = String::new(on.alloc);
            push_ascii(&mut text, shown.as_slice())?;
            text_difference(text, wanted)
        }
        Err(Stop::Misfit) => word_difference(on.alloc, "misfit", wanted),
        Err(stop) => stopped(on.alloc, stop),
    }
}
