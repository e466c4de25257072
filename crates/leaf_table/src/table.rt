// The rows of the table, one line after another.
ghost use Rattle.gt_leaf.specs.Tables.{IsTableOf};
ghost use Rattle.value_notation.specs.Trials.{IsReady};

use crate::writing::{Outcome, Repeats, try_static_write, try_write};
use gt_leaf::Reads;
use std::alloc::AllocError;
use value_notation::{
    MALFORMED, Row, Sample, Stop, Write, hexadecimal, remark, stopped, text_difference,
    word_difference,
};

// What is said of a leaf that is not written in place.
const NOT_IN_PLACE: &str = "not in place";

// What is said of a leaf with which no value fits.
const MISFIT: &str = "misfit";

/// What a row comes out as, if that is not what it wants.
pub fn difference(on: &Sample, reads: &Reads, line: &str) -> Result<Option<String>, AllocError>
    requires ready { IsReady on.now.program on.now.layouts }
    requires table { IsTableOf on.now.program reads.now }
{
    if let Some(row) = line.strip_prefix("write ") {
        return write_difference(on, reads, row);
    }
    if let Some(row) = line.strip_prefix("times ") {
        return times_difference(on, reads, row);
    }
    if let Some(row) = line.strip_prefix("spread ") {
        return spread_difference(on, reads, row);
    }
    remark(on.alloc, MALFORMED)
}

// The same of a row that writes a leaf once.
fn write_difference(on: &Sample, reads: &Reads, line: &str) -> Result<Option<String>, AllocError>
    requires ready { IsReady on.now.program on.now.layouts }
    requires table { IsTableOf on.now.program reads.now }
{
    let Some((words, wanted)) = line.split_once(" -> ") else {
        return remark(on.alloc, MALFORMED);
    };
    match written_at(on, reads, words, Repeats::at_one_place(1)) {
        Ok(Outcome::Bytes(bytes)) => {
            text_difference(hexadecimal(on.alloc, bytes.as_slice())?, wanted)
        }
        Ok(Outcome::NotInPlace) => word_difference(on.alloc, NOT_IN_PLACE, wanted),
        Ok(Outcome::Misfit) => word_difference(on.alloc, MISFIT, wanted),
        Err(stop) => stopped(on.alloc, stop),
    }
}

// The same of a row that writes a leaf in place so many times.
fn times_difference(on: &Sample, reads: &Reads, line: &str) -> Result<Option<String>, AllocError>
    requires ready { IsReady on.now.program on.now.layouts }
    requires table { IsTableOf on.now.program reads.now }
{
    let Some((times, row)) = line.split_once(" ") else {
        return remark(on.alloc, MALFORMED);
    };
    match times.parse::<u32>() {
        Ok(times) => repeats_difference(on, reads, row, Repeats::at_one_place(times)),
        Err(_) => remark(on.alloc, MALFORMED),
    }
}

// The same of a row that writes a leaf in place so many times, each time at another one of so many places.
fn spread_difference(on: &Sample, reads: &Reads, line: &str) -> Result<Option<String>, AllocError>
    requires ready { IsReady on.now.program on.now.layouts }
    requires table { IsTableOf on.now.program reads.now }
{
    let Some((times, rest)) = line.split_once(" ") else {
        return remark(on.alloc, MALFORMED);
    };
    let Some((places, row)) = rest.split_once(" ") else {
        return remark(on.alloc, MALFORMED);
    };
    match (times.parse::<u32>(), places.parse::<u32>()) {
        (Ok(times), Ok(places)) => { repeats_difference(on, reads, row, Repeats { times, places }) }
        _ => remark(on.alloc, MALFORMED),
    }
}

// The same of the rest of such a row.
fn repeats_difference(
    on: &Sample,
    reads: &Reads,
    row: &str,
    repeats: Repeats,
) -> Result<Option<String>, AllocError>
    requires ready { IsReady on.now.program on.now.layouts }
    requires table { IsTableOf on.now.program reads.now }
{
    let Some((words, wanted)) = row.split_once(" -> ") else {
        return remark(on.alloc, MALFORMED);
    };
    let found = match written_at(on, reads, words, repeats) {
        Ok(Outcome::Bytes(_)) => "written",
        Ok(Outcome::NotInPlace) => NOT_IN_PLACE,
        Ok(Outcome::Misfit) => MISFIT,
        Err(stop) => return stopped(on.alloc, stop),
    };
    word_difference(on.alloc, found, wanted)
}

// What comes of the leaf that words name, where it is written in place so often.
fn written_at(on: &Sample, reads: &Reads, words: &str, repeats: Repeats) -> Result<Outcome, Stop>
    requires ready { IsReady on.now.program on.now.layouts }
    requires table { IsTableOf on.now.program reads.now }
{
    let Some((value, leaf)) = words.split_once(" at ") else {
        return Err(Stop::Malformed);
    };
    let mut write = Write::read(on.alloc, leaf)?;
    if value == "roots" {
        return try_static_write(on, reads, &mut write, repeats);
    }
    let row = Row::read(on.alloc, value)?;
    try_write(on, reads, &row, &mut write, repeats)
}
