// What is said of rows.
use crate::trials::Stop;
use std::alloc::{AllocError, Global};
use std::io;

/// What is said of a row that is not read.
pub const MALFORMED: &str = "not in the notation of the table";

/// How many rows there were, and how many of them came out otherwise.
#[derive(Clone, Copy)]
pub struct Tally {
    rows: u64,
    differ: u64,
}

impl Tally {
    pub fn new() -> Tally {
        Tally { rows: 0, differ: 0 }
    }

    /// Counts a row, and says what it came out as, if that is not what it wants.
    pub fn count(&mut self, rt: &impl Print, line: &str, found: Option<String>) -> io::Result<()> {
        self.rows = self.rows.saturating_add(1);
        if let Some(found) = found {
            self.differ = self.differ.saturating_add(1);
            println!(rt; "{line}: {}", found.as_str())?;
        }
        Ok(())
    }

    /// Says how many rows there were.
    pub fn finish(&self, rt: &impl Print) -> io::Result<()> {
        println!(rt; "{} rows, {} differ", self.rows, self.differ)
    }
}

/// Whether a line is a row, and no comment and no empty line.
pub fn is_row(line: &str) -> bool {
    !line.is_empty() && !line.starts_with("#")
}

/// What is said of a row of which there is no value.
pub fn stopped(alloc: Global, stop: Stop) -> Result<Option<String>, AllocError> {
    match stop {
        Stop::Memory => Err(AllocError),
        Stop::Malformed => remark(alloc, MALFORMED),
        _ => remark(alloc, "no value"),
    }
}

/// A text, if that is not what is wanted.
pub fn text_difference(text: String, wanted: &str) -> Result<Option<String>, AllocError> {
    if text.as_str() == wanted {
        Ok(None)
    } else {
        Ok(Some(text))
    }
}

/// A word that was found, if that is not what is wanted.
pub fn word_difference(
    alloc: Global,
    found: &str,
    wanted: &str,
) -> Result<Option<String>, AllocError> {
    if found == wanted {
        Ok(None)
    } else {
        remark(alloc, found)
    }
}

/// Something to say of a row.
pub fn remark(alloc: Global, text: &str) -> Result<Option<String>, AllocError> {
    Ok(Some(String::from_str(alloc, text)?))
}

/// Bytes in hexadecimal.
pub fn hexadecimal(alloc: Global, bytes: &[u8]) -> Result<String, AllocError> {
    let mut text = String::new(alloc);
    for byte in bytes {
        write!(text, "{byte:02x}")?;
    }
    Ok(text)
}
