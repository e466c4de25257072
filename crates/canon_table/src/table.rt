// The rows of the table, one line after another.
use crate::notation::program;
use crate::words::Refusal;
use gt_canon::{canon, fingerprint};
use gt_types::Program;
use sha2::{Digest, Sha256};
use std::alloc::{AllocError, Global};
use std::fmt::Write;
use std::io;

/// The row that is being read, and how the rows before it came out.
#[derive(Drop)]
pub struct Table {
    comment: String,
    lines: Vec<String>,
    text: String,
    digest: String,
    in_text: bool,
    rows: u64,
    differ: u64,
}

impl Table {
    pub fn new(alloc: Global) -> Table {
        Table {
            comment: String::new(alloc),
            lines: Vec::new(alloc),
            text: String::new(alloc),
            digest: String::new(alloc),
            in_text: false,
            rows: 0,
            differ: 0,
        }
    }

    /// Takes a line: a comment, a line of the program or of its text, the digest, a published digest, or the end of the row.
    pub fn take<R: Print + AllocGlobal>(&mut self, rt: &R, line: String) -> io::Result<()> {
        match line.as_str() {
            "" => self.close(rt),
            "=" => {
                self.in_text = true;
                Ok(())
            }
            text => {
                if text.starts_with("#") {
                    self.comment = line;
                } else if let Some(vector) = text.strip_prefix("digest ") {
                    self.try_vector(rt, vector)?;
                } else if let Some(digest) = text.strip_prefix("sha256 ") {
                    self.digest.push_str(digest)?;
                } else if self.in_text {
                    self.text.push_str(text)?;
                    self.text.push('\n')?;
                } else {
                    self.lines.push(line)?;
                }
                Ok(())
            }
        }
    }

    // Tries a published digest: a text without spaces, and its SHA-256.
    fn try_vector<R: Print + AllocGlobal>(&mut self, rt: &R, vector: &str) -> io::Result<()> {
        self.rows = self.rows.saturating_add(1);
        let (text, wanted) = vector.split_once(' ').unwrap_or((vector, ""));
        let found = hexadecimal(rt.alloc(), &Sha256::digest(text.as_bytes()))?;
        if found.as_str() != wanted {
            self.differ = self.differ.saturating_add(1);
            println!(rt; "digest {text}: {found}")?;
        }
        Ok(())
    }

    // Tries the row, and begins the next one. Without a text there is no row.
    fn close<R: Print + AllocGlobal>(&mut self, rt: &R) -> io::Result<()> {
        if self.in_text {
            self.rows = self.rows.saturating_add(1);
            if !self.try_row(rt)? {
                self.differ = self.differ.saturating_add(1);
            }
        }
        self.lines.clear();
        self.text.clear();
        self.digest.clear();
        self.in_text = false;
        Ok(())
    }

    // Whether the row comes out as it wants. If not, it is printed.
    fn try_row<R: Print + AllocGlobal>(&self, rt: &R) -> io::Result<bool> {
        let comment = self.comment.as_str();
        match self.comes_out(rt.alloc()) {
            Ok(true) => Ok(true),
            Ok(false) => {
                println!(rt; "{comment}: another text or digest")?;
                Ok(false)
            }
            Err(refusal) => {
                println!(rt; "{comment}: {refusal}")?;
                Ok(false)
            }
        }
    }

    // Whether the program of the row has the text that the row wants, and the digest where it wants one.
    fn comes_out(&self, alloc: Global) -> Result<bool, Refusal> {
        let program = program(alloc, &self.lines)?;
        let found = canon(alloc, &program)?;
        if found.as_slice() != self.text.as_str().as_bytes() {
            return Ok(false);
        }
        let wanted = self.digest.as_str();
        Ok(wanted.is_empty() || digest_of(alloc, &program)?.as_str() == wanted)
    }

    /// Says how many rows there were.
    pub fn finish(&self, rt: &impl Print) -> io::Result<()> {
        let rows = self.rows;
        let differ = self.differ;
        println!(rt; "{rows} rows, {differ} differ")
    }
}

// The fingerprint in hexadecimal.
fn digest_of(alloc: Global, program: &Program) -> Result<String, AllocError> {
    hexadecimal(alloc, &fingerprint(alloc, program)?)
}

// Bytes in hexadecimal.
fn hexadecimal(alloc: Global, bytes: &[u8]) -> Result<String, AllocError> {
    let mut text = String::new(alloc);
    for byte in bytes {
        write!(text, "{byte:02x}")?;
    }
    Ok(text)
}
