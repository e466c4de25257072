// The table taken apart into its rows.
use gt_types::Bytes;
use std::alloc::{AllocError, Global};
use std::fmt::Write;

/// A row: the texts as they stand in the table, and what they are read as.
#[derive(Debug, Drop)]
pub struct Row {
    pub texts: Vec<String>,
    pub answer: String,
}

/// What is added to the rows that were read, line by line.
#[derive(Drop)]
pub struct Rows {
    texts: Vec<String>,
}

impl Rows {
    pub fn new(alloc: Global) -> Rows {
        Rows {
            texts: Vec::new(alloc),
        }
    }

    /// Takes an indented line: a text, or the answer that ends the row.
    pub fn take(&mut self, alloc: Global, line: &str) -> Result<Option<Row>, AllocError> {
        match line.strip_prefix("  =") {
            None => {
                self.texts.push(String::from_str(alloc, line)?)?;
                Ok(None)
            }
            Some(answer) => {
                let texts = std::mem::replace(&mut self.texts, Vec::new(alloc));
                let answer = String::from_str(alloc, answer.strip_prefix(" ").unwrap_or(""))?;
                Ok(Some(Row { texts, answer }))
            }
        }
    }
}

/// The bytes that a text of the table stands for. `\n`, `\t`, `\r` and `\xHH` are bytes, `\\` is a backslash, `\&` is nothing,
/// and `\<N:TEXT\>` is the text N times.
pub fn bytes_of(alloc: Global, text: &str) -> Result<Bytes, AllocError> {
    let mut whole = Bytes::new(alloc);
    for (place, part) in text.split("\\<").enumerate() {
        if place == 0 {
            add_plain(&mut whole, part)?;
        } else {
            add_repeated(alloc, &mut whole, part)?;
        }
    }
    Ok(whole)
}

// Adds `N:TEXT\>` and what follows it.
fn add_repeated(alloc: Global, whole: &mut Bytes, part: &str) -> Result<(), AllocError> {
    let Some((repeated, rest)) = part.split_once("\\>") else {
        return whole.append(b"<no end>");
    };
    let Some((times, text)) = repeated.split_once(':') else {
        return whole.append(b"<no number>");
    };
    let mut once = Bytes::new(alloc);
    add_plain(&mut once, text)?;
    for _ in 0..times.parse::<u32>().unwrap_or(0) {
        whole.append(once.as_slice())?;
    }
    add_plain(whole, rest)
}

// Where the reading of a text stands: between two bytes that stand for themselves, after a backslash, or in the digits of a byte.
#[derive(Clone, Copy, Debug, PartialEq, Eq)]
enum Reading {
    Plain,
    Escape,
    HighDigit,
    LowDigit(u8),
}

// Adds the bytes of a text without repetitions.
fn add_plain(whole: &mut Bytes, text: &str) -> Result<(), AllocError> {
    let mut reading = Reading::Plain;
    for byte in text.as_bytes() {
        let (next, given) = read_byte(reading, *byte);
        reading = next;
        if let Some(given) = given {
            whole.push(given)?;
        }
    }
    Ok(())
}

// What follows a byte of a text, and the byte that ends there.
fn read_byte(reading: Reading, byte: u8) -> (Reading, Option<u8>) {
    match (reading, byte) {
        (Reading::Plain, b'\\') => (Reading::Escape, None),
        (Reading::Plain, _) => (Reading::Plain, Some(byte)),
        (Reading::Escape, b'n') => (Reading::Plain, Some(b'\n')),
        (Reading::Escape, b't') => (Reading::Plain, Some(b'\t')),
        (Reading::Escape, b'r') => (Reading::Plain, Some(b'\r')),
        (Reading::Escape, b'x') => (Reading::HighDigit, None),
        (Reading::Escape, b'&') => (Reading::Plain, None),
        (Reading::Escape, _) => (Reading::Plain, Some(byte)),
        (Reading::HighDigit, _) => (Reading::LowDigit(digit(byte)), None),
        (Reading::LowDigit(high), _) => {
            (
                Reading::Plain,
                Some(high.wrapping_mul(16).wrapping_add(digit(byte))),
            )
        }
    }
}

// The worth of a hexadecimal digit.
fn digit(byte: u8) -> u8 {
    match byte {
        b'0'..=b'9' => byte - b'0',
        b'a'..=b'f' => byte - b'a' + 10,
        _ => 0,
    }
}
