// One line, word by word.
ghost use Rattle.std.specs.Prelude.{◌<◌, IfSome};

use gt_types::Word;
use std::alloc::{AllocError, AllocFailed, Global};

/// Why a line is not read: it is not in the notation of the table, or memory is wanting.
#[derive(Clone, Copy, Debug, PartialEq, Eq)]
pub enum Refusal {
    Malformed,
    Memory,
}

impl From<AllocError> for Refusal {
    fn from(_: AllocError) -> Refusal {
        Refusal::Memory
    }
}

impl<T: Drop> From<AllocFailed<T>> for Refusal {
    fn from(_: AllocFailed<T>) -> Refusal {
        Refusal::Memory
    }
}

/// The words of a line that were not read yet, the next one last.
#[derive(Drop)]
pub struct Line {
    words: Vec<Word>,
}

impl Line {
    pub fn of(alloc: Global, text: &str) -> Result<Line, AllocError> {
        let mut words = Vec::new(alloc);
        for part in text.split(' ') {
            words.push(Word::of(alloc, part)?)?;
        }
        words.reverse();
        Ok(Line { words })
    }

    /// The next word, which is then read.
    pub fn next(&mut self) -> Result<Word, Refusal> {
        match self.words.pop() {
            Some(word) => Ok(word),
            None => Err(Refusal::Malformed),
        }
    }

    /// Whether this is the next word, which is then read.
    pub fn takes(&mut self, text: &str) -> bool {
        match self.words.last() {
            Some(word) if word.as_str() == text => {
                self.words.pop();
                true
            }
            _ => false,
        }
    }

    /// Whether no word is left, or this one stands next.
    pub fn ends_at(&self, text: &str) -> bool {
        match self.words.last() {
            Some(word) => word.as_str() == text,
            None => true,
        }
    }

    /// The next word as a number below 2^32.
    pub fn number(&mut self) -> Result<u32, Refusal> {
        match self.next()?.as_str().parse::<u32>() {
            Ok(number) => Ok(number),
            Err(_) => Err(Refusal::Malformed),
        }
    }

    /// The next word as an address, in hexadecimal.
    pub fn address(&mut self) -> Result<u64, Refusal> {
        let word = self.next()?;
        let mut address = 0u64;
        for digit in word.as_str().as_bytes() {
            match digit_of(*digit) {
                Some(digit) if address < 1 << 60 => address = 16 * address + digit as u64,
                _ => return Err(Refusal::Malformed),
            }
        }
        Ok(address)
    }

    /// The next word as bytes, two hexadecimal digits each.
    pub fn bytes(&mut self, alloc: Global) -> Result<Vec<u8>, Refusal> {
        let word = self.next()?;
        bytes_of(alloc, word.as_str().as_bytes())
    }
}

// The bytes of which these are the hexadecimal digits.
fn bytes_of(alloc: Global, digits: &[u8]) -> Result<Vec<u8>, Refusal> {
    let mut bytes = Vec::new(alloc);
    let mut left = digits;
    while let [high, low, rest @ ..] = left {
        match (digit_of(*high), digit_of(*low)) {
            (Some(high), Some(low)) => bytes.push(16 * high + low)?,
            _ => return Err(Refusal::Malformed),
        }
        left = rest;
    }
    if left.is_empty() {
        Ok(bytes)
    } else {
        Err(Refusal::Malformed)
    }
}

// The value of a hexadecimal digit.
fn digit_of(digit: u8) -> Option<u8>
    ensures { IfSome result (λ n. n < 16) }
{
    match digit {
        b'0'..=b'9' => Some(digit - b'0'),
        b'a'..=b'f' => Some(digit - b'a' + 10),
        _ => None,
    }
}
