//! One line, word by word.
use gt_types::Word;
use std::alloc::{AllocError, AllocFailed, Global};

/// Why a line is not read: it is not in the notation of the table, or memory is wanting.
#[derive(Clone, Copy, Debug, PartialEq, Eq)]
pub enum Refusal {
    Malformed,
    Memory,
}

impl From<AllocError> for Refusal {
    fn from(_: AllocError) -> Refusal {
        Refusal::Memory
    }
}

impl<T: Drop> From<AllocFailed<T>> for Refusal {
    fn from(_: AllocFailed<T>) -> Refusal {
        Refusal::Memory
    }
}

/// The words of a line that were not read yet, the next one last.
#[derive(Drop)]
pub struct Line {
    words: Vec<Word>,
}

impl Line {
    pub fn of(alloc: Global, text: &str) -> Result<Line, AllocError> {
        let mut words = Vec::new(alloc);
        for part in text.split(' ') {
            words.push(Word::of(alloc, part)?)?;
        }
        words.reverse();
        Ok(Line { words })
    }

    /// How many words are left.
    pub fn len(&self) -> usize {
        self.words.len()
    }

    /// The next word, which is then read.
    pub fn next(&mut self) -> Result<Word, Refusal> {
        match self.words.pop() {
            Some(word) => Ok(word),
            None => Err(Refusal::Malformed),
        }
    }

    /// Whether this is the next word, which is then read.
    pub fn takes(&mut self, text: &str) -> bool {
        match self.words.last() {
            Some(word) if word.as_str() == text => {
                self.words.pop();
                true
            }
            _ => false,
        }
    }

    /// Reads this word, which has to stand next.
    pub fn expect(&mut self, text: &str) -> Result<(), Refusal> {
        if self.takes(text) {
            Ok(())
        } else {
            Err(Refusal::Malformed)
        }
    }

    /// The next word as a number below 2^32, which is decimal, or hexadecimal after `0x`.
    pub fn number(&mut self) -> Result<u32, Refusal> {
        number(self.next()?.as_str())
    }
}

/// A word as a number below 2^32.
pub fn number(text: &str) -> Result<u32, Refusal> {
    let found = match text.strip_prefix("0x") {
        Some(digits) => u32::from_str_radix(digits, 16),
        None => text.parse::<u32>(),
    };
    match found {
        Ok(number) => Ok(number),
        Err(_) => Err(Refusal::Malformed),
    }
}
