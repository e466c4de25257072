// One line, word by word.
use gt_types::Word;
use std::alloc::{AllocError, AllocFailed, Global};
use std::fmt;

/// Why the lines of a row are no program.
#[derive(Debug, Drop)]
pub enum Refusal {
    Memory,
    Malformed,
}

impl fmt::Display for Refusal {
    fn fmt<W: fmt::Write>(&self, f: &mut fmt::Formatter<W>) -> fmt::Result {
        f.write_str(match self {
            Refusal::Memory => "out of memory",
            Refusal::Malformed => "not in the notation of the table",
        })
    }
}

impl From<AllocError> for Refusal {
    fn from(_error: AllocError) -> Refusal {
        Refusal::Memory
    }
}

impl<T: Drop> From<AllocFailed<T>> for Refusal {
    fn from(_error: AllocFailed<T>) -> Refusal {
        Refusal::Memory
    }
}

/// A part of a line, and the one that was read after it.
pub fn both<A: Drop, B: Drop>(first: A, next: Result<B, Refusal>) -> Result<(A, B), Refusal> {
    Ok((first, next?))
}

/// The words of a line that were not read yet, the next one last.
#[derive(Drop)]
pub struct Words {
    words: Vec<Word>,
}

impl Words {
    pub fn of(alloc: Global, line: &str) -> Result<Words, AllocError> {
        let mut words = Vec::new(alloc);
        for word in line.split(' ') {
            words.push(Word::of(alloc, word)?)?;
        }
        words.reverse();
        Ok(Words { words })
    }

    /// The next word, which is then read.
    pub fn next(&mut self) -> Result<Word, Refusal> {
        match self.words.pop() {
            Some(word) => Ok(word),
            None => Err(Refusal::Malformed),
        }
    }

    /// The next word as an integer.
    pub fn integer(&mut self) -> Result<i64, Refusal> {
        match self.next()?.as_str().parse::<i64>() {
            Ok(n) => Ok(n),
            Err(_) => Err(Refusal::Malformed),
        }
    }

    /// The next word as a number of 32 bits.
    pub fn number(&mut self) -> Result<u32, Refusal> {
        match u32::try_from(self.integer()?) {
            Ok(n) => Ok(n),
            Err(_) => Err(Refusal::Malformed),
        }
    }

    /// The next word as yes or no.
    pub fn truth(&mut self) -> Result<bool, Refusal> {
        match self.next()?.as_str() {
            "yes" => Ok(true),
            "no" => Ok(false),
            _ => Err(Refusal::Malformed),
        }
    }

    /// Whether there is no further word.
    pub fn is_empty(&self) -> bool {
        self.words.is_empty()
    }
}
