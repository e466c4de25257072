//! The blocks of a row, by their names.
use crate::line::{Refusal, number};
use std::alloc::{AllocError, Global};

/// Where the static record lies.
const STATIC_RECORD: u64 = 0x0ffff000;

/// Blocks of one name, of which each has a number.
#[derive(Drop)]
struct Group {
    name: String,
    addrs: Vec<u64>,
}

/// All blocks.
#[derive(Drop)]
pub struct Blocks {
    alloc: Global,
    groups: Vec<Group>,
}

impl Blocks {
    pub fn new(alloc: Global) -> Blocks {
        Blocks {
            alloc,
            groups: Vec::new(alloc),
        }
    }

    /// Names blocks.
    pub fn add(&mut self, name: &str, addrs: Vec<u64>) -> Result<(), AllocError> {
        let name = String::from_str(self.alloc, name)?;
        self.groups.push(Group { name, addrs })?;
        Ok(())
    }

    /// The addresses of all blocks.
    pub fn all(&self) -> Result<Vec<u64>, AllocError> {
        let mut all = Vec::new(self.alloc);
        for group in &self.groups {
            for addr in &group.addrs {
                all.push(*addr)?;
            }
        }
        Ok(all)
    }

    /// The addresses of the blocks that a word names: `NAME` are all of this name, `NAME.I` is one, `NAME.I-J` are those from one
    /// to another, and `NAME.I-J/2` is every second of these. `static` is the static record.
    pub fn named(&self, word: &str) -> Result<Vec<u64>, Refusal> {
        let mut addrs = Vec::new(self.alloc);
        if word == "static" {
            addrs.push(STATIC_RECORD)?;
            return Ok(addrs);
        }
        let (name, numbers) = match word.split_once('.') {
            Some((name, numbers)) => (name, numbers),
            None => (word, ""),
        };
        let Some(group) = self.groups.iter().find(|group| group.name.as_str() == name) else {
            return Err(Refusal::Malformed);
        };
        let (numbers, step) = match numbers.split_once('/') {
            Some((numbers, step)) => (numbers, number(step)? as usize),
            None => (numbers, 1),
        };
        let (first, end) = range(numbers, group.addrs.len())?;
        if end > group.addrs.len() {
            return Err(Refusal::Malformed);
        }
        for i in first..end {
            if (i - first).checked_rem(step) == Some(0) {
                addrs.push(group.addrs[i])?;
            }
        }
        Ok(addrs)
    }
}

// The first number, and the one after the last. Where there is no number they are those of all, of which there are so many.
fn range(numbers: &str, count: usize) -> Result<(usize, usize), Refusal> {
    if numbers.is_empty() {
        return Ok((0, count));
    }
    let (first, last) = match numbers.split_once('-') {
        Some((first, last)) => (number(first)?, number(last)?),
        None => (number(numbers)?, number(numbers)?),
    };
    Ok((first as usize, last as usize + 1))
}
