// One row of the table, and what comes out of it.
use crate::comparing::Seen;
use crate::stops::Stop;
use std::alloc::{AllocError, Global};

/// A row: KIND CAPACITY WRITES VALUES SEED.
#[derive(Clone, Copy)]
pub struct Row<'a> {
    pub kind: &'a str,
    pub capacity: u32,
    pub writes: u32,
    pub values: u32,
    pub seed: u64,
}

impl<'a> Row<'a> {
    /// The row that words say.
    pub fn read(text: &'a str) -> Result<Row<'a>, Stop> {
        let Some((kind, numbers)) = text.split_once(' ') else {
            return Err(Stop::Malformed);
        };
        let mut words = numbers.split(' ');
        Ok(Row {
            kind,
            capacity: small_number(words.next())?,
            writes: small_number(words.next())?,
            values: small_number(words.next())?,
            seed: number(words.next())?,
        })
    }
}

fn small_number(word: Option<&str>) -> Result<u32, Stop> {
    match u32::try_from(number(word)?) {
        Ok(n) => Ok(n),
        Err(_) => Err(Stop::Malformed),
    }
}

fn number(word: Option<&str>) -> Result<u64, Stop> {
    let Some(word) = word else {
        return Err(Stop::Malformed);
    };
    match word.parse::<u64>() {
        Ok(n) => Ok(n),
        Err(_) => Err(Stop::Malformed),
    }
}

/// What comes out of a row: how many values were tried, how many edges they have, and what is said of the first that the walk gives
/// otherwise.
#[derive(Drop)]
pub struct Outcome {
    pub values: u32,
    pub edges: u64,
    pub differs: Option<String>,
}

impl Outcome {
    pub fn new() -> Outcome {
        Outcome {
            values: 0,
            edges: 0,
            differs: None,
        }
    }

    /// Counts a value, and says whether the walk gives its edges.
    pub fn count(&mut self, alloc: Global, seen: &Seen) -> Result<bool, AllocError> {
        self.values = self.values.saturating_add(1);
        self.edges = self.edges.saturating_add(seen.read.len() as u64);
        if seen.agrees() {
            return Ok(true);
        }
        self.differs = Some(seen.text(alloc)?);
        Ok(false)
    }

    /// The text of the outcome.
    pub fn text(&self, alloc: Global) -> Result<String, AllocError> {
        let values = self.values;
        match &self.differs {
            Some(text) => format!(in alloc; "value {values} differs: {}", text.as_str()),
            None if self.edges == 0 => format!(in alloc; "{values} values, no edges"),
            None => format!(in alloc; "{values} values, edges as read"),
        }
    }
}
