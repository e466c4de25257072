// One write of a row: PATH=LEAF.
ghost use Rattle.std.specs.Prelude.{◌<◌, IfSome};

use gt_types::Bytes;
use gt_value::{LeafContent, Value};
use std::alloc::{AllocError, AllocFailed, Global};

/// A leaf, and the path at which it is written.
#[derive(Drop)]
pub struct Write {
    pub path: Vec<u32>,
    pub leaf: Leaf,
}

/// What is written.
#[derive(Drop)]
pub enum Leaf {
    Number(i128),
    Null,
    To(u64),
    Raw(Vec<u8>),
}

/// Why a text is not read: it is not in the notation of the table, or memory is wanting.
#[derive(Clone, Copy, Debug, PartialEq, Eq)]
pub enum Refusal {
    Malformed,
    Memory,
}

impl From<AllocError> for Refusal {
    fn from(_: AllocError) -> Refusal {
        Refusal::Memory
    }
}

impl<T: Drop> From<AllocFailed<T>> for Refusal {
    fn from(_: AllocFailed<T>) -> Refusal {
        Refusal::Memory
    }
}

/// The path that a word says.
pub fn read_path(alloc: Global, word: &str) -> Result<Vec<u32>, Refusal> {
    let mut path = Vec::new(alloc);
    for place in word.split('.') {
        match place.parse::<u32>() {
            Ok(place) => path.push(place)?,
            Err(_) => return Err(Refusal::Malformed),
        }
    }
    Ok(path)
}

impl Write {
    /// The write that a word says.
    pub fn read(alloc: Global, word: &str) -> Result<Write, Refusal> {
        let Some((places, leaf)) = word.split_once('=') else {
            return Err(Refusal::Malformed);
        };
        Ok(Write {
            path: read_path(alloc, places)?,
            leaf: Leaf::read(alloc, leaf)?,
        })
    }
}

impl Leaf {
    /// The leaf that a word says.
    pub fn read(alloc: Global, word: &str) -> Result<Leaf, Refusal> {
        if word == "null" {
            return Ok(Leaf::Null);
        }
        if let Some(address) = word.strip_prefix("@") {
            return match address.parse::<u64>() {
                Ok(address) => Ok(Leaf::To(address)),
                Err(_) => Err(Refusal::Malformed),
            };
        }
        if let Some(digits) = word.strip_prefix("raw:") {
            return Ok(Leaf::Raw(read_bytes(alloc, digits.as_bytes())?));
        }
        match word.parse::<i128>() {
            Ok(n) => Ok(Leaf::Number(n)),
            Err(_) => Err(Refusal::Malformed),
        }
    }

    /// What a leaf in bytes is that is written: a number, null or a pointer.
    pub fn content(&self) -> Option<LeafContent> {
        match self {
            Leaf::Number(n) => Some(LeafContent::Num(*n)),
            Leaf::Null => Some(LeafContent::Null),
            Leaf::To(address) => Some(LeafContent::To(*address)),
            Leaf::Raw(_) => None,
        }
    }

    /// The value that is written.
    pub fn value(&self, alloc: Global) -> Result<Value, AllocError> {
        match self {
            Leaf::Number(n) => Ok(Value::Num(*n)),
            Leaf::Null => Ok(Value::Null),
            Leaf::To(address) => Ok(Value::To(*address)),
            Leaf::Raw(bytes) => Ok(Value::Raw(Bytes::of(alloc, bytes.as_slice())?)),
        }
    }
}

/// The bytes of which these are the hexadecimal digits.
pub fn read_bytes(alloc: Global, digits: &[u8]) -> Result<Vec<u8>, Refusal> {
    let mut bytes = Vec::new(alloc);
    let mut left = digits;
    while let [high, low, rest @ ..] = left {
        match (digit_of(*high), digit_of(*low)) {
            (Some(high), Some(low)) => bytes.push(16 * high + low)?,
            _ => return Err(Refusal::Malformed),
        }
        left = rest;
    }
    if left.is_empty() {
        Ok(bytes)
    } else {
        Err(Refusal::Malformed)
    }
}

fn digit_of(digit: u8) -> Option<u8>
    ensures { IfSome result (λ n. n < 16) }
{
    match digit {
        b'0'..=b'9' => Some(digit - b'0'),
        b'a'..=b'f' => Some(digit - b'a' + 10),
        _ => None,
    }
}
