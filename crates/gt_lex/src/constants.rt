// The constant of a directive `#define NAME INTEGER`.
ghost use Rattle.std.specs.Prelude.{◌≡◌, ◌<◌, ◌+◌, ◌^◌, length, codes, pos, neg_ℤ};
ghost use Rattle.std.specs.Str.{bytes_eq};
ghost use Rattle.std.specs.Option.{option_map};
ghost use Rattle.gt_lex.specs.Seen.{constant_from, then_of, seen_with, constant_seen};
ghost use Rattle.gt_text.specs.Integer.{integer_of};

use crate::starts::Start;
use crate::tokens::{Define, Kind};
use gt_text::integer_value;

/// The tokens of a directive so far: as many as may be those of a constant, or other ones.
#[derive(Clone, Copy, Debug, PartialEq, Eq)]
pub enum Seen {
    Nothing,
    Word,
    Name { start: u32, end: u32 },
    Minus { start: u32, end: u32 },
    Constant(Define),
    Other,
}

// The constant of a name, where there is a value.
fn constant(start: u32, end: u32, value: Option<i64>) -> Seen
    ensures { result ≡ constant_from start end value }
{
    match value {
        Some(value) => Seen::Constant(Define { start, end, value }),
        None => Seen::Other,
    }
}

fn negative_value(text: &[u8]) -> Option<i64>
    ensures { result ≡ option_map (λ n. neg_ℤ (pos n)) (integer_of text.now) }
{
    match integer_value(text) {
        Some(value) => Some(-value),
        None => None,
    }
}

impl Seen {
    // The same with one more token, which begins at `start`.
    fn then(self, kind: Kind, text: &[u8], start: u32) -> Seen
        requires { start + length text.now < 2 ^ 32 }
        ensures { result ≡ then_of self (record { kind = kind; text = text.now; start = start }) }
    {
        match self {
            Seen::Nothing if text == b"define".as_slice() => Seen::Word,
            Seen::Word if kind == Kind::Ident => Seen::Name {
                start,
                end: start + text.len() as u32,
            },
            Seen::Name { start, end } if text == b"-".as_slice() => Seen::Minus { start, end },
            Seen::Name { start, end } => constant(start, end, integer_value(text)),
            Seen::Minus { start, end } => constant(start, end, negative_value(text)),
            _ => Seen::Other,
        }
    }

    /// The same after one more part, which begins at the offset `at`.
    pub fn with(self, part: Start, text: &[u8], at: u32) -> Seen
        requires { at + length text.now < 2 ^ 32 }
        ensures { result ≡ seen_with self part text.now at }
    {
        match part {
            Start::Token(kind) => self.then(kind, text, at),
            _ => self,
        }
    }

    /// The constant that they make.
    pub fn constant(self) -> Option<Define>
        ensures { result ≡ constant_seen self }
    {
        match self {
            Seen::Constant(define) => Some(define),
            _ => None,
        }
    }
}
