// The integers of commands.
ghost use Rattle.std.specs.Prelude.{◌≡◌, pos, neg_ℤ};

use std::fmt;
use std::marker::Model;

/// An integer from 1 - 2^64 to 2^64 - 1, that contracts see as that integer. An `Option` of it takes half the memory of one of an `i128`.
#[derive(Clone, Copy, Debug, PartialEq, Eq)]
pub struct Number {
    negative: bool,
    magnitude: u64,
}

impl Model for Number {
    ghost use Rattle.std.specs.Prelude.{ℤ};

    ghost Value = { ℤ };

    ghost use Rattle.gt_split.specs.Integers.{integer_held, IsHeldOnce, held_as, held_as-integer_held};

    ghost view = { integer_held };

    ghost invariant = { IsHeldOnce };

    ghost inverse = { held_as };

    ghost inverse_ok = { held_as-integer_held };
}

impl Number {
    /// The number itself.
    pub fn natural(magnitude: u64) -> Number
        ensures value { result ≡ pos magnitude }
    {
        Number {
            negative: false,
            magnitude,
        }
    }

    /// The number less than zero by so much.
    pub fn negative(magnitude: u64) -> Number
        ensures value { result ≡ neg_ℤ (pos magnitude) }
    {
        Number {
            negative: magnitude != 0,
            magnitude,
        }
    }

    /// The integer.
    pub fn get(self) -> i128
        ensures value { result ≡ self }
    {
        let magnitude = i128::from(self.magnitude);
        if self.negative { -magnitude } else { magnitude }
    }
}

impl fmt::Display for Number {
    fn fmt<W: fmt::Write>(&self, f: &mut fmt::Formatter<W>) -> fmt::Result {
        let number = self.get();
        write!(f, "{number}")
    }
}
