// The words of a line.
ghost use Rattle.std.specs.Prelude.{◌≡◌, ◌∷◌, ◌++◌, OnOk};
ghost use Rattle.gt_digits.specs.Digits.{decimal};
ghost use Rattle.gt_canon.specs.Lines.{integer};

use gt_digits::push_decimal;
use gt_types::Bytes;
use std::alloc::{AllocError, Global};

/// Adds a word after a space.
pub fn push_word(text: &mut Bytes, word: &[u8]) -> Result<(), AllocError>
    ensures added { OnOk result (text.new ≡ text.old ++ 32 ∷ word.now) }
{
    text.push(b' ')?;
    text.append(word)
}

/// Adds a number after a space.
pub fn push_number(alloc: Global, text: &mut Bytes, n: u64) -> Result<(), AllocError>
    ensures added { OnOk result (text.new ≡ text.old ++ 32 ∷ decimal n) }
{
    text.push(b' ')?;
    push_decimal(alloc, text, n)
}

/// Adds an integer, with its sign where it is negative.
pub fn push_integer(alloc: Global, text: &mut Bytes, n: i64) -> Result<(), AllocError>
    ensures added { OnOk result (text.new ≡ text.old ++ integer n) }
{
    if n < 0 {
        text.push(b'-')?;
    }
    push_decimal(alloc, text, n.unsigned_abs())
}
