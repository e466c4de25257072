// The digits of a number, at the end of a text.
ghost use Rattle.std.specs.Prelude.{◌≡◌, ◌++◌, IfOk, OnErr, OnOk};
ghost use Rattle.std.specs.String.{string_bytes};
ghost use Rattle.gt_digits.specs.Digits.{decimal, hexadecimal};

use gt_types::Bytes;
use std::alloc::{AllocError, Global};

/// Adds a number in decimal. Out of memory, the text is as before.
pub fn push_decimal(alloc: Global, text: &mut Bytes, n: u64) -> Result<(), AllocError>
    ensures added { OnOk result (text.new ≡ text.old ++ decimal n) }
    ensures unchanged { OnErr result (text.new ≡ text.old) }
{
    let digits = decimal_text(alloc, n)?;
    text.append(digits.as_bytes())
}

/// Adds a number in hexadecimal, in lower case and with eight digits at least. Out of memory, the text is as before.
pub fn push_hexadecimal(alloc: Global, text: &mut Bytes, n: u64) -> Result<(), AllocError>
    ensures added { OnOk result (text.new ≡ text.old ++ hexadecimal n) }
    ensures unchanged { OnErr result (text.new ≡ text.old) }
{
    let digits = hexadecimal_text(alloc, n)?;
    text.append(digits.as_bytes())
}

// A number in decimal.
fn decimal_text(alloc: Global, n: u64) -> Result<String, AllocError>
    ensures { IfOk result (λ text. string_bytes text ≡ decimal n) }
{
    format!(in alloc; "{n}")
}

// A number in hexadecimal, with eight digits at least.
fn hexadecimal_text(alloc: Global, n: u64) -> Result<String, AllocError>
    ensures { IfOk result (λ text. string_bytes text ≡ hexadecimal n) }
{
    format!(in alloc; "{n:08x}")
}
