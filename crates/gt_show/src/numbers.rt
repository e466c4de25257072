// Numbers, and bytes as hexadecimal digits.
ghost use Rattle.std.specs.Prelude.{◌≡◌, ◌<◌, ◌++◌, IfOk, OnOk};
ghost use Rattle.std.specs.Char.{digit_char};
ghost use Rattle.std.specs.List.{flat_map};
ghost use Rattle.std.specs.String.{string_bytes};
ghost use Rattle.gt_show.specs.Shown.{number_text, byte_text};

use gt_types::Bytes;
use std::alloc::{AllocError, Global};

fn decimal_text(alloc: Global, n: i128) -> Result<String, AllocError>
    ensures { IfOk result (λ text. string_bytes text ≡ number_text n) }
{
    format!(in alloc; "{n}")
}

/// Adds a whole number in decimal.
pub fn push_number(alloc: Global, text: &mut Bytes, n: i128) -> Result<(), AllocError>
    ensures added { OnOk result (text.new ≡ text.old ++ number_text n) }
{
    let digits = decimal_text(alloc, n)?;
    text.append(digits.as_bytes())
}

fn digit(n: u8) -> u8
    requires { n < 16 }
    ensures { result ≡ digit_char n }
{
    if n < 10 { b'0' + n } else { b'a' - 10 + n }
}

/// Adds the two hexadecimal digits of a byte.
pub fn push_byte(text: &mut Bytes, byte: u8) -> Result<(), AllocError>
    ensures added { OnOk result (text.new ≡ text.old ++ byte_text byte) }
{
    text.push(digit(byte / 16))?;
    text.push(digit(byte % 16))
}

/// Adds the two hexadecimal digits of each byte.
pub fn push_bytes(text: &mut Bytes, bytes: &[u8]) -> Result<(), AllocError>
    ensures added { OnOk result (text.new ≡ text.old ++ flat_map byte_text bytes.now) }
{
    for byte in bytes {
        push_byte(text, *byte)?;
    }
    Ok(())
}
