// Strings, in quotes.
ghost use Rattle.std.specs.Prelude.{◌≡◌, ◌++◌, length, Some, OnOk};
ghost use Rattle.std.specs.List.{flat_map};
ghost use Rattle.gt_tree.specs.Blocks.{Block, Chars};
ghost use Rattle.gt_show.specs.Shown.{char_text, string_text};
ghost use Rattle.gt_show.specs.Parts.{HasChars};

use crate::numbers::push_byte;
use gt_types::Bytes;
use gt_value::BlockNames;
use std::alloc::AllocError;

// Adds a byte of a string.
fn push_char(text: &mut Bytes, byte: u8) -> Result<(), AllocError>
    ensures added { OnOk result (text.new ≡ text.old ++ char_text byte) }
{
    match byte {
        b'"' | b'\\' => {
            text.push(b'\\')?;
            text.push(byte)
        }
        32..=126 => text.push(byte),
        _ => {
            text.append(b"\\x")?;
            push_byte(text, byte)
        }
    }
}

/// Adds the string at an address, of so many bytes with its last zero.
pub fn push_string<N: BlockNames>(
    text: &mut Bytes,
    names: &N,
    addr: u64,
    count: u32,
) -> Result<(), AllocError>
    requires there { HasChars (N.blocks names.now) addr count }
    ensures added { (b : Block) → N.blocks names.now addr ≡ Some b → OnOk result (text.new ≡ text.old ++ string_text b.chars) }
{
    text.push(b'"')?;
    for i in 0..count.saturating_sub(1) {
        push_char(text, names.byte(addr, i))?;
    }
    text.push(b'"')
}

// Adds bytes of a string.
fn push_chars(text: &mut Bytes, bytes: &[u8]) -> Result<(), AllocError>
    ensures added { OnOk result (text.new ≡ text.old ++ flat_map char_text bytes.now) }
{
    for byte in bytes {
        push_char(text, *byte)?;
    }
    Ok(())
}

/// Adds the string that bytes are, with its last zero among them.
pub fn push_quoted(text: &mut Bytes, bytes: &[u8]) -> Result<(), AllocError>
    ensures added { OnOk result (text.new ≡ text.old ++ string_text bytes.now) }
{
    text.push(b'"')?;
    push_chars(text, &bytes[..bytes.len().saturating_sub(1)])?;
    text.push(b'"')
}
