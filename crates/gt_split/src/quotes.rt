// What stands between quotes.
ghost use Rattle.std.specs.Prelude.{◌≡◌, false, IfOk};
ghost use Rattle.std.specs.Option.{option_map};
ghost use Rattle.gt_split.specs.Texts.{escape_of};
ghost use Rattle.gt_split.specs.Cutting.{quoted_at};

use crate::parts::front;
use gt_types::Bytes;
use std::alloc::{AllocError, Global};

/// What a character after a backslash means; None where it means nothing.
#[tactic(auto, unfolding(crate::specs::Texts::escape_of))]
pub fn escape(letter: u8) -> Option<u8>
    ensures { result ≡ escape_of letter }
{
    match letter {
        b'\\' => Some(b'\\'),
        b'"' => Some(b'"'),
        b'n' => Some(b'\n'),
        b'0' => Some(0),
        _ => None,
    }
}

// After an opening quote: the bytes up to the closing one, and what stands after it.
pub fn read_quoted(alloc: Global, text: &[u8]) -> Result<Option<(Bytes, &[u8])>, AllocError>
    ensures { IfOk result (λ found. option_map (λ r. (r.0, r.1.now)) found ≡ quoted_at false text.now) }
{
    let mut bytes = Vec::new(alloc);
    let mut escaped = false;
    let mut rest = text;
    'bytes: loop {
        match front(rest) {
            None => return Ok(None),
            Some((byte, after)) if escaped => {
                let Some(meant) = escape(byte) else {
                    return Ok(None);
                };
                bytes.push(meant)?;
                escaped = false;
                rest = after;
            }
            Some((b'"', after)) => return Ok(Some((Bytes::from_vec(bytes), after))),
            Some((b'\\', after)) => {
                escaped = true;
                rest = after;
            }
            Some((byte, after)) => {
                bytes.push(byte)?;
                rest = after;
            }
        }
    }
}
