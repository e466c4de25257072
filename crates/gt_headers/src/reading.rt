// The items of texts, each of which is read by itself.
ghost use Rattle.std.specs.Prelude.{◌≤◌, ◌<◌, ◌^◌, All, IfErr, IfOk, length};
ghost use Rattle.gt_headers.specs.Reading.{AreRead, IsRead};
ghost use Rattle.gt_headers.specs.Stops.{IsReadingStop, IsTextStop};

use gt_items::Items;
use gt_lex::lex;
use gt_parse::parse;
use gt_types::{Bytes, MAX_HEADERS, Stop};
use std::alloc::Global;

// The items of a text, or the first fault of its tokens, or else of its items.
fn read_text(alloc: Global, file: u32, text: &[u8]) -> Result<Items, Stop>
    requires short { length text.now < 2 ^ 32 }
    ensures items { IfOk result (IsRead text.now) }
    ensures fault { IfErr result (IsTextStop file text.now) }
{
    let lexed = match lex(alloc, file, text) {
        Ok(lexed) => lexed,
        Err(stop) => return Err(stop),
    };
    parse(alloc, file, text, &lexed)
}

/// The items of texts, each by itself, or the first fault of the first text that has one.
pub fn read_all(alloc: Global, texts: &[Bytes]) -> Result<Vec<Items>, Stop>
    requires few { length texts.now ≤ MAX_HEADERS }
    requires short { All (λ text. length text < 2 ^ 32) texts.now }
    ensures files { IfOk result (λ files. AreRead texts.now files.items) }
    ensures fault { IfErr result (IsReadingStop texts.now) }
{
    let mut files = Vec::new(alloc);
    for (place, text) in texts.iter().enumerate() {
        match read_text(alloc, place as u32 + 1, text.as_slice()) {
            Ok(items) => files.push(items)?,
            Err(stop) => return Err(stop),
        }
    }
    Ok(files)
}
