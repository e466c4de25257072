// The constants of a text.
ghost use Rattle.std.specs.Prelude.{◌≡◌, map, IfOk};
ghost use Rattle.gt_lex.specs.Texts.{IsLexed};
ghost use Rattle.gt_parse.specs.Header.{constant_in};

use crate::slices::word_in;
use gt_items::{Name, RawConstant};
use gt_lex::Lexed;
use gt_types::List;
use std::alloc::{AllocError, Global};
use std::str;

/// The constants of a text with their names.
pub fn constants(alloc: Global, text: &[u8], lexed: &Lexed) -> Result<List<RawConstant>, AllocError>
    requires { IsLexed text.now lexed.now.tokens lexed.now.defines }
    ensures { IfOk result (λ made. made ≡ map (constant_in text.now) lexed.now.defines) }
{
    let Ok(text) = str::from_utf8(text) else {
        unreachable!()
    };
    let mut made = Vec::new(alloc);
    for define in lexed.defines.as_slice() {
        let word = word_in(alloc, text, define.start, define.end)?;
        made.push(RawConstant {
            name: Name {
                word,
                at: define.start,
            },
            value: define.value,
        })?;
    }
    Ok(List::of(made))
}
