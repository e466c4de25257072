ghost use Rattle.std.specs.Prelude.{◌≡◌, ◌≤◌, length, take};
ghost use Rattle.std.specs.Str.{IsUtf8};
ghost use Rattle.gt_text.specs.Identifier.{continues_identifier_of};
ghost use Rattle.gt_expr.specs.Characters.{run_after};
ghost use Rattle.gt_expr.specs.Parts.{name_len};

use crate::characters::character_at;
use gt_text::{continues_identifier, starts_identifier};

// The longest identifier at the front of a text, or no character where none begins there.
pub fn name_at(text: &[u8]) -> &str
    ensures name { result.now ≡ take (name_len text.now) text.now }
    ensures len { length result.now ≡ name_len text.now }
    ensures within { length result.now ≤ length text.now }
{
    std::str::from_utf8(&text[..name_len(text)]).unwrap()
}

// How many bytes the longest identifier has at the front of a text, or 0.
#[tactic(auto, unfolding(crate::specs::Parts::name_len))]
fn name_len(text: &[u8]) -> usize
    ensures len { result ≡ name_len text.now }
    ensures within { result ≤ length text.now }
    ensures utf8 { IsUtf8 (take result text.now) }
{
    match character_at(text) {
        Some(first) if starts_identifier(first) => run_len(text),
        _ => 0,
    }
}

// How many bytes the characters at the front have that continue an identifier.
fn run_len(text: &[u8]) -> usize
    ensures len { result ≡ run_after 0 continues_identifier_of text.now }
    ensures within { result ≤ length text.now }
    ensures utf8 { IsUtf8 (take result text.now) }
{
    let mut len = 0;
    loop {
        match character_at(&text[len..]) {
            Some(c) if continues_identifier(c) => len += c.len_utf8(),
            _ => return len,
        }
    }
}
