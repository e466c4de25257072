ghost use Rattle.std.specs.Prelude.{◌≡◌, ◌<◌, ◌≤◌, length, Option};
ghost use Rattle.gt_expr.specs.Characters.{front_of, character_at, width_at};

// As many bytes at the front as the first one says that its character has.
fn front(text: &[u8]) -> &[u8]
    ensures { result.now ≡ front_of text.now }
{
    let count = match text {
        [] | [0..=0x7f, ..] => 1,
        [0x80..=0xdf, ..] => 2,
        [0xe0..=0xef, ..] => 3,
        [_, ..] => 4,
    };
    &text[..text.len().min(count)]
}

// The character at the front of a text, or None where the bytes there are no character in UTF-8.
pub fn character_at(text: &[u8]) -> Option<char>
    ensures { result ≡ character_at text.now }
{
    let Ok(front) = std::str::from_utf8(front(text)) else {
        return None;
    };
    front.chars().next()
}

// How many bytes that character has. A byte of no character stands by itself.
pub fn width_at(text: &[u8]) -> usize
    ensures width { result ≡ width_at text.now }
    ensures within { 0 < length text.now → result ≤ length text.now }
    ensures some { 0 < result }
{
    character_at(text).map_or(1, char::len_utf8)
}
