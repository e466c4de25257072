// Texts that are cut at a byte.
ghost use Rattle.std.specs.Prelude.{◌≡◌, ◌<◌, ◌==◌, [], ◌∷◌, length, position, MatchOption};
ghost use Rattle.std.specs.Option.{option_map};
ghost use Rattle.std.specs.Str.{IsUtf8};
ghost use Rattle.gt_split.specs.Texts.{following, before, parts_at, lines_of};

use memchr::memchr;

/// The first byte of a text, and what follows it; None where it has none.
#[inline(always)]
pub fn front(text: &[u8]) -> Option<(u8, &[u8])>
    ensures { MatchOption result (text.now ≡ []) (λ r. text.now ≡ r.0 ∷ r.1.now) }
{
    match text {
        [] => None,
        [byte, after @ ..] => Some((*byte, after)),
    }
}

// What stands before and after the first of a byte.
#[inline(always)]
fn split_once(text: &[u8], byte: u8) -> Option<(&[u8], &[u8])>
    ensures { option_map (λ parts. (parts.0.now, parts.1.now)) result ≡ parts_at byte text.now }
{
    match place_of(text, byte) {
        None => None,
        Some(at) => Some((&text[..at], &text[at + 1..])),
    }
}

#[inline(always)]
fn place_of(text: &[u8], byte: u8) -> Option<usize>
    ensures { result ≡ position (λ c. c == byte) text.now }
{
    memchr(byte, text)
}

/// The first line, without its newline, and what follows it. It takes time by the length of the line.
#[inline(always)]
pub fn first_line(text: &[u8]) -> (&[u8], &[u8])
    requires { 0 < length text.now }
    ensures line { lines_of text.now ≡ result.0.now ∷ lines_of result.1.now }
    ensures shorter { length result.1.now < length text.now }
    ensures utf8 { IsUtf8 text.now → IsUtf8 result.0.now × IsUtf8 result.1.now }
{
    match split_once(text, b'\n') {
        None => (text, &[]),
        Some(parts) => parts,
    }
}

/// What stands after an ASCII byte, where the text begins with it; else None.
#[tactic(auto, unfolding(crate::specs::Texts::following))]
#[inline(always)]
pub fn after_byte(text: &str, byte: u8) -> Option<&str>
    requires ascii { byte < 128 }
    ensures { option_map (λ rest. rest.now) result ≡ following (byte ∷ []) text.now }
{
    match text.as_bytes() {
        [first, ..] if *first == byte => Some(&text[1..]),
        _ => None,
    }
}

// What stands before an ASCII byte, where the text ends with it.
#[tactic(auto, unfolding(crate::specs::Texts::before))]
#[inline(always)]
pub fn before_byte(text: &str, byte: u8) -> Option<&str>
    requires ascii { byte < 128 }
    ensures { option_map (λ rest. rest.now) result ≡ before (byte ∷ []) text.now }
{
    match text.as_bytes() {
        [.., last] if *last == byte => Some(&text[..text.len() - 1]),
        _ => None,
    }
}
