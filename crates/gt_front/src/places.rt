// Where a byte of a text stands, by line and column.
ghost use Rattle.std.specs.Prelude.{◌≡◌, ◌≤◌, length};
ghost use Rattle.gt_front.specs.Places.{line_of, column_of, line_ends, after_newline};

use crate::MAX_HEADER_BYTES;

/// A line and a column in bytes, each from 1.
#[derive(Clone, Copy, Debug, PartialEq, Eq)]
pub struct Position {
    pub line: u32,
    pub column: u32,
}

/// The place of an offset in a text.
pub fn place_in(text: &[u8], at: u32) -> Position
    requires within { length text.now ≤ MAX_HEADER_BYTES }
    ensures line { result.line ≡ line_of text.now at }
    ensures column { result.column ≡ column_of text.now at }
{
    let front = &text[..text.len().min(at as usize)];
    Position {
        line: line_ends(front) + 1,
        column: after_newline(front) + 1,
    }
}

// How many lines end in some bytes.
#[tactic(auto, unfolding(crate::specs::Places::line_ends))]
fn line_ends(front: &[u8]) -> u32
    requires within { length front.now ≤ MAX_HEADER_BYTES }
    ensures ends { result ≡ line_ends front.now }
    ensures few { result ≤ length front.now }
{
    let mut ends = 0;
    for byte in front {
        if *byte == b'\n' {
            ends += 1;
        }
    }
    ends
}

// How many bytes stand after the last newline.
#[tactic(auto, unfolding(crate::specs::Places::after_newline))]
fn after_newline(front: &[u8]) -> u32
    requires within { length front.now ≤ MAX_HEADER_BYTES }
    ensures bytes { result ≡ after_newline 0 front.now }
    ensures few { result ≤ length front.now }
{
    let mut count = 0;
    for byte in front {
        count = if *byte == b'\n' { 0 } else { count + 1 };
    }
    count
}
