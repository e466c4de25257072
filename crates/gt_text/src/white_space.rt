ghost use Rattle.std.specs.Prelude.{◌≡◌, ◌<◌, IsTrue};
ghost use Rattle.gt_text.specs.WhiteSpace.{is_white_space_of};

/// Whether the byte is white space: space, tab, newline, vertical tab, form feed or carriage return (C11, 5.1.1.2).
#[tactic(auto, unfolding(crate::specs::WhiteSpace::is_white_space_of))]
pub fn is_white_space(byte: u8) -> bool
    ensures white_space { result ≡ is_white_space_of byte }
    ensures ascii { IsTrue result → byte < 128 }
{
    matches!(byte, b' ' | b'\t' | b'\n' | 0x0b | 0x0c | b'\r')
}
