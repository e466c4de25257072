//! What an object holds, and the number by which an image says so.

ghost use Rattle.std.specs.Prelude.{◌≡◌, ◌<◌, MatchOption};
ghost use Rattle.gt_imgfmt.specs.Kinds.{kind_number};

/// What an object holds.
#[derive(Clone, Copy, Debug, PartialEq, Eq)]
pub enum Kind {
    /// Structures of one type.
    Nodes,
    /// Pointers to structures of one type.
    Pointers,
    /// Pointers to strings.
    Strings,
    /// The characters of a string, with the zero byte at their end.
    Chars,
    /// Bytes without pointers.
    Raw,
}

impl Kind {
    /// The number of the kind in an image.
    pub fn number(self) -> u32
        ensures number { result ≡ kind_number self }
    {
        match self {
            Kind::Nodes => 0,
            Kind::Pointers => 1,
            Kind::Strings => 2,
            Kind::Chars => 3,
            Kind::Raw => 4,
        }
    }

    /// The kind that has the number, or None above 4.
    pub fn of(number: u32) -> Option<Kind>
        ensures kind { MatchOption result (4 < number) (λ kind. kind_number kind ≡ number) }
    {
        match number {
            0 => Some(Kind::Nodes),
            1 => Some(Kind::Pointers),
            2 => Some(Kind::Strings),
            3 => Some(Kind::Chars),
            4 => Some(Kind::Raw),
            _ => None,
        }
    }
}
