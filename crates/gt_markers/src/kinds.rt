// The options that there are.
ghost use Rattle.std.specs.Prelude.{◌≡◌, IsTrue};
ghost use Rattle.std.specs.List.{list_all};
ghost use Rattle.std.specs.Char.{is_ascii};
ghost use Rattle.std.specs.Str.{bytes_eq};
ghost use Rattle.gt_markers.specs.Options.{kind_of, needs_parameter, stands_beside_skip, exclude};
ghost use Rattle.gt_markers.specs.Sites.{is_tag};

use gt_types::Word;

/// An option of a marker.
#[derive(Clone, Copy, Debug, PartialEq, Eq)]
pub enum OptionKind {
    Skip,
    Length,
    Desc,
    Tag,
    Default,
    Cache,
    Deletable,
    MaybeUndef,
    ChainNext,
    ChainPrev,
    ChainCircular,
    Atomic,
    StringLength,
    VariableSize,
    ForUser,
    Reorder,
}

/// Whether a word is this one of ASCII characters.
pub fn is_word(word: &Word, ascii: &str) -> bool
    requires ascii { IsTrue (list_all is_ascii ascii.now) }
    ensures same { result ≡ bytes_eq word.now ascii.now }
{
    word.as_str() == ascii
}

impl OptionKind {
    /// Which option a name is of; None where it is not known.
    pub fn of(name: &Word) -> Option<OptionKind>
        ensures kind { result ≡ kind_of name.now }
    {
        if is_word(name, "skip") {
            Some(OptionKind::Skip)
        } else if is_word(name, "length") {
            Some(OptionKind::Length)
        } else if is_word(name, "desc") {
            Some(OptionKind::Desc)
        } else if is_word(name, "tag") {
            Some(OptionKind::Tag)
        } else if is_word(name, "default") {
            Some(OptionKind::Default)
        } else if is_word(name, "cache") {
            Some(OptionKind::Cache)
        } else if is_word(name, "deletable") {
            Some(OptionKind::Deletable)
        } else if is_word(name, "maybe_undef") {
            Some(OptionKind::MaybeUndef)
        } else if is_word(name, "chain_next") {
            Some(OptionKind::ChainNext)
        } else if is_word(name, "chain_prev") {
            Some(OptionKind::ChainPrev)
        } else if is_word(name, "chain_circular") {
            Some(OptionKind::ChainCircular)
        } else if is_word(name, "atomic") {
            Some(OptionKind::Atomic)
        } else if is_word(name, "string_length") {
            Some(OptionKind::StringLength)
        } else if is_word(name, "variable_size") {
            Some(OptionKind::VariableSize)
        } else if is_word(name, "for_user") {
            Some(OptionKind::ForUser)
        } else if is_word(name, "reorder") {
            Some(OptionKind::Reorder)
        } else {
            None
        }
    }

    /// Whether the option has a parameter.
    pub fn needs_parameter(self) -> bool
        ensures needs { result ≡ needs_parameter self }
    {
        matches!(
            self,
            OptionKind::Length
                | OptionKind::Desc
                | OptionKind::Tag
                | OptionKind::ChainNext
                | OptionKind::ChainPrev
                | OptionKind::ChainCircular
                | OptionKind::StringLength
                | OptionKind::Reorder
        )
    }

    /// Whether the option counts beside `skip` on a field.
    pub fn stands_beside_skip(self) -> bool
        ensures stands { result ≡ stands_beside_skip self }
    {
        matches!(
            self,
            OptionKind::Skip | OptionKind::Tag | OptionKind::Default
        )
    }

    /// Whether it is `tag`.
    pub fn is_tag(self) -> bool
        ensures tag { result ≡ is_tag self }
    {
        matches!(self, OptionKind::Tag)
    }

    /// Whether this option and another one may not stand together.
    pub fn excludes(self, other: OptionKind) -> bool
        ensures exclude { result ≡ exclude self other }
    {
        match (self, other) {
            (OptionKind::Default, OptionKind::Tag) | (OptionKind::Tag, OptionKind::Default) => true,
            (OptionKind::Atomic, OptionKind::Length) | (OptionKind::Length, OptionKind::Atomic) => {
                true
            }
            (OptionKind::Atomic, OptionKind::MaybeUndef)
            | (OptionKind::MaybeUndef, OptionKind::Atomic) => true,
            (OptionKind::Atomic, OptionKind::StringLength)
            | (OptionKind::StringLength, OptionKind::Atomic) => true,
            _ => false,
        }
    }
}
