// The names of a program.
ghost use Rattle.std.specs.Prelude.{◌≡◌};
ghost use Rattle.std.specs.Bool.{Decides};
ghost use Rattle.std.specs.List.{list_all};
ghost use Rattle.gt_types.specs.Names.{IsName, is_name_character};

use gt_types::Word;

fn is_name_character(c: char) -> bool
    ensures character { result ≡ is_name_character c }
{
    c.is_ascii_alphanumeric() || c == '_' || c == '#' || '\u{7f}' < c
}

fn has_only_name_characters(word: &Word) -> bool
    ensures characters { result ≡ list_all is_name_character word.now }
{
    word.as_str().chars().all(is_name_character)
}

/// Whether a word is a name.
pub fn is_name(word: &Word) -> bool
    ensures decides { Decides result (IsName word.now) }
{
    if word.is_empty() {
        return false;
    }
    has_only_name_characters(word)
}
