// Options that are known by their names alone.
ghost use Rattle.std.specs.Prelude.{◌≡◌, IsTrue};
ghost use Rattle.std.specs.List.{list_all};
ghost use Rattle.std.specs.Char.{is_ascii};
ghost use Rattle.std.specs.Str.{bytes_eq};
ghost use Rattle.gt_drafts.specs.Options.{has_option, has_skip, has_length};
ghost use Rattle.gt_drafts.specs.Undefined.{may_point};

use gt_items::RawOption;
use gt_types::Word;

// Whether a word is this one of ASCII characters.
fn is_word(word: &Word, ascii: &str) -> bool
    requires ascii { IsTrue (list_all is_ascii ascii.now) }
    ensures same { result ≡ bytes_eq word.now ascii.now }
{
    word.as_str() == ascii
}

// Whether an option of this name stands there.
fn has_option(options: &[RawOption], name: &str) -> bool
    requires ascii { IsTrue (list_all is_ascii name.now) }
    ensures same { result ≡ has_option name.now options.now }
{
    options
        .iter()
        .any(|option| is_word(&option.name.word, name))
}

/// Whether `skip` stands there.
pub fn has_skip(options: &[RawOption]) -> bool
    ensures same { result ≡ has_skip options.now }
{
    has_option(options, "skip")
}

/// Whether `length` stands there without `skip`.
pub fn has_length(options: &[RawOption]) -> bool
    ensures same { result ≡ has_length options.now }
{
    has_option(options, "length") && !has_skip(options)
}

/// Whether a pointer to something undefined may stand with the options.
pub fn may_point(options: &[RawOption]) -> bool
    ensures same { result ≡ may_point options.now }
{
    has_skip(options) || has_option(options, "atomic") || has_option(options, "maybe_undef")
}
