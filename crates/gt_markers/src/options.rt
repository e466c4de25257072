// The options of a marker, by their names.
ghost use Rattle.std.specs.Prelude.{◌≡◌, IsTrue};
ghost use Rattle.std.specs.Option.{option_copied};
ghost use Rattle.std.specs.List.{list_all};
ghost use Rattle.std.specs.Char.{is_ascii};
ghost use Rattle.gt_drafts.specs.Options.{has_option, has_skip};
ghost use Rattle.gt_markers.specs.Options.{option_named};

use crate::kinds::is_word;
use gt_items::RawOption;

/// The first option of a name of ASCII characters.
pub fn option_named<'a>(options: &'a [RawOption], name: &str) -> Option<&'a RawOption>
    requires ascii { IsTrue (list_all is_ascii name.now) }
    ensures first { option_copied result ≡ option_named name.now options.now }
{
    options
        .iter()
        .find(|option| is_word(&option.name.word, name))
}

/// Whether an option of a name of ASCII characters stands there.
pub fn has_option(options: &[RawOption], name: &str) -> bool
    requires ascii { IsTrue (list_all is_ascii name.now) }
    ensures there { result ≡ has_option name.now options.now }
{
    options
        .iter()
        .any(|option| is_word(&option.name.word, name))
}

/// Whether `skip` stands there.
pub fn has_skip(options: &[RawOption]) -> bool
    ensures there { result ≡ has_skip options.now }
{
    has_option(options, "skip")
}
