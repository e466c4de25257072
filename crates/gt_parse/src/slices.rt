ghost use Rattle.std.specs.Prelude.{◌≡◌, ◌≤◌, slice_range, IfOk};
ghost use Rattle.std.specs.Str.{chars, IsCharBoundary};

use gt_types::Word;
use std::alloc::{AllocError, Global};

/// The characters of a text from one byte up to another.
pub fn word_in(alloc: Global, text: &str, start: u32, end: u32) -> Result<Word, AllocError>
    requires order { start ≤ end }
    requires start { IsCharBoundary text.now start }
    requires end { IsCharBoundary text.now end }
    ensures { IfOk result (λ word. word ≡ chars (slice_range text.now start end)) }
{
    Word::of(alloc, &text[start as usize..end as usize])
}
