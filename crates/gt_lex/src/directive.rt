// A directive, from what follows its `#`.
ghost use Rattle.std.specs.Prelude.{◌≡◌, ◌≤◌, ◌<◌, ◌-◌, ◌^◌, length, MatchResult};
ghost use Rattle.gt_lex.specs.Progress.{IsDirective, StopsInDirective};

use crate::constants::Seen;
use crate::extents::past;
use crate::starts::{Start, directive_start};
use crate::text::{before, place};
use crate::tokens::Define;

/// The constant of a directive, if it is one, and what follows the directive: the line's end. Where a comment in it
/// does not end, the text from that comment on.
pub fn directive(whole: usize, text: &str) -> Result<(Option<Define>, &str), &str>
    requires within { length text.now ≤ whole }
    requires fits { whole < 2 ^ 32 }
    ensures { MatchResult result (λ r. IsDirective (whole - length text.now) text.now r.0 r.1.now)
        (λ open_at. StopsInDirective text.now open_at.now) }
{
    let mut seen = Seen::Nothing;
    let mut rest = text;
    'parts: loop {
        let start = directive_start(rest);
        if let Start::End = start {
            return Ok((seen.constant(), rest));
        }
        let Some((_, after)) = past(start, rest) else {
            return Err(rest);
        };
        seen = seen.with(start, before(rest, after), place(whole, rest));
        rest = after;
    }
}
