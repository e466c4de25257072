ghost use Rattle.std.specs.Prelude.{◌≡◌};
ghost use Rattle.gt_marked.specs.Outcome.{unexpected_as};

use gt_search::{Lexeme, UNEXPECTED};
use std::alloc::{AllocError, AllocFailed};

/// Why nothing was read: out of memory; the tokens of the item end too early; or a fault, with the offset of the token at
/// which it stands.
#[derive(Clone, Copy, Debug, PartialEq, Eq)]
pub enum Unread {
    Memory,
    Ended,
    Fault { number: u8, at: u32 },
}

impl From<AllocError> for Unread {
    ghost use Rattle.std.specs.Prelude.{◌≡◌};
    ghost use Rattle.gt_marked.specs.declared.unread.Unread.TheVariants.{Memory};

    ghost from_gives = { λ _ unread. unread ≡ Memory };

    fn from(_: AllocError) -> Unread {
        Unread::Memory
    }
}

impl<T: Drop> From<AllocFailed<T>> for Unread {
    ghost use Rattle.std.specs.Prelude.{◌≡◌};
    ghost use Rattle.gt_marked.specs.declared.unread.Unread.TheVariants.{Memory};

    ghost from_gives = { λ _ unread. unread ≡ Memory };

    fn from(_: AllocFailed<T>) -> Unread {
        Unread::Memory
    }
}

/// What to answer where the first of the tokens may not stand at its place, or where there is none.
pub fn unexpected_token(tokens: &[Lexeme]) -> Unread
    ensures { result ≡ unexpected_as tokens.now }
{
    match tokens {
        [] => Unread::Ended,
        [first, ..] => Unread::Fault {
            number: UNEXPECTED,
            at: first.spot().start,
        },
    }
}
