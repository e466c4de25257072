use std::alloc::{AllocError, AllocFailed};

/// How many commands a script may have.
pub const MAX_COMMANDS: usize = 1_000_000;

/// Why a script is not read: memory ran out, or a line is refused, the first by its number from 1, or there are more than
/// 1,000,000 commands.
#[derive(Clone, Copy, Debug, PartialEq, Eq)]
pub enum ScriptStop {
    Memory,
    ScriptSyntax { line: u32 },
    ScriptTooLong,
}

impl From<AllocError> for ScriptStop {
    ghost use Rattle.std.specs.Prelude.{◌≡◌};
    ghost use Rattle.gt_script.specs.declared.stop.ScriptStop.TheVariants.{Memory};

    ghost from_gives = { λ _ stop. stop ≡ Memory };

    fn from(_: AllocError) -> ScriptStop {
        ScriptStop::Memory
    }
}

impl<T: Drop> From<AllocFailed<T>> for ScriptStop {
    ghost use Rattle.std.specs.Prelude.{◌≡◌};
    ghost use Rattle.gt_script.specs.declared.stop.ScriptStop.TheVariants.{Memory};

    ghost from_gives = { λ _ stop. stop ≡ Memory };

    fn from(_: AllocFailed<T>) -> ScriptStop {
        ScriptStop::Memory
    }
}
