use std::alloc::{AllocError, AllocFailed};
use thiserror::Error;

/// Why a file was not read.
#[derive(Clone, Copy, Debug, PartialEq, Eq, Error)]
pub enum ReadFail {
    /// The call failed.
    #[error("the file could not be read")]
    Failed,
    /// The file is longer than the caller's limit.
    #[error("the file is too long")]
    TooLong,
    /// Out of memory.
    #[error("there was no memory to read the file")]
    Memory,
}

/// Why bytes were not written.
#[derive(Clone, Copy, Debug, PartialEq, Eq, Error)]
pub enum WriteFail {
    /// The call failed.
    #[error("the bytes could not be written")]
    Failed,
    /// Out of memory.
    #[error("there was no memory to write the bytes")]
    Memory,
}

impl From<AllocError> for ReadFail {
    ghost use Rattle.std.specs.Prelude.{◌≡◌};
    ghost use Rattle.gt_io.specs.declared.fail.ReadFail.TheVariants.{Memory};

    ghost from_gives = { λ _ fail. fail ≡ Memory };

    fn from(_: AllocError) -> ReadFail {
        ReadFail::Memory
    }
}

impl<T: Drop> From<AllocFailed<T>> for ReadFail {
    ghost use Rattle.std.specs.Prelude.{◌≡◌};
    ghost use Rattle.gt_io.specs.declared.fail.ReadFail.TheVariants.{Memory};

    ghost from_gives = { λ _ fail. fail ≡ Memory };

    fn from(_: AllocFailed<T>) -> ReadFail {
        ReadFail::Memory
    }
}

impl From<AllocError> for WriteFail {
    ghost use Rattle.std.specs.Prelude.{◌≡◌};
    ghost use Rattle.gt_io.specs.declared.fail.WriteFail.TheVariants.{Memory};

    ghost from_gives = { λ _ fail. fail ≡ Memory };

    fn from(_: AllocError) -> WriteFail {
        WriteFail::Memory
    }
}

impl<T: Drop> From<AllocFailed<T>> for WriteFail {
    ghost use Rattle.std.specs.Prelude.{◌≡◌};
    ghost use Rattle.gt_io.specs.declared.fail.WriteFail.TheVariants.{Memory};

    ghost from_gives = { λ _ fail. fail ≡ Memory };

    fn from(_: AllocFailed<T>) -> WriteFail {
        WriteFail::Memory
    }
}
