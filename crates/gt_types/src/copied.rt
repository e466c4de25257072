ghost use Rattle.std.specs.Prelude.{◌≡◌, IfOk};

use std::alloc::{AllocError, Global};

/// A value that can be copied, where the contract says that the copy is the same value.
pub trait Copied {
    /// The same value again. Its only error is out of memory.
    fn copy(&self, alloc: Global) -> Result<Self, AllocError>
        ensures same { IfOk result (λ made. made ≡ self.now) };
}

impl Copied for u32 {
    fn copy(&self, _alloc: Global) -> Result<u32, AllocError> {
        Ok(*self)
    }
}
