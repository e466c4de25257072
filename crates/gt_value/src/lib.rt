//! The values of the typed-object machine: zero, and what the bytes of a space stand for.
#![tactic(auto)]

mod bits;
mod cursors;
mod names;
mod places;
mod readers;
mod reading;
mod sources;
mod unions;
mod values;
mod zeros;

pub use cursors::Cursor;
pub use names::{BlockKind, BlockNames, BlockOf};
pub use places::{Holder, LeafContent, LeafKind, Place, leaf_at, leaf_in_statics, read_leaf};
pub use reading::{read, read_statics};
pub use unions::common_structure;
pub use values::{Value, ValueFail};
pub use zeros::{zero, zero_statics};
