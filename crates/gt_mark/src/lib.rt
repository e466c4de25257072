//! The marker: from a block, or from the roots, it marks all blocks that the edges of walker tables reach. It is given tables, bytes
//! and marks, and no declared types; it takes no memory.
#![tactic(auto)]

mod chains;
pub mod laws;
mod marker;
mod marking;
mod spans;
mod stack;

pub use laws::marking_goes_on;
pub use marking::{mark_from, mark_roots};
