//! One leaf of a heap, written: where it lies, if no expression reads it, and else by what its element or the static record becomes.
#![tactic(auto)]

mod elements;
mod found;
mod leaves;
mod names;
mod roots;
mod writing;

pub use found::{Found, Target};
pub use writing::write;
