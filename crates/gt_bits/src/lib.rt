//! Sets of small numbers, one bit a number, in words of 64 bits.
//!
//! Number i is bit i % 64 of word i / 64. The layer above keeps the words, and asks and changes them by these
//! calls; or it has a `SparseSet`, which keeps its words itself. Only `SparseSet::new` takes memory, and no call
//! looks past the last word.
#![tactic(auto)]

mod places;
mod runs;
mod sets;
mod sparse;
#[cfg(test)]
mod tests;

pub use runs::{first_run, longest_run};
pub use sets::{clear, count, has, insert, insert_new, next, next_gap, remove};
pub use sparse::SparseSet;
