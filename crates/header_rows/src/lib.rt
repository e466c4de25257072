//! Tables of small headers, as docs/NAMES.md writes them, taken apart into their rows.
#![tactic(auto)]

mod rows;

pub use rows::{Row, rows_of};
