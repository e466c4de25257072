//! Walker tables: rows that say where the pointers of each structure lie, and the edges that they give on the bytes of a space. What is
//! visited by rows at hand is what is visited by their walk (`laws`).
#![tactic(auto)]

mod frames;
pub mod laws;
mod lengths;
mod plain;
mod rows;
mod sinks;
mod tables;
mod visiting;

pub use laws::rows_give_the_edges_of_their_walk;
pub use lengths::{end_of, word_of, words_in};
pub use rows::{Arm, Count, Origin, RowExpr, RowLeaf, WalkRow};
pub use sinks::EdgeSink;
pub use tables::{CacheWalks, Tables};
pub use visiting::{after_note, rows_of, visit, visit_element, visit_with_rows};
