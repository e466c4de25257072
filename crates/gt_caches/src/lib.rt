//! The pairs of caches, each found by its key, in the order in which they were put. A collection says of each pair whether it stays, and
//! then drops the others.
#![tactic(auto)]

mod caches;
mod keyed;
pub mod laws;

pub use caches::{Caches, Pair};
pub use laws::pairs_may_change;
