//! The heap as the marker sees it: how each block is walked, and the laws that what the marker reaches by walker tables in the bytes of a
//! heap is what its declarations reach. The calls of [`laws`] do nothing; a layer above cites their clauses.
#![tactic(auto)]

pub mod laws;

pub use laws::{heaps_are_traced, heaps_can_be_marked, marks_are_reached, rounds_agree};
