//! Heaps for tables and benches of the marker: blocks, how each is walked, and pointers between them. Whether blocks can be marked is
//! tested before each call, so that any heap may be written down.
#![tactic(auto)]

mod conditions;
mod edges;
mod heap;

pub use heap::SampleHeap;
