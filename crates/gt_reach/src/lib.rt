//! Which objects of a heap a collection keeps: those that the marker reaches by walker tables.
#![tactic(auto)]

mod marking;
mod turns;

pub use turns::mark_kept;
