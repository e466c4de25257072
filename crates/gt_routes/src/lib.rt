//! Where a step of a script's path leads within a value, or why it is refused; and where a whole path leads in a heap.
#![tactic(auto)]

mod commons;
mod field_places;
mod hops;
mod reaching;
mod steps;

pub use reaching::{End, Reached, Start, walk};
pub use steps::{Places, Step, WalkFail, element_step, field_step, member_step};
