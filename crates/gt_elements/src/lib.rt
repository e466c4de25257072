//! The parts of a typed heap in bytes: the elements of objects, and the blocks that their pointers name.
#![tactic(auto)]

mod elements;
pub mod laws;
mod names;
mod parts;

pub use elements::{element, element_of};
pub use laws::{leaves_in_place_are_in_the_heap, roots_stand_in_the_space};
pub use names::Names;
pub use parts::{Element, Owner};
