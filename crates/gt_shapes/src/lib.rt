//! The shapes of structures: which contain themselves by value, which are too deep, and which are of a tail type. Structures are
//! places of a graph, in which a search finds what is reached.
#![tactic(auto)]

mod containment;
mod reach;
mod shapes;
mod tails;

pub use shapes::{Shapes, shapes_of};
