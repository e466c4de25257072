//! Rows of walks beside one another: whether they are equal, and a number by which equal ones are found. The layer above asks with
//! [`are_alike`] and [`print_of`] whether a walk stands already.
#![tactic(auto)]

mod alike;
mod prints;

pub use alike::are_alike;
pub use prints::print_of;
