//! Names by their place, and values by name, found in constant time. A name keeps its place, and the first value that it was given.
#![tactic(auto)]

mod names;
mod places;
mod tables;

pub use names::NameIndex;
pub use tables::{Entry, Table};
