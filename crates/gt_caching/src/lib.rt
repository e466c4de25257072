//! The commands `put` and `find`.
#![tactic(auto)]

mod finding;
mod members;
mod putting;

pub use finding::find;
pub use putting::put;
