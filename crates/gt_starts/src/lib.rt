//! Paths of names, each with the structures at which it begins. The layer above adds the paths of expressions, and asks whether one that
//! begins at a structure may lead to a leaf.
#![tactic(auto)]

mod begins;
mod ends;
mod paths;
mod tries;
mod ways;

pub use paths::PathSet;
