//! The program that a draft declares: each field, structure, root, cache and name of a type as its options say.
//! The layer above asks for it with [`declare`], and reads in it which faults only a program tells.
#![tactic(auto)]

mod caches;
mod chains;
mod declaring;
mod fields;
pub mod laws;
mod paths;
mod planes;
mod roots;
mod structures;
mod words;

pub use caches::key_type;
pub use declaring::declare;
pub use paths::path_places;
