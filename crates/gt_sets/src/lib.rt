//! Sets of structures of a program, by their numbers.
#![tactic(auto)]

mod sets;

pub use sets::StructureSet;
