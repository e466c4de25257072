//! The faults of options that only the whole program tells. The layer above asks for the first of them with [`first_program_fault`], after
//! it has made the program of a draft.
#![tactic(auto)]

mod caches;
mod chains;
mod fields;
mod inner;
mod known;
mod names;
mod options;
mod program_faults;
mod purposes;
mod roots;
mod structures;
mod types;

pub use program_faults::first_program_fault;
