//! The text of `tables`: the structures that headers declare, with their sizes, alignments, fields and chains; then the roots and the
//! caches.
#![tactic(auto)]

mod listing;
mod structures;
mod types;

pub use listing::list_program;
