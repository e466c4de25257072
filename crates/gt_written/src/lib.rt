//! What `gt_generated` writes is a script: a law that joins its text with the lines that `gt_script` reads. No layer stands on it.
#![tactic(auto)]

pub mod laws;

pub use laws::generated_is_parsed;
