//! A program with a form of each kind, for tables of rows that try values.
#![tactic(auto)]

pub mod laws;
mod making;

pub use laws::sample_is_settled;
pub use making::sample;
