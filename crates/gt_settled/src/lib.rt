//! What headers declare is settled: laws that join the faults of options with what holds of each program. The layer above cites
//! [`declared_is_settled`] for the program that a draft declares, and [`settlement_is_settled`] for the one to which it comes.
#![tactic(auto)]

pub mod laws;

pub use laws::{declared_is_settled, settlement_is_settled};
