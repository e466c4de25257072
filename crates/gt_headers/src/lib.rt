//! All headers of a call: the program that they declare with its layouts, or their first fault. The layer above uses `declare`.
#![tactic(auto)]

mod declaring;
pub mod laws;
mod reading;
mod sizes;

pub use declaring::{Declared, are_within_limits, declare};
pub use laws::{declared_programs_are_settled, numbers, one_outcome, some_outcome, text_places};
