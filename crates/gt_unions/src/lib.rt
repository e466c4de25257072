//! Which member of a union is active, and its common structure: the plain struct that some member is, and with which each member begins
//! that may be active. The layers above ask for the second where no member is active.
#![tactic(auto)]

mod beginnings;
mod commons;
pub mod laws;
mod members;
mod plain;
mod tables;

pub use laws::commons_are_found;
pub use tables::Unions;
