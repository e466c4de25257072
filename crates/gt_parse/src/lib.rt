//! The items of a header: marked structures and globals, typedefs, enums and constants, as they are written. Items are searched
//! for among the tokens, unmarked code is passed over, and a text that cannot be read is refused with its first fault.
//! The layer above resolves names and types.
#![tactic(auto)]

mod constants;
mod enums;
pub mod laws;
mod parsing;
mod reading;
mod slices;
mod typedefs;

pub use laws::{each_rule, one_outcome};
pub use parsing::parse;
