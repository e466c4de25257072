//! The commands that make blocks: `new`, `array`, `string` and `block`.
#![tactic(auto)]

mod arrays;
mod binding;
mod counts;
mod singles;
mod strings;

pub use arrays::{make_array, make_block};
pub use singles::make_single;
pub use strings::make_string;
