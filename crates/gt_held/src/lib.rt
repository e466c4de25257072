//! What blocks hold: the types of their elements and which structures are of a tail type, each made once, and whether a new block can be
//! zero.
#![tactic(auto)]

pub mod laws;
mod tails;
mod types;
mod zeros;

pub use laws::plain_zeros_are_there;
pub use tails::TailTypes;
pub use types::ElementTypes;
pub use zeros::has_zero;
