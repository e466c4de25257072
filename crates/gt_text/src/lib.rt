//! What the texts of headers, of expressions and of scripts share: which characters make an identifier, which bytes
//! are white space, and what an integer literal is worth.
#![tactic(auto)]

mod identifiers;
mod integers;
mod white_space;

pub use identifiers::{continues_identifier, starts_identifier};
pub use integers::integer_value;
pub use white_space::is_white_space;

#[cfg(test)]
mod tests;
