//! Numbers as the answers of the program write them: in decimal, and in hexadecimal with eight digits at least.
#![tactic(auto)]

mod writing;

pub use writing::{push_decimal, push_hexadecimal};

#[cfg(test)]
mod tests;
