//! The two texts that an argument `:N` stands for: a header, and a script that makes a list of N nodes under it. They are
//! read as those of files are.
#![tactic(auto)]

mod texts;

pub use texts::{header, script};

#[cfg(test)]
mod tests;
