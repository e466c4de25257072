//! What is known of each block of a space, found by the block's address.
#![tactic(auto)]

mod directory;

pub use directory::Directory;

#[cfg(test)]
mod tests;
