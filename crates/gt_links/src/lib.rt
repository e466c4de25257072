//! Doubly linked lists of numbered nodes, all of them in one vector.
//!
//! The layer above makes a [`Links`] with so many lists and nodes, and from then on moves nodes between the
//! lists, each call in constant time and without memory.
#![tactic(auto)]

mod links;
#[cfg(test)]
mod plain;
mod rings;
#[cfg(test)]
mod tests;

pub use links::Links;
