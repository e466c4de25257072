//! What a sound draft comes to: the program that it declares, or the first fault of its options. The layer above asks for it with
//! [`settle`].
#![tactic(auto)]

pub mod laws;
mod settling;

pub use settling::settle;
