//! That there is always an outcome: each text has items or a first fault, and all files a draft or a first fault. No call can show it, since
//! any call may run out of memory. The layer above cites [`each_text`] and [`each_resolution`].
#![tactic(auto)]

pub mod laws;

pub use laws::{each_resolution, each_text};
