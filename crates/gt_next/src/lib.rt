//! The typed-object machine over values of every type: what a command answers and leaves. These are definitions, and the types of the
//! answers of which they speak. `numbers` does nothing: its clauses are laws that say what each limit is.
#![tactic(auto)]

mod answer;
pub mod laws;

pub use answer::{Answer, Why};
pub use laws::numbers;

/// The most bytes of a block.
pub const MAX_BLOCK: u32 = 1048576;

/// The most bytes that all blocks together can have.
pub const MAX_ALLOCATED: u64 = 67108864;

/// The most variables that are bound at one time.
pub const MAX_VARIABLES: usize = 65536;
