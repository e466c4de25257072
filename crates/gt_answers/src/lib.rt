//! The answers of the machine: the text of each, and a list of them.
#![tactic(auto)]

mod answers;
mod texts;

pub use answers::Answers;
pub use texts::text;
