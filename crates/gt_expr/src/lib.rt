//! The expressions of options: from a text to its tree, with names as they are written. A text is cut into parts,
//! the parts are read by the grammar, and a text that is no expression has fault 5 or 6.
//! The layer above resolves the names and checks the paths.
#![tactic(auto)]

mod characters;
mod expressions;
mod integers;
pub mod laws;
mod names;
mod part;
mod raw;
mod reading;
mod scanning;
mod symbols;
mod unread;

pub use expressions::read;
pub use laws::{one_answer, one_tree, spelling_gives_parts, spelling_gives_trees};
pub use raw::RawExpr;

/// How many parts an expression may have.
pub const MAX_PARTS: usize = 256;

/// The number of the fault of a text that is no expression.
pub const BAD_EXPR: u8 = 5;

/// The number of the fault of a text with more than `MAX_PARTS` parts.
pub const EXPR_TOO_LARGE: u8 = 6;
