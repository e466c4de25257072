//! The tokens of a header by what they may be in an item, and the search for items among them: where each begins and ends, and
//! which wrappers are passed over.
//! The layer above reads the tokens of each item.
#![tactic(auto)]

mod faults;
pub mod laws;
mod lexeme;
mod lexemes;
mod search;
mod stack;

pub use faults::{BAD_MARKER_PLACE, UNCLOSED, UNEXPECTED, UNSUPPORTED};
pub use laws::{one_search, some_search};
pub use lexeme::{Bracket, Lexeme, TokenText, TypeWord};
pub use lexemes::read_lexemes;
pub use search::{End, find_items};
