//! The tokens of a header, with the constants of its `#define` directives: comments, literals, numbers and directives
//! are read here, and the layers above see tokens alone. Each token is the slice of its source, and a text that has
//! none is refused with its first fault.
#![tactic(auto)]

mod constants;
mod directive;
mod extents;
mod faults;
pub mod laws;
mod lexing;
mod pieces;
mod starts;
mod text;
mod tokens;

pub use faults::{BAD_NUMBER, BAD_UTF8, OPEN_COMMENT, OPEN_STRING};
pub use laws::{constant_names, one_answer, token_slices};
pub use lexing::lex;
pub use tokens::{Define, Kind, Lexed, Token};
