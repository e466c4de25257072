//! The lines of a script, the words of a line, and its numbers. The layer above, gt_script, says what the words mean: to it a word is a
//! `Slice` of the script's text, or the bytes that a quoted one means.
#![tactic(auto)]

mod integers;
mod numbers;
mod parts;
mod pieces;
mod quotes;
mod slices;

pub use integers::Number;
pub use numbers::{decimal, integer};
pub use parts::{after_byte, first_line, front};
pub use pieces::{Piece, is_blank, read_words};
pub use quotes::escape;
pub use slices::{Quoted, Slice};
