//! The text of a value: `show`, for any value that fits its type, `show_block` for a whole block, and `show_statics` for the static
//! record. What a text says is in specs/Shown.antt, specs/BlockTexts.antt and specs/StaticTexts.antt; that each has one text is a law
//! (`laws`).
#![tactic(auto)]

mod blocks;
pub mod laws;
mod names;
mod numbers;
mod parts;
mod pointers;
mod statics;
mod strings;
mod values;

pub use blocks::show_block;
pub use laws::shown_is_one;
pub use statics::show_statics;
pub use values::show;
