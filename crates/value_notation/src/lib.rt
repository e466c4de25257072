//! What the tables of values share: the sample program, its structures and the blocks that pointers name, rows that make a value by
//! writes from zero on, the space in which values are stored, and what is said of rows.
#![tactic(auto)]

mod answers;
mod blocks;
mod leaves;
mod rows;
mod samples;
mod statics;
mod structures;
mod trials;
mod values;

pub use answers::{
    MALFORMED, Tally, hexadecimal, is_row, remark, stopped, text_difference, word_difference,
};
pub use blocks::TableBlocks;
pub use leaves::{Leaf, Refusal, Write, read_bytes, read_path};
pub use rows::Row;
pub use samples::Sample;
pub use statics::zero_space;
pub use structures::{Kind, element, pointer, structure_named};
pub use trials::{
    BEFORE, FILLED, Room, Stop, fresh_space, last_value, room_in, size_of, write_one,
};
pub use values::{read_value, read_values};
