//! Entries of pages: the places for blocks of one page or one run, each free or with a block that may be marked.
//!
//! The layer above keeps an entry for each page in use, and asks it for free places, marks and the next marked place.
//! It reads and writes no bits.
#![tactic(auto)]

mod marks;
mod memory;
mod places;
mod sets;

pub use marks::Mark;
pub use places::{MAX_PLACES, Places};
