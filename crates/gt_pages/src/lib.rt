//! Blocks of many sizes in the pages of a space. The layers above ask for a place for a block of a listed size, mark the
//! blocks that stay, sweep the others, and look up a block by any of its addresses; they know of the blocks their
//! addresses, sizes and marks alone.
#![tactic(auto)]

mod pages;
mod parts;
mod sizes;
mod store;
mod tables;
mod totals;

pub use pages::{CACHED, LISTS, PageEntry, Pages, Run, SlotFail};
pub use sizes::{SIZES, all_sizes, rounded_size};
pub use totals::MarkedTotals;
