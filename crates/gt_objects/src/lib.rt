//! The typed heap in bytes: objects in the blocks of a space, each under its address. The layers above make objects and ask what is known
//! at an address; they know of bytes, pages and directory only of which heap these are.
#![tactic(auto)]

mod counted;
mod counting;
pub mod laws;
mod making;
mod marks;
mod objects;
mod sizes;
mod storing;
mod texts;
mod totals;

pub use laws::blocks_have_a_greatest_size;
pub use making::{Made, MakeFail};
pub use objects::{Known, Objects};
pub use sizes::{block_size, element_size};
