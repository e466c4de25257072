//! The commands that ask and the one that writes: `get`, `print`, `drop` and `set`.
#![tactic(auto)]

mod blocks;
mod dropping;
mod getting;
mod leaves;
mod paths;
mod printing;
mod reading;
mod setting;

pub use dropping::unbind;
pub use getting::get;
pub use printing::print;
pub use setting::set;
