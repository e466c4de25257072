//! The refusals of each command of the typed-object machine in their order: [`refusals`] tells them, and the law
//! [`refusals_in_order`] says that a command is refused for the first one that is there. The layer above may use both.
#![tactic(auto)]

mod causes;
pub mod laws;

pub use causes::{Cause, refusals};
pub use laws::refusals_in_order;
