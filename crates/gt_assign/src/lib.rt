//! Writing one leaf of a value: what becomes of the rest. `assign` gives the value that the write makes, or says that none fits;
//! `reshape` gives the same without a look at what pointers name, for a layer above that knows that the value fits.
//! `assign_statics` and `reshape_statics` do so for the static record.
#![tactic(auto)]

mod assigning;
mod beginnings;
mod changes;
mod changing;
mod leaves;
mod making;
mod parts;
mod seeing;
mod statics;
mod zeros;

pub use assigning::{assign, reshape};
pub use statics::{assign_statics, reshape_statics};
