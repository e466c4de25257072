//! Values, and single leaves of values, into the bytes of a space.
#![tactic(auto)]

mod bits;
pub mod laws;
mod leaves;
mod sizes;
mod stores;
mod storing;

pub use laws::{a_leaf_written_in_place_is_stored, stored_values_stand};
pub use leaves::store_leaf;
pub use sizes::node_size;
pub use storing::{store, store_statics};
