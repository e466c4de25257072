//! Values as trees: which of them fit a type, what a write makes of one, and the leaves of one with their places. These are
//! definitions that the layers of values, walks and the heap speak of, and laws on them; there is nothing to call.
#![tactic(auto)]

pub mod fixed;
pub mod laws;
pub mod paths;
pub mod writes;

pub use fixed::{leaves_are_read, numbers_are_fixed, values_are_fixed};
pub use laws::{
    blocks_hold_their_leaves, common_structures_are_one, contents_have_room, edges_are_in_leaves,
    leaves_are_apart, leaves_are_one_list, leaves_have_one_form, sizes_are_one,
};
pub use paths::{paths_are_one, paths_read_leaves, reading_is_same};
pub use writes::{writes_are_one, zero_is_one};
