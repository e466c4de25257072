//! Whether a value fits its type. `fits` looks at a whole value, with the blocks that its pointers name; `may_name` and `has_room`
//! say whether a pointer and a number fit. By a law a leaf may be written in place where what comes of it fits.
//! The layer that makes values anew takes from here what a value is read by: where names of fields lead, and with what a value
//! begins.
#![tactic(auto)]

mod checks;
pub mod laws;
mod members;
mod naming;
mod paths;
mod rooms;
mod scoping;

pub use checks::{Checking, fits, is_bare};
pub use laws::fitting_leaves_are_written_in_place;
pub use naming::may_name;
pub use paths::{
    TypedAt, beginning, first_type_of, is_of_node, item, member_type, number_at, place_of,
    read_path,
};
pub use rooms::{has_room, number_fits};
pub use scoping::{HeldAt, Within};
