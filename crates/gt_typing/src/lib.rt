//! The types of fields and roots, by their options.
//! The layer above asks for the type of one field or root with [`type_by`], or, where a fault counts as bytes that are never scanned,
//! with [`field_type`]; and for the `desc` of a union with [`own_desc`].
#![tactic(auto)]

mod arrays;
mod descs;
mod fields;
mod pointers;
mod sayings;
mod skipped;
mod walked;

pub use descs::own_desc;
pub use fields::{field_type, type_by};
pub use pointers::node;
pub use sayings::type_options;
