//! The fields of structures by their names, found in constant time.
#![tactic(auto)]

mod field_names;

pub use field_names::FieldNames;
