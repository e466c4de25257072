//! One leaf of a value, written where it lies: which leaves no expression reads, and what follows for writing them. `write_leaf` and
//! `write_static_leaf` write a leaf in the bytes, or say that no value fits with it, or that the whole value has to be looked at;
//! `judge_leaf` and `judge_static_leaf` say so without the write, and `judge_leaf_at` where the place of the leaf is known.
#![tactic(auto)]

mod begins;
mod ends;
pub mod laws;
mod places;
mod reads;
mod roots;
mod seeking;
mod types;
mod writing;

pub use laws::{known_ways_lead_by_name, unread_leaves_keep_values_fitting};
pub use reads::Reads;
pub use writing::{
    LeafVerdict, LeafWrite, judge_leaf, judge_leaf_at, judge_static_leaf, write_leaf,
    write_static_leaf,
};
