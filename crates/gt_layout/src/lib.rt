//! Offsets, sizes and alignments of the structures of a program, as the System V AMD64 ABI has them.
//! The layer above asks for all of them with [`layout`], or, before the program is whole, for one structure after another
//! with [`plane`] and [`extent`]. Sizes never wrap: what is too large is held as [`TOO_LARGE`](gt_types::TOO_LARGE).
#![tactic(auto)]

mod drafts;
mod extents;
mod growths;
pub mod laws;
mod layouts;
mod order;
mod planes;
mod rounding;
mod sizes;
mod storages;
mod tails;

pub use drafts::{can_place, plane};
pub use extents::extent;
pub use layouts::layout;
pub use planes::{Extent, FieldSpot, Growth, LayoutStop, Layouts, MAX_SIZE, Plane, TailSpot};
