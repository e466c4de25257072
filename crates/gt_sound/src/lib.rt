//! What headers declare is sound: laws that join the readers of headers with the layers that read options. The layer above cites
//! [`read_is_well_made`] for each header, and [`resolved_is_sound`] for the draft that all headers resolve to.
#![tactic(auto)]

pub mod laws;

pub use laws::{read_is_well_made, resolved_is_sound};
