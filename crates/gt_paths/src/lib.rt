//! What the expressions of options may read in a program, where a structure may stand alone, and which structures contain one. The layer above makes a
//! [`PathIndex`] once, and [`PathChecks`] for each structure, of which it asks for each option.
#![tactic(auto)]

mod checks;
mod climbing;
mod commons;
mod containers;
mod distinct;
mod expressions;
mod frontiers;
mod indexes;
mod inner;
mod names;
mod outer_paths;
mod outers;
mod plain;
mod roots;
mod standing;
mod starts;
mod steps;
mod structures;

pub use checks::PathChecks;
pub use containers::Containers;
pub use indexes::PathIndex;
pub use outers::Outers;
pub use roots::{is_root_count, is_root_desc};
pub use standing::{is_bare_union, is_inner, may_stand, may_stand_beside, names_sortable};
pub use steps::leads_to_own_pointer;
