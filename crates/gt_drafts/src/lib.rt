//! Drafts: what all headers declare, with resolved types and with options as they are written. What a draft can be asked alone is
//! here too: what texts of bounds come to, options by their names, what has no definition, and which of some faults is the first.
#![tactic(auto)]

mod amounts;
mod draft;
mod earliest;
mod held;
mod options;
mod sameness;
mod types;
mod undefined;

pub use amounts::{Values, amount};
pub use draft::{
    Draft, DraftCache, DraftConstant, DraftField, DraftRoot, DraftStructure, DraftWord,
};
pub use earliest::{earlier, with_fault};
pub use held::{flag_at, held_type};
pub use options::{has_length, has_skip};
pub use sameness::{same_bool, same_keyword, same_scalar, same_stars};
pub use types::{Amount, BaseType, DeclaredType, Resolved};
pub use undefined::{is_undefined_type, names_nothing};
