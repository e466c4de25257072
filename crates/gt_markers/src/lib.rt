//! The options of markers: which options there are, where each may stand, what their expressions and types come to, and the faults
//! that a draft alone tells.
#![tactic(auto)]

mod constants;
mod draft_faults;
mod expressions;
mod field_faults;
mod kind_sets;
mod kinds;
mod lookups;
mod marker_faults;
mod members;
mod options;
mod sites;
mod structure_faults;
mod type_options;
mod walking;

pub use constants::constant_value;
pub use draft_faults::first_draft_fault;
pub use expressions::{Scope, are_named, with_names};
pub use kinds::OptionKind;
pub use lookups::Lookup;
pub use marker_faults::Marker;
pub use members::active_of;
pub use options::{has_option, has_skip, option_named};
pub use sites::Site;
pub use type_options::TypeOptions;
pub use walking::is_walked;

/// The number of the fault of an option that is not known.
pub const UNKNOWN_OPTION: u8 = 16;

/// The number of the fault of an option, or of a type, where it may not stand.
pub const WRONG_PLACE: u8 = 17;

/// The number of the fault of a union without a `desc`, or of a member of a union without a tag.
pub const MISSING_DESC: u8 = 18;

/// The number of the fault of a tag or a default that stands twice.
pub const DUPLICATE_TAG: u8 = 19;

/// The number of the fault of a path, a name or a constant expression that leads to nothing.
pub const BAD_PATH: u8 = 20;

/// The number of the fault of a chain that leads to no pointer to its own structure.
pub const CHAIN_NOT_OWN_POINTER: u8 = 21;

/// The number of the fault of a hook that is not known.
pub const UNKNOWN_HOOK: u8 = 22;

/// The number of the fault of a cache whose key or value is no pointer to a structure that may stand alone.
pub const CACHE_SHAPE: u8 = 23;
