//! Names and types over all headers: typedefs are followed, tags are looked up, and constants, bounds and bit counts have
//! their values; or the first fault of names and types. The layer above reads the options.
#![tactic(auto)]

mod bounds;
mod copies;
mod drafting;
mod first_fault;
pub mod laws;
mod placing;
mod redefined;
mod resolving;

pub use laws::{fault_file, few, one_outcome};
pub use placing::place;
pub use resolving::resolve;

/// The number of the fault of a second definition with another meaning.
pub const REDEFINED: u8 = 11;

/// The number of the fault of a name without a definition, or of a type without a size.
pub const UNDEFINED: u8 = 12;

/// The number of the fault of a structure that contains itself by value.
pub const BY_VALUE_CYCLE: u8 = 13;

/// The number of the fault of a bad bound or bit count, or of a tail where none may stand.
pub const BAD_BOUND: u8 = 14;

/// The number of the fault of too many structures, fields, roots, caches or containments.
pub const TOO_MANY: u8 = 15;

/// The number of the fault of a type that is too large.
pub const TYPE_TOO_LARGE: u8 = 24;
