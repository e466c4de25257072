//! What comes before the first command, in the order of work: the arguments; the headers and the script, of files or generated;
//! the headers' faults, their program, and the lines of the script; or the refusal that comes first, with its line. The layer
//! above uses `prepare`.
#![tactic(auto)]

mod places;
mod preparing;
mod reading;
mod refusal;
mod refused;
mod stages;

pub use preparing::{Halt, Ready, prepare};
pub use refusal::{FileWhy, Refusal};
pub use refused::not_built_line;

/// The most bytes of a header.
pub const MAX_HEADER_BYTES: u64 = 1048576;

/// The most bytes of a script.
pub const MAX_SCRIPT_BYTES: u64 = 33554432;

/// The number of the fault of a script with a line that is no command.
pub const SCRIPT_SYNTAX: u8 = 25;

/// The number of the fault of a script with too many commands.
pub const SCRIPT_TOO_LONG: u8 = 26;
