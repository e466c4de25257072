//! The words of the command line of gtyheap: the settings, the script and the headers that they ask for. They are read
//! with `clap` as a simple command: what they mean is that crate's own definition, and after it stand the ranges and the
//! forms of names and numbers. The layer above uses `read_words` and the types that it gives.
#![tactic(auto)]

mod call;
mod command;
mod found;
mod number;
mod words;

pub use call::{Call, Script, Settings};
pub use words::read_words;

/// How many pages the space has where no word says it.
pub const DEFAULT_PAGES: u32 = 4096;

/// By how many percent the allocated bytes grow before a collection is worth while, where no word says it.
pub const DEFAULT_MIN_EXPAND: u32 = 30;

/// The KiB below which a heap counts as so large, where no word says it.
pub const DEFAULT_MIN_HEAPSIZE: u32 = 4096;

/// The greatest N of a generated script.
pub const MAX_GENERATED: u32 = 100000;

/// How many digits the N of a generated script may have, zeros in front among them.
pub const MAX_GENERATED_DIGITS: usize = 6;
