//! The fields of an image: its header, the entries of its object table and those of its caches, each as the bytes that stand for it.
//! A reader gives the entry that stands at its place, without taking memory, and a writer adds the bytes of an entry. What is read where an
//! entry was written is that entry, and writing what was read gives the bytes that were read.
#![tactic(auto)]

mod entries;
mod fields;
mod kinds;
pub mod laws;
mod reading;
mod writing;

pub use entries::{CacheEntry, Header, ObjectEntry};
pub use kinds::Kind;
pub use laws::{entries_read_back, numbers};
pub use reading::{cache_of, header_of, object_of};
pub use writing::{put_cache, put_header, put_object};

/// What an image begins with.
pub const MAGIC: [u8; 8] = *b"GTYHEAPS";

/// The version of the format.
pub const VERSION: u32 = 1;

/// How many bytes a page has.
pub const PAGE_BYTES: u32 = 4096;

/// The bytes of the header. The object table begins after them.
pub const HEADER_BYTES: usize = 72;

/// The bytes of an entry of the object table.
pub const OBJECT_BYTES: usize = 16;

/// The bytes of a cache entry.
pub const CACHE_BYTES: usize = 24;

#[cfg(test)]
mod tests;
