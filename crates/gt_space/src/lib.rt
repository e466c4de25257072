//! The raw bytes of a heap, by address. The pages of objects lie from `HEAP_START` upwards, and the
//! static record lies in whole pages that end there. The layers above read and write numbers and
//! ranges of bytes at addresses, and know of a `Space` only its lowest address and its bytes.
#![tactic(auto)]

pub mod laws;
mod memory;
mod space;

pub use laws::{static_pages_hold_the_record, writes_read_back};
pub use space::Space;

/// The bytes of a page.
pub const PAGE_BYTES: u64 = 4096;

/// The address of page 0, where the pages of the static record end.
pub const HEAP_START: u64 = 0x10000000;

/// The fewest pages that a space may have, without those of the static record.
pub const MIN_PAGES: u32 = 16;

/// The most pages that a space may have, without those of the static record.
pub const MAX_PAGES: u32 = 16384;

/// The most bytes that a static record may have.
pub const MAX_STATICS: u32 = 1048576;

#[cfg(test)]
mod tests;
