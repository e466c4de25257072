/// How many structures the headers may declare.
pub const MAX_STRUCTURES: usize = 4096;

/// How many fields a structure may have; it has at least one.
pub const MAX_FIELDS: usize = 1024;

/// How many roots the headers may declare.
pub const MAX_ROOTS: usize = 4096;

/// How many caches the headers may declare.
pub const MAX_CACHES: usize = 64;

/// How many structures may contain one another by value, each the next.
pub const MAX_DEPTH: usize = 32;

/// How many dimensions an array may have.
pub const MAX_DIMENSIONS: usize = 4;

/// How many elements a dimension may have; it has at least one.
pub const MAX_BOUND: u32 = 1048576;

/// The size in bytes that stands for every greater one of a field that is never scanned. No layout has room for it.
pub const TOO_LARGE: u32 = 1048577;

/// How many headers a call may give.
pub const MAX_HEADERS: usize = 64;

/// The largest percentage by which the heap can have to grow before a collection.
pub const MAX_MIN_EXPAND: u32 = 1000;

/// The most KiB below which a heap can count as so large.
pub const MAX_MIN_HEAPSIZE: u32 = 1048576;
