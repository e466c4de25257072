//! The entries of an image, with their fields in the order of their bytes. A field holds what the file says, even a value that no image may have.

/// The header of an image.
#[derive(Clone, Copy, Debug, PartialEq, Eq)]
pub struct Header {
    /// `MAGIC` in an image.
    pub magic: [u8; 8],
    /// `VERSION` in an image.
    pub version: u32,
    /// How many bytes a page has, `PAGE_BYTES` in an image.
    pub page_size: u32,
    /// The SHA-256 of the canonical text of the program.
    pub print: [u8; 32],
    /// The preferred page: the addresses in the image are those of its pages laid from here on, and a load puts it here if there is room.
    pub page: u32,
    /// How many pages there are.
    pub pages: u32,
    /// How many objects there are, which is how many entries the object table has.
    pub objects: u32,
    /// How many bytes the static record has.
    pub statics: u32,
    /// How many cache entries there are.
    pub entries: u32,
    /// Zero in an image.
    pub zero: u32,
}

/// An entry of the object table.
#[derive(Clone, Copy, Debug, PartialEq, Eq)]
pub struct ObjectEntry {
    /// The number of a `Kind` in an image.
    pub kind: u32,
    /// The place of the structure in the program, counted from 0, and 0 for a kind that has no structure.
    pub id: u32,
    /// How many structures, pointers or bytes the object has.
    pub count: u32,
    /// How many elements the tail of the structure can hold, and 0 for an object without a tail.
    pub capacity: u32,
}

/// A cache entry.
#[derive(Clone, Copy, Debug, PartialEq, Eq)]
pub struct CacheEntry {
    /// The place of the cache in the program, counted from 0.
    pub cache: u32,
    /// Zero in an image.
    pub zero: u32,
    /// The address of the key.
    pub key: u64,
    /// The address of the value.
    pub value: u64,
}
