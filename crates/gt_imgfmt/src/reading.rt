//! Reads the entries of an image, each where it stands.

ghost use Rattle.std.specs.Prelude.{◌≡◌, ◌≤◌, ◌+◌, length};
ghost use Rattle.gt_imgfmt.specs.Layout.{header_bytes, object_bytes, cache_bytes, bytes_from, object_place, cache_place};
ghost use Rattle.gt_imgfmt.specs.Widths.{HeaderFits, ObjectFits, CacheFits};

use crate::fields::{read_bytes, read_u32, read_u64};
use crate::{CACHE_BYTES, CacheEntry, HEADER_BYTES, Header, OBJECT_BYTES, ObjectEntry};

/// The header that the first `HEADER_BYTES` bytes hold. It takes no memory.
pub fn header_of(bytes: &[u8]) -> Header
    requires { HEADER_BYTES ≤ length bytes.now }
    ensures stands { bytes_from 0 HEADER_BYTES bytes.now ≡ header_bytes result }
    // What holds of each entry.
    ensures fits { HeaderFits result }
{
    Header {
        magic: read_bytes(bytes, 0),
        version: read_u32(bytes, 8),
        page_size: read_u32(bytes, 12),
        print: read_bytes(bytes, 16),
        page: read_u32(bytes, 48),
        pages: read_u32(bytes, 52),
        objects: read_u32(bytes, 56),
        statics: read_u32(bytes, 60),
        entries: read_u32(bytes, 64),
        zero: read_u32(bytes, 68),
    }
}

/// The entry at place `i` of the object table, which stands after the header. It takes no memory.
pub fn object_of(bytes: &[u8], i: u32) -> ObjectEntry
    requires { object_place i + OBJECT_BYTES ≤ length bytes.now }
    ensures stands { bytes_from (object_place i) OBJECT_BYTES bytes.now ≡ object_bytes result }
    // What holds of each entry.
    ensures fits { ObjectFits result }
{
    let at = HEADER_BYTES + OBJECT_BYTES * i as usize;
    let entry = &bytes[at..at + OBJECT_BYTES];
    ObjectEntry {
        kind: read_u32(entry, 0),
        id: read_u32(entry, 4),
        count: read_u32(entry, 8),
        capacity: read_u32(entry, 12),
    }
}

/// The cache entry at place `i` of those that stand after the object table and the static record of the header. It takes no memory.
pub fn cache_of(bytes: &[u8], header: &Header, i: u32) -> CacheEntry
    requires { cache_place header.now.objects header.now.statics i + CACHE_BYTES ≤ length bytes.now }
    ensures stands { bytes_from (cache_place header.now.objects header.now.statics i) CACHE_BYTES bytes.now ≡ cache_bytes result }
    // What holds of each entry.
    ensures fits { CacheFits result }
{
    let static_record = HEADER_BYTES + OBJECT_BYTES * header.objects as usize;
    let entries = static_record + header.statics as usize;
    let at = entries + CACHE_BYTES * i as usize;
    let entry = &bytes[at..at + CACHE_BYTES];
    CacheEntry {
        cache: read_u32(entry, 0),
        zero: read_u32(entry, 4),
        key: read_u64(entry, 8),
        value: read_u64(entry, 16),
    }
}
