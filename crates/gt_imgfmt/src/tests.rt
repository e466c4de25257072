//! A picture written out by hand: a header, two objects, a static record of eight bytes, a cache entry, and what follows.

use super::*;
use gt_types::Bytes;
use std::test::Fail;

const PICTURE: [u8; 137] = [
    0x47, 0x54, 0x59, 0x48, 0x45, 0x41, 0x50, 0x53, // GTYHEAPS
    1, 0, 0, 0, // the version
    0, 0x10, 0, 0, // the bytes of a page
    0, 1, 2, 3, 4, 5, 6, 7, 8, 9, 10, 11, 12, 13, 14, 15, // the fingerprint
    16, 17, 18, 19, 20, 21, 22, 23, 24, 25, 26, 27, 28, 29, 30, 31, // and its rest
    2, 0, 0, 0, // the preferred page
    1, 0, 0, 0, // the pages
    2, 0, 0, 0, // the objects
    8, 0, 0, 0, // the bytes of the static record
    1, 0, 0, 0, // the cache entries
    0, 0, 0, 0, // zero
    0, 0, 0, 0, 7, 0, 0, 0, 1, 0, 0, 0, 9, 0, 0, 0, // structure 7 with room for 9
    4, 0, 0, 0, 0, 0, 0, 0, 4, 3, 2, 1, 0, 0, 0, 0, // 0x01020304 bytes without pointers
    0, 0x20, 0, 0x10, 0, 0, 0, 0, // a root that points to 0x10002000
    1, 0, 0, 0, 0, 0, 0, 0, // cache 1
    0, 0x20, 0, 0x10, 0, 0, 0, 0, // the key, 0x10002000
    8, 7, 6, 5, 4, 3, 2, 1, // the value, an address with eight bytes that differ
    0xff, // what follows
];

const HEADER: Header = Header {
    magic: MAGIC,
    version: VERSION,
    page_size: 4096,
    print: [
        0, 1, 2, 3, 4, 5, 6, 7, 8, 9, 10, 11, 12, 13, 14, 15, 16, 17, 18, 19, 20, 21, 22, 23, 24,
        25, 26, 27, 28, 29, 30, 31,
    ],
    page: 2,
    pages: 1,
    objects: 2,
    statics: 8,
    entries: 1,
    zero: 0,
};

const NODE: ObjectEntry = ObjectEntry {
    kind: 0,
    id: 7,
    count: 1,
    capacity: 9,
};

const RAW: ObjectEntry = ObjectEntry {
    kind: 4,
    id: 0,
    count: 0x0102_0304,
    capacity: 0,
};

const ENTRY: CacheEntry = CacheEntry {
    cache: 1,
    zero: 0,
    key: 0x1000_2000,
    value: 0x0102_0304_0506_0708,
};

#[test]
fn the_entries_of_a_picture(rt: HostRuntime) {
    assert_eq!(rt; header_of(&PICTURE), HEADER);
    assert_eq!(rt; object_of(&PICTURE, 0), NODE);
    assert_eq!(rt; object_of(&PICTURE, 1), RAW);
    assert_eq!(rt; cache_of(&PICTURE, &HEADER, 0), ENTRY);
}

#[test]
fn the_picture_of_entries(rt: HostRuntime) -> Result<(), Fail> {
    let mut out = Bytes::new(rt.alloc());
    put_header(&mut out, &HEADER)?;
    put_object(&mut out, &NODE)?;
    put_object(&mut out, &RAW)?;
    out.append(&[0, 0x20, 0, 0x10, 0, 0, 0, 0])?;
    put_cache(&mut out, &ENTRY)?;
    out.push(0xff)?;
    assert_eq!(rt; out.as_slice(), PICTURE.as_slice());
    Ok(())
}

#[test]
fn the_numbers_of_the_kinds(rt: HostRuntime) {
    let kinds = [
        Kind::Nodes,
        Kind::Pointers,
        Kind::Strings,
        Kind::Chars,
        Kind::Raw,
    ];
    let mut number = 0;
    for kind in kinds {
        assert_eq!(rt; kind.number(), number);
        assert_eq!(rt; Kind::of(number), Some(kind));
        number = number.wrapping_add(1);
    }
    assert_eq!(rt; Kind::of(5), None);
}
