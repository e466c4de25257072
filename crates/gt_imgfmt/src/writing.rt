//! Writes the entries of an image. The bytes of an entry are put together first and added at once, so that when out of memory none is added.

ghost use Rattle.std.specs.Prelude.{◌≡◌, ◌++◌, OnOk, OnErr};
ghost use Rattle.gt_imgfmt.specs.Layout.{header_bytes, object_bytes, cache_bytes};

use crate::fields::{write_bytes, write_u32, write_u64};
use crate::{CACHE_BYTES, CacheEntry, HEADER_BYTES, Header, OBJECT_BYTES, ObjectEntry};
use gt_types::Bytes;
use std::alloc::AllocError;

/// Adds the bytes of the header at the end of `out`. Out of memory, `out` is as before.
pub fn put_header(out: &mut Bytes, h: &Header) -> Result<(), AllocError>
    ensures added { OnOk result (out.new ≡ out.old ++ header_bytes h.now) }
    ensures unchanged { OnErr result (out.new ≡ out.old) }
{
    let mut header = [0; HEADER_BYTES];
    write_bytes(&mut header, 0, &h.magic);
    write_u32(&mut header, 8, h.version);
    write_u32(&mut header, 12, h.page_size);
    write_bytes(&mut header, 16, &h.print);
    write_u32(&mut header, 48, h.page);
    write_u32(&mut header, 52, h.pages);
    write_u32(&mut header, 56, h.objects);
    write_u32(&mut header, 60, h.statics);
    write_u32(&mut header, 64, h.entries);
    write_u32(&mut header, 68, h.zero);
    out.append(&header)
}

/// Adds the bytes of the entry of the object table at the end of `out`. Out of memory, `out` is as before.
pub fn put_object(out: &mut Bytes, e: &ObjectEntry) -> Result<(), AllocError>
    ensures added { OnOk result (out.new ≡ out.old ++ object_bytes e.now) }
    ensures unchanged { OnErr result (out.new ≡ out.old) }
{
    let mut object = [0; OBJECT_BYTES];
    write_u32(&mut object, 0, e.kind);
    write_u32(&mut object, 4, e.id);
    write_u32(&mut object, 8, e.count);
    write_u32(&mut object, 12, e.capacity);
    out.append(&object)
}

/// Adds the bytes of the cache entry at the end of `out`. Out of memory, `out` is as before.
pub fn put_cache(out: &mut Bytes, e: &CacheEntry) -> Result<(), AllocError>
    ensures added { OnOk result (out.new ≡ out.old ++ cache_bytes e.now) }
    ensures unchanged { OnErr result (out.new ≡ out.old) }
{
    let mut entry = [0; CACHE_BYTES];
    write_u32(&mut entry, 0, e.cache);
    write_u32(&mut entry, 4, e.zero);
    write_u64(&mut entry, 8, e.key);
    write_u64(&mut entry, 16, e.value);
    out.append(&entry)
}
