//! What follows from the layout. These calls do nothing: their clauses are laws.

ghost use Rattle.std.specs.Prelude.{◌≡◌, ℕ, ◌+◌, ◌*◌, codes};
ghost use Rattle.gt_imgfmt.specs.Layout.{object_place, statics_place, cache_place, pages_place};
ghost use Rattle.gt_imgfmt.specs.Laws.{HeadersFixed, ObjectsFixed, CachesFixed, HeadersRead, ObjectsRead, CachesRead, HeadersReadBack, ObjectsReadBack, CachesReadBack, EntriesFill};
ghost use Rattle.gt_imgfmt.specs.declared.entries.Header.{Header};
ghost use Rattle.gt_imgfmt.specs.declared.entries.ObjectEntry.{ObjectEntry};
ghost use Rattle.gt_imgfmt.specs.declared.entries.CacheEntry.{CacheEntry};

use crate::{CACHE_BYTES, HEADER_BYTES, MAGIC, OBJECT_BYTES, PAGE_BYTES, VERSION};

/// Reading and writing undo one another. An entry is fixed by its bytes, and what is read where an entry was written is that entry, whatever
/// follows. Any bytes, as many as an entry has, are those of an entry, so writing the fields that were read gives the bytes that were read.
pub fn entries_read_back()
    ensures headers_fixed { HeadersFixed }
    ensures objects_fixed { ObjectsFixed }
    ensures caches_fixed { CachesFixed }
    ensures headers_read { HeadersRead }
    ensures objects_read { ObjectsRead }
    ensures caches_read { CachesRead }
    ensures headers { HeadersReadBack }
    ensures objects { ObjectsReadBack }
    ensures caches { CachesReadBack }
    ensures lengths { (h : Header) (o : ObjectEntry) (c : CacheEntry) → EntriesFill h o c }
{}

/// The numbers of the format, of which the definitions speak by name, and where its parts stand.
pub fn numbers()
    ensures magic { MAGIC ≡ codes "GTYHEAPS" }
    ensures version { VERSION ≡ 1 }
    ensures page_bytes { PAGE_BYTES ≡ 4096 }
    ensures sizes { (HEADER_BYTES ≡ 72) × (OBJECT_BYTES ≡ 16) × (CACHE_BYTES ≡ 24) }
    ensures objects { (i : ℕ) → object_place i ≡ 72 + 16 * i }
    ensures static_record { (objects : ℕ) → statics_place objects ≡ 72 + 16 * objects }
    ensures caches { (objects statics i : ℕ) → cache_place objects statics i ≡ 72 + 16 * objects + statics + 24 * i }
    ensures pages { (objects statics entries : ℕ) → pages_place objects statics entries ≡ 72 + 16 * objects + statics + 24 * entries }
{}
