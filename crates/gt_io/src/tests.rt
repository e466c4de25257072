//! The stores and sinks in memory: what is put is read, the scheduled calls fail and change nothing, and with ample memory
//! each call answers something else than out of memory.
use super::*;
use gt_types::{Bytes, Word};
use std::test::Fail;

#[test]
fn files_are_found_within_their_limit(rt: HostRuntime) -> Result<(), Fail> {
    let alloc = rt.alloc();
    let a = Word::of(alloc, "a.h")?;
    let b = Word::of(alloc, "b.h")?;
    let mut files = SureFiles::new(alloc);
    files.add(&a, b"one")?;
    files.write(&b, b"three")?;
    files.write(&a, b"four")?;
    assert!(rt; files.read(alloc, &a, 4) == Ok(Some(Bytes::of(alloc, b"four")?)));
    assert!(rt; files.read(alloc, &b, 4) == Err(ReadFail::TooLong));
    assert!(rt; files.read(alloc, &Word::of(alloc, "c.h")?, 4) == Ok(None));
    Ok(())
}

#[test]
fn reads_and_writes_are_counted_together(rt: HostRuntime) -> Result<(), Fail> {
    let alloc = rt.alloc();
    let a = Word::of(alloc, "a.h")?;
    let mut files = MemFiles::new(alloc, [2, 3].to_vec(alloc)?);
    files.add(&a, b"old")?;
    assert!(rt; files.read(alloc, &a, 3) == Ok(Some(Bytes::of(alloc, b"old")?)));
    assert!(rt; files.write(&a, b"new") == Err(WriteFail::Failed));
    assert!(rt; files.read(alloc, &a, 3) == Err(ReadFail::Failed));
    assert!(rt; files.read(alloc, &a, 3) == Ok(Some(Bytes::of(alloc, b"old")?)));
    Ok(())
}

#[test]
fn a_sink_keeps_what_it_took(rt: HostRuntime) -> Result<(), Fail> {
    let alloc = rt.alloc();
    let mut sink = MemSink::new(alloc, [2].to_vec(alloc)?);
    sink.write_all(b"ok\n")?;
    assert!(rt; sink.write_all(b"lost\n") == Err(WriteFail::Failed));
    sink.write_all(b"null\n")?;
    assert_eq!(rt; sink.bytes(), b"ok\nnull\n".as_slice());
    let mut sure = SureSink::new(alloc);
    sure.write_all(b"ok\n")?;
    sure.write_all(b"null\n")?;
    assert_eq!(rt; sure.bytes(), b"ok\nnull\n".as_slice());
    Ok(())
}
