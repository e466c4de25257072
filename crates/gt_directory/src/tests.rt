//! A directory of numbers: two blocks of a page, a page that comes to hold another size, and one that holds a block of many pages.
use crate::Directory;
use gt_space::{HEAP_START, PAGE_BYTES};
use std::alloc::AllocError;
use std::process::Abort;
use std::test::Fail;

#[test]
fn what_was_put_is_there(rt: HostRuntime) -> Result<(), AllocError> {
    let mut directory: Directory<u32> = Directory::new(rt.alloc(), 3)?;
    assert_eq!(rt; directory.get(HEAP_START, 16), None);
    directory.reserve(16, 0)?;
    directory.put(HEAP_START + 4080, 16, 7);
    directory.reserve(16, 0)?;
    directory.put(HEAP_START, 16, 8);
    assert_eq!(rt; directory.get(HEAP_START + 4080, 16), Some(7));
    assert_eq!(rt; directory.get(HEAP_START, 16), Some(8));
    assert_eq!(rt; directory.get(HEAP_START, 32), None);
    directory.reserve(8, 0)?;
    directory.put(HEAP_START + 8, 8, 1);
    directory.reserve(8, 0)?;
    directory.put(HEAP_START + 4088, 8, 2);
    assert_eq!(rt; directory.get(HEAP_START + 8, 8), Some(1));
    directory.reserve(8192, 0)?;
    directory.put(HEAP_START + PAGE_BYTES, 8192, 3);
    assert_eq!(rt; directory.get(HEAP_START + PAGE_BYTES, 8192), Some(3));
    assert_eq!(rt; directory.get(HEAP_START + 4088, 8), Some(2));
    Ok(())
}
