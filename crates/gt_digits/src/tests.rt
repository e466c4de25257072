use crate::{push_decimal, push_hexadecimal};
use gt_types::Bytes;
use std::test::Fail;

#[test]
fn numbers_are_written_in_both_bases(rt: HostRuntime) -> Result<(), Fail> {
    let alloc = rt.alloc();
    let mut text = Bytes::new(alloc);
    push_decimal(alloc, &mut text, 0)?;
    push_hexadecimal(alloc, &mut text, 0)?;
    push_decimal(alloc, &mut text, 18446744073709551615)?;
    push_hexadecimal(alloc, &mut text, 268435456)?;
    push_hexadecimal(alloc, &mut text, 1152921504606846975)?;
    let wanted: &[u8] = b"0000000001844674407370955161510000000fffffffffffffff";
    assert_eq!(rt; text.as_slice(), wanted);
    Ok(())
}
