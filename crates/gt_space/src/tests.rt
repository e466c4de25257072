//! The space at its ends, at overlaps, and at every rounding of the static record.

ghost use Rattle.std.specs.Prelude.{◌≤◌};

use super::*;
use std::alloc::AllocError;
use std::process::Abort;
use std::test::Fail;

#[test]
fn numbers_at_the_first_and_the_last_place(rt: HostRuntime) -> Result<(), Fail> {
    let mut space = Space::empty(rt.alloc());
    space.resize_fresh(MIN_PAGES, 1)?;
    assert_eq!(rt; space.start(), 0x0fff_f000);
    assert_eq!(rt; space.len(), 17 * 4096);

    space.write_u8(0x0fff_f000, 0xff);
    assert_eq!(rt; space.read_u8(0x0fff_f000), 0xff);
    space.write_u8(0x1000_ffff, 0xfe);
    assert_eq!(rt; space.read_u8(0x1000_ffff), 0xfe);

    space.write_u16(0x0fff_f000, 0x0201);
    assert_eq!(rt; space.read_u16(0x0fff_f000), 0x0201);
    space.write_u16(0x1000_fffe, 0xfeff);
    assert_eq!(rt; space.read_u16(0x1000_fffe), 0xfeff);

    space.write_u32(0x0fff_f000, 0x0403_0201);
    assert_eq!(rt; space.read_u32(0x0fff_f000), 0x0403_0201);
    space.write_u32(0x1000_fffc, 0xfcfd_feff);
    assert_eq!(rt; space.read_u32(0x1000_fffc), 0xfcfd_feff);

    space.write_u64(0x0fff_f000, 0x0807_0605_0403_0201);
    assert_eq!(rt; space.read_u64(0x0fff_f000), 0x0807_0605_0403_0201);
    space.write_u64(0x1000_fff8, 0xf8f9_fafb_fcfd_feff);
    assert_eq!(rt; space.read_u64(0x1000_fff8), 0xf8f9_fafb_fcfd_feff);

    // The low byte stands first, and a number may begin anywhere.
    let mut bytes = [0; 4];
    space.copy_out(0x0fff_f000, &mut bytes);
    assert_eq!(rt; bytes, [1, 2, 3, 4]);
    assert_eq!(rt; space.read_u16(0x0fff_f003), 0x0504);
    assert_eq!(rt; space.read_u64(0x0fff_f008), 0);
    Ok(())
}

#[test]
fn a_move_over_itself_in_both_directions(rt: HostRuntime) -> Result<(), Fail> {
    let mut space = Space::empty(rt.alloc());
    space.resize_fresh(MIN_PAGES, 0)?;
    assert_eq!(rt; space.start(), HEAP_START);
    assert_eq!(rt; space.len(), 16 * 4096);
    space.copy_in(HEAP_START, b"abcdefgh");
    space.move_within(HEAP_START, HEAP_START + 1, 7);
    assert_eq!(rt;
        space.read_u64(HEAP_START),
        u64::from_le_bytes(*b"aabcdefg")
    );
    space.copy_in(HEAP_START, b"abcdefgh");
    space.move_within(HEAP_START + 1, HEAP_START, 7);
    assert_eq!(rt;
        space.read_u64(HEAP_START),
        u64::from_le_bytes(*b"bcdefghh")
    );

    // Ranges of four bytes that have one in common.
    space.copy_in(HEAP_START, b"abcdefgh");
    space.move_within(HEAP_START, HEAP_START + 3, 4);
    assert_eq!(rt;
        space.read_u64(HEAP_START),
        u64::from_le_bytes(*b"abcabcdh")
    );
    space.copy_in(HEAP_START, b"abcdefgh");
    space.move_within(HEAP_START + 3, HEAP_START, 4);
    assert_eq!(rt;
        space.read_u64(HEAP_START),
        u64::from_le_bytes(*b"defgefgh")
    );
    Ok(())
}

// Fills the whole space, makes it fresh with this static record, and looks at both of its ends.
fn freshen(
    rt: &impl Abort,
    space: &mut Space,
    statics: u32,
    start: u64,
    len: u64,
) -> Result<(), AllocError>
    requires { statics ≤ MAX_STATICS }
{
    space.fill(space.start(), space.len(), 0xff);
    space.resize_fresh(MIN_PAGES, statics)?;
    assert_eq!(rt; space.start(), start, "at {statics}");
    assert_eq!(rt; space.len(), len, "at {statics}");
    assert_eq!(rt; space.read_u8(start), 0, "at {statics}");
    assert_eq!(rt; space.read_u8(start + len - 1), 0, "at {statics}");
    Ok(())
}

#[test]
fn whole_pages_of_zeros_for_the_static_record(rt: HostRuntime) -> Result<(), Fail> {
    let mut space = Space::empty(rt.alloc());
    freshen(&rt, &mut space, 0, 0x1000_0000, 0x1_0000)?;
    freshen(&rt, &mut space, 1, 0x0fff_f000, 0x1_1000)?;
    freshen(&rt, &mut space, 4096, 0x0fff_f000, 0x1_1000)?;
    freshen(&rt, &mut space, 4097, 0x0fff_e000, 0x1_2000)?;
    Ok(())
}
