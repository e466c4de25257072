//! The fields of an entry, each read and written at its place in the bytes of the entry. The bytes before and after a field that is written
//! stay as they are.

ghost use Rattle.std.specs.Prelude.{◌≡◌, ◌≤◌, ◌+◌, ◌++◌, length, take, drop};
ghost use Rattle.gt_imgfmt.specs.Layout.{u32_bytes, u64_bytes, bytes_from};

use byteorder::{ByteOrder, LittleEndian};

/// The `N` bytes at the place.
pub fn read_bytes<const N: usize>(entry: &[u8], at: usize) -> [u8; N]
    requires { at + N ≤ length entry.now }
    ensures { bytes_from at N entry.now ≡ result }
{
    let mut bytes = [0; N];
    bytes.copy_from_slice(&entry[at..at + N]);
    bytes
}

/// The number in the four bytes at the place.
pub fn read_u32(entry: &[u8], at: usize) -> u32
    requires { at + 4 ≤ length entry.now }
    ensures { bytes_from at 4 entry.now ≡ u32_bytes result }
{
    LittleEndian::read_u32(&entry[at..at + 4])
}

/// The number in the eight bytes at the place.
pub fn read_u64(entry: &[u8], at: usize) -> u64
    requires { at + 8 ≤ length entry.now }
    ensures { bytes_from at 8 entry.now ≡ u64_bytes result }
{
    LittleEndian::read_u64(&entry[at..at + 8])
}

/// Writes the `N` bytes at the place.
pub fn write_bytes<const N: usize>(entry: &mut [u8], at: usize, bytes: &[u8; N])
    requires { at + N ≤ length entry.old }
    ensures { entry.new ≡ take at entry.old ++ bytes.now ++ drop (at + N) entry.old }
{
    entry[at..at + N].copy_from_slice(bytes);
}

/// Writes the number into the four bytes at the place.
pub fn write_u32(entry: &mut [u8], at: usize, number: u32)
    requires { at + 4 ≤ length entry.old }
    ensures { entry.new ≡ take at entry.old ++ u32_bytes number ++ drop (at + 4) entry.old }
{
    LittleEndian::write_u32(&mut entry[at..at + 4], number);
}

/// Writes the number into the eight bytes at the place.
pub fn write_u64(entry: &mut [u8], at: usize, number: u64)
    requires { at + 8 ≤ length entry.old }
    ensures { entry.new ≡ take at entry.old ++ u64_bytes number ++ drop (at + 8) entry.old }
{
    LittleEndian::write_u64(&mut entry[at..at + 8], number);
}
