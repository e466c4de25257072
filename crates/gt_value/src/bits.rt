// Numbers in the bits of a space. A bit is counted from the lowest of each byte, and bytes from a place in the space.
ghost use Rattle.std.specs.Prelude.{◌≡◌, ◌+◌, ◌*◌, ◌^◌, ◌≤◌, ◌<◌, IfOk};
ghost use Rattle.gt_value.specs.Reading.{bits_from, end_from, bits_number, byte_numbers, number_from};

use gt_space::Space;
use gt_types::Bytes;
use std::alloc::{AllocError, Global};

// Whether a bit is set.
fn bit(space: &Space, from: u64, at: u64) -> bool
    requires { at < end_from space.now from }
    ensures { result ≡ bits_from space.now from at }
{
    let byte = space.read_u8(space.start() + from + at / 8);
    (byte >> (at % 8) as u32) % 2 == 1
}

// A number of so many bits, bit after bit.
fn collect_bits(space: &Space, from: u64, at: u64, width: u32) -> u64
    requires inside { at + width ≤ end_from space.now from }
    requires near { at + width < 2 ^ 64 }
    requires small { width ≤ 64 }
    ensures { result ≡ bits_number (bits_from space.now from) at width }
{
    let mut number = 0;
    for i in (0..width).rev() {
        number = 2 * number + bit(space, from, at + i as u64) as u64;
    }
    number
}

// The same: a number of whole bytes is read at once.
pub fn bits_at(space: &Space, from: u64, at: u64, width: u32) -> u64
    requires inside { at + width ≤ end_from space.now from }
    requires small { width ≤ 64 }
    ensures { result ≡ bits_number (bits_from space.now from) at width }
{
    let start = space.start();
    if at % 8 != 0 || width < 8 {
        return collect_bits(space, from, at, width);
    }
    let addr = start + from + at / 8;
    match width {
        8 => space.read_u8(addr) as u64,
        16 => space.read_u16(addr) as u64,
        32 => space.read_u32(addr) as u64,
        64 => space.read_u64(addr),
        _ => collect_bits(space, from, at, width),
    }
}

// The number that has these bits, with a sign or without.
fn number_of_bits(signed: bool, width: u32, bits: u64) -> i128
    requires some { 1 ≤ width }
    requires small { width ≤ 64 }
    requires fits { bits < 2 ^ width }
    ensures { result ≡ number_from signed width bits }
{
    if signed && bits >> (width - 1) != 0 {
        let below = (u64::MAX >> (64 - width)) - bits;
        -1 - below as i128
    } else {
        bits as i128
    }
}

// The number in so many bits, with a sign or without.
pub fn number_at(space: &Space, from: u64, at: u64, signed: bool, width: u32) -> i128
    requires inside { at + width ≤ end_from space.now from }
    requires some { 1 ≤ width }
    requires small { width ≤ 64 }
    ensures { result ≡ number_from signed width (bits_number (bits_from space.now from) at width) }
{
    number_of_bits(signed, width, bits_at(space, from, at, width))
}

// So many bytes from a bit on.
pub fn bytes_at(
    alloc: Global,
    space: &Space,
    from: u64,
    at: u64,
    len: u32,
) -> Result<Bytes, AllocError>
    requires inside { at + 8 * len ≤ end_from space.now from }
    requires near { at + 8 * len < 2 ^ 64 }
    ensures { IfOk result (λ bytes. bytes ≡ byte_numbers (bits_from space.now from) at len) }
{
    let mut bytes = Bytes::new(alloc);
    for i in 0..len {
        bytes.push(bits_at(space, from, at + 8 * i as u64, 8) as u8)?;
    }
    Ok(bytes)
}
