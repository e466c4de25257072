// Numbers and bits in the bytes of a space. Places are counted in bits from its lowest address.
ghost use Rattle.std.specs.Prelude.{◌≡◌, ◌≢◌, ◌≤◌, ◌<◌, ℕ, ◌+◌, ◌*◌, ◌^◌, ◌%◌, cond, Bool, IsTrue, length, MatchOption};
ghost use Rattle.gt_types.specs.declared.types.Width.{Width};
ghost use Rattle.gt_space.specs.Range.{KeepsAddresses};
ghost use Rattle.gt_tree.specs.Numbers.{has_room, two's_complement};
ghost use Rattle.gt_tree.specs.Leaves.{bit_of, byte_leaves};
ghost use Rattle.gt_store.specs.Overlays.{Overlays, bytes_in};
ghost use Rattle.gt_store.specs.Writing.{Writes};

use gt_space::Space;
use gt_types::Width;

/// The bits of a number that has room in so many: a negative one is its two's complement.
pub(crate) fn bits_of_number(n: i128, width: u32) -> u64
    requires some { 1 ≤ width }
    requires few { width ≤ 64 }
    requires room { (signed : Bool) × IsTrue (has_room signed width n) }
    ensures bits { result ≡ two's_complement width n }
    ensures small { result < 2 ^ width }
{
    let size = n.unsigned_abs();
    if n < 0 {
        ((1u128 << width) - size) as u64
    } else {
        size as u64
    }
}

// A byte with another bit at a place.
fn with_bit(byte: u8, i: u8, set: bool) -> u8
    requires { i < 8 }
    ensures same { bit_of result i ≡ set }
    ensures other { (k : ℕ) → k < 8 → k ≢ i → bit_of result k ≡ bit_of byte k }
{
    if set { byte | 1 << i } else { byte & !(1 << i) }
}

// Writes one bit.
fn write_bit(space: &mut Space, at: u64, set: bool)
    requires { at < 8 * length space.old.bytes }
    ensures { Writes at 1 (cond set 1 0) space.old space.new }
{
    let addr = space.start() + at / 8;
    let byte = space.read_u8(addr);
    space.write_u8(addr, with_bit(byte, (at % 8) as u8, set));
}

/// Writes so many bits of a number, from the lowest on, and no others.
pub(crate) fn write_bits(space: &mut Space, at: u64, width: u32, bits: u64)
    requires few { width ≤ 64 }
    requires near { at < 2 ^ 63 }
    requires inside { at + width ≤ 8 * length space.old.bytes }
    ensures { Writes at width bits space.old space.new }
{
    for i in 0..width {
        let bit = bits >> i & 1;
        write_bit(space, at + i as u64, bit == 1);
    }
}

/// The bits of a number of so many bytes.
pub(crate) fn bits_in(width: Width) -> u32
    ensures { result ≡ 8 * bytes_in width }
{
    match width {
        Width::W1 => 8,
        Width::W2 => 16,
        Width::W4 => 32,
        Width::W8 => 64,
    }
}

/// The width of a number that has so many bits; None where no number of whole bytes has so many.
pub(crate) fn whole_width(bits: u32) -> Option<Width>
    ensures { MatchOption result ((width : Width) → 8 * bytes_in width ≢ bits) (λ width. 8 * bytes_in width ≡ bits) }
{
    match bits {
        8 => Some(Width::W1),
        16 => Some(Width::W2),
        32 => Some(Width::W4),
        64 => Some(Width::W8),
        _ => None,
    }
}

/// Writes a number of whole bytes.
pub(crate) fn write_number(space: &mut Space, at: u64, width: Width, bits: u64)
    requires whole { at % 8 ≡ 0 }
    requires inside { at + 8 * bytes_in width ≤ 8 * length space.old.bytes }
    requires small { bits < 2 ^ (8 * bytes_in width) }
    ensures { Writes at (8 * bytes_in width) bits space.old space.new }
{
    let addr = space.start() + at / 8;
    match width {
        Width::W1 => space.write_u8(addr, bits as u8),
        Width::W2 => space.write_u16(addr, bits as u16),
        Width::W4 => space.write_u32(addr, bits as u32),
        Width::W8 => space.write_u64(addr, bits),
    }
}

/// Writes bytes.
pub(crate) fn write_bytes(space: &mut Space, at: u64, bytes: &[u8])
    requires whole { at % 8 ≡ 0 }
    requires inside { at + 8 * length bytes.now ≤ 8 * length space.old.bytes }
    ensures { Overlays (byte_leaves at bytes.now) space.old space.new }
{
    space.copy_in(space.start() + at / 8, bytes);
}
