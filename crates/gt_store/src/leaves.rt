// One leaf written in the bytes of a space.
ghost use Rattle.std.specs.Prelude.{◌≡◌, ◌≤◌, ◌<◌, ◌-◌, ◌*◌, ◌^◌};
ghost use Rattle.gt_space.specs.Range.{KeepsAddresses};
ghost use Rattle.gt_value.specs.Places.{HasBits, IsKind};
ghost use Rattle.gt_store.specs.Leaf.{MayBe, width_of, bits_of, IsLeafWritten};

use crate::bits::{bits_of_number, whole_width, write_bits, write_number};
use gt_space::Space;
use gt_value::{LeafContent, LeafKind, Place};

// How many bits a leaf has.
fn bit_count(kind: LeafKind) -> u32
    ensures { result ≡ width_of kind }
{
    match kind {
        LeafKind::Number { width, .. } => width,
        LeafKind::Pointer => 64,
    }
}

// The bits of what a leaf is.
fn leaf_bits(kind: LeafKind, leaf: LeafContent) -> u64
    requires kind { IsKind kind (width_of kind) }
    requires may { MayBe kind leaf }
    ensures bits { result ≡ bits_of kind leaf }
    ensures small { result < 2 ^ width_of kind }
{
    match leaf {
        LeafContent::Num(n) => bits_of_number(n, bit_count(kind)),
        LeafContent::Null => 0,
        LeafContent::To(address) => address,
    }
}

/// Writes what the leaf at a place is from now on: a number, null, or a pointer to the block at an address. No other bit changes. It
/// takes no memory. A bool is a number of 8 bits here; that it is 0 or 1 the caller sees to.
pub fn store_leaf(space: &mut Space, place: Place, leaf: LeafContent)
    requires from_start { space.old.start ≤ place.addr }
    requires bits { HasBits space.old (place.addr - space.old.start) place.bit place.kind }
    requires may { MayBe place.kind leaf }
    ensures addresses { KeepsAddresses space.old space.new }
    ensures written { IsLeafWritten place leaf space.old space.new }
{
    let at = 8 * (place.addr - space.start()) + place.bit as u64;
    let width = bit_count(place.kind);
    let bits = leaf_bits(place.kind, leaf);
    match whole_width(width) {
        Some(whole) if at % 8 == 0 => write_number(space, at, whole, bits),
        _ => write_bits(space, at, width, bits),
    }
}
