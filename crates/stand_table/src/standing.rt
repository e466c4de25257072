// Whether bytes stand for leaves, bit by bit.
ghost use Rattle.std.specs.Prelude.{◌≡◌, ◌≤◌, ◌<◌, ℕ, ◌+◌, ◌*◌, All};
ghost use Rattle.std.specs.Bool.{Decides};
ghost use Rattle.std.specs.List.{list_any};
ghost use Rattle.gt_tree.specs.Leaves.{bit_of, content_bits, is_set_in, Stand};
ghost use Rattle.gt_tree.specs.Numbers.{two's_complement};
ghost use Rattle.gt_value.specs.Bytes.{itself};
ghost use Rattle.stand_table.specs.Leaves.{content_of, leaf_of, leaves_in, IsNarrow};

use crate::leaves::{Content, Leaf};

// The bits of a number, as a number from 0 on.
fn number_bits(n: i128, width: u32) -> u128
    requires narrow { width ≤ 64 }
    ensures { result ≡ two's_complement width n }
{
    let size = n.unsigned_abs();
    if n < 0 {
        (1u128 << width).saturating_sub(size)
    } else {
        size
    }
}

// The bits of what a leaf of so many bits holds, as a number from 0 on.
fn content_bits(content: Content, width: u32) -> u128
    requires narrow { width ≤ 64 }
    ensures { result ≡ content_bits itself width (content_of content) }
{
    match content {
        Content::Number(n) => number_bits(n, width),
        Content::Pointer(None) => 0,
        Content::Pointer(Some(address)) => address as u128,
    }
}

// Whether a bit of a number is set, counted from the lowest.
fn bit_of(n: u128, i: u32) -> bool
    requires { i < 128 }
    ensures { result ≡ bit_of n i }
{
    n >> i & 1 == 1
}

// Whether a bit is one of a leaf and is set there.
fn is_set_in(leaf: &Leaf, bit: u128) -> bool
    requires narrow { IsNarrow leaf.now }
    ensures { result ≡ is_set_in itself bit (leaf_of leaf.now) }
{
    let begin = leaf.at as u128;
    if bit < begin {
        return false;
    }
    let place = bit - begin;
    if place >= leaf.width as u128 {
        return false;
    }
    bit_of(content_bits(leaf.content, leaf.width), place as u32)
}

// Whether a bit is set in some leaf.
fn is_set(leaves: &[Leaf], bit: u128) -> bool
    requires narrow { All IsNarrow leaves.now }
    ensures { result ≡ list_any (is_set_in itself bit) (leaves_in leaves.now) }
{
    for leaf in leaves {
        if is_set_in(leaf, bit) {
            return true;
        }
    }
    false
}

// Whether each bit of the byte at a place is set just where it is set in some leaf.
fn byte_stands(leaves: &[Leaf], place: usize, byte: u8) -> bool
    requires narrow { All IsNarrow leaves.now }
    ensures { Decides result ((k : ℕ) → k < 8 → bit_of byte k ≡ list_any (is_set_in itself (8 * place + k)) (leaves_in leaves.now)) }
{
    for k in 0..8u32 {
        let set = is_set(leaves, 8 * place as u128 + k as u128);
        if bit_of(byte as u128, k) != set {
            return false;
        }
    }
    true
}

/// Whether bytes stand for leaves: each bit is set just where some leaf has it set.
pub fn stand(leaves: &[Leaf], bytes: &[u8]) -> bool
    requires narrow { All IsNarrow leaves.now }
    ensures { Decides result (Stand itself (leaves_in leaves.now) bytes.now) }
{
    for (place, byte) in bytes.iter().enumerate() {
        if !byte_stands(leaves, place, *byte) {
            return false;
        }
    }
    true
}
