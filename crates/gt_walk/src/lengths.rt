// What rows read in the bytes of a space.
ghost use Rattle.std.specs.Prelude.{◌≡◌, ◌<◌, ◌+◌, ◌-◌, ◌^◌, length};
ghost use Rattle.gt_types.specs.Values.{within_i64};
ghost use Rattle.gt_walk.specs.Rows.{word_at, has_bits, number_at, leaf_value, row_value, length_of, count_of};
ghost use Rattle.gt_walk.specs.Frames.{frame_of};

use crate::frames::Frame;
use crate::{Count, RowExpr, RowLeaf};
use gt_space::Space;
use gt_types::{Base, List, Reader, Word, eval};
use gt_value::{Holder, LeafContent, LeafKind, Place, read_leaf};

/// The address after the last byte of a space.
#[inline(always)]
pub fn end_of(space: &Space) -> u64
    ensures end { result ≡ space.now.start + length space.now.bytes }
    ensures small { result < 2 ^ 32 }
{
    space.start() + space.len()
}

/// The number of addresses at which eight bytes lie in the space: all of its addresses but the last seven.
#[inline(always)]
pub fn words_in(space: &Space) -> u64
    ensures words { result ≡ length space.now.bytes - 7 }
{
    space.len().saturating_sub(7)
}

/// The eight bytes at an address; none where they do not lie in the space, of which `words_in` says `words`.
#[inline(always)]
pub fn word_of(space: &Space, words: u64, address: u64) -> Option<u64>
    requires words { words ≡ length space.now.bytes - 7 }
    requires near { address < 2 ^ 63 }
    ensures { result ≡ word_at space.now address }
{
    if address.wrapping_sub(space.start()) >= words {
        return None;
    }
    Some(space.read_u64(address))
}

// The same, where `words_in` has not been called.
pub fn word_at(space: &Space, address: u64) -> Option<u64>
    requires near { address < 2 ^ 63 }
    ensures { result ≡ word_at space.now address }
{
    word_of(space, words_in(space), address)
}

// Whether from 1 to 64 bits from a bit of the byte at an address on lie in the space.
fn has_bits(space: &Space, address: u64, bit: u8, width: u8) -> bool
    ensures { result ≡ has_bits space.now address bit width }
{
    let start = space.start();
    if address < start || width < 1 || width > 64 {
        return false;
    }
    let past = space.len().saturating_sub(address - start);
    bit as u64 + width as u64 <= 8 * past
}

// The number of so many bits there, with a sign or without; none where they do not lie in the space.
fn number_at(space: &Space, address: u64, leaf: RowLeaf) -> Option<i128>
    ensures { result ≡ number_at space.now address leaf }
{
    if !has_bits(space, address, leaf.bit, leaf.width) {
        return None;
    }
    let place = Place {
        addr: address,
        bit: leaf.bit,
        kind: LeafKind::Number {
            signed: leaf.signed,
            width: leaf.width as u32,
        },
        active: true,
        holder: Holder::Element,
        length: None,
    };
    match read_leaf(space, place) {
        LeafContent::Num(n) => Some(n),
        LeafContent::Null | LeafContent::To(_) => None,
    }
}

fn within_i64(n: i128) -> Option<i64>
    ensures { result ≡ within_i64 n }
{
    if n >= i64::MIN as i128 && n <= i64::MAX as i128 {
        Some(n as i64)
    } else {
        None
    }
}

// The value of a leaf: none outside i64.
fn leaf_value(space: &Space, frame: &Frame, leaf: RowLeaf) -> Option<i64>
    ensures { result ≡ leaf_value space.now (frame_of frame.now) leaf }
{
    let from = frame.origin(leaf.origin)?;
    if from >= end_of(space) {
        return None;
    }
    within_i64(number_at(space, from + leaf.offset as u64, leaf)?)
}

// The leaves of an expression where a row stands.
#[derive(Clone, Copy)]
struct Leaves<'a> {
    space: &'a Space,
    frame: &'a Frame,
    leaves: &'a List<RowLeaf>,
}

impl Reader for Leaves<'_> {
    ghost use Rattle.std.specs.Prelude.{slice_get};
    ghost use Rattle.gt_tree.specs.Scopes.{◌then◌};
    ghost use Rattle.gt_walk.specs.Rows.{leaf_value, no_path};
    ghost use Rattle.gt_walk.specs.Frames.{frame_of};

    ghost leaf_of = { λ r. no_path };

    ghost root_of = { λ r i. slice_get r.leaves.now i then leaf_value r.space.now (frame_of r.frame.now) };

    fn leaf(&self, _base: &Base, _steps: &[Word]) -> Option<i64> {
        None
    }

    fn root(&self, i: u32) -> Option<i64> {
        leaf_value(self.space, self.frame, *self.leaves.get(i as usize)?)
    }
}

// The value of an expression where a row stands.
pub fn row_value(space: &Space, frame: &Frame, e: &RowExpr) -> Option<i64>
    ensures { result ≡ row_value space.now (frame_of frame.now) e.now }
{
    let leaves = &e.leaves;
    eval(
        &e.expr,
        &Leaves {
            space,
            frame,
            leaves,
        },
    )
}

// A length: without a value, or below 0, it counts as 0, and above 4,294,967,295 as that.
pub fn length_of(value: Option<i64>) -> u32
    ensures { result ≡ length_of value }
{
    match value {
        Some(n) if n > 0 => n.min(u32::MAX as i64) as u32,
        _ => 0,
    }
}

// How many elements the block has that a pointer names.
pub fn count_of(space: &Space, frame: &Frame, count: &Count) -> u32
    ensures { result ≡ count_of space.now (frame_of frame.now) count.now }
{
    match count {
        Count::Fixed(n) => *n,
        Count::Length(e) => length_of(row_value(space, frame, e)),
    }
}
