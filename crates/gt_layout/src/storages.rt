// What a field takes of its structure, and where it may lie.
ghost use Rattle.std.specs.Prelude.{◌≡◌, ◌≤◌, ◌<◌, ℕ, ◌+◌, ◌*◌, ◌^◌, IsTrue};
ghost use Rattle.gt_layout.specs.Places.{LiesAfter, end_of, align_of, spot_of};
ghost use Rattle.gt_layout.specs.Planes.{is_placeable};
ghost use Rattle.gt_layout.specs.Progress.{Starts};

use crate::planes::{Extent, FieldSpot};
use crate::rounding::round_up;

/// What a field takes of its structure: whole bytes, or `count` bits of an aligned storage unit of `unit` bytes.
#[derive(Clone, Copy, Debug, PartialEq, Eq)]
pub enum Storage {
    Bytes(Extent),
    Bits { unit: u32, count: u8 },
}

impl Storage {
    /// Whether a field can be placed so: its alignment is 1, 2, 4 or 8, and its bits, one at least, are no more than those of
    /// their unit.
    pub fn is_placeable(self) -> bool
        ensures { result ≡ is_placeable self }
    {
        match self {
            Storage::Bytes(extent) => matches!(extent.align, 1 | 2 | 4 | 8),
            Storage::Bits { unit, count } => {
                matches!(unit, 1 | 2 | 4 | 8) && count >= 1 && count as u32 <= 8 * unit
            }
        }
    }

    // The alignment in bytes.
    pub fn align(self) -> u32
        ensures { result ≡ align_of self }
    {
        match self {
            Storage::Bytes(extent) => extent.align,
            Storage::Bits { unit, .. } => unit,
        }
    }

    // The least bit from `from` on at which the field may begin.
    pub fn begin(self, from: u64) -> u64
        requires placeable { IsTrue (is_placeable self) }
        requires small { from < 2 ^ 40 }
        ensures lies { LiesAfter from self result }
        ensures near { result < from + 64 }
    {
        match self {
            Storage::Bytes(extent) => round_up(from, 8 * extent.align as u64),
            Storage::Bits { unit, count } => {
                let bits = 8 * unit as u64;
                if from / bits == (from + count as u64 - 1) / bits {
                    from
                } else {
                    round_up(from, bits)
                }
            }
        }
    }

    // Where the field begins in a union, or in a struct after the fields that end at `from`.
    pub fn start(self, is_union: bool, from: u64) -> u64
        requires placeable { IsTrue (is_placeable self) }
        requires small { from < 2 ^ 34 }
        ensures start { Starts is_union from self result }
        ensures near { result < from + 64 }
    {
        if is_union { 0 } else { self.begin(from) }
    }

    // The bit after the last one of a field that begins at `begin`.
    pub fn end(self, begin: u64) -> u64
        requires { begin < 2 ^ 41 }
        ensures { result ≡ end_of self begin }
    {
        match self {
            Storage::Bytes(extent) => begin + 8 * extent.size as u64,
            Storage::Bits { count, .. } => begin + count as u64,
        }
    }

    // The place of a field that begins at `begin`.
    pub fn spot(self, begin: u64) -> FieldSpot
        requires placeable { IsTrue (is_placeable self) }
        requires small { begin < 2 ^ 35 }
        ensures { result ≡ spot_of self begin }
    {
        match self {
            Storage::Bytes(_) => FieldSpot {
                offset: (begin / 8) as u32,
                bit: 0,
            },
            Storage::Bits { unit, .. } => {
                let bits = 8 * unit as u64;
                FieldSpot {
                    offset: (begin / bits * unit as u64) as u32,
                    bit: (begin % bits) as u8,
                }
            }
        }
    }
}
