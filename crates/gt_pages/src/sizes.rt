// The sizes of blocks, which are few, so that each page holds blocks of one size, as in GCC's page collector (ggc-page.cc).
ghost use Rattle.std.specs.Prelude.{◌≡◌, ◌/◌, ◌^◌, ◌<◌, Contains, slice_get, Some};
ghost use Rattle.gt_pages.specs.Ledger.{rounded, sizes};

use std::marker::Model;

/// The sizes of blocks in bytes.
pub const SIZES: [u32; 29] = [
    8, 16, 32, 48, 64, 80, 96, 112, 128, 144, 160, 176, 192, 208, 224, 240, 256, 512, 1024, 2048,
    4096, 8192, 16384, 32768, 65536, 131072, 262144, 524288, 1048576,
];

/// The inverse of a size is this number divided by the size, rounded up.
const INVERSE_OF_ONE: u64 = 1 << 34;

/// The same, with what contracts know of them.
pub fn all_sizes() -> &'static [u32]
    ensures all { result.now ≡ sizes }
{
    &SIZES
}

/// The least size of a block with room for so many bytes, or None where there is none.
pub fn rounded_size(need: u32) -> Option<u32>
    ensures least { result ≡ rounded need }
{
    SIZES.iter().copied().find(|size| need <= *size)
}

/// The number of a listed size, in their order.
pub(crate) fn list_of(size: u32) -> u32
    requires { Contains sizes size }
    ensures number { slice_get sizes result ≡ Some size }
    ensures below { result < 29 }
{
    if size < 16 {
        return 0;
    }
    if size <= 256 {
        return size / 16;
    }
    size.trailing_zeros() + 8
}

/// The size of the blocks of an entry in bytes, 0 where it has none, and the number by which an offset is multiplied in the
/// place of a division by the size.
#[derive(Drop)]
pub(crate) struct BlockSize {
    bytes: u32,
    inverse: u32,
}

impl Model for BlockSize {
    ghost use Rattle.std.specs.Prelude.{ℕ};

    ghost Value = { ℕ };

    ghost use Rattle.gt_pages.specs.Inverses.{IsInverse};

    ghost view = { λ s. s.bytes };

    ghost invariant = { λ s. IsInverse s.bytes s.inverse };
}

impl BlockSize {
    /// No size.
    pub(crate) fn none() -> BlockSize
        ensures { result ≡ 0 }
    {
        BlockSize {
            bytes: 0,
            inverse: 0,
        }
    }

    /// A listed size.
    pub(crate) fn new(bytes: u32) -> BlockSize
        requires { Contains sizes bytes }
        ensures { result ≡ bytes }
    {
        let inverse = (INVERSE_OF_ONE + bytes as u64 - 1) / bytes as u64;
        BlockSize {
            bytes,
            inverse: inverse as u32,
        }
    }

    /// The size in bytes.
    pub(crate) fn bytes(&self) -> u32
        ensures { result ≡ self.now }
    {
        self.bytes
    }

    /// The place in which an offset lies, where each has this size.
    pub(crate) fn place_of(&self, offset: u64) -> u32
        requires some { 0 < self.now }
        requires near { offset < 2 ^ 26 }
        ensures { result ≡ offset / self.now }
    {
        (offset * self.inverse as u64 / INVERSE_OF_ONE) as u32
    }
}
