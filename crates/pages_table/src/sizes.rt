//! The sizes of blocks.
ghost use Rattle.std.specs.Prelude.{◌≡◌, Contains, IfSome, IsTrue};
ghost use Rattle.gt_pages.specs.Ledger.{sizes};

use gt_pages::rounded_size;

/// The least size of a block with room for so many bytes, which is a listed one.
pub fn size_for(bytes: u32) -> Option<u32>
    ensures { IfSome result (λ size. Contains sizes size) }
{
    rounded_size(bytes)
}

/// Whether blocks may have a size.
pub fn is_listed(size: u32) -> bool
    ensures { IsTrue result → Contains sizes size }
{
    match rounded_size(size) {
        Some(rounded) => rounded == size,
        None => false,
    }
}
