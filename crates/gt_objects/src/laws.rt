//! What follows from the definitions. These calls do nothing: their clauses are laws.
ghost use Rattle.std.specs.Prelude.{◌≡◌, ◌<◌, ◌↔◌, ℕ, None};
ghost use Rattle.gt_pages.specs.Ledger.{rounded};

/// Exactly more than 1,048,576 bytes are too many for a block.
pub fn blocks_have_a_greatest_size()
    ensures { (bytes : ℕ) → (rounded bytes ≡ None) ↔ (1048576 < bytes) }
{}
