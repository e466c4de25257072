// What an expression reads.
ghost use Rattle.std.specs.Prelude.{◌≡◌, ℕ, ℤ, List, Option};
ghost use Rattle.gt_types.specs.declared.expressions.Base.{Base};

use crate::{Base, Word};

/// The numbers that an expression reads: at the leaves to which its paths lead, and of roots.
pub trait Reader {
    /// What the leaf of each path is worth: None where that is outside i64, or where there is no such leaf.
    ghost leaf_of: { Self → Base → List (List ℕ) → Option ℤ };

    /// What the root at each place of the program is worth: None where that is outside i64, or where there is no such root.
    ghost root_of: { Self → ℕ → Option ℤ };

    /// The number at the leaf to which the steps lead, names of fields, from the structure at which the path begins. None
    /// where it is outside i64, or where there is no such leaf.
    fn leaf(&self, base: &Base, steps: &[Word]) -> Option<i64>
        ensures worth { result ≡ leaf_of self.now base.now steps.now };

    /// The number of the root at a place of the program, counted from 0. None where it is outside i64, or where there is no
    /// such root.
    fn root(&self, i: u32) -> Option<i64>
        ensures worth { result ≡ root_of self.now i };
}
