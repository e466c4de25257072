// What the expressions of the table read.
ghost use Rattle.std.specs.Prelude.{if◌then◌else◌, ◌==◌, length, ℕ, ℤ, Some, None, pos, negsuc};
ghost use Rattle.gt_types.specs.declared.expressions.Base.TheVariants.{Here, Outer, Outermost};

use gt_types::{Base, Reader, Word};

/// A path of one step is worth 5 from its own structure and -7 from the one that contains it; from the outermost it has no value.
/// The root at place 0 is worth 11.
pub struct Leaves {}

impl Reader for Leaves {
    ghost leaf_of = { λ n base steps. if length steps == 1 then elim base [ Here ↦ Some (pos 5) | Outer ↦ Some (negsuc 6) | Outermost ↦ None ] else None };

    ghost root_of = { λ n i. if i == 0 then Some (pos 11) else None };

    fn leaf(&self, base: &Base, steps: &[Word]) -> Option<i64> {
        if steps.len() != 1 {
            return None;
        }
        match base {
            Base::Here => Some(5),
            Base::Outer => Some(-7),
            Base::Outermost => None,
        }
    }

    fn root(&self, i: u32) -> Option<i64> {
        if i == 0 { Some(11) } else { None }
    }
}
