// How many elements a number asks for.
ghost use Rattle.std.specs.Prelude.{◌≡◌, MatchOption, pos};
ghost use Rattle.gt_next.specs.Making.{IsNegative};

use gt_script::Number;

/// The number, or None where it is negative.
pub fn natural(n: Number) -> Option<u128>
    ensures natural { MatchOption result (IsNegative n) (λ count. n ≡ pos count) }
{
    match u128::try_from(n.get()) {
        Ok(count) => Some(count),
        Err(_) => None,
    }
}
