ghost use Rattle.std.specs.Prelude.{◌≡◌};
ghost use Rattle.std.specs.Bool.{Decides};

use crate::Same;
use gt_types::List;

impl<X: Same> Same for Option<X> {
    fn is_same(&self, other: &Option<X>) -> bool {
        match self {
            None => other.is_none(),
            Some(one) => match other {
                None => false,
                Some(another) => one.is_same(another),
            },
        }
    }
}

impl<X: Same> Same for List<X> {
    fn is_same(&self, other: &List<X>) -> bool {
        are_same(self.as_slice(), other.as_slice())
    }
}

// Whether two slices have the same things in the same order.
fn are_same<X: Same>(one: &[X], other: &[X]) -> bool
    ensures decides { Decides result (one.now ≡ other.now) }
{
    let mut here = one;
    let mut there = other;
    'pairs: loop {
        match here {
            [] => return there.is_empty(),
            [first, rest @ ..] => match there {
                [] => return false,
                [second, others @ ..] => {
                    if !first.is_same(second) {
                        return false;
                    }
                    here = rest;
                    there = others;
                }
            },
        }
    }
}
