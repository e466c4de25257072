// What an expression of an option is worth.
ghost use Rattle.std.specs.Prelude.{◌≡◌, ℤ, Option, Some, None, MatchOption};
ghost use Rattle.gt_types.specs.Values.{value_of, value_of_one, value_of_two, joined, number_of};

use crate::{Expr, Op, Reader};

/// The value of an expression over i64, where truth is 1 and 0. None exactly where a part that is evaluated leaves i64, reads
/// a leaf or a root that has no value, or has more or fewer operands than its operator takes. What is evaluated is what C
/// evaluates: the second operand of `&&` and `||` only where the first leaves the value open, and one branch of `?:`. It takes
/// no memory.
pub fn eval<R: Reader>(e: &Expr, reader: &R) -> Option<i64>
    ensures value { result ≡ value_of (R.leaf_of reader.now) (R.root_of reader.now) e.now }
{
    match e {
        Expr::Int(value) => Some(*value),
        Expr::Path { base, steps } => reader.leaf(base, steps.as_slice()),
        Expr::Root(place) => reader.root(*place),
        Expr::One { op, a } => of_one(*op, eval(a.get(), reader)?),
        Expr::Two { op, a, b } => {
            let first = eval(a.get(), reader)?;
            match decided(*op, first) {
                Some(value) => Some(value),
                None => of_both(*op, first, eval(b.get(), reader)?),
            }
        }
        Expr::Cond { test, yes, no } => {
            if eval(test.get(), reader)? != 0 {
                eval(yes.get(), reader)
            } else {
                eval(no.get(), reader)
            }
        }
    }
}

fn number(truth: bool) -> i64
    ensures { result ≡ number_of truth }
{
    if truth { 1 } else { 0 }
}

// An operator of one operand on its value.
fn of_one(op: Op, a: i64) -> Option<i64>
    ensures { result ≡ value_of_one op a }
{
    match op {
        Op::Neg => a.checked_neg(),
        Op::Not => Some(number(a == 0)),
        _ => None,
    }
}

// The value of an operator of two operands, where the first alone decides it.
fn decided(op: Op, first: i64) -> Option<i64>
    ensures { MatchOption result (joined op (Some first) None ≡ None) (λ value. (second : Option ℤ) → joined op (Some first) second ≡ Some value) }
{
    match op {
        Op::And if first == 0 => Some(0),
        Op::Or if first != 0 => Some(1),
        _ => None,
    }
}

// An operator of two operands on the values of both.
fn of_both(op: Op, first: i64, second: i64) -> Option<i64>
    ensures { result ≡ joined op (Some first) (Some second) }
{
    match op {
        Op::And => Some(number(first != 0 && second != 0)),
        Op::Or => Some(number(first != 0 || second != 0)),
        Op::Add => first.checked_add(second),
        Op::Sub => first.checked_sub(second),
        Op::Mul => first.checked_mul(second),
        Op::Lt => Some(number(first < second)),
        Op::Le => Some(number(first <= second)),
        Op::Gt => Some(number(first > second)),
        Op::Ge => Some(number(first >= second)),
        Op::Eq => Some(number(first == second)),
        Op::Ne => Some(number(first != second)),
        Op::Neg | Op::Not => None,
    }
}
