// What expressions are worth inside some structures of a value, over i64.
use crate::scopes::Around;
use gt_types::{Expr, Op, Program};

/// What an expression is worth. None where a part that counts leaves i64 or reads no number.
pub fn worth(program: &Program, e: &Expr, around: &Around<'_>) -> Option<i64> {
    match e {
        Expr::Int(n) => Some(*n),
        Expr::Path { base, steps } => around.path_number(program, *base, steps.as_slice()),
        Expr::Root(place) => around.root_number(*place),
        Expr::One { op, a } => of_one(*op, worth(program, a.get(), around)?),
        Expr::Two { op, a, b } => {
            let first = worth(program, a.get(), around)?;
            match (*op, first != 0) {
                (Op::And, false) => Some(0),
                (Op::Or, true) => Some(1),
                _ => of_two(*op, first, worth(program, b.get(), around)?),
            }
        }
        Expr::Cond { test, yes, no } => {
            if worth(program, test.get(), around)? != 0 {
                worth(program, yes.get(), around)
            } else {
                worth(program, no.get(), around)
            }
        }
    }
}

fn of_one(op: Op, a: i64) -> Option<i64> {
    match op {
        Op::Neg => a.checked_neg(),
        Op::Not => Some(truth(a == 0)),
        _ => None,
    }
}

fn of_two(op: Op, a: i64, b: i64) -> Option<i64> {
    match op {
        Op::Add => a.checked_add(b),
        Op::Sub => a.checked_sub(b),
        Op::Mul => a.checked_mul(b),
        Op::Lt => Some(truth(a < b)),
        Op::Le => Some(truth(a <= b)),
        Op::Gt => Some(truth(a > b)),
        Op::Ge => Some(truth(a >= b)),
        Op::Eq => Some(truth(a == b)),
        Op::Ne => Some(truth(a != b)),
        Op::And | Op::Or => Some(truth(b != 0)),
        Op::Neg | Op::Not => None,
    }
}

fn truth(holds: bool) -> i64 {
    if holds { 1 } else { 0 }
}
