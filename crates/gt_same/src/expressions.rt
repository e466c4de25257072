use crate::Same;
use gt_types::Expr;

impl Same for Expr {
    fn is_same(&self, other: &Expr) -> bool {
        match self {
            Expr::Int(value) => match other {
                Expr::Int(number) => value == number,
                _ => false,
            },
            Expr::Path { base, steps } => match other {
                Expr::Path {
                    base: from,
                    steps: names,
                } => base == from && steps.is_same(names),
                _ => false,
            },
            Expr::Root(place) => match other {
                Expr::Root(at) => place == at,
                _ => false,
            },
            Expr::One { op, a } => match other {
                Expr::One { op: sign, a: x } => op == sign && a.get().is_same(x.get()),
                _ => false,
            },
            Expr::Two { op, a, b } => match other {
                Expr::Two {
                    op: sign,
                    a: x,
                    b: y,
                } => { op == sign && a.get().is_same(x.get()) && b.get().is_same(y.get()) }
                _ => false,
            },
            Expr::Cond { test, yes, no } => match other {
                Expr::Cond {
                    test: condition,
                    yes: x,
                    no: y,
                } => {
                    test.get().is_same(condition.get())
                        && yes.get().is_same(x.get())
                        && no.get().is_same(y.get())
                }
                _ => false,
            },
        }
    }
}
