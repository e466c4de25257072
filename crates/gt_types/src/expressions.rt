use crate::{Copied, List, Word};
use sqlite_items::Boxed;
use std::alloc::{AllocError, Global};

/// The structure at which a path of an option begins: the structure of the field (`%h`), the one that contains it by
/// value (`%1`), or the outermost of the block (`%0`).
#[derive(Clone, Copy, Debug, PartialEq, Eq)]
pub enum Base {
    Here,
    Outer,
    Outermost,
}

/// An operator of an expression: `-` and `!` of one operand, the others of two.
#[derive(Clone, Copy, Debug, PartialEq, Eq)]
pub enum Op {
    Neg,
    Not,
    Add,
    Sub,
    Mul,
    Lt,
    Le,
    Gt,
    Ge,
    Eq,
    Ne,
    And,
    Or,
}

/// An expression of an option, with its names resolved: `Root` is a root by its place in the program, and the steps
/// of a path are names of fields.
#[derive(Debug, Drop)]
pub enum Expr {
    Int(i64),
    Path {
        base: Base,
        steps: List<Word>,
    },
    Root(u32),
    One {
        op: Op,
        a: Boxed<Expr>,
    },
    Two {
        op: Op,
        a: Boxed<Expr>,
        b: Boxed<Expr>,
    },
    Cond {
        test: Boxed<Expr>,
        yes: Boxed<Expr>,
        no: Boxed<Expr>,
    },
}

impl Copied for Expr {
    fn copy(&self, alloc: Global) -> Result<Expr, AllocError> {
        match self {
            Expr::Int(value) => Ok(Expr::Int(*value)),
            Expr::Path { base, steps } => Ok(Expr::Path {
                base: *base,
                steps: steps.copy(alloc)?,
            }),
            Expr::Root(place) => Ok(Expr::Root(*place)),
            Expr::One { op, a } => Ok(Expr::One {
                op: *op,
                a: Boxed::new(alloc, a.get().copy(alloc)?)?,
            }),
            Expr::Two { op, a, b } => Ok(Expr::Two {
                op: *op,
                a: Boxed::new(alloc, a.get().copy(alloc)?)?,
                b: Boxed::new(alloc, b.get().copy(alloc)?)?,
            }),
            Expr::Cond { test, yes, no } => Ok(Expr::Cond {
                test: Boxed::new(alloc, test.get().copy(alloc)?)?,
                yes: Boxed::new(alloc, yes.get().copy(alloc)?)?,
                no: Boxed::new(alloc, no.get().copy(alloc)?)?,
            }),
        }
    }
}
