use gt_types::{Base, Boxed, List, Op, Word};

/// An expression of an option as it is written: `Named` is a name alone, and the steps of a path are names of fields.
#[derive(Debug, Drop)]
pub enum RawExpr {
    Int(i64),
    Path {
        base: Base,
        steps: List<Word>,
    },
    Named(Word),
    One {
        op: Op,
        a: Boxed<RawExpr>,
    },
    Two {
        op: Op,
        a: Boxed<RawExpr>,
        b: Boxed<RawExpr>,
    },
    Cond {
        test: Boxed<RawExpr>,
        yes: Boxed<RawExpr>,
        no: Boxed<RawExpr>,
    },
}
