use gt_types::{Base, Op, Word};

/// A part of an expression's text. The operator `-` is `Sub`, whether it has one operand or two.
#[derive(Debug, Drop)]
pub enum Part {
    Integer(i64),
    Name(Word),
    Percent(Base),
    Operator(Op),
    Question,
    Colon,
    Dot,
    Open,
    Close,
    Other,
}

/// A line of the grammar: a conditional, or the operators that bind as tight as a level says, from the loosest, 6, to
/// the tightest, 1. Level 0 is a unary.
#[derive(Clone, Copy, Debug)]
pub enum Line {
    Conditional,
    Level(u8),
}
