ghost use Rattle.std.specs.Prelude.{◌≡◌, List, [], ◌++◌, IfOk, Ok};
ghost use Rattle.std.specs.Option.{option_map};
ghost use Rattle.gt_expr.specs.Grammar.{level_of};
ghost use Rattle.gt_expr.specs.Reading.{Gives, operator_at, steps_at, with_steps, level_at, prefixed_at, unary_at, line_at, tree_at, tree_of};

use crate::part::{Line, Part};
use crate::raw::RawExpr;
use crate::unread::Unread;
use gt_types::{Boxed, Copied, List, Op, Word};
use std::alloc::{AllocError, Global};

// The level of the operators that bind the loosest.
const LOOSEST: u8 = 6;

/// The tree of the parts, all of them.
#[tactic(auto, unfolding(crate::specs::Reading::tree_of))]
pub fn tree(alloc: Global, parts: &[Part]) -> Result<RawExpr, Unread>
    ensures { Gives (λ t. t) result (tree_of parts.now) }
{
    let (tree, rest) = conditional(alloc, parts.len(), parts)?;
    match rest {
        [] => Ok(tree),
        [_, ..] => Err(Unread::NotGiven),
    }
}

// A line of the grammar, where fewer than `depth` lines stand in one another.
#[cycle(reading)]
fn inner_line(
    alloc: Global,
    depth: usize,
    line: Line,
    parts: &[Part],
) -> Result<(RawExpr, &[Part]), Unread>
    ensures { Gives (λ x. (x.0, x.1.now)) result (tree_at depth line parts.now) }
{
    let Some(depth) = depth.checked_sub(1) else {
        return Err(Unread::NotGiven);
    };
    match line {
        Line::Conditional => conditional(alloc, depth, parts),
        Line::Level(level) => binary(alloc, depth, level, parts),
    }
}

#[cycle(reading)]
#[tactic(auto, unfolding(crate::specs::Reading::line_at))]
fn conditional(alloc: Global, depth: usize, parts: &[Part]) -> Result<(RawExpr, &[Part]), Unread>
    ensures { Gives (λ x. (x.0, x.1.now)) result (line_at (tree_at depth) Line.Conditional parts.now) }
{
    let (test, rest) = binary(alloc, depth, LOOSEST, parts)?;
    let [Part::Question, rest @ ..] = rest else {
        return Ok((test, rest));
    };
    let (yes, rest) = inner_line(alloc, depth, Line::Conditional, rest)?;
    let [Part::Colon, rest @ ..] = rest else {
        return Err(Unread::NotGiven);
    };
    let (no, rest) = inner_line(alloc, depth, Line::Conditional, rest)?;
    let tree = RawExpr::Cond {
        test: Boxed::new(alloc, test)?,
        yes: Boxed::new(alloc, yes)?,
        no: Boxed::new(alloc, no)?,
    };
    Ok((tree, rest))
}

// The operators of a level, each grouped to the left. Each turn takes two parts or more.
#[cycle(reading)]
fn binary(
    alloc: Global,
    depth: usize,
    level: u8,
    parts: &[Part],
) -> Result<(RawExpr, &[Part]), Unread>
    ensures { Gives (λ x. (x.0, x.1.now)) result (level_at (unary_at (tree_at depth)) level parts.now) }
{
    if level == 0 {
        return unary(alloc, depth, parts);
    }
    let (mut left, mut rest) = binary(alloc, depth, level - 1, parts)?;
    for _ in 0..rest.len() {
        let Some((op, after)) = operator_at(level, rest) else {
            break;
        };
        let (right, after) = binary(alloc, depth, level - 1, after)?;
        left = RawExpr::Two {
            op,
            a: Boxed::new(alloc, left)?,
            b: Boxed::new(alloc, right)?,
        };
        rest = after;
    }
    Ok((left, rest))
}

#[cycle(reading)]
#[tactic(auto, unfolding(crate::specs::Reading::unary_at))]
fn unary(alloc: Global, depth: usize, parts: &[Part]) -> Result<(RawExpr, &[Part]), Unread>
    ensures { Gives (λ x. (x.0, x.1.now)) result (unary_at (tree_at depth) parts.now) }
{
    match parts {
        [Part::Operator(Op::Not), after @ ..] => prefix_operation(alloc, depth, Op::Not, after),
        [Part::Operator(Op::Sub), after @ ..] => prefix_operation(alloc, depth, Op::Neg, after),
        [Part::Integer(value), after @ ..] => Ok((RawExpr::Int(*value), after)),
        [Part::Name(name), after @ ..] => Ok((RawExpr::Named(name.copy(alloc)?), after)),
        [Part::Percent(base), after @ ..] => {
            let steps = List::new(alloc);
            Ok(with_steps(alloc, RawExpr::Path { base: *base, steps }, after)?)
        }
        [Part::Open, after @ ..] => {
            let (inner, rest) = inner_line(alloc, depth, Line::Conditional, after)?;
            let [Part::Close, rest @ ..] = rest else {
                return Err(Unread::NotGiven);
            };
            Ok(with_steps(alloc, inner, rest)?)
        }
        _ => Err(Unread::NotGiven),
    }
}

// The operand of an operator of one operand, after the operator.
#[cycle(reading)]
fn prefix_operation(
    alloc: Global,
    depth: usize,
    op: Op,
    parts: &[Part],
) -> Result<(RawExpr, &[Part]), Unread>
    ensures { Gives (λ x. (x.0, x.1.now)) result (prefixed_at (tree_at depth) op parts.now) }
{
    let (a, rest) = inner_line(alloc, depth, Line::Level(0), parts)?;
    let a = Boxed::new(alloc, a)?;
    Ok((RawExpr::One { op, a }, rest))
}

// A path takes the steps after it; another tree has none.
fn with_steps(
    alloc: Global,
    tree: RawExpr,
    parts: &[Part],
) -> Result<(RawExpr, &[Part]), AllocError>
    ensures tree { IfOk result (λ x. x.0 ≡ (with_steps tree parts.now).0) }
    ensures rest { IfOk result (λ x. x.1.now ≡ (with_steps tree parts.now).1) }
{
    match tree {
        RawExpr::Path { base, steps } => {
            let (steps, rest) = more_steps(alloc, steps, parts)?;
            Ok((RawExpr::Path { base, steps }, rest))
        }
        other => Ok((other, parts)),
    }
}

// Steps of a path, and those at the front of the parts.
fn more_steps(
    alloc: Global,
    mut steps: List<Word>,
    parts: &[Part],
) -> Result<(List<Word>, &[Part]), AllocError>
    ensures steps { IfOk result (λ x. x.0 ≡ steps ++ (steps_at parts.now).0) }
    ensures rest { IfOk result (λ x. x.1.now ≡ (steps_at parts.now).1) }
{
    let mut rest = parts;
    while let [Part::Dot, Part::Name(name), after @ ..] = rest {
        steps.push(name.copy(alloc)?)?;
        rest = after;
    }
    Ok((steps, rest))
}

// How tight an operator of two operands binds, from 1 to 6; 0 where it has one.
fn level_of(op: Op) -> u8
    ensures { result ≡ level_of op }
{
    match op {
        Op::Neg | Op::Not => 0,
        Op::Mul => 1,
        Op::Add | Op::Sub => 2,
        Op::Lt | Op::Le | Op::Gt | Op::Ge => 3,
        Op::Eq | Op::Ne => 4,
        Op::And => 5,
        Op::Or => 6,
    }
}

// The operator of a level at the front, and the parts after it.
fn operator_at(level: u8, parts: &[Part]) -> Option<(Op, &[Part])>
    ensures { option_map (λ x. (x.0, x.1.now)) result ≡ operator_at level parts.now }
{
    match parts {
        [Part::Operator(op), after @ ..] if level_of(*op) == level => Some((*op, after)),
        _ => None,
    }
}
