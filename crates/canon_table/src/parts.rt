// Expressions and types, as they are written in the table.
use crate::words::{Refusal, Words, both};
use gt_types::{Base, Boxed, Expr, List, Op, PtrKind, Scalar, Target, Ty, TypeId, Width};
use std::alloc::Global;

/// How many parts of an expression or of a type may stand in one another.
const MAX_NESTING: usize = 16;

/// An expression.
pub fn expression(alloc: Global, words: &mut Words) -> Result<Expr, Refusal> {
    expression_part(alloc, words, MAX_NESTING)
}

#[cycle(expressions)]
fn expression_part(alloc: Global, words: &mut Words, nesting: usize) -> Result<Expr, Refusal> {
    if nesting == 0 {
        return Err(Refusal::Malformed);
    }
    let keyword = words.next()?;
    expression_by(alloc, keyword.as_str(), words, nesting - 1)
}

// The expression that begins with a word.
#[cycle(expressions)]
fn expression_by(
    alloc: Global,
    keyword: &str,
    words: &mut Words,
    nesting: usize,
) -> Result<Expr, Refusal> {
    match keyword {
        "int" => Ok(Expr::Int(words.integer()?)),
        "here" => path(alloc, words, Base::Here),
        "outer" => path(alloc, words, Base::Outer),
        "outermost" => path(alloc, words, Base::Outermost),
        "root" => Ok(Expr::Root(words.number()?)),
        "one" => Ok(Expr::One {
            op: operator(words)?,
            a: operand(alloc, words, nesting)?,
        }),
        "two" => Ok(Expr::Two {
            op: operator(words)?,
            a: operand(alloc, words, nesting)?,
            b: operand(alloc, words, nesting)?,
        }),
        "cond" => Ok(Expr::Cond {
            test: operand(alloc, words, nesting)?,
            yes: operand(alloc, words, nesting)?,
            no: operand(alloc, words, nesting)?,
        }),
        _ => Err(Refusal::Malformed),
    }
}

#[cycle(expressions)]
fn operand(alloc: Global, words: &mut Words, nesting: usize) -> Result<Boxed<Expr>, Refusal> {
    Ok(Boxed::new(alloc, expression_part(alloc, words, nesting)?)?)
}

// A path by how many names it has, and these.
fn path(alloc: Global, words: &mut Words, base: Base) -> Result<Expr, Refusal> {
    let count = words.number()?;
    let mut steps = List::new(alloc);
    for _ in 0..count {
        steps.push(words.next()?)?;
    }
    Ok(Expr::Path { base, steps })
}

fn operator(words: &mut Words) -> Result<Op, Refusal> {
    let word = words.next()?;
    operator_named(word.as_str())
}

fn operator_named(name: &str) -> Result<Op, Refusal> {
    match name {
        "neg" => Ok(Op::Neg),
        "not" => Ok(Op::Not),
        "add" => Ok(Op::Add),
        "sub" => Ok(Op::Sub),
        "mul" => Ok(Op::Mul),
        "lt" => Ok(Op::Lt),
        "le" => Ok(Op::Le),
        "gt" => Ok(Op::Gt),
        "ge" => Ok(Op::Ge),
        "eq" => Ok(Op::Eq),
        "ne" => Ok(Op::Ne),
        "and" => Ok(Op::And),
        "or" => Ok(Op::Or),
        _ => Err(Refusal::Malformed),
    }
}

/// An expression that may be absent.
pub fn optional(alloc: Global, words: &mut Words) -> Result<Option<Expr>, Refusal> {
    let keyword = words.next()?;
    match keyword.as_str() {
        "none" => Ok(None),
        "some" => some_expression(alloc, words),
        _ => Err(Refusal::Malformed),
    }
}

fn some_expression(alloc: Global, words: &mut Words) -> Result<Option<Expr>, Refusal> {
    Ok(Some(expression(alloc, words)?))
}

/// A type.
pub fn ty(alloc: Global, words: &mut Words) -> Result<Ty, Refusal> {
    type_part(alloc, words, MAX_NESTING)
}

#[cycle(types)]
fn type_part(alloc: Global, words: &mut Words, nesting: usize) -> Result<Ty, Refusal> {
    if nesting == 0 {
        return Err(Refusal::Malformed);
    }
    let keyword = words.next()?;
    type_by(alloc, keyword.as_str(), words, nesting - 1)
}

// The type that begins with a word.
#[cycle(types)]
fn type_by(alloc: Global, keyword: &str, words: &mut Words, nesting: usize) -> Result<Ty, Refusal> {
    match keyword {
        "num" => Ok(Ty::Num(scalar(words)?)),
        "bits" => bits(words),
        "opaque" => Ok(Ty::Opaque {
            size: words.number()?,
            align: words.number()?,
        }),
        "str" => Ok(Ty::Str(optional(alloc, words)?)),
        "ptr" => pointer(alloc, words),
        "node" => Ok(Ty::Node {
            id: TypeId(words.number()?),
            desc: optional(alloc, words)?,
        }),
        "arr" => Ok(Ty::Arr {
            n: words.number()?,
            elem: element(alloc, words, nesting)?,
        }),
        "tail" => Ok(Ty::Tail {
            len: expression(alloc, words)?,
            elem: element(alloc, words, nesting)?,
        }),
        _ => Err(Refusal::Malformed),
    }
}

#[cycle(types)]
fn element(alloc: Global, words: &mut Words, nesting: usize) -> Result<Boxed<Ty>, Refusal> {
    Ok(Boxed::new(alloc, type_part(alloc, words, nesting)?)?)
}

fn pointer(alloc: Global, words: &mut Words) -> Result<Ty, Refusal> {
    let target = target(words)?;
    let kind = kind(alloc, words)?;
    let (kind, reorder) = both(kind, words.truth())?;
    Ok(Ty::Ptr {
        target,
        kind,
        reorder,
    })
}

fn bits(words: &mut Words) -> Result<Ty, Refusal> {
    let unit = scalar(words)?;
    match u8::try_from(words.number()?) {
        Ok(count) => Ok(Ty::Bits { unit, count }),
        Err(_) => Err(Refusal::Malformed),
    }
}

fn target(words: &mut Words) -> Result<Option<Target>, Refusal> {
    let keyword = words.next()?;
    target_by(keyword.as_str(), words)
}

fn target_by(keyword: &str, words: &mut Words) -> Result<Option<Target>, Refusal> {
    match keyword {
        "none" => Ok(None),
        "node" => Ok(Some(Target::Node(TypeId(words.number()?)))),
        "pointers" => Ok(Some(Target::Pointers(TypeId(words.number()?)))),
        "strings" => Ok(Some(Target::Strings)),
        _ => Err(Refusal::Malformed),
    }
}

fn kind(alloc: Global, words: &mut Words) -> Result<PtrKind, Refusal> {
    let keyword = words.next()?;
    kind_by(alloc, keyword.as_str(), words)
}

fn kind_by(alloc: Global, keyword: &str, words: &mut Words) -> Result<PtrKind, Refusal> {
    match keyword {
        "plain" => Ok(PtrKind::Plain),
        "length" => Ok(PtrKind::Length(expression(alloc, words)?)),
        "atomic" => Ok(PtrKind::Atomic),
        "undef" => Ok(PtrKind::Undef),
        _ => Err(Refusal::Malformed),
    }
}

// A number: `bool`, or its bits with or without a sign.
fn scalar(words: &mut Words) -> Result<Scalar, Refusal> {
    let word = words.next()?;
    scalar_named(word.as_str())
}

fn scalar_named(name: &str) -> Result<Scalar, Refusal> {
    let (width, signed) = match name {
        "bool" => return Ok(Scalar::Bool),
        "int8" => (Width::W1, true),
        "uint8" => (Width::W1, false),
        "int16" => (Width::W2, true),
        "uint16" => (Width::W2, false),
        "int32" => (Width::W4, true),
        "uint32" => (Width::W4, false),
        "int64" => (Width::W8, true),
        "uint64" => (Width::W8, false),
        _ => return Err(Refusal::Malformed),
    };
    Ok(Scalar::Int { width, signed })
}
