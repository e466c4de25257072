// The expression of an option, as it is written.
use crate::line::{Line, names};
use crate::refusal::Refusal;
use gt_types::{Base, Boxed, Expr, List, Op, TypeId, Word};
use std::alloc::Global;

/// How many parts of an expression or of a type may stand in one another.
pub const MAX_NESTING: usize = 16;

/// The names of the structures and of the roots, each list in the order of declaration.
#[derive(Drop)]
pub struct Names {
    pub structures: Vec<Word>,
    pub roots: Vec<Word>,
}

impl Names {
    /// The structure that the next word names.
    pub fn structure(&self, line: &mut Line) -> Result<TypeId, Refusal> {
        let name = line.next()?;
        Ok(TypeId(place(&self.structures, name.as_str())?))
    }
}

// The place of the first name that is this one, or the place after the last name.
fn place(names: &[Word], name: &str) -> Result<u32, Refusal> {
    for (place, other) in names.iter().enumerate() {
        if other.as_str() == name {
            return number_of(place);
        }
    }
    number_of(names.len())
}

fn number_of(place: usize) -> Result<u32, Refusal> {
    match u32::try_from(place) {
        Ok(number) => Ok(number),
        Err(_) => Err(Refusal::BadNumber),
    }
}

/// The expression that stands next.
pub fn expression(alloc: Global, known: &Names, line: &mut Line) -> Result<Expr, Refusal> {
    part(alloc, known, line, MAX_NESTING)
}

#[cycle(reading)]
fn part(alloc: Global, known: &Names, line: &mut Line, nesting: usize) -> Result<Expr, Refusal> {
    if nesting == 0 {
        return Err(Refusal::TooDeep);
    }
    let word = line.next()?;
    match word.as_str() {
        "(" => operation(alloc, known, line, nesting - 1),
        text => leaf(alloc, known, text),
    }
}

// An operator and its operands, after the bracket.
#[cycle(reading)]
fn operation(
    alloc: Global,
    known: &Names,
    line: &mut Line,
    nesting: usize,
) -> Result<Expr, Refusal> {
    let symbol = line.next()?;
    let a = operand(alloc, known, line, nesting)?;
    if line.takes(")") {
        let op = operator(symbol.as_str(), 1)?;
        return Ok(Expr::One { op, a });
    }
    let b = operand(alloc, known, line, nesting)?;
    if line.takes(")") {
        let op = operator(symbol.as_str(), 2)?;
        return Ok(Expr::Two { op, a, b });
    }
    let no = operand(alloc, known, line, nesting)?;
    if symbol.as_str() == "?" && line.takes(")") {
        return Ok(Expr::Cond {
            test: a,
            yes: b,
            no,
        });
    }
    Err(Refusal::UnknownWord)
}

#[cycle(reading)]
fn operand(
    alloc: Global,
    known: &Names,
    line: &mut Line,
    nesting: usize,
) -> Result<Boxed<Expr>, Refusal> {
    Ok(Boxed::new(alloc, part(alloc, known, line, nesting)?)?)
}

// An operator by its symbol and its number of operands, of which only `-` has two meanings.
fn operator(symbol: &str, operands: usize) -> Result<Op, Refusal> {
    match symbol {
        "-" => Ok(if operands == 1 { Op::Neg } else { Op::Sub }),
        "!" => Ok(Op::Not),
        "+" => Ok(Op::Add),
        "*" => Ok(Op::Mul),
        "<" => Ok(Op::Lt),
        "<=" => Ok(Op::Le),
        ">" => Ok(Op::Gt),
        ">=" => Ok(Op::Ge),
        "==" => Ok(Op::Eq),
        "!=" => Ok(Op::Ne),
        "&&" => Ok(Op::And),
        "||" => Ok(Op::Or),
        _ => Err(Refusal::UnknownWord),
    }
}

// An integer, a path or a root.
fn leaf(alloc: Global, known: &Names, text: &str) -> Result<Expr, Refusal> {
    if let Some(steps) = text.strip_prefix("%h") {
        return path(alloc, Base::Here, steps);
    }
    if let Some(steps) = text.strip_prefix("%1") {
        return path(alloc, Base::Outer, steps);
    }
    if let Some(steps) = text.strip_prefix("%0") {
        return path(alloc, Base::Outermost, steps);
    }
    if let Some(name) = text.strip_prefix("@") {
        return Ok(Expr::Root(place(&known.roots, name)?));
    }
    match text.parse::<i64>() {
        Ok(value) => Ok(Expr::Int(value)),
        Err(_) => Err(Refusal::BadNumber),
    }
}

// A path by what stands after its base: nothing, or a dot and names.
fn path(alloc: Global, base: Base, text: &str) -> Result<Expr, Refusal> {
    if text.is_empty() {
        let steps = List::new(alloc);
        return Ok(Expr::Path { base, steps });
    }
    match text.strip_prefix(".") {
        None => Err(Refusal::UnknownWord),
        Some(text) => {
            let steps = names(alloc, text)?;
            Ok(Expr::Path { base, steps })
        }
    }
}
