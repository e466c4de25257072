// The text of an expression.
ghost use Rattle.std.specs.Prelude.{◌≡◌, [], ◌∷◌, ◌++◌, OnOk};
ghost use Rattle.gt_canon.specs.Expressions.{base_text, dotted, expression_text, operator_text};

use crate::lines::push_integer;
use crate::names::{push_name, push_root_name};
use gt_types::{Base, Bytes, Expr, Op, Program, Word};
use std::alloc::{AllocError, Global};

/// Adds an expression.
pub fn push_expression(
    alloc: Global,
    text: &mut Bytes,
    program: &Program,
    e: &Expr,
) -> Result<(), AllocError>
    ensures added { OnOk result (text.new ≡ text.old ++ expression_text program.now e.now) }
{
    match e {
        Expr::Int(n) => push_integer(alloc, text, *n),
        Expr::Path { base, steps } => {
            text.append(base_spelling(*base))?;
            push_steps(text, steps.as_slice())
        }
        Expr::Root(place) => {
            text.push(b'@')?;
            push_root_name(text, program, *place)
        }
        Expr::One { op, a } => {
            push_operator(text, spelling(*op))?;
            push_expression(alloc, text, program, a.get())?;
            text.push(b')')
        }
        Expr::Two { op, a, b } => {
            push_operator(text, spelling(*op))?;
            push_expression(alloc, text, program, a.get())?;
            text.push(b' ')?;
            push_expression(alloc, text, program, b.get())?;
            text.push(b')')
        }
        Expr::Cond { test, yes, no } => {
            push_operator(text, b"?")?;
            push_expression(alloc, text, program, test.get())?;
            text.push(b' ')?;
            push_expression(alloc, text, program, yes.get())?;
            text.push(b' ')?;
            push_expression(alloc, text, program, no.get())?;
            text.push(b')')
        }
    }
}

// Adds the operator of an expression in brackets, up to its first operand.
fn push_operator(text: &mut Bytes, operator: &[u8]) -> Result<(), AllocError>
    ensures added { OnOk result (text.new ≡ text.old ++ 40 ∷ (operator.now ++ 32 ∷ [])) }
{
    text.push(b'(')?;
    text.append(operator)?;
    text.push(b' ')
}

// Adds the names on a path, each after a dot.
fn push_steps(text: &mut Bytes, steps: &[Word]) -> Result<(), AllocError>
    ensures added { OnOk result (text.new ≡ text.old ++ dotted steps.now) }
{
    for step in steps {
        text.push(b'.')?;
        push_name(text, step)?;
    }
    Ok(())
}

fn base_spelling(base: Base) -> &'static [u8]
    ensures spelling { result.now ≡ base_text base }
{
    match base {
        Base::Here => b"%h",
        Base::Outer => b"%1",
        Base::Outermost => b"%0",
    }
}

fn spelling(op: Op) -> &'static [u8]
    ensures spelling { result.now ≡ operator_text op }
{
    match op {
        Op::Neg | Op::Sub => b"-",
        Op::Not => b"!",
        Op::Add => b"+",
        Op::Mul => b"*",
        Op::Lt => b"<",
        Op::Le => b"<=",
        Op::Gt => b">",
        Op::Ge => b">=",
        Op::Eq => b"==",
        Op::Ne => b"!=",
        Op::And => b"&&",
        Op::Or => b"||",
    }
}
