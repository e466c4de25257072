// Copies of what the headers say, since a draft outlives the items that it is made from.
ghost use Rattle.std.specs.Prelude.{◌≡◌, IfOk};

use gt_expr::RawExpr;
use gt_items::{Name, Parameter, RawOption};
use gt_types::{Boxed, Copied, List};
use std::alloc::{AllocError, Global};

/// A copy of a name with its place.
pub fn name_copy(alloc: Global, name: &Name) -> Result<Name, AllocError>
    ensures same { IfOk result (λ made. made ≡ name.now) }
{
    Ok(Name {
        word: name.word.copy(alloc)?,
        at: name.at,
    })
}

/// A copy of an expression.
pub fn expression_copy(alloc: Global, tree: &RawExpr) -> Result<RawExpr, AllocError>
    ensures same { IfOk result (λ made. made ≡ tree.now) }
{
    match tree {
        RawExpr::Int(value) => Ok(RawExpr::Int(*value)),
        RawExpr::Path { base, steps } => Ok(RawExpr::Path {
            base: *base,
            steps: steps.copy(alloc)?,
        }),
        RawExpr::Named(word) => Ok(RawExpr::Named(word.copy(alloc)?)),
        RawExpr::One { op, a } => Ok(RawExpr::One {
            op: *op,
            a: Boxed::new(alloc, expression_copy(alloc, a.get())?)?,
        }),
        RawExpr::Two { op, a, b } => Ok(RawExpr::Two {
            op: *op,
            a: Boxed::new(alloc, expression_copy(alloc, a.get())?)?,
            b: Boxed::new(alloc, expression_copy(alloc, b.get())?)?,
        }),
        RawExpr::Cond { test, yes, no } => Ok(RawExpr::Cond {
            test: Boxed::new(alloc, expression_copy(alloc, test.get())?)?,
            yes: Boxed::new(alloc, expression_copy(alloc, yes.get())?)?,
            no: Boxed::new(alloc, expression_copy(alloc, no.get())?)?,
        }),
    }
}

/// A copy of an option's parameter.
pub fn parameter_copy(alloc: Global, parameter: &Parameter) -> Result<Parameter, AllocError>
    ensures same { IfOk result (λ made. made ≡ parameter.now) }
{
    match parameter {
        Parameter::Absent => Ok(Parameter::Absent),
        Parameter::Expression(tree) => Ok(Parameter::Expression(expression_copy(alloc, tree)?)),
        Parameter::Text(text) => Ok(Parameter::Text(text.copy(alloc)?)),
    }
}

/// A copy of an option.
pub fn option_copy(alloc: Global, option: &RawOption) -> Result<RawOption, AllocError>
    ensures same { IfOk result (λ made. made ≡ option.now) }
{
    Ok(RawOption {
        name: name_copy(alloc, &option.name)?,
        parameter: parameter_copy(alloc, &option.parameter)?,
    })
}

/// A copy of options.
pub fn options_copy(alloc: Global, options: &List<RawOption>) -> Result<List<RawOption>, AllocError>
    ensures same { IfOk result (λ made. made ≡ options.now) }
{
    let mut made = Vec::new(alloc);
    for option in options.as_slice() {
        made.push(option_copy(alloc, option)?)?;
    }
    Ok(List::of(made))
}
