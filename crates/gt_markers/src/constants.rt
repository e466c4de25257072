// The values of parameters that are constant expressions.
ghost use Rattle.std.specs.Prelude.{◌≡◌, IfOk, None};
ghost use Rattle.gt_names.specs.Entries.{value_in};
ghost use Rattle.gt_drafts.specs.declared.draft.Draft.{Draft};
ghost use Rattle.gt_drafts.specs.Amounts as amounts;
ghost use Rattle.gt_markers.specs.Expressions.{constant_value, value_of_amount};
ghost use Rattle.gt_markers.specs.Lookups.{IsLookupOf};

use crate::lookups::Lookup;
use gt_expr::RawExpr;
use gt_items::Parameter;
use gt_types::{Base, Boxed, Expr, Reader, Word, eval};
use std::alloc::{AllocError, Global};

/// The value of a parameter that is a constant expression; None where it is none, where a name in it is no constant, and where
/// evaluating it overflows 64 bits. Its only error is out of memory.
pub fn constant_value(
    alloc: Global,
    lookup: &Lookup,
    parameter: &Parameter,
) -> Result<Option<i64>, AllocError>
    ensures value { IfOk result (λ v. (draft : Draft) → IsLookupOf draft lookup.now → v ≡ constant_value draft parameter.now) }
{
    match parameter {
        Parameter::Expression(tree) => tree_value(alloc, lookup, tree),
        _ => Ok(None),
    }
}

fn tree_value(alloc: Global, lookup: &Lookup, tree: &RawExpr) -> Result<Option<i64>, AllocError>
    ensures value { IfOk result (λ v. v ≡ value_of_amount (amounts.amount_of_tree (value_in lookup.now.constants) tree.now)) }
{
    if has_path(tree) {
        return Ok(None);
    }
    match with_values(alloc, lookup, tree)? {
        Some(expression) => Ok(value(&expression)),
        None => Ok(None),
    }
}

// The value of an expression without names and paths.
fn value(expression: &Expr) -> Option<i64>
    ensures { result ≡ amounts.constant_value expression.now }
{
    eval(expression, &NoPlaces)
}

// Whether a path stands in the expression.
fn has_path(tree: &RawExpr) -> bool
    ensures { result ≡ amounts.has_path tree.now }
{
    match tree {
        RawExpr::Int(_) | RawExpr::Named(_) => false,
        RawExpr::Path { .. } => true,
        RawExpr::One { a, .. } => has_path(a.get()),
        RawExpr::Two { a, b, .. } => has_path(a.get()) || has_path(b.get()),
        RawExpr::Cond { test, yes, no } => {
            has_path(test.get()) || has_path(yes.get()) || has_path(no.get())
        }
    }
}

// The expression with its constants replaced by their values, or None where a name is no constant or where a path stands in it.
fn with_values(alloc: Global, lookup: &Lookup, tree: &RawExpr) -> Result<Option<Expr>, AllocError>
    ensures { IfOk result (λ e. e ≡ amounts.with_values (value_in lookup.now.constants) tree.now) }
{
    match tree {
        RawExpr::Int(value) => Ok(Some(Expr::Int(*value))),
        RawExpr::Path { .. } => Ok(None),
        RawExpr::Named(name) => match lookup.constant(name) {
            Some(value) => Ok(Some(Expr::Int(value))),
            None => Ok(None),
        },
        RawExpr::One { op, a } => {
            let Some(a) = with_values(alloc, lookup, a.get())? else {
                return Ok(None);
            };
            let a = Boxed::new(alloc, a)?;
            Ok(Some(Expr::One { op: *op, a }))
        }
        RawExpr::Two { op, a, b } => {
            let Some(a) = with_values(alloc, lookup, a.get())? else {
                return Ok(None);
            };
            let Some(b) = with_values(alloc, lookup, b.get())? else {
                return Ok(None);
            };
            let a = Boxed::new(alloc, a)?;
            let b = Boxed::new(alloc, b)?;
            Ok(Some(Expr::Two { op: *op, a, b }))
        }
        RawExpr::Cond { test, yes, no } => {
            let Some(test) = with_values(alloc, lookup, test.get())? else {
                return Ok(None);
            };
            let Some(yes) = with_values(alloc, lookup, yes.get())? else {
                return Ok(None);
            };
            let Some(no) = with_values(alloc, lookup, no.get())? else {
                return Ok(None);
            };
            let test = Boxed::new(alloc, test)?;
            let yes = Boxed::new(alloc, yes)?;
            let no = Boxed::new(alloc, no)?;
            Ok(Some(Expr::Cond { test, yes, no }))
        }
    }
}

// An expression without paths and roots reads nothing.
struct NoPlaces;

impl Reader for NoPlaces {
    ghost leaf_of = { λ reader base steps. None };

    ghost root_of = { λ reader place. None };

    fn leaf(&self, _base: &Base, _steps: &[Word]) -> Option<i64> {
        None
    }

    fn root(&self, _place: u32) -> Option<i64> {
        None
    }
}
