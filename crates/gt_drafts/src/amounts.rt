// What the texts of bounds, of bit counts and of an enum's constants come to.
ghost use Rattle.std.specs.Prelude.{◌≡◌, ℕ, ℤ, List, Option, None, IfOk};
ghost use Rattle.std.specs.Option.{option_map_or};
ghost use Rattle.gt_drafts.specs.declared.types.Amount.TheVariants.{Is, NoValue};
ghost use Rattle.gt_drafts.specs.Amounts.{has_path, with_values, constant_value, amount_of_tree, amount_of};

use crate::Amount;
use gt_expr::{RawExpr, read};
use gt_types::{Base, Boxed, Expr, Reader, Stop, Word, eval};
use std::alloc::{AllocError, Global};

/// The values of names.
pub trait Values {
    /// What each name is worth, where it has a value.
    ghost value_of: { Self → List ℕ → Option ℤ };

    /// The value of a name.
    fn value(&self, name: &Word) -> Option<i64>
        ensures worth { result ≡ value_of self.now name.now };
}

/// What a text comes to by these values of names. Its only error is out of memory.
#[tactic(auto, unfolding(crate::specs::Amounts::amount_of))]
pub fn amount<V: Values>(alloc: Global, values: &V, text: &[u8]) -> Result<Amount, AllocError>
    ensures { IfOk result (λ a. a ≡ amount_of (V.value_of values.now) text.now) }
{
    match read(alloc, 0, 0, text) {
        Ok(tree) => tree_amount(alloc, values, &tree),
        Err(Stop::Memory) => Err(AllocError),
        Err(Stop::At(_)) => Ok(Amount::NoExpression),
    }
}

fn tree_amount<V: Values>(alloc: Global, values: &V, tree: &RawExpr) -> Result<Amount, AllocError>
    ensures { IfOk result (λ a. a ≡ amount_of_tree (V.value_of values.now) tree.now) }
{
    if has_path(tree) {
        return Ok(Amount::NoExpression);
    }
    match with_values(alloc, values, tree)? {
        Some(expression) => Ok(value_amount(&expression)),
        None => Ok(Amount::Undefined),
    }
}

// What an expression without names comes to.
fn value_amount(expression: &Expr) -> Amount
    ensures { result ≡ option_map_or Is (constant_value expression.now) NoValue }
{
    match eval(expression, &NoPlaces) {
        Some(value) => Amount::Is(value),
        None => Amount::NoValue,
    }
}

// Whether a path stands in the expression.
fn has_path(tree: &RawExpr) -> bool
    ensures { result ≡ has_path tree.now }
{
    match tree {
        RawExpr::Int(_) | RawExpr::Named(_) => false,
        RawExpr::Path { .. } => true,
        RawExpr::One { a, .. } => has_path(a.get()),
        RawExpr::Two { a, b, .. } => has_path(a.get()) || has_path(b.get()),
        RawExpr::Cond { test, yes, no } => {
            has_path(test.get()) || has_path(yes.get()) || has_path(no.get())
        }
    }
}

// The expression with its names replaced by their values, or None where one has no value or where a path stands in it.
fn with_values<V: Values>(
    alloc: Global,
    values: &V,
    tree: &RawExpr,
) -> Result<Option<Expr>, AllocError>
    ensures { IfOk result (λ e. e ≡ with_values (V.value_of values.now) tree.now) }
{
    match tree {
        RawExpr::Int(value) => Ok(Some(Expr::Int(*value))),
        RawExpr::Path { .. } => Ok(None),
        RawExpr::Named(name) => match values.value(name) {
            Some(value) => Ok(Some(Expr::Int(value))),
            None => Ok(None),
        },
        RawExpr::One { op, a } => {
            let Some(a) = with_values(alloc, values, a.get())? else {
                return Ok(None);
            };
            let a = Boxed::new(alloc, a)?;
            Ok(Some(Expr::One { op: *op, a }))
        }
        RawExpr::Two { op, a, b } => {
            let Some(a) = with_values(alloc, values, a.get())? else {
                return Ok(None);
            };
            let Some(b) = with_values(alloc, values, b.get())? else {
                return Ok(None);
            };
            let a = Boxed::new(alloc, a)?;
            let b = Boxed::new(alloc, b)?;
            Ok(Some(Expr::Two { op: *op, a, b }))
        }
        RawExpr::Cond { test, yes, no } => {
            let Some(test) = with_values(alloc, values, test.get())? else {
                return Ok(None);
            };
            let Some(yes) = with_values(alloc, values, yes.get())? else {
                return Ok(None);
            };
            let Some(no) = with_values(alloc, values, no.get())? else {
                return Ok(None);
            };
            let test = Boxed::new(alloc, test)?;
            let yes = Boxed::new(alloc, yes)?;
            let no = Boxed::new(alloc, no)?;
            Ok(Some(Expr::Cond { test, yes, no }))
        }
    }
}

// An expression without paths and roots reads nothing.
struct NoPlaces;

impl Reader for NoPlaces {
    ghost leaf_of = { λ reader base steps. None };

    ghost root_of = { λ reader place. None };

    fn leaf(&self, _base: &Base, _steps: &[Word]) -> Option<i64> {
        None
    }

    fn root(&self, _place: u32) -> Option<i64> {
        None
    }
}
