// The expressions of options, with their names looked up.
ghost use Rattle.std.specs.Prelude.{◌≡◌, IfOk, is_some};
ghost use Rattle.gt_drafts.specs.declared.draft.Draft.{Draft};
ghost use Rattle.gt_markers.specs.Expressions.{with_names, or_zero};
ghost use Rattle.gt_markers.specs.Lookups.{IsLookupOf};
ghost use Rattle.gt_markers.specs.NameScopes.{names_of, are_named};

use crate::lookups::Lookup;
use gt_expr::RawExpr;
use gt_types::{Boxed, Copied, Expr, Word};
use std::alloc::{AllocError, Global};

/// Which names count in an expression: in options of fields and structures constants, in options of roots also roots that are numbers.
#[derive(Clone, Copy, Debug, PartialEq, Eq)]
pub enum Scope {
    Fields,
    Roots,
}

impl Scope {
    // What a name alone stands for.
    fn expression_of_name(self, lookup: &Lookup, name: &Word) -> Option<Expr>
        ensures named { (draft : Draft) → IsLookupOf draft lookup.now → result ≡ names_of self draft name.now }
    {
        if let Some(value) = lookup.constant(name) {
            return Some(Expr::Int(value));
        }
        match self {
            Scope::Fields => None,
            Scope::Roots => lookup.root(name).map(Expr::Root),
        }
    }
}

// What a name alone stands for; where it stands for nothing, 0.
fn name_or_zero(lookup: &Lookup, scope: Scope, name: &Word) -> Expr
    ensures named { (draft : Draft) → IsLookupOf draft lookup.now → result ≡ or_zero (names_of scope draft name.now) }
{
    match scope.expression_of_name(lookup, name) {
        Some(expression) => expression,
        None => Expr::Int(0),
    }
}

/// The expression, with what its names stand for; one that stands for nothing counts as 0. Its only error is out of memory.
pub fn with_names(
    alloc: Global,
    lookup: &Lookup,
    scope: Scope,
    raw: &RawExpr,
) -> Result<Expr, AllocError>
    ensures expression { IfOk result (λ e. (draft : Draft) → IsLookupOf draft lookup.now → e ≡ with_names (names_of scope draft) raw.now) }
{
    match raw {
        RawExpr::Int(value) => Ok(Expr::Int(*value)),
        RawExpr::Path { base, steps } => Ok(Expr::Path {
            base: *base,
            steps: steps.copy(alloc)?,
        }),
        RawExpr::Named(name) => Ok(name_or_zero(lookup, scope, name)),
        RawExpr::One { op, a } => {
            let a = with_names(alloc, lookup, scope, a.get())?;
            Ok(Expr::One {
                op: *op,
                a: Boxed::new(alloc, a)?,
            })
        }
        RawExpr::Two { op, a, b } => {
            let a = with_names(alloc, lookup, scope, a.get())?;
            let b = with_names(alloc, lookup, scope, b.get())?;
            Ok(Expr::Two {
                op: *op,
                a: Boxed::new(alloc, a)?,
                b: Boxed::new(alloc, b)?,
            })
        }
        RawExpr::Cond { test, yes, no } => {
            let test = with_names(alloc, lookup, scope, test.get())?;
            let yes = with_names(alloc, lookup, scope, yes.get())?;
            let no = with_names(alloc, lookup, scope, no.get())?;
            Ok(Expr::Cond {
                test: Boxed::new(alloc, test)?,
                yes: Boxed::new(alloc, yes)?,
                no: Boxed::new(alloc, no)?,
            })
        }
    }
}

// Whether a name alone stands for something.
fn is_named(lookup: &Lookup, scope: Scope, name: &Word) -> bool
    ensures named { (draft : Draft) → IsLookupOf draft lookup.now → result ≡ is_some (names_of scope draft name.now) }
{
    scope.expression_of_name(lookup, name).is_some()
}

/// Whether all names alone in the expression stand for something.
pub fn are_named(lookup: &Lookup, scope: Scope, raw: &RawExpr) -> bool
    ensures named { (draft : Draft) → IsLookupOf draft lookup.now → result ≡ are_named (names_of scope draft) raw.now }
{
    match raw {
        RawExpr::Int(_) | RawExpr::Path { .. } => true,
        RawExpr::Named(name) => is_named(lookup, scope, name),
        RawExpr::One { a, .. } => are_named(lookup, scope, a.get()),
        RawExpr::Two { a, b, .. } => {
            are_named(lookup, scope, a.get()) && are_named(lookup, scope, b.get())
        }
        RawExpr::Cond { test, yes, no } => {
            are_named(lookup, scope, test.get())
                && are_named(lookup, scope, yes.get())
                && are_named(lookup, scope, no.get())
        }
    }
}
