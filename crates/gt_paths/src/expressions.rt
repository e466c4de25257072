// The operators, the paths and the roots of an expression.
ghost use Rattle.std.specs.Prelude.{◌≡◌, All, Any, []};
ghost use Rattle.std.specs.Bool.{Decides};
ghost use Rattle.gt_types.specs.Operators.{has_one_operand, HasOperators};
ghost use Rattle.gt_types.specs.Paths.{paths_of, roots_of, IsScalarRoot};
ghost use Rattle.gt_paths.specs.Steps.{NamesBase};

use crate::structures::is_number;
use gt_types::{Base, Expr, Op, Program};

fn has_one_operand(op: Op) -> bool
    ensures operand { result ≡ has_one_operand op }
{
    matches!(op, Op::Neg | Op::Not)
}

/// Whether each operator has as many operands as it takes.
pub fn has_operators(e: &Expr) -> bool
    ensures decides { Decides result (HasOperators e.now) }
{
    match e {
        Expr::Int(_) | Expr::Path { .. } | Expr::Root(_) => true,
        Expr::One { op, a } => has_one_operand(*op) && has_operators(a.get()),
        Expr::Two { op, a, b } => {
            !has_one_operand(*op) && has_operators(a.get()) && has_operators(b.get())
        }
        Expr::Cond { test, yes, no } => {
            has_operators(test.get()) && has_operators(yes.get()) && has_operators(no.get())
        }
    }
}

/// Whether an expression has no paths.
pub fn has_no_paths(e: &Expr) -> bool
    ensures { Decides result (paths_of e.now ≡ []) }
{
    match e {
        Expr::Int(_) | Expr::Root(_) => true,
        Expr::Path { .. } => false,
        Expr::One { a, .. } => has_no_paths(a.get()),
        Expr::Two { a, b, .. } => {
            if !has_no_paths(a.get()) {
                return false;
            }
            has_no_paths(b.get())
        }
        Expr::Cond { test, yes, no } => {
            if !has_no_paths(test.get()) {
                return false;
            }
            if !has_no_paths(yes.get()) {
                return false;
            }
            has_no_paths(no.get())
        }
    }
}

/// Whether an expression names no roots.
pub fn has_no_roots(e: &Expr) -> bool
    ensures { Decides result (roots_of e.now ≡ []) }
{
    match e {
        Expr::Int(_) | Expr::Path { .. } => true,
        Expr::Root(_) => false,
        Expr::One { a, .. } => has_no_roots(a.get()),
        Expr::Two { a, b, .. } => {
            if !has_no_roots(a.get()) {
                return false;
            }
            has_no_roots(b.get())
        }
        Expr::Cond { test, yes, no } => {
            if !has_no_roots(test.get()) {
                return false;
            }
            if !has_no_roots(yes.get()) {
                return false;
            }
            has_no_roots(no.get())
        }
    }
}

fn is_base(base: Base, other: Base) -> bool
    ensures { Decides result (base ≡ other) }
{
    base == other
}

/// Whether a path of an expression begins so.
pub fn names_base(e: &Expr, base: Base) -> bool
    ensures { Decides result (NamesBase base e.now) }
{
    match e {
        Expr::Int(_) | Expr::Root(_) => false,
        Expr::Path { base: other, .. } => is_base(*other, base),
        Expr::One { a, .. } => names_base(a.get(), base),
        Expr::Two { a, b, .. } => {
            if names_base(a.get(), base) {
                return true;
            }
            names_base(b.get(), base)
        }
        Expr::Cond { test, yes, no } => {
            if names_base(test.get(), base) {
                return true;
            }
            if names_base(yes.get(), base) {
                return true;
            }
            names_base(no.get(), base)
        }
    }
}

fn is_scalar_root(program: &Program, place: u32) -> bool
    ensures { Decides result (IsScalarRoot program.now place) }
{
    match program.roots.get(place as usize) {
        Some(r) => is_number(&r.ty),
        None => false,
    }
}

/// Whether each root that an expression names is a number.
pub fn all_roots_are_scalars(program: &Program, e: &Expr) -> bool
    ensures { Decides result (All (IsScalarRoot program.now) (roots_of e.now)) }
{
    match e {
        Expr::Int(_) | Expr::Path { .. } => true,
        Expr::Root(place) => is_scalar_root(program, *place),
        Expr::One { a, .. } => all_roots_are_scalars(program, a.get()),
        Expr::Two { a, b, .. } => {
            if !all_roots_are_scalars(program, a.get()) {
                return false;
            }
            all_roots_are_scalars(program, b.get())
        }
        Expr::Cond { test, yes, no } => {
            if !all_roots_are_scalars(program, test.get()) {
                return false;
            }
            if !all_roots_are_scalars(program, yes.get()) {
                return false;
            }
            all_roots_are_scalars(program, no.get())
        }
    }
}
