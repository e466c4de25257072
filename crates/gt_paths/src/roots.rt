// What the expressions of the options of roots may read.
ghost use Rattle.std.specs.Prelude.{◌≡◌, All};
ghost use Rattle.std.specs.Bool.{Decides};
ghost use Rattle.gt_types.specs.declared.expressions.Base.TheVariants.{Here};
ghost use Rattle.gt_types.specs.Paths.{IsRootCount, IsRootDesc, LeadsToNumber, Way, paths_of};
ghost use Rattle.gt_paths.specs.Indexes.{IsIndexOn};
ghost use Rattle.gt_paths.specs.Places.{RootPathFits};

use crate::expressions::{all_roots_are_scalars, has_no_paths, has_operators};
use crate::indexes::PathIndex;
use crate::steps::leads_to_number;
use gt_types::{Base, Expr, Program, TypeId, Word};

fn path_fits(
    program: &Program,
    index: &PathIndex,
    union: TypeId,
    base: Base,
    steps: &[Word],
) -> bool
    requires index { IsIndexOn program.now index.now }
    ensures { Decides result (RootPathFits program.now union base steps.now) }
{
    if base != Base::Here {
        return false;
    }
    leads_to_number(program, index, union, steps)
}

fn all_paths_fit(program: &Program, index: &PathIndex, union: TypeId, e: &Expr) -> bool
    requires index { IsIndexOn program.now index.now }
    ensures { Decides result (All (λ (path : Way). RootPathFits program.now union path.0 path.1) (paths_of e.now)) }
{
    match e {
        Expr::Int(_) | Expr::Root(_) => true,
        Expr::Path { base, steps } => path_fits(program, index, union, *base, steps.as_slice()),
        Expr::One { a, .. } => all_paths_fit(program, index, union, a.get()),
        Expr::Two { a, b, .. } => {
            if !all_paths_fit(program, index, union, a.get()) {
                return false;
            }
            all_paths_fit(program, index, union, b.get())
        }
        Expr::Cond { test, yes, no } => {
            if !all_paths_fit(program, index, union, test.get()) {
                return false;
            }
            if !all_paths_fit(program, index, union, yes.get()) {
                return false;
            }
            all_paths_fit(program, index, union, no.get())
        }
    }
}

/// Whether an expression is good as the length of a root.
pub fn is_root_count(program: &Program, e: &Expr) -> bool
    ensures decides { Decides result (IsRootCount program.now e.now) }
{
    if !has_operators(e) {
        return false;
    }
    if !all_roots_are_scalars(program, e) {
        return false;
    }
    has_no_paths(e)
}

/// Whether an expression is good as the `desc` of a root that holds a union.
pub fn is_root_desc(program: &Program, index: &PathIndex, union: TypeId, e: &Expr) -> bool
    requires index { IsIndexOn program.now index.now }
    ensures decides { Decides result (IsRootDesc program.now union e.now) }
{
    if !has_operators(e) {
        return false;
    }
    if !all_roots_are_scalars(program, e) {
        return false;
    }
    all_paths_fit(program, index, union, e)
}
