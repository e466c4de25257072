// Writing one leaf.
ghost use Rattle.std.specs.Prelude.{◌≡◌, ◌↔◌, IsTrue, IfOk, Err};
ghost use Rattle.gt_types.specs.Settled.{Settled};
ghost use Rattle.gt_layout.specs.Planes.{IsLaidOut};
ghost use Rattle.gt_tree.specs.Trees.{End, part_at};
ghost use Rattle.gt_tree.specs.Scopes.{outside};
ghost use Rattle.gt_tree.specs.Fits.{Fits};
ghost use Rattle.gt_value.specs.Values.{tree_of};
ghost use Rattle.gt_value.specs.Bytes.{IsElement};
ghost use Rattle.gt_value.specs.declared.values.ValueFail.TheVariants.{Shape};
ghost use Rattle.gt_assign.specs.Checks.{is_word_there};
ghost use Rattle.gt_assign.specs.Pasts.{Whole, past_outside};
ghost use Rattle.gt_assign.specs.Turning.{Gives, made};
ghost use Rattle.gt_assign.specs.Results.{FitsBeside, IsAssigned, IsMisfit, IsMadeWhereFit, NoneElseIsMade, NoneIsMade};

use crate::changing::change;
use crate::leaves::is_word;
use crate::making::Making;
use crate::parts::{part_at, with_part};
use crate::seeing::Around;
use gt_fit::{Checking, Within, fits};
use gt_layout::Layouts;
use gt_types::{Program, Ty};
use gt_value::{BlockNames, Value, ValueFail};
use std::alloc::Global;

/// How deep the parts of a type of a program nest at most: structures in one another, with the fields and the dimensions between them.
pub const MAX_NESTING: usize = 256;

/// Whether a path leads to a leaf that can be written.
pub fn leads_to_leaf(value: &Value, path: &[u32]) -> bool
    ensures { result ≡ is_word_there (part_at (tree_of value.now) path.now) }
{
    match part_at(value, path) {
        None => false,
        Some(part) => is_word(part),
    }
}

// What a value of an element of a block becomes, in which a leaf was replaced: mostly itself.
fn make_anew(
    alloc: Global,
    program: &Program,
    layouts: &Layouts,
    ty: &Ty,
    capacity: u32,
    old: Value,
) -> Result<Value, ValueFail>
    requires settled { Settled program.now }
    requires laid { IsLaidOut program.now layouts.now }
    ensures { Gives result (made program.now capacity 256 (past_outside End) ty.now (Whole (tree_of old))) }
{
    let around = Around {
        here: None,
        outer: None,
        outermost: None,
        roots: &[],
    };
    let on = Making {
        alloc,
        program,
        layouts,
        capacity,
    };
    let change = change(&on, ty, &old, &around, MAX_NESTING)?;
    Ok(change.apply(alloc, old)?)
}

// Whether a value fits an element of a block, where no structure is around it. Its expressions read no roots.
fn fits_outside<N: BlockNames>(
    program: &Program,
    layouts: &Layouts,
    ty: &Ty,
    capacity: u32,
    value: &Value,
    names: &N,
) -> bool
    requires settled { Settled program.now }
    requires laid { IsLaidOut program.now layouts.now }
    ensures { IsTrue result ↔ Fits program.now (N.blocks names.now) capacity (outside End) ty.now (tree_of value.now) }
{
    let around = Within {
        here: None,
        outer: None,
        outermost: None,
        roots: &[],
    };
    let on = Checking {
        program,
        layouts,
        names,
        capacity,
    };
    fits(value, ty, &on, &around)
}

/// The one value that an element of a block can become, with room for so many elements at its end, where the leaf at a path is
/// written: places of fields, of the active member and of elements, from the outside in. What its numbers and pointers are is not
/// checked: where the value fits, it is what the write makes, and where it does not, the write makes none. `Shape` says that the
/// write makes none in any case: the path leads to no leaf, the new part is none, or a length says more than there is room for.
pub fn reshape(
    alloc: Global,
    program: &Program,
    layouts: &Layouts,
    ty: &Ty,
    capacity: u32,
    value: Value,
    path: &[u32],
    leaf: Value,
) -> Result<Value, ValueFail>
    requires settled { Settled program.now }
    requires laid { IsLaidOut program.now layouts.now }
    requires element { IsElement program.now ty.now }
    ensures fits { IfOk result (λ v. IsMadeWhereFit program.now capacity ty.now (tree_of value) path.now (tree_of leaf) (tree_of v)) }
    ensures misfit { IfOk result (λ v. NoneElseIsMade program.now capacity ty.now (tree_of value) path.now (tree_of leaf) (tree_of v)) }
    ensures shape { result ≡ Err Shape → NoneIsMade program.now capacity ty.now (tree_of value) path.now (tree_of leaf) }
{
    if !is_word(&leaf) || !leads_to_leaf(&value, path) {
        return Err(ValueFail::Shape);
    }
    let old = with_part(alloc, value, path, leaf)?;
    make_anew(alloc, program, layouts, ty, capacity, old)
}

/// The value that an element of a block becomes, with room for so many elements at its end, where the leaf at a path is written:
/// places of fields, of the active member and of elements, from the outside in. `Shape` says that no value fits: the path leads
/// to no leaf, the new leaf does not suit its place, or a length says more than there is room for or other than what a pointer names.
/// A pointer that is written where no member of a union around it is active becomes null.
pub fn assign<N: BlockNames>(
    alloc: Global,
    program: &Program,
    layouts: &Layouts,
    ty: &Ty,
    capacity: u32,
    value: Value,
    path: &[u32],
    leaf: Value,
    names: &N,
) -> Result<Value, ValueFail>
    requires settled { Settled program.now }
    requires laid { IsLaidOut program.now layouts.now }
    requires element { IsElement program.now ty.now }
    requires fits { FitsBeside program.now (N.blocks names.now) capacity ty.now (tree_of value) }
    ensures assigned { IfOk result (λ v. IsAssigned program.now (N.blocks names.now) capacity ty.now (tree_of value) path.now (tree_of leaf) (tree_of v)) }
    ensures shape { result ≡ Err Shape → IsMisfit program.now (N.blocks names.now) capacity ty.now (tree_of value) path.now (tree_of leaf) }
{
    let made = match reshape(alloc, program, layouts, ty, capacity, value, path, leaf) {
        Ok(made) => made,
        Err(fail) => return Err(fail),
    };
    if fits_outside(program, layouts, ty, capacity, &made, names) {
        Ok(made)
    } else {
        Err(ValueFail::Shape)
    }
}
