// Writing one leaf of the static record.
ghost use Rattle.std.specs.Prelude.{◌≡◌, ◌↔◌, IsTrue, IfOk, Err, map};
ghost use Rattle.gt_types.specs.Settled.{Settled};
ghost use Rattle.gt_layout.specs.Planes.{IsLaidOut};
ghost use Rattle.gt_tree.specs.Trees.{Trees, Rec};
ghost use Rattle.gt_tree.specs.Fits.{AllFit, StaticsFit};
ghost use Rattle.gt_value.specs.Values.{trees, tree_of};
ghost use Rattle.gt_value.specs.declared.values.ValueFail.TheVariants.{Shape};
ghost use Rattle.gt_assign.specs.Pasts.{Whole, past_of};
ghost use Rattle.gt_fit.specs.Scoping.{scope_of};
ghost use Rattle.gt_assign.specs.Turning.{Gives, made, roots_made, record_made};
ghost use Rattle.gt_assign.specs.Changes.{Decides};
ghost use Rattle.gt_assign.specs.Results.{IsRecord, RecordFits, IsRecordAssigned, IsRecordMisfit, IsRecordWhereFit, NoneElseIsRecord, NoneIsRecord};

use crate::assigning::{MAX_NESTING, leads_to_leaf};
use crate::changes::{Change, Parts};
use crate::changing::change;
use crate::leaves::is_word;
use crate::making::Making;
use crate::parts::with_part;
use crate::seeing::Around;
use gt_fit::{Checking, Within, fits};
use gt_layout::Layouts;
use gt_types::{Program, Root};
use gt_value::{BlockNames, Value, ValueFail};
use std::alloc::Global;

// What becomes of the roots, one after another.
fn roots_change(
    on: &Making,
    roots: &[Root],
    parts: &[Value],
    around: &Around,
) -> Result<Change, ValueFail>
    requires settled { Settled on.now.program.now }
    ensures { Decides result (Rec (trees (map tree_of parts.now))) (roots_made (made on.now.program.now on.now.capacity 256) (past_of around.now) roots.now (Whole (Rec (trees (map tree_of parts.now))))) }
{
    if parts.len() != roots.len() {
        return Err(ValueFail::Shape);
    }
    let mut all = Parts::new(on.alloc, parts.len());
    for (i, part) in parts.iter().enumerate() {
        all.push(change(on, &roots[i].ty, part, around, MAX_NESTING)?)?;
    }
    Ok(all.finish())
}

// What the static record becomes, in which a leaf was replaced: mostly itself. Its expressions read the roots as they are there.
fn record_anew(
    alloc: Global,
    program: &Program,
    layouts: &Layouts,
    written: Value,
) -> Result<Value, ValueFail>
    requires settled { Settled program.now }
    requires laid { IsLaidOut program.now layouts.now }
    ensures { Gives result (record_made program.now 256 (tree_of written)) }
{
    let Value::Rec(parts) = &written else {
        return Err(ValueFail::Shape);
    };
    let parts = parts.as_slice();
    let around = Around {
        here: None,
        outer: None,
        outermost: None,
        roots: parts,
    };
    let on = Making {
        alloc,
        program,
        layouts,
        capacity: 0,
    };
    let change = roots_change(&on, program.roots.as_slice(), parts, &around)?;
    Ok(change.apply(alloc, written)?)
}

// Whether values fit these roots, one after another.
fn roots_fit<N: BlockNames>(
    parts: &[Value],
    roots: &[Root],
    on: &Checking<N>,
    within: &Within,
) -> bool
    requires settled { Settled on.now.program.now }
    ensures { IsTrue result ↔ AllFit on.now.program.now (N.blocks on.now.names.now) on.now.capacity (scope_of within.now) (map (λ r. r.ty) roots.now) (trees (map tree_of parts.now)) }
{
    if parts.len() != roots.len() {
        return false;
    }
    for (i, part) in parts.iter().enumerate() {
        if !fits(part, &roots[i].ty, on, within) {
            return false;
        }
    }
    true
}

// Whether a value is a record that fits the roots, which its expressions read.
fn record_fits<N: BlockNames>(
    program: &Program,
    layouts: &Layouts,
    value: &Value,
    names: &N,
) -> bool
    requires settled { Settled program.now }
    requires laid { IsLaidOut program.now layouts.now }
    ensures { IsTrue result ↔ RecordFits program.now (N.blocks names.now) (tree_of value.now) }
{
    let Value::Rec(parts) = value else {
        return false;
    };
    let parts = parts.as_slice();
    let within = Within {
        here: None,
        outer: None,
        outermost: None,
        roots: parts,
    };
    let on = Checking {
        program,
        layouts,
        names,
        capacity: 0,
    };
    roots_fit(parts, program.roots.as_slice(), &on, &within)
}

/// The one record that the static record can become where the leaf at a path is written, of which the first place is that of a
/// root. What its numbers and pointers are is not checked: where the record fits, it is what the write makes, and where it does
/// not, the write makes none. `Shape` says that the write makes none in any case: the path leads to no leaf, the new part is none,
/// or the record does not have the form of the roots.
pub fn reshape_statics(
    alloc: Global,
    program: &Program,
    layouts: &Layouts,
    values: Value,
    path: &[u32],
    leaf: Value,
) -> Result<Value, ValueFail>
    requires settled { Settled program.now }
    requires laid { IsLaidOut program.now layouts.now }
    requires roots { IsRecord (tree_of values) }
    ensures fits { IfOk result (λ v. IsRecordWhereFit program.now (tree_of values) path.now (tree_of leaf) (tree_of v)) }
    ensures misfit { IfOk result (λ v. NoneElseIsRecord program.now (tree_of values) path.now (tree_of leaf) (tree_of v)) }
    ensures shape { result ≡ Err Shape → NoneIsRecord program.now (tree_of values) path.now (tree_of leaf) }
{
    if !is_word(&leaf) || !leads_to_leaf(&values, path) {
        return Err(ValueFail::Shape);
    }
    let written = with_part(alloc, values, path, leaf)?;
    record_anew(alloc, program, layouts, written)
}

/// What the static record becomes where the leaf at a path is written, of which the first place is that of a root. A root may say
/// the length of another. `Shape` says that no record fits: the path leads to no leaf, the new leaf does not suit its place, or a
/// length says other than what a pointer names. A pointer that is written where no member of a union around it is active becomes
/// null.
pub fn assign_statics<N: BlockNames>(
    alloc: Global,
    program: &Program,
    layouts: &Layouts,
    values: Value,
    path: &[u32],
    leaf: Value,
    names: &N,
) -> Result<Value, ValueFail>
    requires settled { Settled program.now }
    requires laid { IsLaidOut program.now layouts.now }
    requires fits { (parts : Trees) × (tree_of values ≡ Rec parts) × StaticsFit program.now (N.blocks names.now) parts }
    ensures assigned { IfOk result (λ v. IsRecordAssigned program.now (N.blocks names.now) (tree_of values) path.now (tree_of leaf) (tree_of v)) }
    ensures shape { result ≡ Err Shape → IsRecordMisfit program.now (N.blocks names.now) (tree_of values) path.now (tree_of leaf) }
{
    let made = match reshape_statics(alloc, program, layouts, values, path, leaf) {
        Ok(made) => made,
        Err(fail) => return Err(fail),
    };
    if record_fits(program, layouts, &made, names) {
        Ok(made)
    } else {
        Err(ValueFail::Shape)
    }
}
