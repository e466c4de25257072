// The paths of expressions, with the structures at which they begin.
ghost use Rattle.gt_leaf.specs.Seeking.{same_base, Gains, IsOne, PathsOf, PathsOfSome, PathsOfCounts, PathsOfOwn, PathsOfDescs, PathsOfUnion, PathsOfUnions, PathsOfRoots, PathsInside, PathsOutermost, PathsOfAll, AllInside, AllOutermost};
ghost use Rattle.gt_paths.specs.Containers.{AreContainersOf};
ghost use Rattle.gt_paths.specs.Outers.{AreOutersOf};
ghost use Rattle.gt_sets.specs.Sets.{IsIn};
ghost use Rattle.gt_starts.specs.Paths.{BeginsIn};
ghost use Rattle.gt_types.specs.Shapes.{innermost};
ghost use Rattle.gt_types.specs.declared.expressions.Base.TheVariants.{Here, Outermost};
ghost use Rattle.gt_types.specs.declared.limits.TheConstants.{MAX_STRUCTURES as MOST};
ghost use Rattle.std.specs.Prelude.{◌≡◌, ◌≤◌, ◌↔◌, ℕ, List, IfOk, OnOk, length, option_copied};

use crate::begins::{containers_of, only, outers_of};
use crate::types::{count_of, desc_in, innermost};
use gt_paths::{Containers, Outers};
use gt_sets::StructureSet;
use gt_starts::PathSet;
use gt_types::{Base, Expr, Field, Program, Root, Structure, Ty, TypeId};
use std::alloc::{AllocError, Global};
use std::rc::Rc;

fn is_same(a: Base, b: Base) -> bool
    ensures { result ≡ same_base a b }
{
    match a {
        Base::Here => matches!(b, Base::Here),
        Base::Outer => matches!(b, Base::Outer),
        Base::Outermost => matches!(b, Base::Outermost),
    }
}

// Adds the paths of an expression from a base, which begin at each of these structures.
fn add_expr(
    paths: &mut PathSet,
    base: Base,
    begins: &Rc<StructureSet>,
    e: &Expr,
) -> Result<(), AllocError>
    ensures added { OnOk result (Gains (BeginsIn paths.old) (BeginsIn paths.new) (PathsOf base (IsIn begins.now.value) e.now)) }
{
    match e {
        Expr::Int(_) | Expr::Root(_) => Ok(()),
        Expr::Path { base: own, steps } => {
            if is_same(*own, base) {
                paths.add(steps.as_slice(), begins)
            } else {
                Ok(())
            }
        }
        Expr::One { a, .. } => add_expr(paths, base, begins, a.get()),
        Expr::Two { a, b, .. } => {
            add_expr(paths, base, begins, a.get())?;
            add_expr(paths, base, begins, b.get())
        }
        Expr::Cond { test, yes, no } => {
            add_expr(paths, base, begins, test.get())?;
            add_expr(paths, base, begins, yes.get())?;
            add_expr(paths, base, begins, no.get())
        }
    }
}

fn add_option(
    paths: &mut PathSet,
    base: Base,
    begins: &Rc<StructureSet>,
    e: Option<&Expr>,
) -> Result<(), AllocError>
    ensures added { OnOk result (Gains (BeginsIn paths.old) (BeginsIn paths.new) (PathsOfSome base (IsIn begins.now.value) (option_copied e.entry))) }
{
    match e {
        Some(e) => add_expr(paths, base, begins, e),
        None => Ok(()),
    }
}

// Those of the lengths of fields.
fn add_counts(
    paths: &mut PathSet,
    base: Base,
    begins: &Rc<StructureSet>,
    fields: &[Field],
) -> Result<(), AllocError>
    ensures added { OnOk result (Gains (BeginsIn paths.old) (BeginsIn paths.new) (PathsOfCounts base (IsIn begins.now.value) fields.now)) }
{
    for f in fields {
        add_option(paths, base, begins, count_of(&f.ty))?;
    }
    Ok(())
}

// Those of the lengths of a structure's fields, and of its own `desc`.
fn add_own(
    paths: &mut PathSet,
    base: Base,
    begins: &Rc<StructureSet>,
    s: &Structure,
) -> Result<(), AllocError>
    ensures added { OnOk result (Gains (BeginsIn paths.old) (BeginsIn paths.new) (PathsOfOwn base (IsIn begins.now.value) s.now)) }
{
    add_counts(paths, base, begins, s.fields.as_slice())?;
    add_option(paths, base, begins, s.desc.as_ref())
}

// Those of the `desc` of fields that hold unions.
fn add_descs(
    paths: &mut PathSet,
    base: Base,
    begins: &Rc<StructureSet>,
    fields: &[Field],
) -> Result<(), AllocError>
    ensures added { OnOk result (Gains (BeginsIn paths.old) (BeginsIn paths.new) (PathsOfDescs base (IsIn begins.now.value) fields.now)) }
{
    for f in fields {
        add_option(paths, base, begins, desc_in(&f.ty))?;
    }
    Ok(())
}

// Those of the `desc` of a union, which begin at the union.
fn add_at(
    paths: &mut PathSet,
    alloc: Global,
    base: Base,
    union: TypeId,
    desc: Option<&Expr>,
) -> Result<(), AllocError>
    ensures added { OnOk result (Gains (BeginsIn paths.old) (BeginsIn paths.new) (PathsOfSome base (IsOne union.0) (option_copied desc.entry))) }
{
    match desc {
        Some(desc) => {
            let begins = only(alloc, union.0)?;
            add_expr(paths, base, &begins, desc)
        }
        None => Ok(()),
    }
}

// So for the `desc` that a type gives to a union.
fn add_union(paths: &mut PathSet, alloc: Global, base: Base, ty: &Ty) -> Result<(), AllocError>
    ensures added { OnOk result (Gains (BeginsIn paths.old) (BeginsIn paths.new) (PathsOfUnion base (innermost ty.now))) }
{
    match innermost(ty) {
        Ty::Node { id, desc } => add_at(paths, alloc, base, *id, desc.as_ref()),
        _ => Ok(()),
    }
}

// So for fields.
fn add_unions(paths: &mut PathSet, alloc: Global, fields: &[Field]) -> Result<(), AllocError>
    ensures added { OnOk result (Gains (BeginsIn paths.old) (BeginsIn paths.new) (PathsOfUnions Here fields.now)) }
{
    for f in fields {
        add_union(paths, alloc, Base::Here, &f.ty)?;
    }
    Ok(())
}

// So for roots.
fn add_roots(
    paths: &mut PathSet,
    alloc: Global,
    base: Base,
    roots: &[Root],
) -> Result<(), AllocError>
    ensures added { OnOk result (Gains (BeginsIn paths.old) (BeginsIn paths.new) (PathsOfRoots base roots.now)) }
{
    for r in roots {
        add_union(paths, alloc, base, &r.ty)?;
    }
    Ok(())
}

// The paths from `%h` and `%1` of the expressions in a structure.
fn add_structure(
    paths: &mut PathSet,
    alloc: Global,
    program: &Program,
    containers: &Containers,
    node: u32,
    s: &Structure,
) -> Result<(), AllocError>
    requires containers { AreContainersOf program.now containers.now }
    ensures added { OnOk result (Gains (BeginsIn paths.old) (BeginsIn paths.new) (PathsInside program.now node s.now)) }
{
    let here = only(alloc, node)?;
    add_own(paths, Base::Here, &here, s)?;
    add_descs(paths, Base::Outer, &here, s.fields.as_slice())?;
    add_unions(paths, alloc, s.fields.as_slice())?;
    let outers = containers_of(alloc, program, containers, node)?;
    add_counts(paths, Base::Outer, &outers, s.fields.as_slice())
}

fn add_structures(
    paths: &mut PathSet,
    alloc: Global,
    program: &Program,
    containers: &Containers,
) -> Result<(), AllocError>
    requires few { length program.now.structures ≤ MOST }
    requires containers { AreContainersOf program.now containers.now }
    ensures added { OnOk result (Gains (BeginsIn paths.old) (BeginsIn paths.new) (PathsOfAll (PathsInside program.now) program.now.structures)) }
{
    for (node, s) in program.structures.as_slice().iter().enumerate() {
        add_structure(paths, alloc, program, containers, node as u32, s)?;
    }
    Ok(())
}

// Those from `%h` and `%1` of all expressions of a program.
fn add_inside(
    paths: &mut PathSet,
    alloc: Global,
    program: &Program,
    containers: &Containers,
) -> Result<(), AllocError>
    requires few { length program.now.structures ≤ MOST }
    requires containers { AreContainersOf program.now containers.now }
    ensures added { OnOk result (Gains (BeginsIn paths.old) (BeginsIn paths.new) (AllInside program.now)) }
{
    add_structures(paths, alloc, program, containers)?;
    add_roots(paths, alloc, Base::Here, program.roots.as_slice())
}

/// The paths from `%h` and `%1` of all expressions of a program, with the structures at which they begin. Its time is linear in the
/// program's size. Its only error is out of memory.
pub fn paths_inside(
    alloc: Global,
    program: &Program,
    containers: &Containers,
) -> Result<PathSet, AllocError>
    requires few { length program.now.structures ≤ MOST }
    requires containers { AreContainersOf program.now containers.now }
    ensures paths { IfOk result (λ p. (names : List (List ℕ)) (begin : ℕ) → BeginsIn p names begin ↔ AllInside program.now names begin) }
{
    let mut paths = PathSet::new(alloc);
    add_inside(&mut paths, alloc, program, containers)?;
    Ok(paths)
}

// The paths from `%0` of the expressions in a structure.
fn add_outer_structure(
    paths: &mut PathSet,
    program: &Program,
    outers: &Outers,
    node: u32,
    s: &Structure,
) -> Result<(), AllocError>
    requires outers { AreOutersOf program.now outers.now }
    ensures added { OnOk result (Gains (BeginsIn paths.old) (BeginsIn paths.new) (PathsOutermost program.now node s.now)) }
{
    let outers = outers_of(program, outers, node)?;
    add_own(paths, Base::Outermost, outers, s)?;
    add_descs(paths, Base::Outermost, outers, s.fields.as_slice())
}

fn add_outer_structures(
    paths: &mut PathSet,
    program: &Program,
    outers: &Outers,
) -> Result<(), AllocError>
    requires few { length program.now.structures ≤ MOST }
    requires outers { AreOutersOf program.now outers.now }
    ensures added { OnOk result (Gains (BeginsIn paths.old) (BeginsIn paths.new) (PathsOfAll (PathsOutermost program.now) program.now.structures)) }
{
    for (node, s) in program.structures.as_slice().iter().enumerate() {
        add_outer_structure(paths, program, outers, node as u32, s)?;
    }
    Ok(())
}

// Those from `%0` of all expressions of a program.
fn add_outermost(
    paths: &mut PathSet,
    alloc: Global,
    program: &Program,
    outers: &Outers,
) -> Result<(), AllocError>
    requires few { length program.now.structures ≤ MOST }
    requires outers { AreOutersOf program.now outers.now }
    ensures added { OnOk result (Gains (BeginsIn paths.old) (BeginsIn paths.new) (AllOutermost program.now)) }
{
    add_outer_structures(paths, program, outers)?;
    add_roots(paths, alloc, Base::Outermost, program.roots.as_slice())
}

/// The paths from `%0` of all expressions of a program, with the structures at which they begin. Its time is linear in the program's size.
/// Its only error is out of memory, which it also says of structures that nest deeper than `MAX_DEPTH`.
pub fn paths_outermost(
    alloc: Global,
    program: &Program,
    containers: &Containers,
) -> Result<PathSet, AllocError>
    requires few { length program.now.structures ≤ MOST }
    requires containers { AreContainersOf program.now containers.now }
    ensures paths { IfOk result (λ p. (names : List (List ℕ)) (begin : ℕ) → BeginsIn p names begin ↔ AllOutermost program.now names begin) }
{
    let outers = Outers::of_program(alloc, program, containers)?;
    let mut paths = PathSet::new(alloc);
    add_outermost(&mut paths, alloc, program, &outers)?;
    Ok(paths)
}
