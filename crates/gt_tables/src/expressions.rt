// Expressions of options as rows have them: over numbers at places.
ghost use Rattle.std.specs.Prelude.{IfOk};
ghost use Rattle.gt_edges.specs.Walks.{IsRowExpr, IsDescExpr};
ghost use Rattle.gt_tables.specs.Building.{IsSource, around_of};
ghost use Rattle.gt_tables.specs.Leaves.{IsRead, IsTranslated};
ghost use Rattle.gt_tables.specs.Ordered.{IsOrdered};

use crate::paths::{path_leaf, root_leaf};
use crate::sources::{Around, Source};
use gt_types::{Boxed, Expr, List};
use gt_walk::{RowExpr, RowLeaf};
use std::alloc::AllocError;

// The read of a number, which is added to the leaves. Where there is no number, that of a leaf that there is not.
fn read_of(leaves: &mut Vec<RowLeaf>, leaf: Option<RowLeaf>) -> Result<Expr, AllocError>
    ensures { IfOk result (IsRead leaves.old.items leaves.new.items leaf) }
{
    let Some(leaf) = leaf else {
        return Ok(Expr::Root(u32::MAX));
    };
    match u32::try_from(leaves.len()) {
        Ok(place) if place < u32::MAX => {
            leaves.push(leaf)?;
            Ok(Expr::Root(place))
        }
        _ => Err(AllocError),
    }
}

// The expression in which each path and each root is the read of a leaf.
fn translate(
    source: &Source<'_>,
    around: Around,
    e: &Expr,
    leaves: &mut Vec<RowLeaf>,
) -> Result<Expr, AllocError>
    requires source { IsSource source.now }
    ensures { IfOk result (IsTranslated source.now around leaves.old.items leaves.new.items e.now) }
{
    let alloc = source.alloc;
    match e {
        Expr::Int(n) => Ok(Expr::Int(*n)),
        Expr::Path { base, steps } => {
            read_of(leaves, path_leaf(source, around, *base, steps.as_slice()))
        }
        Expr::Root(place) => read_of(leaves, root_leaf(source, *place)),
        Expr::One { op, a } => Ok(Expr::One {
            op: *op,
            a: Boxed::new(alloc, translate(source, around, a.get(), leaves)?)?,
        }),
        Expr::Two { op, a, b } => Ok(Expr::Two {
            op: *op,
            a: Boxed::new(alloc, translate(source, around, a.get(), leaves)?)?,
            b: Boxed::new(alloc, translate(source, around, b.get(), leaves)?)?,
        }),
        Expr::Cond { test, yes, no } => Ok(Expr::Cond {
            test: Boxed::new(alloc, translate(source, around, test.get(), leaves)?)?,
            yes: Boxed::new(alloc, translate(source, around, yes.get(), leaves)?)?,
            no: Boxed::new(alloc, translate(source, around, no.get(), leaves)?)?,
        }),
    }
}

// An expression where it stands in some structures.
pub fn row_expr(source: &Source<'_>, around: Around, e: &Expr) -> Result<RowExpr, AllocError>
    requires source { IsSource source.now }
    ensures is { IfOk result (IsRowExpr source.now.program.now source.now.layouts.now (around_of around) e.now) }
    ensures ordered { IfOk result IsOrdered }
{
    let mut leaves = Vec::new(source.alloc);
    let expr = translate(source, around, e, &mut leaves)?;
    Ok(RowExpr {
        expr,
        leaves: List::of(leaves),
    })
}

// The expression that chooses a member. One that is not there has no value.
pub fn desc_expr(
    source: &Source<'_>,
    around: Around,
    desc: &Option<Expr>,
) -> Result<RowExpr, AllocError>
    requires source { IsSource source.now }
    ensures is { IfOk result (IsDescExpr source.now.program.now source.now.layouts.now (around_of around) desc.now) }
    ensures ordered { IfOk result IsOrdered }
{
    match desc {
        Some(desc) => row_expr(source, around, desc),
        None => Ok(RowExpr {
            expr: Expr::Root(u32::MAX),
            leaves: List::new(source.alloc),
        }),
    }
}
