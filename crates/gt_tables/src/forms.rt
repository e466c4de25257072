// Rows of each form.
ghost use Rattle.std.specs.Prelude.{◌≡◌, ◌≢◌, ◌++◌, [], ◌∷◌, None, All, Any, IfOk, IfSome, IsSome, OnOk, option_to_list, option_map};
ghost use Rattle.gt_edges.specs.Walks.{IsRowExpr, IsDescExpr};
ghost use Rattle.gt_tables.specs.Building.{IsSource, around_of};
ghost use Rattle.gt_tables.specs.Ordered.{IsOrdered};
ghost use Rattle.gt_walk.specs.declared.rows.RowExpr.{RowExpr};
ghost use Rattle.gt_walk.specs.declared.rows.Arm.{out-Arm};
ghost use Rattle.gt_walk.specs.declared.rows.WalkRow.TheVariants as row;

use crate::expressions::{desc_expr, row_expr};
use crate::sources::{Around, Source};
use gt_types::{Active, Boxed, Expr};
use gt_walk::{Arm, WalkRow};
use std::alloc::{AllocError, Global};

// The note of a walk, with which its rows begin.
pub fn note(alloc: Global, size: u32, chain: Option<u32>) -> Result<Vec<WalkRow>, AllocError>
    ensures { IfOk result (λ rows. rows.items ≡ row.Note size chain ∷ []) }
{
    let mut rows = Vec::new(alloc);
    rows.push(WalkRow::Note { size, chain })?;
    Ok(rows)
}

// Adds a row, where there is one.
pub fn add_row(rows: &mut Vec<WalkRow>, row: Option<WalkRow>) -> Result<(), AllocError>
    ensures { OnOk result (rows.new.items ≡ rows.old.items ++ option_to_list row) }
{
    match row {
        Some(row) => Ok(rows.push(row)?),
        None => Ok(()),
    }
}

// A part, where it has a walk.
pub fn sub_row(offset: u32, walk: Option<u32>) -> Option<WalkRow>
    ensures { result ≡ option_map (row.Sub offset) walk }
{
    match walk {
        Some(walk) => Some(WalkRow::Sub { offset, walk }),
        None => None,
    }
}

// Elements, each so many bytes after the one before it, where they have a row.
pub fn rep_row(
    source: &Source<'_>,
    offset: u32,
    n: u32,
    size: u32,
    elem: Option<WalkRow>,
) -> Result<Option<WalkRow>, AllocError>
    ensures { IfOk result (λ made. made ≡ option_map (row.Rep offset n size) elem) }
{
    let Some(elem) = elem else {
        return Ok(None);
    };
    Ok(Some(WalkRow::Rep {
        offset,
        n,
        size,
        elem: Boxed::new(source.alloc, elem)?,
    }))
}

// As many elements as a length says, where they have a row.
pub fn tail_row(
    source: &Source<'_>,
    around: Around,
    offset: u32,
    len: &Expr,
    size: u32,
    elem: Option<WalkRow>,
) -> Result<Option<WalkRow>, AllocError>
    requires source { IsSource source.now }
    ensures { IfOk result (λ made. (count : RowExpr) × (made ≡ option_map (row.Tail offset count size) elem) × (elem ≢ None → IsRowExpr source.now.program.now source.now.layouts.now (around_of around) len.now count) × (elem ≢ None → IsOrdered count)) }
{
    let Some(elem) = elem else {
        return Ok(None);
    };
    Ok(Some(WalkRow::Tail {
        offset,
        len: row_expr(source, around, len)?,
        size,
        elem: Boxed::new(source.alloc, elem)?,
    }))
}

// A member of a union, with its row where it has edges.
pub fn arm(alloc: Global, active: Active, row: Option<WalkRow>) -> Result<Arm, AllocError>
    ensures active { IfOk result (λ arm. (out-Arm arm).active ≡ active) }
    ensures row { IfOk result (λ arm. (out-Arm arm).row ≡ row) }
{
    match row {
        Some(row) => Ok(Arm {
            active,
            row: Some(Boxed::new(alloc, row)?),
        }),
        None => Ok(Arm { active, row: None }),
    }
}

// A row by the value of an expression, where some member has a row.
pub fn switch_row(
    source: &Source<'_>,
    inner: Around,
    desc: &Option<Expr>,
    arms: Vec<Arm>,
) -> Result<Option<WalkRow>, AllocError>
    requires source { IsSource source.now }
    ensures row { IfOk result (λ r. IfSome r (λ made. (value : RowExpr) × (made ≡ row.Switch value arms) × IsDescExpr source.now.program.now source.now.layouts.now (around_of inner) desc.now value × IsOrdered value)) }
    ensures some { IfOk result (λ r. IfSome r (λ made. Any (λ a. IsSome (out-Arm a).row) arms.items)) }
    ensures none { IfOk result (λ r. r ≡ None → All (λ a. (out-Arm a).row ≡ None) arms.items) }
{
    if !arms.iter().any(|arm| arm.row.is_some()) {
        return Ok(None);
    }
    Ok(Some(WalkRow::Switch {
        desc: desc_expr(source, inner, desc)?,
        arms,
    }))
}
