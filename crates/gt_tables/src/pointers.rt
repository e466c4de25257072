// Rows of pointers.
ghost use Rattle.std.specs.Prelude.{◌≡◌, ◌<◌, ℕ, Option, Some, None, IfOk, IfSome};
ghost use Rattle.gt_types.specs.declared.expressions.Expr.{Expr};
ghost use Rattle.gt_edges.specs.Walks.{Around as Nodes};
ghost use Rattle.gt_walk.specs.declared.rows.Count.{Count};
ghost use Rattle.gt_walk.specs.declared.rows.WalkRow.TheVariants as row;
ghost use Rattle.gt_types.specs.declared.types.Ty.TheVariants as ty;
ghost use Rattle.gt_edges.specs.Walks.{IsPointerRow as ServesPointer, IsTarget, target_walk as walk_of_target};
ghost use Rattle.gt_tables.specs.Building.{IsSource, IsPointerRow, first_of, around_of};

use crate::expressions::row_expr;
use crate::sources::{Around, Source};
use gt_types::{PtrKind, Target};
use gt_walk::{Count, WalkRow};
use std::alloc::AllocError;

// A string: its characters are not walked.
pub fn string_row(source: &Source<'_>, offset: u32) -> WalkRow
    requires source { IsSource source.now }
    ensures row { IsPointerRow (first_of source.now) result }
    ensures serves { (around : Nodes) (len : Option Expr) → ServesPointer source.now.program.now source.now.layouts.now around (ty.Str len) offset (Some result) }
{
    row_to(offset, source.bare_walk(), Count::Fixed(0), false)
}

// The walk of the blocks to which a pointer leads; None where the program has no such structure.
fn target_walk(source: &Source<'_>, target: Target) -> Option<u32>
    requires source { IsSource source.now }
    ensures walk { IfSome result (λ walk. walk < first_of source.now) }
    ensures is { IfSome result (λ walk. walk ≡ walk_of_target source.now.program.now target) }
    ensures there { IfSome result (λ walk. IsTarget source.now.program.now target) }
    ensures missing { result ≡ None → ¬ IsTarget source.now.program.now target }
{
    match target {
        Target::Node(id) if id.0 < source.structures => Some(id.0),
        Target::Pointers(id) if id.0 < source.structures => Some(source.pointer_walk(id)),
        Target::Strings => Some(source.string_walk()),
        _ => None,
    }
}

// A pointer to blocks of a walk.
fn row_to(offset: u32, walk: u32, count: Count, reorder: bool) -> WalkRow
    ensures { result ≡ row.Ptr offset walk count reorder }
{
    WalkRow::Ptr {
        offset,
        walk,
        count,
        reorder,
    }
}

// A pointer; None where it names nothing.
pub fn pointer_row(
    source: &Source<'_>,
    around: Around,
    target: Option<Target>,
    kind: &PtrKind,
    reorder: bool,
    offset: u32,
) -> Result<Option<WalkRow>, AllocError>
    requires source { IsSource source.now }
    ensures row { IfOk result (λ row. IfSome row (IsPointerRow (first_of source.now))) }
    ensures serves { IfOk result (ServesPointer source.now.program.now source.now.layouts.now (around_of around) (ty.Ptr target kind.now reorder) offset) }
{
    let Some(target) = target else {
        return match kind {
            PtrKind::Atomic => Ok(Some(row_to(
                offset,
                source.bare_walk(),
                Count::Fixed(0),
                reorder,
            ))),
            _ => Ok(None),
        };
    };
    let Some(walk) = target_walk(source, target) else {
        return Ok(None);
    };
    match kind {
        PtrKind::Plain => Ok(Some(row_to(offset, walk, Count::Fixed(1), reorder))),
        PtrKind::Length(len) => {
            let count = Count::Length(row_expr(source, around, len)?);
            Ok(Some(row_to(offset, walk, count, reorder)))
        }
        PtrKind::Atomic | PtrKind::Undef => Ok(None),
    }
}
