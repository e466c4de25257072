// Rows as text.
use gt_types::{Active, Base};
use gt_walk::{Count, Origin, RowExpr, RowLeaf, WalkRow};
use std::alloc::AllocError;

fn origin_name(origin: Origin) -> &'static str {
    match origin {
        Origin::Inside(Base::Here) => "here",
        Origin::Inside(Base::Outer) => "outer",
        Origin::Inside(Base::Outermost) => "outermost",
        Origin::Zero => "zero",
    }
}

// A number that is read: from where, at which byte and bit, and its kind.
fn add_leaf(text: &mut String, leaf: RowLeaf) -> Result<(), AllocError> {
    let origin = origin_name(leaf.origin);
    let sign = if leaf.signed { "s" } else { "u" };
    let (offset, bit, width) = (leaf.offset, leaf.bit, leaf.width);
    write!(text, "{origin}+{offset}.{bit}:{sign}{width}")
}

// The numbers that an expression reads.
fn add_expr(text: &mut String, e: &RowExpr) -> Result<(), AllocError> {
    for leaf in e.leaves.as_slice() {
        add_leaf(text, *leaf)?;
    }
    Ok(())
}

fn add_count(text: &mut String, count: &Count) -> Result<(), AllocError> {
    match count {
        Count::Fixed(n) => write!(text, "{n}"),
        Count::Length(e) => {
            text.push_str("length ")?;
            add_expr(text, e)
        }
    }
}

fn add_note(text: &mut String, size: u32, chain: Option<u32>) -> Result<(), AllocError> {
    match chain {
        Some(offset) => write!(text, "note {size} chain {offset}"),
        None => write!(text, "note {size}"),
    }
}

fn add_active(text: &mut String, active: Active) -> Result<(), AllocError> {
    match active {
        Active::Tag(tag) => write!(text, " | {tag}"),
        Active::Other => Ok(text.push_str(" | default")?),
        Active::Always | Active::Never => Ok(text.push_str(" | never")?),
    }
}

/// Adds the text of a row, in which at most so many rows lie one inside another.
pub fn add_row(text: &mut String, row: &WalkRow, deep: u32) -> Result<(), AllocError> {
    if deep == 0 {
        return Ok(());
    }
    match row {
        WalkRow::Note { size, chain } => add_note(text, *size, *chain),
        WalkRow::Ptr {
            offset,
            walk,
            count,
            reorder,
        } => {
            write!(text, "ptr {offset} {walk} ")?;
            add_count(text, count)?;
            if *reorder {
                text.push_str(" reorder")?;
            }
            Ok(())
        }
        WalkRow::Sub { offset, walk } => write!(text, "sub {offset} {walk}"),
        WalkRow::Rep {
            offset,
            n,
            size,
            elem,
        } => {
            write!(text, "rep {offset} {n} {size} ")?;
            add_row(text, elem.get(), deep - 1)
        }
        WalkRow::Tail {
            offset,
            len,
            size,
            elem,
        } => {
            write!(text, "tail {offset} ")?;
            add_expr(text, len)?;
            write!(text, " {size} ")?;
            add_row(text, elem.get(), deep - 1)
        }
        WalkRow::Switch { desc, arms } => {
            text.push_str("switch ")?;
            add_expr(text, desc)?;
            for arm in arms {
                add_active(text, arm.active)?;
                if let Some(row) = &arm.row {
                    text.push(' ')?;
                    add_row(text, row.get(), deep - 1)?;
                }
            }
            Ok(())
        }
    }
}
