// Expressions of rows: an integer, or one number where it lies.
use crate::line::{Line, Refusal};
use gt_types::{Base, Expr, List};
use gt_walk::{Count, Origin, RowExpr, RowLeaf};
use std::alloc::Global;

/// The expression that stands next.
pub fn expression(alloc: Global, line: &mut Line) -> Result<RowExpr, Refusal> {
    let word = line.next()?;
    if let Ok(n) = word.as_str().parse::<i64>() {
        return Ok(RowExpr {
            expr: Expr::Int(n),
            leaves: List::new(alloc),
        });
    }
    let mut leaves = List::new(alloc);
    leaves.push(leaf(word.as_str())?)?;
    Ok(RowExpr {
        expr: Expr::Root(0),
        leaves,
    })
}

/// How many elements a block has, as a number or an expression.
pub fn count(alloc: Global, line: &mut Line) -> Result<Count, Refusal> {
    if line.takes("length") {
        return Ok(Count::Length(expression(alloc, line)?));
    }
    Ok(Count::Fixed(line.number()?))
}

// A number: ORIGIN+OFFSET.BIT:KIND
fn leaf(text: &str) -> Result<RowLeaf, Refusal> {
    let Some((from, rest)) = text.split_once('+') else {
        return Err(Refusal::Malformed);
    };
    let Some((offset, rest)) = rest.split_once('.') else {
        return Err(Refusal::Malformed);
    };
    let Some((bit, kind)) = rest.split_once(':') else {
        return Err(Refusal::Malformed);
    };
    let (signed, width) = match (kind.strip_prefix("s"), kind.strip_prefix("u")) {
        (Some(width), _) => (true, width),
        (None, Some(width)) => (false, width),
        (None, None) => return Err(Refusal::Malformed),
    };
    let (Ok(offset), Ok(bit), Ok(width)) = (
        offset.parse::<u32>(),
        bit.parse::<u8>(),
        width.parse::<u8>(),
    ) else {
        return Err(Refusal::Malformed);
    };
    Ok(RowLeaf {
        origin: origin(from)?,
        offset,
        bit,
        signed,
        width,
    })
}

fn origin(text: &str) -> Result<Origin, Refusal> {
    match text {
        "here" => Ok(Origin::Inside(Base::Here)),
        "outer" => Ok(Origin::Inside(Base::Outer)),
        "outermost" => Ok(Origin::Inside(Base::Outermost)),
        "zero" => Ok(Origin::Zero),
        _ => Err(Refusal::Malformed),
    }
}
