// Trying the values of a row.
ghost use Rattle.std.specs.Prelude.{◌≡◌};
ghost use Rattle.gt_tree.specs.Blocks.{element_type};
ghost use Rattle.gt_tree.specs.FixedLaws.{MayHold};
ghost use Rattle.gt_value.specs.Names.{kind_of};
ghost use Rattle.edges_table.specs.Grounds.{IsGround};

use crate::elements::try_element;
use crate::grounds::Ground;
use crate::kinds::{kind_named, type_of};
use crate::random::Random;
use crate::records::try_record;
use crate::rows::{Outcome, Row};
use crate::stops::Stop;
use gt_types::Ty;
use gt_value::BlockKind;

/// What comes out of a row.
pub fn try_row(on: &Ground, row: &Row<'_>) -> Result<Outcome, Stop>
    requires ground { IsGround on.now.program on.now.layouts }
{
    if row.kind == "roots" {
        return try_records(on, row);
    }
    let Some(kind) = kind_named(on, row.kind)? else {
        return Err(Stop::Malformed);
    };
    let ty = type_of(on, kind)?;
    try_elements(on, kind, &ty, row)
}

// The same of a row of elements of a block.
fn try_elements(on: &Ground, kind: BlockKind, ty: &Ty, row: &Row<'_>) -> Result<Outcome, Stop>
    requires ground { IsGround on.now.program on.now.layouts }
    requires holds { MayHold on.now.program (kind_of kind) }
    requires element { ty.now ≡ element_type on.now.program (kind_of kind) }
{
    let mut random = Random::new(row.seed);
    let mut outcome = Outcome::new();
    for _ in 0..row.values {
        let seen = try_element(on, kind, ty, row, &mut random)?;
        if !outcome.count(on.alloc, &seen)? {
            break;
        }
    }
    Ok(outcome)
}

// The same of a row of static records.
fn try_records(on: &Ground, row: &Row<'_>) -> Result<Outcome, Stop>
    requires ground { IsGround on.now.program on.now.layouts }
{
    let mut random = Random::new(row.seed);
    let mut outcome = Outcome::new();
    for _ in 0..row.values {
        let seen = try_record(on, row.writes, &mut random)?;
        if !outcome.count(on.alloc, &seen)? {
            break;
        }
    }
    Ok(outcome)
}
