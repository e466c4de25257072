// For what values are made.
ghost use Rattle.std.specs.Prelude.{◌≡◌};
ghost use Rattle.gt_fields.specs.FieldNames.{field_names};
ghost use Rattle.gt_unions.specs.Tables.{union_tables};
ghost use Rattle.gt_assign.specs.Pasts.{past_of, value_was};
ghost use Rattle.gt_assign.specs.Turning.{within};

use crate::seeing::{Around, value_of};
use gt_layout::Layouts;
use gt_types::{Expr, Program};
use std::alloc::Global;

/// For what a value is made: its program with its layouts, and how many elements have room at its end.
#[derive(Drop)]
pub struct Making<'a> {
    pub alloc: Global,
    pub program: &'a Program,
    pub layouts: &'a Layouts,
    pub capacity: u32,
    ghost named: { layouts.now.names ≡ field_names program.now.structures },
    ghost united: { layouts.now.unions ≡ union_tables program.now },
}

/// How many elements an array with a length has. None where its length has no value, or says more than there is room for.
pub fn tail_length(on: &Making, len: &Expr, around: &Around) -> Option<usize>
    ensures { result ≡ within on.now.capacity (value_was on.now.program.now (past_of around.now) len.now) }
{
    let n = usize::try_from(value_of(on, len, around)?).ok()?;
    if n <= on.capacity as usize {
        Some(n)
    } else {
        None
    }
}
