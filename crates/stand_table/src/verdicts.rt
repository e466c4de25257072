// Whether bytes stand for a value.
ghost use Rattle.std.specs.Prelude.{All, IfOk};
ghost use Rattle.std.specs.Bool.{Decides};
ghost use Rattle.gt_value.specs.Values.{tree_of};
ghost use Rattle.value_notation.specs.Trials.{IsReady};
ghost use Rattle.stand_table.specs.Bytes.{AreBytesFor};
ghost use Rattle.stand_table.specs.Leaves.{IsNarrow};

use crate::leaves::{Leaf, LeafStop};
use crate::standing::stand;
use crate::walking::leaves_of;
use gt_types::Ty;
use gt_value::Value;
use value_notation::Sample;

// Whether each leaf has at most 64 bits.
fn are_narrow(leaves: &[Leaf]) -> bool
    ensures { Decides result (All IsNarrow leaves.now) }
{
    leaves.iter().all(|leaf| leaf.width <= 64)
}

/// Whether bytes stand for a value of a type that begins at the first of them.
pub fn are_bytes_for(on: &Sample, ty: &Ty, value: &Value, bytes: &[u8]) -> Result<bool, LeafStop>
    requires ready { IsReady on.now.program on.now.layouts }
    ensures { IfOk result (λ stand. Decides stand (AreBytesFor on.now ty.now (tree_of value.now) bytes.now)) }
{
    let leaves = leaves_of(value, on, 0, ty)?;
    if !are_narrow(leaves.as_slice()) {
        return Err(LeafStop::TooLarge);
    }
    Ok(stand(leaves.as_slice(), bytes))
}
