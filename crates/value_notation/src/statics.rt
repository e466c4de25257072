// The static record, which is zero.
ghost use Rattle.std.specs.Prelude.{◌≡◌, IfOk};
ghost use Rattle.gt_space.specs.Range.{IsInside};
ghost use Rattle.gt_tree.specs.Trees.{Trees};
ghost use Rattle.gt_leaf.specs.Writing.{StaticsStandBeside};
ghost use Rattle.value_notation.specs.Blocks.{blocks};
ghost use Rattle.value_notation.specs.Trials.{IsReady};

use crate::samples::Sample;
use crate::trials::{FILLED, Stop, fresh_space, room_in};
use gt_space::Space;
use gt_store::store_statics;
use gt_value::zero_statics;

/// A space from whose lowest address on the static record stands.
pub fn zero_space(on: &Sample) -> Result<Space, Stop>
    requires ready { IsReady on.now.program on.now.layouts }
    ensures inside { IfOk result (λ space. IsInside space space.start on.now.layouts.statics.size) }
    ensures stands { IfOk result (λ space. (values : Trees) × StaticsStandBeside on.now.program on.now.layouts blocks space values) }
{
    let size = on.layouts.statics.size as u64;
    let mut space = fresh_space(on)?;
    let Some(room) = room_in(&space, 0, size) else {
        return Err(Stop::TooLarge);
    };
    let values = zero_statics(on.alloc, &on.program, &on.layouts)?;
    space.fill(room.addr, size, FILLED);
    store_statics(&on.program, &on.layouts, &mut space, &values);
    Ok(space)
}
