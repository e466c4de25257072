// The static record, which is zero.
ghost use Rattle.std.specs.Prelude.{◌≡◌, IfOk};
ghost use Rattle.gt_space.specs.Range.{IsInside, KeepsAddresses};
ghost use Rattle.gt_tree.specs.Trees.{Trees};
ghost use Rattle.gt_value.specs.Bytes.{StandForStatics};
ghost use Rattle.value_notation.specs.Trials.{IsReady};

use crate::finding::{Seen, find_root};
use gt_space::Space;
use gt_store::store_statics;
use gt_value::read_statics;
use std::alloc::AllocError;
use value_notation::{FILLED, Sample, Stop, zero_space};

/// The leaf at a path of the static record.
pub fn try_root(on: &Sample, path: &[u32]) -> Result<Option<Seen>, Stop>
    requires ready { IsReady on.now.program on.now.layouts }
{
    let space = zero_space(on)?;
    Ok(find_root(on, &space, path))
}

/// The bytes that stand for the static record, after what stood for it was read and stored again.
pub fn try_record(on: &Sample) -> Result<Vec<u8>, Stop>
    requires ready { IsReady on.now.program on.now.layouts }
{
    let mut space = zero_space(on)?;
    let start = space.start();
    let size = on.layouts.statics.size as u64;
    store_again(on, &mut space)?;
    let mut bytes = vec![in on.alloc; 0u8; size as usize]?;
    space.copy_out(start, &mut bytes);
    Ok(bytes)
}

// Reads the static record and stores it again, over other bytes.
fn store_again(on: &Sample, space: &mut Space) -> Result<(), AllocError>
    requires ready { IsReady on.now.program on.now.layouts }
    requires inside { IsInside space.old space.old.start on.now.layouts.statics.size }
    requires stands { (values : Trees) × StandForStatics on.now.program on.now.layouts space.old values }
    ensures addresses { KeepsAddresses space.old space.new }
{
    let start = space.start();
    let values = read_statics(on.alloc, &on.program, &on.layouts, space)?;
    space.fill(start, on.layouts.statics.size as u64, FILLED);
    store_statics(&on.program, &on.layouts, space, &values);
    Ok(())
}
