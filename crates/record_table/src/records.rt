// The static record after writes.
ghost use Rattle.std.specs.Prelude.{◌≡◌, IfOk};
ghost use Rattle.gt_space.specs.Range.{IsInside};
ghost use Rattle.gt_tree.specs.Trees.{Trees, Rec};
ghost use Rattle.gt_tree.specs.Fits.{StaticsFit};
ghost use Rattle.gt_value.specs.Values.{tree_of};
ghost use Rattle.value_notation.specs.Blocks.{blocks};
ghost use Rattle.value_notation.specs.Trials.{IsReady};

use crate::writes::RootWrite;
use gt_assign::assign_statics;
use gt_store::store_statics;
use gt_value::{Value, ValueFail, zero_statics};
use value_notation::{FILLED, Sample, Stop, TableBlocks, Write, zero_space};

/// The static record after writes from zero on. Those that have to fit nowhere are left out.
pub fn last_record(on: &Sample, writes: &[RootWrite]) -> Result<Value, Stop>
    requires ready { IsReady on.now.program on.now.layouts }
    ensures fits { IfOk result (λ v. (parts : Trees) × (tree_of v ≡ Rec parts) × StaticsFit on.now.program blocks parts) }
{
    let nothing = zero_statics(on.alloc, &on.program, &on.layouts)?;
    write_roots(on, nothing, writes)
}

// The static record after these writes.
fn write_roots(on: &Sample, values: Value, writes: &[RootWrite]) -> Result<Value, Stop>
    requires ready { IsReady on.now.program on.now.layouts }
    requires fits { (parts : Trees) × (tree_of values ≡ Rec parts) × StaticsFit on.now.program blocks parts }
    ensures fits { IfOk result (λ v. (parts : Trees) × (tree_of v ≡ Rec parts) × StaticsFit on.now.program blocks parts) }
{
    let [first, rest @ ..] = writes else {
        return Ok(values);
    };
    if first.refused {
        return write_roots(on, values, rest);
    }
    let next = write_root(on, values, &first.write)?;
    write_roots(on, next, rest)
}

// The static record after one write.
fn write_root(on: &Sample, values: Value, write: &Write) -> Result<Value, Stop>
    requires ready { IsReady on.now.program on.now.layouts }
    requires fits { (parts : Trees) × (tree_of values ≡ Rec parts) × StaticsFit on.now.program blocks parts }
    ensures fits { IfOk result (λ v. (parts : Trees) × (tree_of v ≡ Rec parts) × StaticsFit on.now.program blocks parts) }
{
    let leaf = write.leaf.value(on.alloc)?;
    match assign_statics(
        on.alloc,
        &on.program,
        &on.layouts,
        values,
        write.path.as_slice(),
        leaf,
        &TableBlocks,
    ) {
        Ok(next) => Ok(next),
        Err(ValueFail::Shape) => Err(Stop::Misfit),
        Err(ValueFail::Memory) => Err(Stop::Memory),
    }
}

/// Whether each write that has to fit nowhere does so, in the record that the writes before it make.
pub fn refuses(on: &Sample, writes: &[RootWrite]) -> Result<bool, Stop>
    requires ready { IsReady on.now.program on.now.layouts }
{
    for (i, write) in writes.iter().enumerate() {
        if write.refused && !is_refused(on, &writes[..i], &write.write)? {
            return Ok(false);
        }
    }
    Ok(true)
}

// Whether a write after others fits nowhere.
fn is_refused(on: &Sample, before: &[RootWrite], write: &Write) -> Result<bool, Stop>
    requires ready { IsReady on.now.program on.now.layouts }
{
    let values = last_record(on, before)?;
    is_misfit(write_root(on, values, write))
}

// Whether what was written fits nowhere.
fn is_misfit<T: Drop>(written: Result<T, Stop>) -> Result<bool, Stop> {
    match written {
        Ok(_) => Ok(false),
        Err(Stop::Misfit) => Ok(true),
        Err(stop) => Err(stop),
    }
}

/// The bytes that stand for a static record.
pub fn record_bytes(on: &Sample, values: &Value) -> Result<Vec<u8>, Stop>
    requires ready { IsReady on.now.program on.now.layouts }
    requires fits { (parts : Trees) × (tree_of values.now ≡ Rec parts) × StaticsFit on.now.program blocks parts }
{
    let mut space = zero_space(on)?;
    let start = space.start();
    let size = on.layouts.statics.size as u64;
    space.fill(start, size, FILLED);
    store_statics(&on.program, &on.layouts, &mut space, values);
    let mut bytes = vec![in on.alloc; 0u8; size as usize]?;
    space.copy_out(start, &mut bytes);
    Ok(bytes)
}
