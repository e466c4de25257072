// Static records that are made by random writes.
ghost use Rattle.std.specs.Prelude.{◌≡◌, IfOk};
ghost use Rattle.gt_space.specs.Range.{IsInside, KeepsAddresses};
ghost use Rattle.gt_tree.specs.Trees.{Trees, Rec};
ghost use Rattle.gt_tree.specs.Fits.{StaticsFit};
ghost use Rattle.gt_value.specs.Values.{tree_of};
ghost use Rattle.value_notation.specs.Blocks.{blocks};
ghost use Rattle.edges_table.specs.Grounds.{IsGround};

use crate::comparing::Seen;
use crate::edges::root_edges;
use crate::gathering::add_root_edges;
use crate::grounds::Ground;
use crate::random::Random;
use crate::stops::Stop;
use crate::writes::Write;
use gt_assign::assign_statics;
use gt_space::{MIN_PAGES, Space};
use gt_store::store_statics;
use gt_value::{Value, ValueFail, read_statics, zero_statics};
use std::alloc::AllocError;
use value_notation::{FILLED, TableBlocks};

/// Tries one static record.
pub fn try_record(on: &Ground, writes: u32, random: &mut Random) -> Result<Seen, Stop>
    requires ground { IsGround on.now.program on.now.layouts }
{
    let mut space = record_space(on)?;
    let nothing = zero_statics(on.alloc, &on.program, &on.layouts)?;
    let values = write_all(on, nothing, writes, random, &mut space)?;
    see(on, &values, &mut space)
}

// A space that begins with the static record.
fn record_space(on: &Ground) -> Result<Space, AllocError>
    requires ground { IsGround on.now.program on.now.layouts }
    ensures inside { IfOk result (λ space. IsInside space space.start on.now.layouts.statics.size) }
{
    let mut space = Space::empty(on.alloc);
    space.resize_fresh(MIN_PAGES, on.layouts.statics.size)?;
    Ok(space)
}

// The record after so many random writes.
fn write_all(
    on: &Ground,
    values: Value,
    writes: u32,
    random: &mut Random,
    space: &mut Space,
) -> Result<Value, Stop>
    requires ground { IsGround on.now.program on.now.layouts }
    requires inside { IsInside space.old space.old.start on.now.layouts.statics.size }
    requires fits { (parts : Trees) × (tree_of values ≡ Rec parts) × StaticsFit on.now.program blocks parts }
    ensures fits { IfOk result (λ v. (parts : Trees) × (tree_of v ≡ Rec parts) × StaticsFit on.now.program blocks parts) }
    ensures addresses { KeepsAddresses space.old space.new }
{
    if writes == 0 {
        return Ok(values);
    }
    let next = write_one(on, values, random, space)?;
    write_all(on, next, writes - 1, random, space)
}

// The record after one random write. One that fits nowhere changes nothing.
fn write_one(
    on: &Ground,
    values: Value,
    random: &mut Random,
    space: &mut Space,
) -> Result<Value, Stop>
    requires ground { IsGround on.now.program on.now.layouts }
    requires inside { IsInside space.old space.old.start on.now.layouts.statics.size }
    requires fits { (parts : Trees) × (tree_of values ≡ Rec parts) × StaticsFit on.now.program blocks parts }
    ensures fits { IfOk result (λ v. (parts : Trees) × (tree_of v ≡ Rec parts) × StaticsFit on.now.program blocks parts) }
    ensures addresses { KeepsAddresses space.old space.new }
{
    let again = store_and_read(on, &values, space)?;
    let Write { path, leaf } = Write::random(on.alloc, &values, random)?;
    match assign_statics(
        on.alloc,
        &on.program,
        &on.layouts,
        again,
        path.as_slice(),
        leaf,
        &TableBlocks,
    ) {
        Ok(next) => Ok(next),
        Err(ValueFail::Shape) => Ok(values),
        Err(ValueFail::Memory) => Err(Stop::Memory),
    }
}

// The record that is read where a record was stored.
fn store_and_read(on: &Ground, values: &Value, space: &mut Space) -> Result<Value, AllocError>
    requires ground { IsGround on.now.program on.now.layouts }
    requires inside { IsInside space.old space.old.start on.now.layouts.statics.size }
    requires fits { (parts : Trees) × (tree_of values.now ≡ Rec parts) × StaticsFit on.now.program blocks parts }
    ensures fits { IfOk result (λ v. (parts : Trees) × (tree_of v ≡ Rec parts) × StaticsFit on.now.program blocks parts) }
    ensures addresses { KeepsAddresses space.old space.new }
{
    let start = space.start();
    space.fill(start, on.layouts.statics.size as u64, FILLED);
    store_statics(&on.program, &on.layouts, space, values);
    read_statics(on.alloc, &on.program, &on.layouts, space)
}

// The edges of the record that is read where a record was stored, and those of the walks of roots.
fn see(on: &Ground, values: &Value, space: &mut Space) -> Result<Seen, Stop>
    requires ground { IsGround on.now.program on.now.layouts }
    requires inside { IsInside space.old space.old.start on.now.layouts.statics.size }
    requires fits { (parts : Trees) × (tree_of values.now ≡ Rec parts) × StaticsFit on.now.program blocks parts }
{
    let again = store_and_read(on, values, space)?;
    let start = space.start();
    let size = on.layouts.statics.size as usize;
    let mut bytes = vec![in on.alloc; 0u8; size]?;
    space.copy_out(start, &mut bytes);
    let Value::Rec(parts) = &again else {
        return Err(Stop::Misshapen);
    };
    let mut read = Vec::new(on.alloc);
    add_root_edges(on, parts, start, &mut read)?;
    let walked = root_edges(on.alloc, &on.tables, space)?;
    Ok(Seen {
        read,
        walked,
        bytes,
    })
}
