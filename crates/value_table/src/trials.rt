// What becomes of a row.
ghost use Rattle.std.specs.Prelude.{◌≡◌, ℕ, IfOk};
ghost use Rattle.gt_tree.specs.Blocks.{Nodes, element_type};
ghost use Rattle.gt_types.specs.Paths.{MayStand};
ghost use Rattle.gt_space.specs.Range.{KeepsAddresses, IsInside};
ghost use Rattle.gt_value.specs.Values.{tree_of};
ghost use Rattle.gt_value.specs.Bytes.{IsElement, Takes};
ghost use Rattle.gt_assign.specs.Results.{FitsBeside};
ghost use Rattle.value_notation.specs.Blocks.{blocks};
ghost use Rattle.value_notation.specs.Trials.{IsReady};

use gt_show::show;
use gt_space::Space;
use gt_store::store;
use gt_types::{Bytes, Ty, TypeId};
use gt_value::{Value, read};
use std::alloc::AllocError;
use value_notation::{
    BEFORE, FILLED, Room, Row, Sample, Stop, TableBlocks, element, fresh_space, last_value,
    room_in, size_of,
};

/// What the last value of a row is seen to be: its text, the bytes that stand for it, and the text of what is read from them.
#[derive(Drop)]
pub struct Trial {
    pub text: Bytes,
    pub bytes: Vec<u8>,
    pub reread: Bytes,
}

/// Tries a row.
pub fn try_row(on: &Sample, row: &Row) -> Result<Trial, Stop>
    requires ready { IsReady on.now.program on.now.layouts }
{
    let node = row.kind.id();
    let ty = element(on, node)?;
    let value = last_value(on, row, &ty)?;
    let text = show(
        on.alloc,
        &on.program,
        &on.layouts,
        &ty,
        &value,
        &TableBlocks,
    )?;
    let (bytes, reread) = store_and_show(on, node, &ty, row.capacity, &value)?;
    Ok(Trial {
        text,
        bytes,
        reread,
    })
}

// The bytes that stand for a value, and the text of what is read from them.
fn store_and_show(
    on: &Sample,
    id: TypeId,
    ty: &Ty,
    capacity: u32,
    value: &Value,
) -> Result<(Vec<u8>, Bytes), Stop>
    requires ready { IsReady on.now.program on.now.layouts }
    requires stands { MayStand on.now.program id }
    requires element { ty.now ≡ element_type on.now.program (Nodes id) }
    requires fits { FitsBeside on.now.program blocks capacity ty.now (tree_of value.now) }
{
    let size = size_of(on, id, ty, capacity);
    let mut space = fresh_space(on)?;
    let Some(room) = room_in(&space, BEFORE, size) else {
        return Err(Stop::TooLarge);
    };
    let reread = store_and_read(on, ty, capacity, value, &mut space, room)?;
    let text = show(
        on.alloc,
        &on.program,
        &on.layouts,
        ty,
        &reread,
        &TableBlocks,
    )?;
    let mut bytes = vec![in on.alloc; 0u8; size as usize]?;
    space.copy_out(room.addr, &mut bytes);
    Ok((bytes, text))
}

// The value that is read where a value was stored.
fn store_and_read(
    on: &Sample,
    ty: &Ty,
    capacity: u32,
    value: &Value,
    space: &mut Space,
    room: Room,
) -> Result<Value, AllocError>
    requires ready { IsReady on.now.program on.now.layouts }
    requires element { IsElement on.now.program ty.now }
    requires takes { Takes on.now.program on.now.layouts capacity ty.now room.size }
    requires only { (size : ℕ) → Takes on.now.program on.now.layouts capacity ty.now size → size ≡ room.size }
    requires inside { IsInside space.old room.addr room.size }
    requires fits { FitsBeside on.now.program blocks capacity ty.now (tree_of value.now) }
    ensures fits { IfOk result (λ v. FitsBeside on.now.program blocks capacity ty.now (tree_of v)) }
    ensures addresses { KeepsAddresses space.old space.new }
{
    space.fill(room.addr, room.size, FILLED);
    store(
        &on.program,
        &on.layouts,
        space,
        ty,
        room.addr,
        capacity,
        value,
    );
    read(
        on.alloc,
        &on.program,
        &on.layouts,
        space,
        ty,
        room.addr,
        capacity,
    )
}
