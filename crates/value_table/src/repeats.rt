// A part of what is done with a value, so many times, so that it can be timed apart from the others.
ghost use Rattle.std.specs.Prelude.{◌≡◌, ℕ};
ghost use Rattle.gt_space.specs.Range.{IsInside};
ghost use Rattle.gt_types.specs.Paths.{MayStand};
ghost use Rattle.gt_tree.specs.Trees.{Tree};
ghost use Rattle.gt_tree.specs.Blocks.{Nodes, element_type};
ghost use Rattle.gt_value.specs.Values.{tree_of};
ghost use Rattle.gt_value.specs.Bytes.{IsElement, IsRoomFor, StandsFor, Takes};
ghost use Rattle.gt_assign.specs.Results.{FitsBeside};
ghost use Rattle.gt_show.specs.Parts.{FitsSomewhere};
ghost use Rattle.value_notation.specs.Blocks.{blocks};
ghost use Rattle.value_notation.specs.Trials.{IsReady};

use gt_show::show;
use gt_space::Space;
use gt_store::store;
use gt_types::{Ty, TypeId};
use gt_value::{Value, read};
use std::alloc::AllocError;
use value_notation::{
    BEFORE, Room, Row, Sample, Stop, TableBlocks, element, fresh_space, last_value, room_in,
    size_of,
};

/// What is done with a value.
#[derive(Clone, Copy, Debug, PartialEq, Eq)]
pub enum Part {
    Show,
    Store,
    Read,
}

impl Part {
    /// The part of this name.
    pub fn named(name: &str) -> Option<Part> {
        match name {
            "show" => Some(Part::Show),
            "store" => Some(Part::Store),
            "read" => Some(Part::Read),
            _ => None,
        }
    }
}

/// Does a part so many times with the last value of a row. A value is stored once before it is read.
pub fn repeat(on: &Sample, row: &Row, part: Part, times: u32) -> Result<(), Stop>
    requires ready { IsReady on.now.program on.now.layouts }
{
    let node = row.kind.id();
    let ty = element(on, node)?;
    let done = repeat_of(on, node, &ty, row, part, times);
    // Named, since what a type holds is then not looked at here, which makes the proof shorter.
    drop(ty);
    done
}

// The same, by the type of the row's structure.
fn repeat_of(
    on: &Sample,
    id: TypeId,
    ty: &Ty,
    row: &Row,
    part: Part,
    times: u32,
) -> Result<(), Stop>
    requires ready { IsReady on.now.program on.now.layouts }
    requires stands { MayStand on.now.program id }
    requires element { ty.now ≡ element_type on.now.program (Nodes id) }
{
    let value = last_value(on, row, ty)?;
    let size = size_of(on, id, ty, row.capacity);
    repeat_with(on, ty, row.capacity, &value, size, part, times)
}

// Does a part so many times with a value, which has room in a new space.
fn repeat_with(
    on: &Sample,
    ty: &Ty,
    capacity: u32,
    value: &Value,
    size: u64,
    part: Part,
    times: u32,
) -> Result<(), Stop>
    requires ready { IsReady on.now.program on.now.layouts }
    requires element { IsElement on.now.program ty.now }
    requires takes { Takes on.now.program on.now.layouts capacity ty.now size }
    requires only { (s : ℕ) → Takes on.now.program on.now.layouts capacity ty.now s → s ≡ size }
    requires fits { FitsBeside on.now.program blocks capacity ty.now (tree_of value.now) }
{
    let mut space = fresh_space(on)?;
    let Some(room) = room_in(&space, BEFORE, size) else {
        return Err(Stop::TooLarge);
    };
    match part {
        Part::Show => show_times(on, ty, value, times)?,
        Part::Store => store_times(on, ty, capacity, value, &mut space, room, times),
        Part::Read => store_and_read(on, ty, capacity, value, &mut space, room, times)?,
    }
    Ok(())
}

// Shows a value so many times.
fn show_times(on: &Sample, ty: &Ty, value: &Value, times: u32) -> Result<(), AllocError>
    requires ready { IsReady on.now.program on.now.layouts }
    requires fits { FitsSomewhere on.now.program blocks ty.now (tree_of value.now) }
{
    for _ in 0..times {
        let _ = show(on.alloc, &on.program, &on.layouts, ty, value, &TableBlocks)?;
    }
    Ok(())
}

// Stores a value so many times.
fn store_times(
    on: &Sample,
    ty: &Ty,
    capacity: u32,
    value: &Value,
    space: &mut Space,
    room: Room,
    times: u32,
)
    requires ready { IsReady on.now.program on.now.layouts }
    requires element { IsElement on.now.program ty.now }
    requires only { (size : ℕ) → Takes on.now.program on.now.layouts capacity ty.now size → size ≡ room.size }
    requires inside { IsInside space.old room.addr room.size }
    requires fits { FitsBeside on.now.program blocks capacity ty.now (tree_of value.now) }
{
    for _ in 0..times {
        store(
            &on.program,
            &on.layouts,
            space,
            ty,
            room.addr,
            capacity,
            value,
        );
    }
}

// Stores a value once, and reads it so many times.
fn store_and_read(
    on: &Sample,
    ty: &Ty,
    capacity: u32,
    value: &Value,
    space: &mut Space,
    room: Room,
    times: u32,
) -> Result<(), AllocError>
    requires ready { IsReady on.now.program on.now.layouts }
    requires element { IsElement on.now.program ty.now }
    requires takes { Takes on.now.program on.now.layouts capacity ty.now room.size }
    requires only { (size : ℕ) → Takes on.now.program on.now.layouts capacity ty.now size → size ≡ room.size }
    requires inside { IsInside space.old room.addr room.size }
    requires fits { FitsBeside on.now.program blocks capacity ty.now (tree_of value.now) }
{
    store(
        &on.program,
        &on.layouts,
        space,
        ty,
        room.addr,
        capacity,
        value,
    );
    read_times(on, ty, capacity, space, room.addr, times)
}

// Reads the value that stands at an address so many times.
fn read_times(
    on: &Sample,
    ty: &Ty,
    capacity: u32,
    space: &Space,
    addr: u64,
    times: u32,
) -> Result<(), AllocError>
    requires ready { IsReady on.now.program on.now.layouts }
    requires inside { IsRoomFor on.now.program on.now.layouts capacity ty.now space.now addr }
    requires stands { (value : Tree) × StandsFor on.now.program on.now.layouts capacity ty.now space.now addr value }
{
    for _ in 0..times {
        let _ = read(
            on.alloc,
            &on.program,
            &on.layouts,
            space,
            ty,
            addr,
            capacity,
        )?;
    }
    Ok(())
}
