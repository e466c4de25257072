// Values that are made by writes, and a space in which they are stored.
ghost use Rattle.std.specs.Prelude.{◌≡◌, ◌+◌, ◌<◌, ℕ, IfOk, IfSome};
ghost use Rattle.gt_tree.specs.Blocks.{Nodes, element_type};
ghost use Rattle.gt_types.specs.Paths.{MayStand};
ghost use Rattle.gt_space.specs.Range.{IsInside};
ghost use Rattle.gt_value.specs.Values.{tree_of};
ghost use Rattle.gt_value.specs.Bytes.{IsElement, Takes};
ghost use Rattle.gt_assign.specs.Results.{FitsBeside};
ghost use Rattle.value_notation.specs.Blocks.{blocks};
ghost use Rattle.value_notation.specs.Trials.{IsReady};

use crate::blocks::TableBlocks;
use crate::leaves::{Refusal, Write};
use crate::rows::Row;
use crate::samples::Sample;
use gt_assign::assign;
use gt_space::Space;
use gt_types::{Ty, TypeId};
use gt_value::{Value, ValueFail, zero};
use std::alloc::{AllocError, AllocFailed};

/// How many pages the space has in which values are stored.
const PAGES: u32 = 64;

/// How many bytes lie before the place at which values are stored.
pub const BEFORE: u64 = 8;

/// What a filled place holds.
pub const FILLED: u8 = 0xff;

/// Why a row has no value.
#[derive(Clone, Copy, Debug, PartialEq, Eq)]
pub enum Stop {
    /// The last write fits nowhere.
    Misfit,
    /// So does one before it, or there is no zero.
    Early,
    /// The value is larger than the space.
    TooLarge,
    /// It is not in the notation of the table.
    Malformed,
    Memory,
}

impl From<AllocError> for Stop {
    fn from(_: AllocError) -> Stop {
        Stop::Memory
    }
}

impl<T: Drop> From<AllocFailed<T>> for Stop {
    fn from(_: AllocFailed<T>) -> Stop {
        Stop::Memory
    }
}

impl From<Refusal> for Stop {
    fn from(refusal: Refusal) -> Stop {
        match refusal {
            Refusal::Malformed => Stop::Malformed,
            Refusal::Memory => Stop::Memory,
        }
    }
}

impl From<ValueFail> for Stop {
    fn from(fail: ValueFail) -> Stop {
        match fail {
            ValueFail::Shape => Stop::Early,
            ValueFail::Memory => Stop::Memory,
        }
    }
}

/// The last value of a row.
pub fn last_value(on: &Sample, row: &Row, ty: &Ty) -> Result<Value, Stop>
    requires ready { IsReady on.now.program on.now.layouts }
    requires element { IsElement on.now.program ty.now }
    ensures fits { IfOk result (λ v. FitsBeside on.now.program blocks row.now.capacity ty.now (tree_of v)) }
{
    let nothing = zero(on.alloc, &on.program, &on.layouts, ty, row.capacity)?;
    write_all(on, ty, row.capacity, nothing, row.writes.as_slice())
}

// The value after these writes.
fn write_all(
    on: &Sample,
    ty: &Ty,
    capacity: u32,
    value: Value,
    writes: &[Write],
) -> Result<Value, Stop>
    requires ready { IsReady on.now.program on.now.layouts }
    requires element { IsElement on.now.program ty.now }
    requires fits { FitsBeside on.now.program blocks capacity ty.now (tree_of value) }
    ensures fits { IfOk result (λ v. FitsBeside on.now.program blocks capacity ty.now (tree_of v)) }
{
    let [first, rest @ ..] = writes else {
        return Ok(value);
    };
    let next = write_one(on, ty, capacity, value, first, rest.is_empty())?;
    write_all(on, ty, capacity, next, rest)
}

/// The value after one write.
pub fn write_one(
    on: &Sample,
    ty: &Ty,
    capacity: u32,
    value: Value,
    write: &Write,
    is_last: bool,
) -> Result<Value, Stop>
    requires ready { IsReady on.now.program on.now.layouts }
    requires element { IsElement on.now.program ty.now }
    requires fits { FitsBeside on.now.program blocks capacity ty.now (tree_of value) }
    ensures fits { IfOk result (λ v. FitsBeside on.now.program blocks capacity ty.now (tree_of v)) }
{
    let leaf = write.leaf.value(on.alloc)?;
    let path = write.path.as_slice();
    match assign(
        on.alloc,
        &on.program,
        &on.layouts,
        ty,
        capacity,
        value,
        path,
        leaf,
        &TableBlocks,
    ) {
        Ok(next) => Ok(next),
        Err(ValueFail::Shape) if is_last => Err(Stop::Misfit),
        Err(fail) => Err(Stop::from(fail)),
    }
}

/// How many bytes a structure takes, with room for so many elements at its end.
pub fn size_of(on: &Sample, id: TypeId, ty: &Ty, capacity: u32) -> u64
    requires ready { IsReady on.now.program on.now.layouts }
    requires stands { MayStand on.now.program id }
    requires element { ty.now ≡ element_type on.now.program (Nodes id) }
    ensures takes { Takes on.now.program on.now.layouts capacity ty.now result }
    ensures only { (size : ℕ) → Takes on.now.program on.now.layouts capacity ty.now size → size ≡ result }
{
    let _ = ty;
    on.layouts.size(&on.program, id, capacity)
}

/// Where a value is stored.
#[derive(Clone, Copy)]
pub struct Room {
    pub addr: u64,
    pub size: u64,
}

/// A space in which values are stored.
pub fn fresh_space(on: &Sample) -> Result<Space, AllocError> {
    let mut space = Space::empty(on.alloc);
    space.resize_fresh(PAGES, 0)?;
    Ok(space)
}

/// The room of so many bytes in a space, after so many others; None where it has fewer.
pub fn room_in(space: &Space, before: u64, size: u64) -> Option<Room>
    requires { before < 4096 }
    ensures inside { IfSome result (λ room. IsInside space.now room.addr size) }
    ensures after { IfSome result (λ room. room.addr ≡ space.now.start + before) }
    ensures size { IfSome result (λ room. room.size ≡ size) }
{
    let len = space.len();
    if len < before {
        return None;
    }
    if len - before < size {
        return None;
    }
    let addr = space.start() + before;
    Some(Room { addr, size })
}
