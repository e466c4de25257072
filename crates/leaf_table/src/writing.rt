// A leaf that is written in place, and the bytes that then stand.
ghost use Rattle.std.specs.Prelude.{◌≡◌, ℕ};
ghost use Rattle.gt_types.specs.Paths.{MayStand};
ghost use Rattle.gt_tree.specs.Blocks.{Nodes, element_type};
ghost use Rattle.gt_space.specs.Range.{IsInside, KeepsAddresses};
ghost use Rattle.gt_tree.specs.Trees.{Tree, Trees};
ghost use Rattle.gt_value.specs.Values.{tree_of};
ghost use Rattle.gt_value.specs.Bytes.{IsElement, IsRoomFor, Takes};
ghost use Rattle.gt_assign.specs.Results.{FitsBeside};
ghost use Rattle.gt_leaf.specs.Tables.{IsTableOf};
ghost use Rattle.gt_leaf.specs.Writing.{StandsBeside, StaticsStandBeside};
ghost use Rattle.value_notation.specs.Blocks.{blocks};
ghost use Rattle.value_notation.specs.Trials.{IsReady};

use gt_leaf::{LeafWrite, Reads, write_leaf, write_static_leaf};
use gt_space::Space;
use gt_store::store;
use gt_types::{Ty, TypeId};
use gt_value::{LeafContent, Value};
use std::alloc::{AllocError, Global};
use value_notation::{
    BEFORE, FILLED, Room, Row, Sample, Stop, TableBlocks, Write, element, fresh_space, last_value,
    room_in, size_of, zero_space,
};

/// What comes of the write of a leaf in place.
#[derive(Drop)]
pub enum Outcome {
    /// The bytes that stand then.
    Bytes(Vec<u8>),
    /// It is not written in place.
    NotInPlace,
    /// No value fits with it.
    Misfit,
}

// The steps from one place to the next, where each write takes another one: a prime, so that they are spread over all.
const STEP: u64 = 7919;

/// How many times a leaf is written, and at how many last places of the path in turn; 0 where it is the path's own each time.
#[derive(Clone, Copy)]
pub struct Repeats {
    pub times: u32,
    pub places: u32,
}

impl Repeats {
    /// So many writes at the path's own place.
    pub fn at_one_place(times: u32) -> Repeats {
        Repeats { times, places: 0 }
    }

    // Turns a path to the place of one of the writes.
    fn turn(self, path: &mut [u32], write: u32) {
        if self.places == 0 {
            return;
        }
        if let [.., last] = path {
            *last = (write as u64 * STEP % self.places as u64) as u32;
        }
    }
}

// What is written in place, and how often.
#[derive(Clone, Copy)]
struct Leaf {
    content: LeafContent,
    repeats: Repeats,
}

/// The bytes of the last value of a row after a leaf was written in place so often, or why it is not.
pub fn try_write(
    on: &Sample,
    reads: &Reads,
    row: &Row,
    write: &mut Write,
    repeats: Repeats,
) -> Result<Outcome, Stop>
    requires ready { IsReady on.now.program on.now.layouts }
    requires table { IsTableOf on.now.program reads.now }
{
    let Some(content) = write.leaf.content() else {
        return Err(Stop::Malformed);
    };
    let leaf = Leaf { content, repeats };
    let path = write.path.as_mut_slice();
    let node = row.kind.id();
    let ty = element(on, node)?;
    try_value(on, reads, node, &ty, row, path, leaf)
}

// The same, by the type of the row's structure.
fn try_value(
    on: &Sample,
    reads: &Reads,
    id: TypeId,
    ty: &Ty,
    row: &Row,
    path: &mut [u32],
    leaf: Leaf,
) -> Result<Outcome, Stop>
    requires ready { IsReady on.now.program on.now.layouts }
    requires table { IsTableOf on.now.program reads.now }
    requires stands { MayStand on.now.program id }
    requires element { ty.now ≡ element_type on.now.program (Nodes id) }
{
    let value = last_value(on, row, ty)?;
    let size = size_of(on, id, ty, row.capacity);
    write_stored(on, reads, ty, row.capacity, &value, size, path, leaf)
}

// The bytes of a value that is stored in a new space, after the leaf was written there.
fn write_stored(
    on: &Sample,
    reads: &Reads,
    ty: &Ty,
    capacity: u32,
    value: &Value,
    size: u64,
    path: &mut [u32],
    leaf: Leaf,
) -> Result<Outcome, Stop>
    requires ready { IsReady on.now.program on.now.layouts }
    requires table { IsTableOf on.now.program reads.now }
    requires element { IsElement on.now.program ty.now }
    requires takes { Takes on.now.program on.now.layouts capacity ty.now size }
    requires only { (s : ℕ) → Takes on.now.program on.now.layouts capacity ty.now s → s ≡ size }
    requires fits { FitsBeside on.now.program blocks capacity ty.now (tree_of value.now) }
{
    let mut space = fresh_space(on)?;
    let Some(room) = room_in(&space, BEFORE, size) else {
        return Err(Stop::TooLarge);
    };
    match store_and_write(on, reads, ty, capacity, value, &mut space, room, path, leaf) {
        LeafWrite::NotInPlace => Ok(Outcome::NotInPlace),
        LeafWrite::Misfit => Ok(Outcome::Misfit),
        LeafWrite::Written => Ok(Outcome::Bytes(bytes_in(on.alloc, &space, room)?)),
    }
}

/// The bytes of the static record, which was zero, after a leaf was written in place so often, or why it is not.
pub fn try_static_write(
    on: &Sample,
    reads: &Reads,
    write: &mut Write,
    repeats: Repeats,
) -> Result<Outcome, Stop>
    requires ready { IsReady on.now.program on.now.layouts }
    requires table { IsTableOf on.now.program reads.now }
{
    let Some(content) = write.leaf.content() else {
        return Err(Stop::Malformed);
    };
    let leaf = Leaf { content, repeats };
    let path = write.path.as_mut_slice();
    let mut space = zero_space(on)?;
    match write_root(on, reads, &mut space, path, leaf) {
        LeafWrite::NotInPlace => Ok(Outcome::NotInPlace),
        LeafWrite::Misfit => Ok(Outcome::Misfit),
        LeafWrite::Written => {
            let room = Room {
                addr: space.start(),
                size: on.layouts.statics.size as u64,
            };
            Ok(Outcome::Bytes(bytes_in(on.alloc, &space, room)?))
        }
    }
}

// The bytes in a room.
fn bytes_in(alloc: Global, space: &Space, room: Room) -> Result<Vec<u8>, AllocError>
    requires inside { IsInside space.now room.addr room.size }
{
    let mut bytes = vec![in alloc; 0u8; room.size as usize]?;
    space.copy_out(room.addr, &mut bytes);
    Ok(bytes)
}

// Stores a value, and writes a leaf in place there.
fn store_and_write(
    on: &Sample,
    reads: &Reads,
    ty: &Ty,
    capacity: u32,
    value: &Value,
    space: &mut Space,
    room: Room,
    path: &mut [u32],
    leaf: Leaf,
) -> LeafWrite
    requires ready { IsReady on.now.program on.now.layouts }
    requires table { IsTableOf on.now.program reads.now }
    requires element { IsElement on.now.program ty.now }
    requires takes { Takes on.now.program on.now.layouts capacity ty.now room.size }
    requires only { (size : ℕ) → Takes on.now.program on.now.layouts capacity ty.now size → size ≡ room.size }
    requires inside { IsInside space.old room.addr room.size }
    requires fits { FitsBeside on.now.program blocks capacity ty.now (tree_of value.now) }
    ensures addresses { KeepsAddresses space.old space.new }
{
    space.fill(room.addr, room.size, FILLED);
    store(
        &on.program,
        &on.layouts,
        space,
        ty,
        room.addr,
        capacity,
        value,
    );
    write_times(on, reads, space, ty, room.addr, capacity, path, leaf)
}

// Writes a leaf in place as many times as it says.
fn write_times(
    on: &Sample,
    reads: &Reads,
    space: &mut Space,
    ty: &Ty,
    addr: u64,
    capacity: u32,
    path: &mut [u32],
    leaf: Leaf,
) -> LeafWrite
    requires ready { IsReady on.now.program on.now.layouts }
    requires table { IsTableOf on.now.program reads.now }
    requires element { IsElement on.now.program ty.now }
    requires inside { IsRoomFor on.now.program on.now.layouts capacity ty.now space.old addr }
    requires stands { (statics : Trees) × (value : Tree) × StandsBeside on.now.program on.now.layouts blocks statics capacity ty.now space.old addr value }
    ensures addresses { KeepsAddresses space.old space.new }
{
    for write in 0..leaf.repeats.times {
        leaf.repeats.turn(path, write);
        match write_leaf(
            &on.program,
            &on.layouts,
            reads,
            &TableBlocks,
            space,
            ty,
            addr,
            capacity,
            path,
            leaf.content,
        ) {
            LeafWrite::NotInPlace => return LeafWrite::NotInPlace,
            LeafWrite::Misfit => return LeafWrite::Misfit,
            LeafWrite::Written => {}
        }
    }
    LeafWrite::Written
}

// The same in the static record that stands from the lowest address on.
fn write_root(
    on: &Sample,
    reads: &Reads,
    space: &mut Space,
    path: &mut [u32],
    leaf: Leaf,
) -> LeafWrite
    requires ready { IsReady on.now.program on.now.layouts }
    requires table { IsTableOf on.now.program reads.now }
    requires inside { IsInside space.old space.old.start on.now.layouts.statics.size }
    requires stands { (values : Trees) × StaticsStandBeside on.now.program on.now.layouts blocks space.old values }
    ensures addresses { KeepsAddresses space.old space.new }
{
    for write in 0..leaf.repeats.times {
        leaf.repeats.turn(path, write);
        match write_static_leaf(
            &on.program,
            &on.layouts,
            reads,
            &TableBlocks,
            space,
            path,
            leaf.content,
        ) {
            LeafWrite::NotInPlace => return LeafWrite::NotInPlace,
            LeafWrite::Misfit => return LeafWrite::Misfit,
            LeafWrite::Written => {}
        }
    }
    LeafWrite::Written
}
