// Where the leaf at a path lies, and what it is.
ghost use Rattle.std.specs.Prelude.{◌≡◌, ℕ};
ghost use Rattle.gt_types.specs.Paths.{MayStand};
ghost use Rattle.gt_tree.specs.Blocks.{Nodes, element_type};
ghost use Rattle.gt_space.specs.Range.{IsInside};
ghost use Rattle.gt_tree.specs.Trees.{Tree, Trees};
ghost use Rattle.gt_value.specs.Values.{tree_of};
ghost use Rattle.gt_value.specs.Bytes.{IsElement, IsRoomFor, StandsFor, StandForStatics, Takes};
ghost use Rattle.gt_assign.specs.Results.{FitsBeside};
ghost use Rattle.sample_program.specs.Sample.{pointer_to};
ghost use Rattle.value_notation.specs.Blocks.{blocks};
ghost use Rattle.value_notation.specs.Trials.{IsReady};

use gt_space::Space;
use gt_store::store;
use gt_types::{Ty, TypeId};
use gt_value::{
    Holder, LeafContent, LeafKind, Place, Value, leaf_at, leaf_in_statics, read_leaf, zero,
};
use std::alloc::{AllocError, Global};
use value_notation::{
    BEFORE, FILLED, Leaf, Room, Row, Sample, Stop, Write, element, fresh_space, last_value,
    pointer, room_in, size_of, write_one,
};

/// How many bytes a pointer has.
const POINTER_BYTES: u64 = 8;

/// A leaf: how many bytes after the begin of its value it lies, its place, and what it is.
#[derive(Clone, Copy)]
pub struct Seen {
    byte: u64,
    place: Place,
    content: LeafContent,
}

impl Seen {
    /// BYTE BIT KIND HOLDER = LEAF
    pub fn text(&self, alloc: Global) -> Result<String, AllocError> {
        let mut text = String::new(alloc);
        write!(text, "{} {}", self.byte, self.place.bit)?;
        push_kind(&mut text, self.place.kind)?;
        if !self.place.active {
            write!(text, " inactive")?;
        }
        push_holder(&mut text, self.place.holder)?;
        if let Some(n) = self.place.length {
            write!(text, " length {n}")?;
        }
        push_content(&mut text, self.content)?;
        Ok(text)
    }
}

fn push_kind(text: &mut String, kind: LeafKind) -> Result<(), AllocError> {
    match kind {
        LeafKind::Number {
            signed: true,
            width,
        } => write!(text, " signed {width}"),
        LeafKind::Number {
            signed: false,
            width,
        } => write!(text, " unsigned {width}"),
        LeafKind::Pointer => write!(text, " pointer"),
    }
}

fn push_holder(text: &mut String, holder: Holder) -> Result<(), AllocError> {
    match holder {
        Holder::Element => write!(text, " element"),
        Holder::Root(i) => write!(text, " root {i}"),
        Holder::Field { structure, place } => write!(text, " field {}.{place}", structure.0),
    }
}

fn push_content(text: &mut String, content: LeafContent) -> Result<(), AllocError> {
    match content {
        LeafContent::Num(n) => write!(text, " = {n}"),
        LeafContent::Null => write!(text, " = null"),
        LeafContent::To(address) => write!(text, " = @{address}"),
    }
}

/// The leaf at a path of the last value of a row.
pub fn try_leaf(on: &Sample, row: &Row, path: &[u32]) -> Result<Option<Seen>, Stop>
    requires ready { IsReady on.now.program on.now.layouts }
{
    let node = row.kind.id();
    let ty = element(on, node)?;
    try_value(on, node, &ty, row, path)
}

// The same, by the type of the row's structure.
fn try_value(
    on: &Sample,
    id: TypeId,
    ty: &Ty,
    row: &Row,
    path: &[u32],
) -> Result<Option<Seen>, Stop>
    requires ready { IsReady on.now.program on.now.layouts }
    requires stands { MayStand on.now.program id }
    requires element { ty.now ≡ element_type on.now.program (Nodes id) }
{
    let value = last_value(on, row, ty)?;
    let size = size_of(on, id, ty, row.capacity);
    find_stored(on, ty, row.capacity, &value, size, path)
}

/// The one leaf of an element of a block of pointers to items, after it was written.
pub fn try_element(on: &Sample, leaf: Leaf) -> Result<Option<Seen>, Stop>
    requires ready { IsReady on.now.program on.now.layouts }
{
    let write = Write {
        path: Vec::new(on.alloc),
        leaf,
    };
    try_pointer(on, &pointer(), &write)
}

// The same, by the type of such an element.
fn try_pointer(on: &Sample, ty: &Ty, write: &Write) -> Result<Option<Seen>, Stop>
    requires ready { IsReady on.now.program on.now.layouts }
    requires pointer { ty.now ≡ pointer_to 0 }
{
    let nothing = zero(on.alloc, &on.program, &on.layouts, ty, 0)?;
    let value = write_one(on, ty, 0, nothing, write, true)?;
    find_stored(on, ty, 0, &value, POINTER_BYTES, write.path.as_slice())
}

// The leaf at a path where a value is stored in a new space.
fn find_stored(
    on: &Sample,
    ty: &Ty,
    capacity: u32,
    value: &Value,
    size: u64,
    path: &[u32],
) -> Result<Option<Seen>, Stop>
    requires ready { IsReady on.now.program on.now.layouts }
    requires element { IsElement on.now.program ty.now }
    requires takes { Takes on.now.program on.now.layouts capacity ty.now size }
    requires only { (s : ℕ) → Takes on.now.program on.now.layouts capacity ty.now s → s ≡ size }
    requires fits { FitsBeside on.now.program blocks capacity ty.now (tree_of value.now) }
{
    let mut space = fresh_space(on)?;
    let Some(room) = room_in(&space, BEFORE, size) else {
        return Err(Stop::TooLarge);
    };
    Ok(store_and_find(on, ty, capacity, value, &mut space, room, path))
}

// The leaf at a path where a value was stored.
fn store_and_find(
    on: &Sample,
    ty: &Ty,
    capacity: u32,
    value: &Value,
    space: &mut Space,
    room: Room,
    path: &[u32],
) -> Option<Seen>
    requires ready { IsReady on.now.program on.now.layouts }
    requires element { IsElement on.now.program ty.now }
    requires takes { Takes on.now.program on.now.layouts capacity ty.now room.size }
    requires only { (size : ℕ) → Takes on.now.program on.now.layouts capacity ty.now size → size ≡ room.size }
    requires inside { IsInside space.old room.addr room.size }
    requires fits { FitsBeside on.now.program blocks capacity ty.now (tree_of value.now) }
{
    space.fill(room.addr, room.size, FILLED);
    store(
        &on.program,
        &on.layouts,
        space,
        ty,
        room.addr,
        capacity,
        value,
    );
    find(on, space, ty, room.addr, capacity, path)
}

// The leaf at a path of the value that stands at an address.
fn find(on: &Sample, space: &Space, ty: &Ty, addr: u64, capacity: u32, path: &[u32]) -> Option<Seen>
    requires ready { IsReady on.now.program on.now.layouts }
    requires inside { IsRoomFor on.now.program on.now.layouts capacity ty.now space.now addr }
    requires stands { (value : Tree) × StandsFor on.now.program on.now.layouts capacity ty.now space.now addr value }
{
    let place = leaf_at(&on.program, &on.layouts, space, ty, addr, capacity, path)?;
    Some(Seen {
        byte: place.addr - addr,
        place,
        content: read_leaf(space, place),
    })
}

/// The leaf at a path of the static record that stands from the lowest address on.
pub fn find_root(on: &Sample, space: &Space, path: &[u32]) -> Option<Seen>
    requires ready { IsReady on.now.program on.now.layouts }
    requires inside { IsInside space.now space.now.start on.now.layouts.statics.size }
    requires stands { (values : Trees) × StandForStatics on.now.program on.now.layouts space.now values }
{
    let place = leaf_in_statics(&on.program, &on.layouts, space, path)?;
    Some(Seen {
        byte: place.addr - space.start(),
        place,
        content: read_leaf(space, place),
    })
}
