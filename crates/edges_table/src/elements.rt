// Elements of blocks that are made by random writes.
ghost use Rattle.std.specs.Prelude.{◌≡◌, IfOk};
ghost use Rattle.gt_space.specs.Range.{IsInside, KeepsAddresses};
ghost use Rattle.gt_tree.specs.Blocks.{element_type};
ghost use Rattle.gt_tree.specs.FixedLaws.{MayHold};
ghost use Rattle.gt_value.specs.Names.{kind_of};
ghost use Rattle.gt_value.specs.Values.{tree_of};
ghost use Rattle.gt_assign.specs.Results.{FitsBeside};
ghost use Rattle.value_notation.specs.Blocks.{blocks};
ghost use Rattle.edges_table.specs.Grounds.{IsGround, IsSite};

use crate::comparing::Seen;
use crate::edges::walk_edges;
use crate::gathering::add_edges;
use crate::grounds::Ground;
use crate::kinds::size_of;
use crate::pointers::Numbers;
use crate::random::Random;
use crate::rows::Row;
use crate::scopes::Around;
use crate::stops::Stop;
use crate::writes::Write;
use gt_assign::assign;
use gt_space::{MIN_PAGES, Space};
use gt_store::store;
use gt_types::Ty;
use gt_value::{BlockKind, Value, ValueFail, read, zero};
use std::alloc::{AllocError, Global};
use value_notation::{FILLED, Room, TableBlocks, room_in};

// An element: its type, how many elements there is room for at its end, and where it is stored.
#[derive(Clone, Copy)]
struct Site<'a> {
    ty: &'a Ty,
    capacity: u32,
    room: Room,
}

/// Tries one value, which is stored at a random address.
pub fn try_element(
    on: &Ground,
    kind: BlockKind,
    ty: &Ty,
    row: &Row<'_>,
    random: &mut Random,
) -> Result<Seen, Stop>
    requires ground { IsGround on.now.program on.now.layouts }
    requires holds { MayHold on.now.program (kind_of kind) }
    requires element { ty.now ≡ element_type on.now.program (kind_of kind) }
{
    let size = size_of(on, kind, ty, row.capacity);
    let mut space = fresh_space(on.alloc)?;
    let before = 8 * random.below(512);
    let Some(room) = room_in(&space, before, size) else {
        return Err(Stop::TooLarge);
    };
    let site = Site {
        ty,
        capacity: row.capacity,
        room,
    };
    let nothing = zero(on.alloc, &on.program, &on.layouts, ty, row.capacity)?;
    let value = write_all(on, site, nothing, row.writes, random, &mut space)?;
    see(on, kind, site, &value, &mut space)
}

// A space with no static record.
fn fresh_space(alloc: Global) -> Result<Space, AllocError> {
    let mut space = Space::empty(alloc);
    space.resize_fresh(MIN_PAGES, 0)?;
    Ok(space)
}

// The value after so many random writes.
fn write_all(
    on: &Ground,
    site: Site<'_>,
    value: Value,
    writes: u32,
    random: &mut Random,
    space: &mut Space,
) -> Result<Value, Stop>
    requires ground { IsGround on.now.program on.now.layouts }
    requires site { IsSite on.now.program on.now.layouts site.capacity site.ty.now site.room.size }
    requires inside { IsInside space.old site.room.addr site.room.size }
    requires fits { FitsBeside on.now.program blocks site.capacity site.ty.now (tree_of value) }
    ensures fits { IfOk result (λ v. FitsBeside on.now.program blocks site.entry.capacity site.entry.ty.now (tree_of v)) }
    ensures addresses { KeepsAddresses space.old space.new }
{
    if writes == 0 {
        return Ok(value);
    }
    let next = write_one(on, site, value, random, space)?;
    write_all(on, site, next, writes - 1, random, space)
}

// The value after one random write. One that fits nowhere changes nothing.
fn write_one(
    on: &Ground,
    site: Site<'_>,
    value: Value,
    random: &mut Random,
    space: &mut Space,
) -> Result<Value, Stop>
    requires ground { IsGround on.now.program on.now.layouts }
    requires site { IsSite on.now.program on.now.layouts site.capacity site.ty.now site.room.size }
    requires inside { IsInside space.old site.room.addr site.room.size }
    requires fits { FitsBeside on.now.program blocks site.capacity site.ty.now (tree_of value) }
    ensures fits { IfOk result (λ v. FitsBeside on.now.program blocks site.entry.capacity site.entry.ty.now (tree_of v)) }
    ensures addresses { KeepsAddresses space.old space.new }
{
    let again = store_and_read(on, site, &value, space)?;
    let Write { path, leaf } = Write::random(on.alloc, &value, random)?;
    match assign(
        on.alloc,
        &on.program,
        &on.layouts,
        site.ty,
        site.capacity,
        again,
        path.as_slice(),
        leaf,
        &TableBlocks,
    ) {
        Ok(next) => Ok(next),
        Err(ValueFail::Shape) => Ok(value),
        Err(ValueFail::Memory) => Err(Stop::Memory),
    }
}

// The value that is read where a value was stored.
fn store_and_read(
    on: &Ground,
    site: Site<'_>,
    value: &Value,
    space: &mut Space,
) -> Result<Value, AllocError>
    requires ground { IsGround on.now.program on.now.layouts }
    requires site { IsSite on.now.program on.now.layouts site.capacity site.ty.now site.room.size }
    requires inside { IsInside space.old site.room.addr site.room.size }
    requires fits { FitsBeside on.now.program blocks site.capacity site.ty.now (tree_of value.now) }
    ensures fits { IfOk result (λ v. FitsBeside on.now.program blocks site.entry.capacity site.entry.ty.now (tree_of v)) }
    ensures addresses { KeepsAddresses space.old space.new }
{
    let Room { addr, size } = site.room;
    space.fill(addr, size, FILLED);
    store(
        &on.program,
        &on.layouts,
        space,
        site.ty,
        addr,
        site.capacity,
        value,
    );
    read(
        on.alloc,
        &on.program,
        &on.layouts,
        space,
        site.ty,
        addr,
        site.capacity,
    )
}

// The edges of the value that is read where a value was stored, and those of the walk.
fn see(
    on: &Ground,
    kind: BlockKind,
    site: Site<'_>,
    value: &Value,
    space: &mut Space,
) -> Result<Seen, Stop>
    requires ground { IsGround on.now.program on.now.layouts }
    requires site { IsSite on.now.program on.now.layouts site.capacity site.ty.now site.room.size }
    requires inside { IsInside space.old site.room.addr site.room.size }
    requires fits { FitsBeside on.now.program blocks site.capacity site.ty.now (tree_of value.now) }
{
    let again = store_and_read(on, site, value, space)?;
    let Room { addr, size } = site.room;
    let mut bytes = vec![in on.alloc; 0u8; size as usize]?;
    space.copy_out(addr, &mut bytes);
    let mut read = Vec::new(on.alloc);
    let around = Around::outside(&[]);
    add_edges(&again, site.ty, addr, on, &around, &mut read)?;
    let walk = Numbers::of(&on.program).of_kind(kind);
    let walked = walk_edges(on.alloc, &on.tables, walk, space, addr)?;
    Ok(Seen {
        read,
        walked,
        bytes,
    })
}
