// How many bytes values take.
ghost use Rattle.std.specs.Prelude.{◌<◌, length};
ghost use Rattle.gt_types.specs.Settled.{Settled};
ghost use Rattle.gt_layout.specs.Capacity.{SizeAt};
ghost use Rattle.gt_layout.specs.Planes.{IsLaidOut};
ghost use Rattle.gt_layout.specs.Excess.{IsWithin};
ghost use Rattle.gt_value.specs.Bytes.{IsElement, Takes};

use gt_layout::Layouts;
use gt_types::{Program, Ty, TypeId};

/// How many bytes a structure takes, with room for so many elements at its end, as [`Layouts::size`] says. Without room it takes the
/// size in its plane, which is found in constant time.
pub fn node_size(program: &Program, layouts: &Layouts, id: TypeId, capacity: u32) -> u64
    requires settled { Settled program.now }
    requires laid { IsLaidOut program.now layouts.now }
    requires within { IsWithin program.now layouts.now }
    requires there { id.0 < length program.now.structures }
    ensures size { SizeAt program.now layouts.now.structures capacity id result }
{
    match layouts.structures.get(id.0 as usize) {
        Some(plane) if capacity == 0 => plane.size as u64,
        _ => layouts.size(program, id, capacity),
    }
}

// How many bytes a value of an element takes, with room for so many elements at its end.
pub fn size_at(program: &Program, layouts: &Layouts, ty: &Ty, capacity: u32) -> u64
    requires settled { Settled program.now }
    requires laid { IsLaidOut program.now layouts.now }
    requires within { IsWithin program.now layouts.now }
    requires element { IsElement program.now ty.now }
    ensures { Takes program.now layouts.now capacity ty.now result }
{
    match ty {
        Ty::Node { id, .. } => node_size(program, layouts, *id, capacity),
        Ty::Num(_) => 1,
        _ => 8,
    }
}
