// Values at addresses of a space.
ghost use Rattle.std.specs.Prelude.{◌≡◌, ◌≤◌, ◌*◌, List, map, length};
ghost use Rattle.gt_types.specs.Settled.{Settled};
ghost use Rattle.gt_layout.specs.Planes.{IsLaidOut};
ghost use Rattle.gt_layout.specs.Excess.{IsWithin};
ghost use Rattle.gt_space.specs.Range.{KeepsAddresses, IsInside};
ghost use Rattle.gt_tree.specs.Trees.{Trees, Rec};
ghost use Rattle.gt_tree.specs.Leaves.{Leaf, FieldsHaveLeaves};
ghost use Rattle.gt_value.specs.Values.{tree_of, trees};
ghost use Rattle.gt_value.specs.Bytes.{IsElement, IsRoomFor, FitsSome, IsStored, StaticsFitSome, AreStaticsStored};
ghost use Rattle.gt_store.specs.declared.stores.TheConstants.{MAX_BITS};
ghost use Rattle.gt_store.specs.Overlays.{LieIn, Overlays, written};

use crate::sizes::size_at;
use crate::stores::{store_part, store_value};
use gt_layout::Layouts;
use gt_space::Space;
use gt_types::{Program, Ty};
use gt_value::Value;

/// Stores a value of an element of a block at an address, with room for so many elements at its end. It takes no memory.
pub fn store(
    program: &Program,
    layouts: &Layouts,
    space: &mut Space,
    ty: &Ty,
    addr: u64,
    capacity: u32,
    value: &Value,
)
    requires settled { Settled program.now }
    requires laid { IsLaidOut program.now layouts.now }
    requires within { IsWithin program.now layouts.now }
    requires inside { IsRoomFor program.now layouts.now capacity ty.now space.old addr }
    requires element { IsElement program.now ty.now }
    requires fits { FitsSome program.now capacity ty.now (tree_of value.now) }
    ensures addresses { KeepsAddresses space.old space.new }
    ensures stored { IsStored program.now layouts.now capacity ty.now (tree_of value.now) space.old addr space.new }
{
    let size = size_at(program, layouts, ty, capacity);
    let from = addr - space.start();
    space.fill(addr, size, 0);
    store_value(value, program, layouts, space, ty, 8 * from);
}

// Stores values of the fields of the static record, the lowest of which is at the space's lowest address.
fn store_roots(values: &[Value], program: &Program, layouts: &Layouts, space: &mut Space)
    requires settled { Settled program.now }
    requires laid { IsLaidOut program.now layouts.now }
    requires within { IsWithin program.now layouts.now }
    requires inside { layouts.now.statics.size ≤ length space.old.bytes }
    requires short { 8 * length space.old.bytes ≤ MAX_BITS }
    requires fits { StaticsFitSome program.now (trees (map tree_of values.now)) }
    ensures addresses { KeepsAddresses space.old space.new }
    ensures stored { (leaves : List Leaf) → FieldsHaveLeaves program.now layouts.now.structures 0 (map (λ r. r.ty) program.now.roots) layouts.now.statics.fields (trees (map tree_of values.now)) leaves
        → LieIn space.old leaves → Overlays (written leaves) space.old space.new }
{
    let roots = program.roots.as_slice();
    let spots = layouts.statics.fields.as_slice();
    for (i, value) in values.iter().enumerate() {
        store_part(value, program, layouts, space, &roots[i].ty, spots[i], 0);
    }
}

/// Stores the values of the static record from the lowest address on: they are the fields of a struct. It takes no memory.
pub fn store_statics(program: &Program, layouts: &Layouts, space: &mut Space, values: &Value)
    requires settled { Settled program.now }
    requires laid { IsLaidOut program.now layouts.now }
    requires within { IsWithin program.now layouts.now }
    requires inside { IsInside space.old space.old.start layouts.now.statics.size }
    requires fits { (parts : Trees) × (tree_of values.now ≡ Rec parts) × StaticsFitSome program.now parts }
    ensures addresses { KeepsAddresses space.old space.new }
    ensures stored { (parts : Trees) → tree_of values.now ≡ Rec parts → AreStaticsStored program.now layouts.now parts space.old space.new }
{
    let start = space.start();
    space.fill(start, layouts.statics.size as u64, 0);
    if let Value::Rec(parts) = values {
        store_roots(parts, program, layouts, space);
    }
}
