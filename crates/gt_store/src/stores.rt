// Values at places of a space.
ghost use Rattle.std.specs.Prelude.{◌≡◌, ◌*◌, ◌+◌, List, map, Option};
ghost use Rattle.gt_types.specs.declared.expressions.Expr.{Expr};
ghost use Rattle.gt_types.specs.Settled.{Settled};
ghost use Rattle.gt_types.specs.declared.types.Ty.TheVariants.{Node};
ghost use Rattle.gt_layout.specs.Planes.{IsLaidOut};
ghost use Rattle.gt_layout.specs.Excess.{IsWithin};
ghost use Rattle.gt_layout.specs.Storages.{bytes_of, extent_of};
ghost use Rattle.gt_layout.specs.Places.{begin_at};
ghost use Rattle.gt_space.specs.Range.{KeepsAddresses};
ghost use Rattle.gt_tree.specs.Trees.{Num, Rec, Alt};
ghost use Rattle.gt_types.specs.declared.program.Program.{Program};
ghost use Rattle.gt_layout.specs.declared.planes.Plane.{Plane};
ghost use Rattle.gt_value.specs.Values.{tree_of, trees};
ghost use Rattle.gt_store.specs.Overlays.{CanStore, CanStorePart, CanStoreEach, IsWritten, EachIsWritten, bytes_in};

use crate::bits::{bits_in, bits_of_number, write_bits, write_bytes, write_number};
use gt_layout::{FieldSpot, Layouts, extent};
use gt_space::Space;
use gt_types::{Program, Scalar, Ty, TypeId, Width};
use gt_value::{Value, common_structure};

/// No space has more bits: its pages end before this many bits.
pub(crate) const MAX_BITS: u64 = 2684354560;

// How many bytes a number takes.
fn width_of(number: Scalar) -> Width
    ensures { bytes_in result ≡ bytes_of number }
{
    match number {
        Scalar::Bool => Width::W1,
        Scalar::Int { width, .. } => width,
    }
}

// Stores a number of a type.
fn store_number(space: &mut Space, ty: &Ty, at: u64, n: i128)
    requires can { (program : Program) × (planes : List Plane) × Settled program × CanStore program planes space.old at ty.now (Num n) }
    ensures addresses { KeepsAddresses space.old space.new }
    ensures stored { (program : Program) (planes : List Plane) → IsWritten program planes at ty.now (Num n) space.old space.new }
{
    match ty {
        Ty::Num(scalar) => {
            let width = width_of(*scalar);
            write_number(space, at, width, bits_of_number(n, bits_in(width)));
        }
        Ty::Bits { count, .. } => {
            let width = *count as u32;
            write_bits(space, at, width, bits_of_number(n, width));
        }
        _ => {}
    }
}

// Stores a value of a type. Null is left as it is: its bits are zero.
#[cycle(stores)]
pub(crate) fn store_value(
    value: &Value,
    program: &Program,
    layouts: &Layouts,
    space: &mut Space,
    ty: &Ty,
    at: u64,
)
    requires settled { Settled program.now }
    requires laid { IsLaidOut program.now layouts.now }
    requires within { IsWithin program.now layouts.now }
    requires can { CanStore program.now layouts.now.structures space.old at ty.now (tree_of value.now) }
    ensures addresses { KeepsAddresses space.old space.new }
    ensures stored { IsWritten program.now layouts.now.structures at ty.now (tree_of value.now) space.old space.new }
{
    match value {
        Value::Num(n) => store_number(space, ty, at, *n),
        Value::Null => {}
        Value::To(address) => write_number(space, at, Width::W8, *address),
        Value::Raw(bytes) => {
            if !bytes.is_empty() {
                write_bytes(space, at, bytes.as_slice());
            }
        }
        Value::Rec(parts) => {
            if let Ty::Node { id, .. } = ty {
                store_fields(parts, program, layouts, space, *id, at);
            }
        }
        Value::Alt { member, value } => {
            if let Ty::Node { id, .. } = ty {
                store_member(value.get(), program, layouts, space, *id, *member, at);
            }
        }
        Value::Row(parts) => match ty {
            Ty::Arr { elem, .. } => store_elements(parts, program, layouts, space, elem.get(), at),
            Ty::Tail { elem, .. } => store_elements(parts, program, layouts, space, elem.get(), at),
            _ => {}
        },
    }
}

// Stores values of the fields of a struct.
#[cycle(stores)]
fn store_fields(
    values: &[Value],
    program: &Program,
    layouts: &Layouts,
    space: &mut Space,
    id: TypeId,
    at: u64,
)
    requires settled { Settled program.now }
    requires laid { IsLaidOut program.now layouts.now }
    requires within { IsWithin program.now layouts.now }
    requires can { (desc : Option Expr) × CanStore program.now layouts.now.structures space.old at (Node id desc) (Rec (trees (map tree_of values.now))) }
    ensures addresses { KeepsAddresses space.old space.new }
    ensures stored { (desc : Option Expr) → IsWritten program.now layouts.now.structures at (Node id desc) (Rec (trees (map tree_of values.now))) space.old space.new }
{
    let structures = program.structures.as_slice();
    let planes = layouts.structures.as_slice();
    let fields = structures[id.0 as usize].fields.as_slice();
    let spots = planes[id.0 as usize].fields.as_slice();
    for (i, value) in values.iter().enumerate() {
        store_part(value, program, layouts, space, &fields[i].ty, spots[i], at);
    }
}

// Stores a value at its place in a structure. What begins beyond all bits has no leaves.
#[cycle(stores)]
pub(crate) fn store_part(
    value: &Value,
    program: &Program,
    layouts: &Layouts,
    space: &mut Space,
    ty: &Ty,
    spot: FieldSpot,
    at: u64,
)
    requires settled { Settled program.now }
    requires laid { IsLaidOut program.now layouts.now }
    requires within { IsWithin program.now layouts.now }
    requires can { CanStorePart program.now layouts.now.structures space.old at ty.now spot (tree_of value.now) }
    ensures addresses { KeepsAddresses space.old space.new }
    ensures stored { IsWritten program.now layouts.now.structures (at + begin_at spot) ty.now (tree_of value.now) space.old space.new }
{
    let begin = at + 8 * spot.offset as u64 + spot.bit as u64;
    if begin <= MAX_BITS {
        store_value(value, program, layouts, space, ty, begin);
    }
}

// Stores what is there in a union: a value of its active member, or of its common structure.
#[cycle(stores)]
fn store_member(
    value: &Value,
    program: &Program,
    layouts: &Layouts,
    space: &mut Space,
    id: TypeId,
    member: Option<u32>,
    at: u64,
)
    requires settled { Settled program.now }
    requires laid { IsLaidOut program.now layouts.now }
    requires within { IsWithin program.now layouts.now }
    requires can { (desc : Option Expr) × CanStore program.now layouts.now.structures space.old at (Node id desc) (Alt member (tree_of value.now)) }
    ensures addresses { KeepsAddresses space.old space.new }
    ensures stored { (desc : Option Expr) → IsWritten program.now layouts.now.structures at (Node id desc) (Alt member (tree_of value.now)) space.old space.new }
{
    let structures = program.structures.as_slice();
    let structure = &structures[id.0 as usize];
    if let Some(place) = member {
        let fields = structure.fields.as_slice();
        let field = &fields[place as usize];
        store_value(value, program, layouts, space, &field.ty, at);
        return;
    }
    if let Some(id) = common_structure(program, layouts, id, structure) {
        let ty = Ty::Node { id, desc: None };
        store_value(value, program, layouts, space, &ty, at);
    }
}

// Stores values of elements, one after another.
#[cycle(stores)]
fn store_elements(
    values: &[Value],
    program: &Program,
    layouts: &Layouts,
    space: &mut Space,
    elem: &Ty,
    at: u64,
)
    requires settled { Settled program.now }
    requires laid { IsLaidOut program.now layouts.now }
    requires within { IsWithin program.now layouts.now }
    requires can { CanStoreEach program.now layouts.now.structures space.old (8 * (extent_of layouts.now.structures elem.now).size) at elem.now (trees (map tree_of values.now)) }
    ensures addresses { KeepsAddresses space.old space.new }
    ensures stored { EachIsWritten program.now layouts.now.structures (8 * (extent_of layouts.now.structures elem.now).size) at elem.now (trees (map tree_of values.now)) space.old space.new }
{
    let stride = 8 * extent(elem, layouts.structures.as_slice()).size as u64;
    let mut begin = at;
    for value in values {
        if begin > MAX_BITS {
            return;
        }
        store_value(value, program, layouts, space, elem, begin);
        begin += stride;
    }
}
