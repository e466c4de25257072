// Values from bytes.
ghost use Rattle.std.specs.Prelude.{◌≡◌, ◌≤◌, ◌<◌, ◌-◌, ◌^◌, ℕ, map, length, IfOk, Some, pos, true, All};
ghost use Rattle.gt_types.specs.Settled.{Settled};
ghost use Rattle.gt_types.specs.Shapes.{dimensions, is_number, is_pointer};
ghost use Rattle.gt_types.specs.Contains.{HasStructure};
ghost use Rattle.gt_types.specs.Values.{value_of};
ghost use Rattle.gt_types.specs.declared.types.Ty.TheVariants.{Node, Opaque};
ghost use Rattle.gt_layout.specs.Planes.{IsLaidOut};
ghost use Rattle.gt_layout.specs.Excess.{IsWithin};
ghost use Rattle.gt_layout.specs.Progress.{IsWithinDepth, HoldsWithinDepth};
ghost use Rattle.gt_layout.specs.Storages.{bytes_of, extent_of};
ghost use Rattle.gt_space.specs.Range.{IsInside};
ghost use Rattle.gt_tree.specs.Trees.{Tree, Trees, Rec, Alt};
ghost use Rattle.gt_tree.specs.Fits.{types_of};
ghost use Rattle.gt_value.specs.Values.{tree_of, trees};
ghost use Rattle.gt_value.specs.Bytes.{IsRoomFor, StandsFor, StandForStatics};
ghost use Rattle.gt_value.specs.Reading.{Stands, FieldsStand, EachStands, path_worth, root_worth};

use crate::bits::{bits_at, bytes_at, number_at};
use crate::readers::{worth, worth_of};
use crate::sources::{Around, Source, begin_at, bytes_of, shape_of};
use crate::unions::{active_member, common_structure};
use crate::values::Value;
use gt_layout::{FieldSpot, Layouts};
use gt_space::Space;
use gt_types::{Boxed, Expr, Field, MAX_DEPTH, Program, Root, Structure, Ty, TypeId};
use std::alloc::{AllocError, Global};

// A number.
fn read_number(source: &Source<'_>, around: Around, ty: &Ty, at: u32) -> Value
    requires stands { (value : Tree) × Stands source.now around ty.now at value }
    requires number { is_number ty.now ≡ true }
    ensures { (value : Tree) → Stands source.now around ty.now at value → tree_of result ≡ value }
{
    match shape_of(ty) {
        Some(shape) => Value::Num(number_at(
            source.space,
            source.from,
            at as u64,
            shape.signed,
            shape.width,
        )),
        None => unreachable!(),
    }
}

// A pointer: null, or the address of the block that it names.
fn read_pointer(source: &Source<'_>, around: Around, ty: &Ty, at: u32) -> Value
    requires stands { (value : Tree) × Stands source.now around ty.now at value }
    requires pointer { is_pointer ty.now ≡ true }
    ensures { (value : Tree) → Stands source.now around ty.now at value → tree_of result ≡ value }
{
    if !around.whole {
        return Value::Null;
    }
    let address = bits_at(source.space, source.from, at as u64, 64);
    if address == 0 {
        Value::Null
    } else {
        Value::To(address)
    }
}

// Bytes that are never scanned.
fn read_opaque(
    alloc: Global,
    source: &Source<'_>,
    around: Around,
    size: u32,
    align: u32,
    at: u32,
) -> Result<Value, AllocError>
    requires stands { (value : Tree) × Stands source.now around (Opaque size align) at value }
    ensures { IfOk result (λ v. (value : Tree) → Stands source.now around (Opaque size align) at value → tree_of v ≡ value) }
{
    let _ = (around.whole, align);
    let bytes = bytes_at(alloc, source.space, source.from, at as u64, size)?;
    Ok(Value::Raw(bytes))
}

// The bytes of a type.
pub fn size_of(ty: &Ty, layouts: &Layouts) -> u64
    requires { (extent_of layouts.now.structures ty.now).size < 2 ^ 32 }
    ensures { result ≡ (extent_of layouts.now.structures ty.now).size }
{
    match ty {
        Ty::Num(scalar) => bytes_of(*scalar) as u64,
        Ty::Bits { unit, .. } => bytes_of(*unit) as u64,
        Ty::Opaque { size, .. } => *size as u64,
        Ty::Str(_) | Ty::Ptr { .. } => 8,
        Ty::Node { id, .. } => match layouts.structures.get(id.0 as usize) {
            Some(plane) => plane.size as u64,
            None => 0,
        },
        Ty::Arr { n, .. } if *n == 0 => 0,
        Ty::Arr { n, elem } => *n as u64 * size_of(elem.get(), layouts),
        Ty::Tail { .. } => 0,
    }
}

// How many elements an array has, by its length.
pub fn read_length(source: &Source<'_>, around: Around, len: &Expr) -> u32
    requires laid { IsLaidOut source.now.program.now source.now.layouts.now }
    ensures { (n : ℕ) → value_of (path_worth source.now around) (root_worth source.now) len.now ≡ Some (pos n) → n < 2 ^ 32 → result ≡ n }
{
    match worth(len, source, around) {
        Some(n) if n >= 0 && n <= u32::MAX as i64 => n as u32,
        _ => 0,
    }
}

// What is there in a union.
fn make_alt(alloc: Global, member: Option<u32>, value: Value) -> Result<Value, AllocError>
    ensures { IfOk result (λ v. tree_of v ≡ Alt member (tree_of value)) }
{
    Ok(Value::Alt {
        member,
        value: Boxed::new(alloc, value)?,
    })
}

// A value of a type, inside which structures stand less deep than `depth`.
#[cycle(reading)]
pub fn read_type(
    alloc: Global,
    source: &Source<'_>,
    around: Around,
    ty: &Ty,
    at: u32,
    depth: usize,
) -> Result<Value, AllocError>
    requires stands { (value : Tree) × Stands source.now around ty.now at value }
    requires shallow { HoldsWithinDepth source.now.program.now ty.now depth }
    requires flat { dimensions ty.now ≤ 4 }
    ensures { IfOk result (λ v. (value : Tree) → Stands source.now around ty.now at value → tree_of v ≡ value) }
{
    match ty {
        Ty::Num(_) | Ty::Bits { .. } => Ok(read_number(source, around, ty, at)),
        Ty::Opaque { size, align } => read_opaque(alloc, source, around, *size, *align, at),
        Ty::Str(_) | Ty::Ptr { .. } => Ok(read_pointer(source, around, ty, at)),
        Ty::Node { id, desc } => read_structure(alloc, source, around, *id, desc, at, depth - 1),
        Ty::Arr { n, elem } => {
            let parts = read_elements(alloc, source, around, elem.get(), at, *n, depth)?;
            Ok(Value::Row(parts))
        }
        Ty::Tail { len, elem } => {
            let n = read_length(source, around, len);
            let parts = read_elements(alloc, source, around, elem.get(), at, n, depth)?;
            Ok(Value::Row(parts))
        }
    }
}

// So many values of a type, one after another.
#[cycle(reading)]
fn read_elements(
    alloc: Global,
    source: &Source<'_>,
    around: Around,
    elem: &Ty,
    at: u32,
    n: u32,
    depth: usize,
) -> Result<Vec<Value>, AllocError>
    requires stand { (values : Trees) × EachStands source.now around elem.now at n values }
    requires shallow { HoldsWithinDepth source.now.program.now elem.now depth }
    requires flat { dimensions elem.now ≤ 4 }
    ensures { IfOk result (λ vs. (values : Trees) → EachStands source.now around elem.now at n values → trees (map tree_of vs.items) ≡ values) }
{
    let mut parts = Vec::new(alloc);
    if n == 0 {
        return Ok(parts);
    }
    let stride = 8 * size_of(elem, source.layouts);
    let mut begin = at as u64;
    for _ in 0..n {
        let part = read_type(alloc, source, around, elem, begin as u32, depth)?;
        parts.push(part)?;
        begin += stride;
    }
    Ok(parts)
}

// A value of a structure, inside which structures stand at most so deep.
#[cycle(reading)]
fn read_structure(
    alloc: Global,
    source: &Source<'_>,
    around: Around,
    id: TypeId,
    desc: &Option<Expr>,
    at: u32,
    depth: usize,
) -> Result<Value, AllocError>
    requires stands { (value : Tree) × Stands source.now around (Node id desc.now) at value }
    requires there { id.0 < length source.now.program.now.structures }
    requires shallow { IsWithinDepth source.now.program.now id.0 depth }
    ensures { IfOk result (λ v. (value : Tree) → Stands source.now around (Node id desc.now) at value → tree_of v ≡ value) }
{
    let structure = &source.program.structures.as_slice()[id.0 as usize];
    if structure.is_union {
        return read_union(alloc, source, around, id, structure, desc, at, depth);
    }
    let plane = &source.layouts.structures.as_slice()[id.0 as usize];
    let parts = read_fields(
        alloc,
        source,
        around.enter(id, at),
        structure.fields.as_slice(),
        plane.fields.as_slice(),
        at,
        depth,
    )?;
    Ok(Value::Rec(parts))
}

// Values of the fields of a structure that begins at a bit.
#[cycle(reading)]
fn read_fields(
    alloc: Global,
    source: &Source<'_>,
    around: Around,
    fields: &[Field],
    spots: &[FieldSpot],
    at: u32,
    depth: usize,
) -> Result<Vec<Value>, AllocError>
    requires stand { (values : Trees) × FieldsStand source.now around (types_of fields.now) spots.now at values }
    requires shallow { All (λ f. HoldsWithinDepth source.now.program.now f.ty depth) fields.now }
    requires flat { All (λ f. dimensions f.ty ≤ 4) fields.now }
    ensures { IfOk result (λ vs. (values : Trees) → FieldsStand source.now around (types_of fields.now) spots.now at values → trees (map tree_of vs.items) ≡ values) }
{
    let mut parts = Vec::new(alloc);
    for (i, field) in fields.iter().enumerate() {
        let begin = at as u64 + begin_at(&spots[i]);
        let part = read_type(alloc, source, around, &field.ty, begin as u32, depth)?;
        parts.push(part)?;
    }
    Ok(parts)
}

// A value of a union: of the active member, else of its common structure, whose pointers are null, else nothing.
#[cycle(reading)]
fn read_union(
    alloc: Global,
    source: &Source<'_>,
    around: Around,
    id: TypeId,
    structure: &Structure,
    desc: &Option<Expr>,
    at: u32,
    depth: usize,
) -> Result<Value, AllocError>
    requires stands { (value : Tree) × Stands source.now around (Node id desc.now) at value }
    requires has { HasStructure source.now.program.now id structure.now }
    requires union { structure.now.is_union ≡ true }
    requires shallow { IsWithinDepth source.now.program.now id.0 depth }
    ensures { IfOk result (λ v. (value : Tree) → Stands source.now around (Node id desc.now) at value → tree_of v ≡ value) }
{
    let inner = around.enter(id, at);
    let fields = structure.fields.as_slice();
    let (program, layouts) = (source.program, source.layouts);
    let worth = worth_of(desc, source, inner);
    if let Some(place) = active_member(program, layouts, id, structure, worth) {
        let value = read_type(alloc, source, inner, &fields[place as usize].ty, at, depth)?;
        return make_alt(alloc, Some(place), value);
    }
    let Some(common) = common_structure(program, layouts, id, structure) else {
        return make_alt(alloc, None, Value::Rec(Vec::new(alloc)));
    };
    let value = read_structure(
        alloc,
        source,
        inner.without_pointers(),
        common,
        &None,
        at,
        depth - 1,
    )?;
    make_alt(alloc, None, value)
}

// Values of the roots, each at its place in the static record.
fn read_roots(
    alloc: Global,
    source: &Source<'_>,
    around: Around,
    roots: &[Root],
    spots: &[FieldSpot],
) -> Result<Vec<Value>, AllocError>
    requires stand { (values : Trees) × FieldsStand source.now around (map (λ r. r.ty) roots.now) spots.now 0 values }
    requires shallow { All (λ r. HoldsWithinDepth source.now.program.now r.ty 33) roots.now }
    requires flat { All (λ r. dimensions r.ty ≤ 4) roots.now }
    ensures { IfOk result (λ vs. (values : Trees) → FieldsStand source.now around (map (λ r. r.ty) roots.now) spots.now 0 values → trees (map tree_of vs.items) ≡ values) }
{
    let mut parts = Vec::new(alloc);
    for (i, root) in roots.iter().enumerate() {
        let begin = begin_at(&spots[i]) as u32;
        let part = read_type(alloc, source, around, &root.ty, begin, MAX_DEPTH + 1)?;
        parts.push(part)?;
    }
    Ok(parts)
}

/// The value for which the bytes at an address stand, of an element of a block with room for so many elements at its end.
pub fn read(
    alloc: Global,
    program: &Program,
    layouts: &Layouts,
    space: &Space,
    ty: &Ty,
    addr: u64,
    capacity: u32,
) -> Result<Value, AllocError>
    requires settled { Settled program.now }
    requires laid { IsLaidOut program.now layouts.now }
    requires within { IsWithin program.now layouts.now }
    requires inside { IsRoomFor program.now layouts.now capacity ty.now space.now addr }
    requires stands { (value : Tree) × StandsFor program.now layouts.now capacity ty.now space.now addr value }
    ensures value { IfOk result (λ v. (value : Tree) → StandsFor program.now layouts.now capacity ty.now space.now addr value → tree_of v ≡ value) }
{
    let source = Source::new(program, layouts, space, addr);
    read_type(alloc, &source, Around::outside(), ty, 0, MAX_DEPTH + 1)
}

/// The values of the roots, for which the bytes from the lowest address on stand, as a `Rec`.
pub fn read_statics(
    alloc: Global,
    program: &Program,
    layouts: &Layouts,
    space: &Space,
) -> Result<Value, AllocError>
    requires settled { Settled program.now }
    requires laid { IsLaidOut program.now layouts.now }
    requires within { IsWithin program.now layouts.now }
    requires inside { IsInside space.now space.now.start layouts.now.statics.size }
    requires stand { (values : Trees) × StandForStatics program.now layouts.now space.now values }
    ensures value { IfOk result (λ v. (values : Trees) → StandForStatics program.now layouts.now space.now values → tree_of v ≡ Rec values) }
{
    let source = Source::new(program, layouts, space, space.start());
    let parts = read_roots(
        alloc,
        &source,
        Around::outside(),
        program.roots.as_slice(),
        layouts.statics.fields.as_slice(),
    )?;
    Ok(Value::Rec(parts))
}
