// The leaves of a value, rule by rule.
ghost use Rattle.std.specs.Prelude.{◌≡◌, ◌+◌, ◌*◌, [], ◌∷◌, None, Some, map, IfOk};
ghost use Rattle.std.specs.List.{filter};
ghost use Rattle.gt_types.specs.Shapes.{is_pointer};
ghost use Rattle.gt_layout.specs.Places.{begin_at};
ghost use Rattle.gt_layout.specs.Storages.{bytes_of, extent_of};
ghost use Rattle.gt_tree.specs.Leaves.{Number, leaf, byte_leaves, is_number};
ghost use Rattle.gt_tree.specs.Trees.{Num, Raw, Rec, Alt, Row, End};
ghost use Rattle.gt_value.specs.Values.{trees, tree_of};
ghost use Rattle.value_notation.specs.Trials.{IsReady};
ghost use Rattle.stand_table.specs.Leaves.{leaf_of, leaves_in};
ghost use Rattle.stand_table.specs.Walks.{AreLeaves, AreOfFields, AreOfElements, AreOfCommon, pointer_tree};

use crate::leaves::{Content, Leaf, LeafStop};
use gt_layout::{FieldSpot, MAX_SIZE, extent};
use gt_types::{Field, Scalar, Ty, TypeId, Width};
use gt_value::{Value, common_structure};
use std::alloc::Global;
use value_notation::Sample;

// ---- places

// The bit that lies so many after another.
fn bit_after(at: u64, bits: u64) -> Result<u64, LeafStop>
    ensures { IfOk result (λ bit. bit ≡ at + bits) }
{
    match at.checked_add(bits) {
        Some(bit) => Ok(bit),
        None => Err(LeafStop::TooLarge),
    }
}

// The bit at which a field begins in a structure that begins at a bit.
fn field_begin(at: u64, spot: FieldSpot) -> Result<u64, LeafStop>
    ensures { IfOk result (λ bit. bit ≡ at + begin_at spot) }
{
    bit_after(at, 8 * spot.offset as u64 + spot.bit as u64)
}

// How many bits lie from one element of an array to the next.
fn stride(on: &Sample, elem: &Ty) -> Result<u64, LeafStop>
    ensures { IfOk result (λ bits. bits ≡ 8 * (extent_of on.now.layouts.structures elem.now).size) }
{
    let size = extent(elem, on.layouts.structures.as_slice()).size;
    if size > MAX_SIZE {
        return Err(LeafStop::TooLarge);
    }
    Ok(8 * size as u64)
}

// ---- numbers, pointers and bytes

// How many bits a number takes.
fn bit_count(number: Scalar) -> u32
    ensures { result ≡ 8 * bytes_of number }
{
    match number {
        Scalar::Bool => 8,
        Scalar::Int { width, .. } => match width {
            Width::W1 => 8,
            Width::W2 => 16,
            Width::W4 => 32,
            Width::W8 => 64,
        },
    }
}

// One leaf.
fn one_leaf(alloc: Global, leaf: Leaf) -> Result<Vec<Leaf>, LeafStop>
    ensures { IfOk result (λ leaves. leaves.items ≡ leaf ∷ []) }
{
    Ok(vec![in alloc; leaf]?)
}

// A number as a leaf.
fn number(at: u64, width: u32, n: i128) -> Leaf
    ensures { leaf_of result ≡ leaf at width (Number n) }
{
    Leaf {
        at,
        width,
        content: Content::Number(n),
    }
}

// The leaf of a number or a bit-field.
fn number_leaf(on: &Sample, at: u64, ty: &Ty, n: i128) -> Result<Vec<Leaf>, LeafStop>
    ensures { IfOk result (λ leaves. AreLeaves on.now at ty.now (Num n) leaves.items) }
{
    match ty {
        Ty::Num(scalar) => {
            let width = bit_count(*scalar);
            one_leaf(on.alloc, number(at, width, n))
        }
        Ty::Bits { count, .. } => {
            let width = *count as u32;
            one_leaf(on.alloc, number(at, width, n))
        }
        _ => Err(LeafStop::NoLeaves),
    }
}

// Whether a type is a pointer's or a string's.
fn is_pointer(ty: &Ty) -> bool
    ensures { result ≡ is_pointer ty.now }
{
    match ty {
        Ty::Str(_) | Ty::Ptr { .. } => true,
        _ => false,
    }
}

// The leaf of a pointer or a string.
fn pointer_leaf(on: &Sample, at: u64, ty: &Ty, address: Option<u64>) -> Result<Vec<Leaf>, LeafStop>
    ensures { IfOk result (λ leaves. AreLeaves on.now at ty.now (pointer_tree address) leaves.items) }
{
    if !is_pointer(ty) {
        return Err(LeafStop::NoLeaves);
    }
    let leaf = Leaf {
        at,
        width: 64,
        content: Content::Pointer(address),
    };
    one_leaf(on.alloc, leaf)
}

// A leaf for each byte.
fn byte_leaves(on: &Sample, at: u64, bytes: &[u8]) -> Result<Vec<Leaf>, LeafStop>
    ensures { IfOk result (λ leaves. leaves_in leaves.items ≡ byte_leaves at bytes.now) }
{
    let mut leaves = Vec::new(on.alloc);
    let mut begin = at;
    for byte in bytes {
        leaves.push(Leaf {
            at: begin,
            width: 8,
            content: Content::Number(*byte as i128),
        })?;
        begin = bit_after(begin, 8)?;
    }
    Ok(leaves)
}

// The leaves of bytes that are never scanned.
fn opaque_leaves(on: &Sample, at: u64, ty: &Ty, bytes: &[u8]) -> Result<Vec<Leaf>, LeafStop>
    ensures { IfOk result (λ leaves. AreLeaves on.now at ty.now (Raw bytes.now) leaves.items) }
{
    match ty {
        Ty::Opaque { .. } => byte_leaves(on, at, bytes),
        _ => Err(LeafStop::NoLeaves),
    }
}

// ---- values

/// The leaves of a value of a type that begins at a bit.
#[cycle(leaves)]
pub fn leaves_of(value: &Value, on: &Sample, at: u64, ty: &Ty) -> Result<Vec<Leaf>, LeafStop>
    requires ready { IsReady on.now.program on.now.layouts }
    ensures { IfOk result (λ leaves. AreLeaves on.now at ty.now (tree_of value.now) leaves.items) }
{
    match value {
        Value::Num(n) => number_leaf(on, at, ty, *n),
        Value::Null => pointer_leaf(on, at, ty, None),
        Value::To(address) => pointer_leaf(on, at, ty, Some(*address)),
        Value::Raw(bytes) => opaque_leaves(on, at, ty, bytes.as_slice()),
        Value::Rec(parts) => struct_leaves(parts.as_slice(), on, at, ty),
        Value::Alt { member, value } => match member {
            Some(place) => member_leaves(value.get(), on, at, ty, *place),
            None => memberless_leaves(value.get(), on, at, ty),
        },
        Value::Row(parts) => array_leaves(parts.as_slice(), on, at, ty),
    }
}

// The leaves of the fields of a struct.
#[cycle(leaves)]
fn struct_leaves(parts: &[Value], on: &Sample, at: u64, ty: &Ty) -> Result<Vec<Leaf>, LeafStop>
    requires ready { IsReady on.now.program on.now.layouts }
    ensures { IfOk result (λ leaves. AreLeaves on.now at ty.now (Rec (trees (map tree_of parts.now))) leaves.items) }
{
    let Ty::Node { id, .. } = ty else {
        return Err(LeafStop::NoLeaves);
    };
    let Some(structure) = on.program.structures.get(id.0 as usize) else {
        return Err(LeafStop::NoLeaves);
    };
    let Some(plane) = on.layouts.structures.get(id.0 as usize) else {
        return Err(LeafStop::NoLeaves);
    };
    if structure.is_union {
        return Err(LeafStop::NoLeaves);
    }
    let fields = structure.fields.as_slice();
    field_leaves(parts, on, at, fields, plane.fields.as_slice())
}

// The leaves of values of fields at their places, one after another.
#[cycle(leaves)]
fn field_leaves(
    parts: &[Value],
    on: &Sample,
    at: u64,
    fields: &[Field],
    spots: &[FieldSpot],
) -> Result<Vec<Leaf>, LeafStop>
    requires ready { IsReady on.now.program on.now.layouts }
    ensures { IfOk result (λ leaves. AreOfFields on.now at fields.now spots.now parts.now leaves.items) }
{
    if parts.len() != fields.len() || spots.len() != fields.len() {
        return Err(LeafStop::NoLeaves);
    }
    let mut leaves = Vec::new(on.alloc);
    for (i, part) in parts.iter().enumerate() {
        let begin = field_begin(at, spots[i])?;
        let mut more = leaves_of(part, on, begin, &fields[i].ty)?;
        leaves.append(&mut more)?;
    }
    Ok(leaves)
}

// The leaves of the active member of a union.
#[cycle(leaves)]
fn member_leaves(
    there: &Value,
    on: &Sample,
    at: u64,
    ty: &Ty,
    place: u32,
) -> Result<Vec<Leaf>, LeafStop>
    requires ready { IsReady on.now.program on.now.layouts }
    ensures { IfOk result (λ leaves. AreLeaves on.now at ty.now (Alt (Some place) (tree_of there.now)) leaves.items) }
{
    let Ty::Node { id, .. } = ty else {
        return Err(LeafStop::NoLeaves);
    };
    let Some(structure) = on.program.structures.get(id.0 as usize) else {
        return Err(LeafStop::NoLeaves);
    };
    if !structure.is_union {
        return Err(LeafStop::NoLeaves);
    }
    match structure.fields.get(place as usize) {
        Some(field) => leaves_of(there, on, at, &field.ty),
        None => Err(LeafStop::NoLeaves),
    }
}

// The leaves of a union in which no member is active: those of its common structure.
#[cycle(leaves)]
fn memberless_leaves(there: &Value, on: &Sample, at: u64, ty: &Ty) -> Result<Vec<Leaf>, LeafStop>
    requires ready { IsReady on.now.program on.now.layouts }
    ensures { IfOk result (λ leaves. AreLeaves on.now at ty.now (Alt None (tree_of there.now)) leaves.items) }
{
    let Ty::Node { id, .. } = ty else {
        return Err(LeafStop::NoLeaves);
    };
    let Some(structure) = on.program.structures.get(id.0 as usize) else {
        return Err(LeafStop::NoLeaves);
    };
    if !structure.is_union {
        return Err(LeafStop::NoLeaves);
    }
    match common_structure(&on.program, &on.layouts, *id, structure) {
        Some(common) => common_leaves(there, on, at, common),
        None => nothing_leaves(there, on),
    }
}

// No leaves, where a value has no part.
fn nothing_leaves(there: &Value, on: &Sample) -> Result<Vec<Leaf>, LeafStop>
    ensures { IfOk result (λ leaves. (tree_of there.now ≡ Rec End) × (leaves.items ≡ [])) }
{
    match there {
        Value::Rec(parts) if parts.is_empty() => Ok(Vec::new(on.alloc)),
        _ => Err(LeafStop::NoLeaves),
    }
}

// The leaves of the common structure of a union, without its pointers.
#[cycle(leaves)]
fn common_leaves(there: &Value, on: &Sample, at: u64, common: TypeId) -> Result<Vec<Leaf>, LeafStop>
    requires ready { IsReady on.now.program on.now.layouts }
    ensures { IfOk result (λ leaves. AreOfCommon on.now at common (tree_of there.now) leaves.items) }
{
    let ty = Ty::Node {
        id: common,
        desc: None,
    };
    let inner = leaves_of(there, on, at, &ty)?;
    numbers_among(on, inner.as_slice())
}

// The leaves that are numbers.
fn numbers_among(on: &Sample, leaves: &[Leaf]) -> Result<Vec<Leaf>, LeafStop>
    ensures { IfOk result (λ numbers. leaves_in numbers.items ≡ filter is_number (leaves_in leaves.now)) }
{
    let mut numbers = Vec::new(on.alloc);
    for leaf in leaves {
        match leaf.content {
            Content::Number(_) => numbers.push(*leaf)?,
            Content::Pointer(_) => {}
        }
    }
    Ok(numbers)
}

// The leaves of an array, or of one with a length at the end of a structure.
#[cycle(leaves)]
fn array_leaves(parts: &[Value], on: &Sample, at: u64, ty: &Ty) -> Result<Vec<Leaf>, LeafStop>
    requires ready { IsReady on.now.program on.now.layouts }
    ensures { IfOk result (λ leaves. AreLeaves on.now at ty.now (Row (trees (map tree_of parts.now))) leaves.items) }
{
    match ty {
        Ty::Arr { elem, .. } => element_leaves(parts, on, at, elem.get()),
        Ty::Tail { elem, .. } => element_leaves(parts, on, at, elem.get()),
        _ => Err(LeafStop::NoLeaves),
    }
}

// The leaves of elements, one after another.
#[cycle(leaves)]
fn element_leaves(parts: &[Value], on: &Sample, at: u64, elem: &Ty) -> Result<Vec<Leaf>, LeafStop>
    requires ready { IsReady on.now.program on.now.layouts }
    ensures { IfOk result (λ leaves. AreOfElements on.now at elem.now parts.now leaves.items) }
{
    let bits = stride(on, elem)?;
    let mut leaves = Vec::new(on.alloc);
    let mut begin = at;
    for part in parts {
        let mut more = leaves_of(part, on, begin, elem)?;
        leaves.append(&mut more)?;
        begin = bit_after(begin, bits)?;
    }
    Ok(leaves)
}
