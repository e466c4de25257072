// The rows of types, and the walks of the parts that they hold.
ghost use Rattle.std.specs.Prelude.{◌≡◌, ◌≤◌, ◌<◌, ◌^◌, ℕ, [], length, flat_map, option_to_list, Some, IfOk, IfSome, OnOk, All};
ghost use Rattle.gt_types.specs.declared.program.Structure.{Structure};
ghost use Rattle.gt_types.specs.Shapes.{dimensions};
ghost use Rattle.gt_types.specs.Contains.{HasStructure};
ghost use Rattle.gt_layout.specs.Progress.{IsWithinDepth, HoldsWithinDepth};
ghost use Rattle.gt_walk.specs.declared.rows.Arm.{out-Arm};
ghost use Rattle.gt_walk.specs.Nested.{parts_in};
ghost use Rattle.gt_types.specs.declared.types.Ty.TheVariants as ty;
ghost use Rattle.gt_tree.specs.LeafLaws.{IsTypeIn};
ghost use Rattle.gt_tables.specs.Building.{IsSource, first_of, parts_of, IsWalkOf, IsRow, AreRows, AreParts, Grows, IsAround, IsPlaced, AreServed, ServesType, ServesPart, ServesStructure, ServesMembers, AddsFields};
ghost use Rattle.gt_tables.specs.Counting.{Counts, with_site};

use crate::forms::{add_row, arm, note, rep_row, sub_row, switch_row, tail_row};
use crate::parts::Parts;
use crate::pointers::{pointer_row, string_row};
use crate::sizes::size_of;
use crate::sources::{Around, Lies, Source};
use gt_layout::FieldSpot;
use gt_types::{Expr, Field, Ty, TypeId};
use gt_walk::{Arm, WalkRow};
use std::alloc::AllocError;

// The row of a type, inside which structures stand less deep than `depth`; None where it has no edges.
#[cycle(rows)]
pub fn type_row(
    source: &Source<'_>,
    parts: &mut Parts,
    lies: Lies,
    ty: &Ty,
    offset: u32,
    depth: usize,
) -> Result<Option<WalkRow>, AllocError>
    requires source { IsSource source.now }
    requires parts { AreParts source.now.program.now parts.old }
    requires served { AreServed source.now parts.old }
    requires placed { IsPlaced source.now.program.now lies ty.now }
    requires typed { IsTypeIn source.now.program.now ty.now }
    requires shallow { HoldsWithinDepth source.now.program.now ty.now depth }
    requires flat { dimensions ty.now ≤ 4 }
    ensures grows { OnOk result (Grows source.now.program.now parts.old parts.new) }
    ensures served { OnOk result (AreServed source.now parts.new) }
    ensures counts { IfOk result (λ row. Counts source.now (HoldsWithinDepth source.now.program.now ty.now) (with_site lies.site) [] (parts_of row) parts.old parts.new) }
    ensures serves { IfOk result (ServesType source.now parts.new.walks.items lies.around ty.now offset) }
    ensures row { IfOk result (λ row. IfSome row (IsRow (first_of source.now) parts.new.walks.items (HoldsWithinDepth source.now.program.now ty.now))) }
{
    match ty {
        Ty::Num(_) | Ty::Bits { .. } | Ty::Opaque { .. } => Ok(None),
        Ty::Str(_) => Ok(Some(string_row(source, offset))),
        Ty::Ptr {
            target,
            kind,
            reorder,
        } => pointer_row(source, lies.around, *target, kind, *reorder, offset),
        Ty::Node { id, desc } => {
            let walk = part_walk(source, parts, lies, *id, desc, depth - 1)?;
            Ok(sub_row(offset, walk))
        }
        Ty::Arr { n, elem } => {
            let row = type_row(source, parts, lies, elem.get(), 0, depth)?;
            let size = size_of(elem.get(), source.layouts);
            rep_row(source, offset, *n, size, row)
        }
        Ty::Tail { len, elem } => {
            let row = type_row(source, parts, lies, elem.get(), 0, depth)?;
            let size = size_of(elem.get(), source.layouts);
            tail_row(source, lies.around, offset, len, size, row)
        }
    }
}

// The walk of a structure by value; None where it has no edges.
#[cycle(rows)]
fn part_walk(
    source: &Source<'_>,
    parts: &mut Parts,
    lies: Lies,
    id: TypeId,
    desc: &Option<Expr>,
    depth: usize,
) -> Result<Option<u32>, AllocError>
    requires source { IsSource source.now }
    requires parts { AreParts source.now.program.now parts.old }
    requires served { AreServed source.now parts.old }
    requires placed { IsPlaced source.now.program.now lies (ty.Node id desc.now) }
    requires there { id.0 < length source.now.program.now.structures }
    requires shallow { IsWithinDepth source.now.program.now id.0 depth }
    ensures grows { OnOk result (Grows source.now.program.now parts.old parts.new) }
    ensures served { OnOk result (AreServed source.now parts.new) }
    ensures counts { IfOk result (λ walk. Counts source.now (HoldsWithinDepth source.now.program.now (ty.Node id desc.now)) (with_site lies.site) [] (option_to_list walk) parts.old parts.new) }
    ensures serves { IfOk result (ServesPart source.now parts.new.walks.items lies.around id desc.now) }
    ensures walk { IfOk result (λ walk. IfSome walk (IsWalkOf source.now.program.now (first_of source.now) parts.new.walks.items id.0)) }
{
    let part = source.part_of(lies, id);
    if let Some(known) = parts.get(part) {
        return Ok(known);
    }
    let inner = lies.around.enter(id);
    let rows = structure_rows(source, parts, inner, id, desc, None, depth)?;
    parts.keep(source.first_part(), part, rows)
}

// The rows of a structure, of which the first is its note. Structures stand inside it at most so deep.
#[cycle(rows)]
pub fn structure_rows(
    source: &Source<'_>,
    parts: &mut Parts,
    inner: Around,
    id: TypeId,
    desc: &Option<Expr>,
    chain: Option<u32>,
    depth: usize,
) -> Result<Vec<WalkRow>, AllocError>
    requires source { IsSource source.now }
    requires parts { AreParts source.now.program.now parts.old }
    requires served { AreServed source.now parts.old }
    requires around { IsAround source.now.program.now inner }
    requires here { inner.here ≡ Some id }
    requires there { id.0 < length source.now.program.now.structures }
    requires shallow { IsWithinDepth source.now.program.now id.0 depth }
    ensures grows { OnOk result (Grows source.now.program.now parts.old parts.new) }
    ensures served { OnOk result (AreServed source.now parts.new) }
    ensures counts { IfOk result (λ rows. Counts source.now (IsWithinDepth source.now.program.now id.0) (λ n. n) [] (flat_map parts_in rows.items) parts.old parts.new) }
    ensures serves { IfOk result (λ rows. ServesStructure source.now parts.new.walks.items inner id desc.now chain rows.items) }
    ensures rows { IfOk result (λ rows. AreRows (first_of source.now) parts.new.walks.items (IsWithinDepth source.now.program.now id.0) rows.items) }
{
    let structure = &source.program.structures.as_slice()[id.0 as usize];
    let plane = &source.layouts.structures.as_slice()[id.0 as usize];
    let fields = structure.fields.as_slice();
    let mut rows = note(source.alloc, plane.size, chain)?;
    if structure.is_union {
        let arms = union_arms(source, parts, inner, id, fields, depth)?;
        let row = switch_row(source, inner, desc, arms)?;
        add_row(&mut rows, row)?;
        return Ok(rows);
    }
    let spots = plane.fields.as_slice();
    add_fields(source, parts, inner, id, fields, spots, &mut rows, depth)?;
    Ok(rows)
}

// Adds the rows of the fields of a struct.
#[cycle(rows)]
fn add_fields(
    source: &Source<'_>,
    parts: &mut Parts,
    inner: Around,
    id: TypeId,
    fields: &[Field],
    spots: &[FieldSpot],
    rows: &mut Vec<WalkRow>,
    depth: usize,
) -> Result<(), AllocError>
    requires source { IsSource source.now }
    requires parts { AreParts source.now.program.now parts.old }
    requires served { AreServed source.now parts.old }
    requires around { IsAround source.now.program.now inner }
    requires here { inner.here ≡ Some id }
    requires fields { (s : Structure) × HasStructure source.now.program.now id s × (s.fields ≡ fields.now) }
    requires few { length fields.now < 2 ^ 32 }
    requires spots { length spots.now ≡ length fields.now }
    requires shallow { All (λ f. HoldsWithinDepth source.now.program.now f.ty depth) fields.now }
    requires flat { All (λ f. dimensions f.ty ≤ 4) fields.now }
    requires deep { (most : ℕ) → IsWithinDepth source.now.program.now id.0 most → All (λ f. HoldsWithinDepth source.now.program.now f.ty most) fields.now }
    requires rows { AreRows (first_of source.now) parts.old.walks.items (IsWithinDepth source.now.program.now id.0) rows.old.items }
    ensures grows { OnOk result (Grows source.now.program.now parts.old parts.new) }
    ensures served { OnOk result (AreServed source.now parts.new) }
    ensures counts { OnOk result (Counts source.now (IsWithinDepth source.now.program.now id.0) (λ n. n) (flat_map parts_in rows.old.items) (flat_map parts_in rows.new.items) parts.old parts.new) }
    ensures adds { OnOk result (AddsFields source.now parts.new.walks.items inner fields.now spots.now rows.old.items rows.new.items) }
    ensures rows { OnOk result (AreRows (first_of source.now) parts.new.walks.items (IsWithinDepth source.now.program.now id.0) rows.new.items) }
{
    for (i, field) in fields.iter().enumerate() {
        let lies = Lies::in_field(inner, id, i);
        let row = type_row(source, parts, lies, &field.ty, spots[i].offset, depth)?;
        add_row(rows, row)?;
    }
    Ok(())
}

// The arms of a union, one for each member.
#[cycle(rows)]
fn union_arms(
    source: &Source<'_>,
    parts: &mut Parts,
    inner: Around,
    id: TypeId,
    fields: &[Field],
    depth: usize,
) -> Result<Vec<Arm>, AllocError>
    requires source { IsSource source.now }
    requires parts { AreParts source.now.program.now parts.old }
    requires served { AreServed source.now parts.old }
    requires around { IsAround source.now.program.now inner }
    requires here { inner.here ≡ Some id }
    requires fields { (s : Structure) × HasStructure source.now.program.now id s × (s.fields ≡ fields.now) }
    requires few { length fields.now < 2 ^ 32 }
    requires shallow { All (λ f. HoldsWithinDepth source.now.program.now f.ty depth) fields.now }
    requires flat { All (λ f. dimensions f.ty ≤ 4) fields.now }
    requires deep { (most : ℕ) → IsWithinDepth source.now.program.now id.0 most → All (λ f. HoldsWithinDepth source.now.program.now f.ty most) fields.now }
    ensures grows { OnOk result (Grows source.now.program.now parts.old parts.new) }
    ensures served { OnOk result (AreServed source.now parts.new) }
    ensures counts { IfOk result (λ arms. Counts source.now (IsWithinDepth source.now.program.now id.0) (λ n. n) [] (flat_map (λ a. parts_of (out-Arm a).row) arms.items) parts.old parts.new) }
    ensures serves { IfOk result (λ arms. ServesMembers source.now parts.new.walks.items inner fields.now arms.items) }
    ensures arms { IfOk result (λ arms. All (λ a. IfSome (out-Arm a).row (IsRow (first_of source.now) parts.new.walks.items (IsWithinDepth source.now.program.now id.0))) arms.items) }
{
    let mut arms = Vec::new(source.alloc);
    for (i, field) in fields.iter().enumerate() {
        let lies = Lies::in_field(inner, id, i);
        let row = type_row(source, parts, lies, &field.ty, 0, depth)?;
        let made = arm(source.alloc, field.active, row)?;
        arms.push(made)?;
    }
    Ok(arms)
}
