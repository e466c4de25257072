// Where the numbers lie that expressions read.
ghost use Rattle.std.specs.Prelude.{◌≡◌, ◌<◌, ◌^◌, Some, None, IfSome, MatchOption};
ghost use Rattle.std.specs.Str.{bytes_eq};
ghost use Rattle.std.specs.List.{position_from};
ghost use Rattle.gt_types.specs.declared.program.Structure.{Structure};
ghost use Rattle.gt_types.specs.Contains.{HasStructure, itself};
ghost use Rattle.gt_layout.specs.Storages.{bytes_of};
ghost use Rattle.gt_layout.specs.Places.{begin_at};
ghost use Rattle.gt_tree.specs.Numbers.{is_signed};
ghost use Rattle.gt_value.specs.Reading.{place, shape, shape_of};
ghost use Rattle.gt_edges.specs.Walks.{node_at, field_named, place_named, leaf_at, path_leaf, root_leaf};
ghost use Rattle.gt_tables.specs.Building.{IsSource, around_of};

use crate::sources::{Around, Source};
use gt_layout::FieldSpot;
use gt_types::{Base, Scalar, Ty, TypeId, Width, Word};
use gt_walk::{Origin, RowLeaf};

// A type at a bit, which is counted from the begin of a structure.
#[derive(Clone, Copy)]
struct Cell<'a> {
    ty: &'a Ty,
    at: u64,
}

// How a number is held: with a sign or without, in so many bits.
#[derive(Clone, Copy)]
struct Shape {
    signed: bool,
    width: u8,
}

impl Around {
    // The structure at which a path begins.
    fn node(self, base: Base) -> Option<TypeId>
        ensures { result ≡ node_at (around_of self) base }
    {
        match base {
            Base::Here => self.here,
            Base::Outer => self.outer,
            Base::Outermost => self.outermost,
        }
    }
}

fn bytes_of(scalar: Scalar) -> u8
    ensures is { result ≡ bytes_of scalar }
    ensures small { result < 9 }
{
    match scalar {
        Scalar::Bool => 1,
        Scalar::Int { width, .. } => match width {
            Width::W1 => 1,
            Width::W2 => 2,
            Width::W4 => 4,
            Width::W8 => 8,
        },
    }
}

fn is_signed(scalar: Scalar) -> bool
    ensures { result ≡ is_signed scalar }
{
    match scalar {
        Scalar::Bool => false,
        Scalar::Int { signed, .. } => signed,
    }
}

// How a number of a type is held; None where it is the type of no number.
fn shape_of(ty: &Ty) -> Option<Shape>
    ensures { MatchOption result (shape_of ty.now ≡ None) (λ s. shape_of ty.now ≡ Some (shape s.signed s.width)) }
{
    match ty {
        Ty::Num(scalar) => Some(Shape {
            signed: is_signed(*scalar),
            width: 8 * bytes_of(*scalar),
        }),
        Ty::Bits { unit, count } if *count >= 1 && *count <= 64 => Some(Shape {
            signed: is_signed(*unit),
            width: *count,
        }),
        _ => None,
    }
}

// The first bit of a field, from the begin of its structure.
fn begin_at(spot: &FieldSpot) -> u64
    ensures begin { result ≡ begin_at spot.now }
    ensures small { result < 2 ^ 36 }
{
    8 * spot.offset as u64 + spot.bit as u64
}

// The structure that a type is.
fn node_of(ty: &Ty) -> Option<TypeId>
    ensures { result ≡ itself ty.now }
{
    match ty {
        Ty::Node { id, .. } => Some(*id),
        _ => None,
    }
}

// The place of the first field of a name in a structure.
fn place_of(source: &Source<'_>, node: TypeId, name: &Word) -> Option<u32>
    requires source { IsSource source.now }
    ensures { (s : Structure) → HasStructure source.now.program.now node s → result ≡ position_from (λ f. bytes_eq f.name name.now) 0 s.fields }
{
    source.layouts.names.place(node, name)
}

// The field of a name in a structure.
fn step<'a>(source: &Source<'a>, node: TypeId, name: &Word) -> Option<Cell<'a>>
    requires source { IsSource source.now }
    ensures is { MatchOption result (field_named source.now.program.now source.now.layouts.now.structures node name.now ≡ None) (λ c. field_named source.now.program.now source.now.layouts.now.structures node name.now ≡ Some (place c.ty.now c.at)) }
    ensures small { IfSome result (λ c. c.at < 2 ^ 36) }
{
    let structure = source.program.structures.get(node.0 as usize)?;
    let plane = source.layouts.structures.get(node.0 as usize)?;
    let i = place_of(source, node, name)?;
    let field = structure.fields.get(i as usize)?;
    let spot = plane.fields.get(i as usize)?;
    Some(Cell {
        ty: &field.ty,
        at: begin_at(spot),
    })
}

// The field to which names lead from a structure.
fn walk<'a>(source: &Source<'a>, from: TypeId, steps: &[Word]) -> Option<Cell<'a>>
    requires source { IsSource source.now }
    ensures is { MatchOption result (place_named source.now.program.now source.now.layouts.now.structures from steps.now ≡ None) (λ c. place_named source.now.program.now source.now.layouts.now.structures from steps.now ≡ Some (place c.ty.now c.at)) }
    ensures small { IfSome result (λ c. c.at < 2 ^ 35) }
{
    let [first, rest @ ..] = steps else {
        return None;
    };
    let mut cell = step(source, from, first)?;
    for name in rest {
        let next = step(source, node_of(cell.ty)?, name)?;
        cell = Cell {
            ty: next.ty,
            at: cell.at + next.at,
        };
    }
    Some(cell)
}

// The leaf of the number at a place, where it is one.
fn leaf_of(origin: Origin, ty: &Ty, at: u64) -> Option<RowLeaf>
    requires small { at < 2 ^ 35 }
    ensures { result ≡ leaf_at origin (place ty.now at) }
{
    let shape = shape_of(ty)?;
    Some(RowLeaf {
        origin,
        offset: (at / 8) as u32,
        bit: (at % 8) as u8,
        signed: shape.signed,
        width: shape.width,
    })
}

// The number to which a path leads from a structure around; None where there is none.
pub fn path_leaf(source: &Source<'_>, around: Around, base: Base, steps: &[Word]) -> Option<RowLeaf>
    requires source { IsSource source.now }
    ensures leaf { result ≡ path_leaf source.now.program.now source.now.layouts.now (around_of around) base steps.now }
{
    let cell = walk(source, around.node(base)?, steps)?;
    leaf_of(Origin::Inside(base), cell.ty, cell.at)
}

// The number of a root, which lies at its address; None where it is no number.
pub fn root_leaf(source: &Source<'_>, place: u32) -> Option<RowLeaf>
    requires source { IsSource source.now }
    ensures leaf { result ≡ root_leaf source.now.program.now source.now.layouts.now place }
{
    let root = source.program.roots.get(place as usize)?;
    let spot = source.layouts.statics.fields.get(place as usize)?;
    let at = 8 * source.start as u64 + begin_at(spot);
    leaf_of(Origin::Zero, &root.ty, at)
}
