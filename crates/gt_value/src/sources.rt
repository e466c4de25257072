// Where values are read, and where paths of names lead there.
ghost use Rattle.std.specs.Prelude.{◌≡◌, ◌≤◌, ◌<◌, ◌+◌, ◌-◌, ◌^◌, length, Some, None, MatchOption};
ghost use Rattle.std.specs.Str.{bytes_eq};
ghost use Rattle.std.specs.List.{position_from};
ghost use Rattle.gt_types.specs.declared.program.Structure.{Structure};
ghost use Rattle.gt_types.specs.Contains.{itself, HasStructure};
ghost use Rattle.gt_types.specs.Values.{within_i64};
ghost use Rattle.gt_fields.specs.FieldNames.{field_names};
ghost use Rattle.gt_layout.specs.Storages.{bytes_of};
ghost use Rattle.gt_layout.specs.Places.{begin_at};
ghost use Rattle.gt_tree.specs.Numbers.{is_signed};
ghost use Rattle.gt_value.specs.Reading.{end_from, shape_of, number_in, place, place_field, step_to, walk_to, anchor_of, outside_all, entered, without_pointers};

use crate::bits::number_at;
use gt_layout::{FieldSpot, Layouts};
use gt_space::Space;
use gt_types::{Base, Field, Program, Scalar, Ty, TypeId, Width, Word};

/// The bytes of a space from a place on, which is counted from its lowest address, and the types by which they are read.
#[derive(Clone, Copy)]
pub struct Source<'a> {
    pub program: &'a Program,
    pub layouts: &'a Layouts,
    pub space: &'a Space,
    pub from: u64,
}

/// A structure, and the bit at which it begins.
#[derive(Clone, Copy)]
pub struct Anchor {
    pub node: TypeId,
    pub at: u32,
}

/// The structures around a part of a value: the innermost, the one that contains it, and the outermost. Where no member of a union
/// is active, its part is not whole: the pointers in it are null, and not read.
#[derive(Clone, Copy)]
pub struct Around {
    pub here: Option<Anchor>,
    pub outer: Option<Anchor>,
    pub outermost: Option<Anchor>,
    pub whole: bool,
}

/// How a number is held: with a sign or without, in so many bits.
#[derive(Clone, Copy)]
pub struct Shape {
    pub signed: bool,
    pub width: u32,
}

/// A type at a bit.
#[derive(Clone, Copy)]
pub struct Cell<'a> {
    pub ty: &'a Ty,
    pub at: u32,
}

impl Around {
    /// Outside every structure.
    pub fn outside() -> Around
        ensures { result ≡ outside_all }
    {
        Around {
            here: None,
            outer: None,
            outermost: None,
            whole: true,
        }
    }

    /// Inside a structure that begins at a bit.
    pub fn enter(self, node: TypeId, at: u32) -> Around
        ensures { result ≡ entered self node at }
    {
        let anchor = Anchor { node, at };
        Around {
            here: Some(anchor),
            outer: self.here,
            outermost: match self.outermost {
                Some(outermost) => Some(outermost),
                None => Some(anchor),
            },
            whole: self.whole,
        }
    }

    /// The same, in a part that is not whole.
    pub fn without_pointers(self) -> Around
        ensures { result ≡ without_pointers self }
    {
        Around {
            whole: false,
            ..self
        }
    }

    /// The structure at which a path begins.
    pub fn anchor(self, base: Base) -> Option<Anchor>
        ensures { result ≡ anchor_of self base }
    {
        match base {
            Base::Here => self.here,
            Base::Outer => self.outer,
            Base::Outermost => self.outermost,
        }
    }
}

pub fn bytes_of(scalar: Scalar) -> u32
    ensures { result ≡ bytes_of scalar }
{
    match scalar {
        Scalar::Bool => 1,
        Scalar::Int { width, .. } => match width {
            Width::W1 => 1,
            Width::W2 => 2,
            Width::W4 => 4,
            Width::W8 => 8,
        },
    }
}

fn is_signed(scalar: Scalar) -> bool
    ensures { result ≡ is_signed scalar }
{
    match scalar {
        Scalar::Bool => false,
        Scalar::Int { signed, .. } => signed,
    }
}

/// How a number of a type is held; None where it is the type of no number.
pub fn shape_of(ty: &Ty) -> Option<Shape>
    ensures { result ≡ shape_of ty.now }
{
    match ty {
        Ty::Num(scalar) => Some(Shape {
            signed: is_signed(*scalar),
            width: 8 * bytes_of(*scalar),
        }),
        Ty::Bits { unit, count } if *count >= 1 && *count <= 64 => Some(Shape {
            signed: is_signed(*unit),
            width: *count as u32,
        }),
        _ => None,
    }
}

/// How many bits the space has from a place on.
pub fn end_from(space: &Space, from: u64) -> u64
    ensures end { result ≡ end_from space.now from }
    ensures small { result < 2 ^ 32 }
{
    let _ = space.start();
    8 * space.len().saturating_sub(from)
}

/// The number of a type at a bit, where it ends inside the space.
pub fn number_in(space: &Space, from: u64, ty: &Ty, at: u64) -> Option<i128>
    requires { at < 2 ^ 63 }
    ensures { result ≡ number_in space.now from (place ty.now at) }
{
    let shape = shape_of(ty)?;
    if at + shape.width as u64 > end_from(space, from) {
        return None;
    }
    Some(number_at(space, from, at, shape.signed, shape.width))
}

/// A number that an i64 holds.
pub fn within_i64(n: i128) -> Option<i64>
    ensures { result ≡ within_i64 n }
{
    if n >= i64::MIN as i128 && n <= i64::MAX as i128 {
        Some(n as i64)
    } else {
        None
    }
}

impl<'a> Source<'a> {
    /// The bytes from an address on.
    pub fn new(
        program: &'a Program,
        layouts: &'a Layouts,
        space: &'a Space,
        addr: u64,
    ) -> Source<'a>
        requires { space.now.start ≤ addr }
        ensures program { result.program.now ≡ program.now }
        ensures layouts { result.layouts.now ≡ layouts.now }
        ensures space { result.space.now ≡ space.now }
        ensures place { result.from ≡ addr - space.now.start }
        ensures small { end_from result.space.now result.from < 2 ^ 32 }
        ensures near { space.now.start + length space.now.bytes < 2 ^ 32 }
    {
        Source {
            program,
            layouts,
            space,
            from: addr - space.start(),
        }
    }

    // The place of the first field of a name in a structure.
    fn find_field(&self, node: TypeId, name: &Word) -> Option<u32>
        requires named { self.now.layouts.now.names ≡ field_names self.now.program.now.structures }
        ensures { (s : Structure) → HasStructure self.now.program.now node s → result ≡ position_from (λ f. bytes_eq f.name name.now) 0 s.fields }
    {
        self.layouts.names.place(node, name)
    }

    // The field of a name in a structure that begins at a bit, where it begins inside the space.
    fn step(&self, end: u32, node: TypeId, at: u32, name: &Word) -> Option<Cell<'a>>
        requires named { self.now.layouts.now.names ≡ field_names self.now.program.now.structures }
        ensures { MatchOption result (step_to self.now.program.now self.now.layouts.now.structures end node at name.now ≡ None) (λ c. step_to self.now.program.now self.now.layouts.now.structures end node at name.now ≡ Some (place c.ty.now c.at)) }
    {
        let structure = self.program.structures.get(node.0 as usize)?;
        let plane = self.layouts.structures.get(node.0 as usize)?;
        let i = self.find_field(node, name)?;
        place_field(
            structure.fields.as_slice(),
            plane.fields.as_slice(),
            end,
            at,
            i as usize,
        )
    }

    /// The place to which names lead from a structure.
    pub fn walk(&self, end: u32, from: Anchor, steps: &[Word]) -> Option<Cell<'a>>
        requires named { self.now.layouts.now.names ≡ field_names self.now.program.now.structures }
        ensures { MatchOption result (walk_to self.now.program.now self.now.layouts.now.structures end from steps.now ≡ None) (λ c. walk_to self.now.program.now self.now.layouts.now.structures end from steps.now ≡ Some (place c.ty.now c.at)) }
    {
        let [first, rest @ ..] = steps else {
            return None;
        };
        let mut cell = self.step(end, from.node, from.at, first)?;
        for name in rest {
            cell = self.step(end, node_of(cell.ty)?, cell.at, name)?;
        }
        Some(cell)
    }
}

// The field at a place in a structure that begins at a bit, where it begins inside the space.
fn place_field<'a>(
    fields: &'a [Field],
    spots: &[FieldSpot],
    end: u32,
    at: u32,
    i: usize,
) -> Option<Cell<'a>>
    ensures { MatchOption result (place_field fields.now spots.now end at i ≡ None) (λ c. place_field fields.now spots.now end at i ≡ Some (place c.ty.now c.at)) }
{
    let field = fields.get(i)?;
    let spot = spots.get(i)?;
    let begin = at as u64 + begin_at(spot);
    if begin > end as u64 {
        return None;
    }
    Some(Cell {
        ty: &field.ty,
        at: begin as u32,
    })
}

// The first bit of a field, from the begin of its structure.
pub fn begin_at(spot: &FieldSpot) -> u64
    ensures begin { result ≡ begin_at spot.now }
    ensures small { result < 2 ^ 36 }
{
    8 * spot.offset as u64 + spot.bit as u64
}

// The structure that a type is.
fn node_of(ty: &Ty) -> Option<TypeId>
    ensures { result ≡ itself ty.now }
{
    match ty {
        Ty::Node { id, .. } => Some(*id),
        _ => None,
    }
}
