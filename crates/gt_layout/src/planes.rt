// The types of a layout.
use gt_fields::FieldNames;
use gt_types::List;
use gt_unions::Unions;
use std::alloc::AllocError;

/// The most bytes that a structure without its tail elements, one of its tail elements, or the static record may take.
pub const MAX_SIZE: u32 = 1048576;

/// The size and the alignment of a type, in bytes. A size above [`MAX_SIZE`] is held as one more than it.
#[derive(Clone, Copy, Debug, PartialEq, Eq)]
pub struct Extent {
    pub size: u32,
    pub align: u32,
}

/// Where a field begins: `offset` is in bytes from the start of the structure. For a bit-field it is the offset of its
/// aligned storage unit, and `bit` its first bit in that unit, counted from the lowest; for any other field `bit` is 0.
#[derive(Clone, Copy, Debug, PartialEq, Eq)]
pub struct FieldSpot {
    pub offset: u32,
    pub bit: u8,
}

/// The layout of a structure: its size and alignment in bytes, and where each field begins, in the order of the fields.
/// An array with a length at its end adds nothing to the size. A structure that is larger than [`MAX_SIZE`] is held with
/// one more than that, its alignment and no fields. Alignment 0 marks what is not laid out yet.
#[derive(Debug, Drop)]
pub struct Plane {
    pub size: u32,
    pub align: u32,
    pub fields: List<FieldSpot>,
}

/// Where an array with a length begins inside a structure, in bytes from its start, and the bytes of one of its elements.
#[derive(Clone, Copy, Debug, PartialEq, Eq)]
pub struct TailSpot {
    pub offset: u32,
    pub elem_size: u32,
}

/// How a structure grows with the number of elements for which there is room at its end: for each size of elements, once and in
/// rising order, the last place at which an array with a length of such elements begins inside it. A structure without such an
/// array has none, and does not grow.
#[derive(Debug, Drop)]
pub struct Growth {
    pub tails: List<TailSpot>,
}

/// The layouts of the structures of a program, by place, and of the static record, which is a struct of the roots; the names of
/// the fields, by which they are found; the members of the unions, by their tags; and how each structure grows, by place.
#[derive(Drop)]
pub struct Layouts {
    pub structures: List<Plane>,
    pub statics: Plane,
    pub names: FieldNames,
    pub unions: Unions,
    pub growths: List<Growth>,
}

/// Why a program is not laid out: out of memory, or something is too large. That is the first structure which is too
/// large, or has a tail element which is, and the first root whose end is beyond the limit, where there are such.
#[derive(Clone, Copy, Debug, PartialEq, Eq, Drop)]
pub enum LayoutStop {
    Memory,
    TooLarge {
        structure: Option<u32>,
        root: Option<u32>,
    },
}

impl From<AllocError> for LayoutStop {
    ghost use Rattle.std.specs.Prelude.{◌≡◌};
    ghost use Rattle.gt_layout.specs.declared.planes.LayoutStop.TheVariants.{Memory};

    ghost from_gives = { λ _ stop. stop ≡ Memory };

    fn from(_: AllocError) -> LayoutStop {
        LayoutStop::Memory
    }
}
