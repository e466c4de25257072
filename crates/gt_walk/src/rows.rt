// The rows of walks.
use gt_types::{Active, Base, Boxed, Expr, List};

/// From where an offset counts: a structure around the row, or address 0.
#[derive(Clone, Copy, Debug, PartialEq, Eq)]
pub enum Origin {
    Inside(Base),
    Zero,
}

/// A number that an expression reads: from where, how many bytes on it lies, its first bit there, its sign and its bits.
#[derive(Clone, Copy, Debug, PartialEq, Eq)]
pub struct RowLeaf {
    pub origin: Origin,
    pub offset: u32,
    pub bit: u8,
    pub signed: bool,
    pub width: u8,
}

/// An expression over numbers at places: `Root(i)` reads the i-th of them.
#[derive(Debug, Drop)]
pub struct RowExpr {
    pub expr: Expr,
    pub leaves: List<RowLeaf>,
}

/// How many elements the block has that a pointer names.
#[derive(Debug, Drop)]
pub enum Count {
    Fixed(u32),
    Length(RowExpr),
}

/// A member of a union and its row.
#[derive(Debug, Drop)]
#[cycle(rows)]
pub struct Arm {
    pub active: Active,
    pub row: Option<Boxed<WalkRow>>,
}

/// A row of a walk.
#[derive(Debug, Drop)]
#[cycle(rows)]
pub enum WalkRow {
    Note {
        size: u32,
        chain: Option<u32>,
    },
    Ptr {
        offset: u32,
        walk: u32,
        count: Count,
        reorder: bool,
    },
    Sub {
        offset: u32,
        walk: u32,
    },
    Rep {
        offset: u32,
        n: u32,
        size: u32,
        elem: Boxed<WalkRow>,
    },
    Tail {
        offset: u32,
        len: RowExpr,
        size: u32,
        elem: Boxed<WalkRow>,
    },
    Switch {
        desc: RowExpr,
        arms: Vec<Arm>,
    },
}
