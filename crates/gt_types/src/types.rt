ghost use Rattle.std.specs.Prelude.{◌≡◌, IfOk};

use crate::{Copied, Expr};
use sqlite_items::Boxed;
use std::alloc::{AllocError, Global};

/// A structure, by its place in the program.
#[derive(Clone, Copy, Debug, PartialEq, Eq)]
pub struct TypeId(pub u32);

/// How many bytes a number takes.
#[derive(Clone, Copy, Debug, PartialEq, Eq)]
pub enum Width {
    W1,
    W2,
    W4,
    W8,
}

/// A number's type: a `bool` of one byte, or an integer.
#[derive(Clone, Copy, Debug, PartialEq, Eq)]
pub enum Scalar {
    Bool,
    Int { width: Width, signed: bool },
}

/// What a pointer to a block points to: structures, pointers to a structure, or strings.
#[derive(Clone, Copy, Debug, PartialEq, Eq)]
pub enum Target {
    Node(TypeId),
    Pointers(TypeId),
    Strings,
}

/// How the block of a pointer is known: one single object, as many elements as the expression says, a block that is
/// never scanned, or a structure that is not defined.
#[derive(Debug, Drop)]
pub enum PtrKind {
    Plain,
    Length(Expr),
    Atomic,
    Undef,
}

/// A resolved type.
#[derive(Debug, Drop)]
pub enum Ty {
    /// A number.
    Num(Scalar),
    /// A bit-field of `count` bits of its unit.
    Bits {
        unit: Scalar,
        count: u8,
    },
    /// Bytes that are never scanned; size and alignment in bytes.
    Opaque {
        size: u32,
        align: u32,
    },
    /// A string; the expression of `string_length`, where there is one.
    Str(Option<Expr>),
    /// A pointer; Atomic and Undef have no target.
    Ptr {
        target: Option<Target>,
        kind: PtrKind,
        reorder: bool,
    },
    /// A structure by value; the `desc` that is used, which a struct has not.
    Node {
        id: TypeId,
        desc: Option<Expr>,
    },
    /// An array of `n` elements.
    Arr {
        n: u32,
        elem: Boxed<Ty>,
    },
    /// The array with `length` at a structure's end.
    Tail {
        len: Expr,
        elem: Boxed<Ty>,
    },
}

/// The same expression again, where there is one. Its only error is out of memory.
pub(crate) fn copy_of(alloc: Global, expression: &Option<Expr>) -> Result<Option<Expr>, AllocError>
    ensures same { IfOk result (λ made. made ≡ expression.now) }
{
    match expression {
        None => Ok(None),
        Some(e) => Ok(Some(e.copy(alloc)?)),
    }
}

impl Copied for PtrKind {
    fn copy(&self, alloc: Global) -> Result<PtrKind, AllocError> {
        match self {
            PtrKind::Plain => Ok(PtrKind::Plain),
            PtrKind::Length(count) => Ok(PtrKind::Length(count.copy(alloc)?)),
            PtrKind::Atomic => Ok(PtrKind::Atomic),
            PtrKind::Undef => Ok(PtrKind::Undef),
        }
    }
}

impl Copied for Ty {
    fn copy(&self, alloc: Global) -> Result<Ty, AllocError> {
        match self {
            Ty::Num(scalar) => Ok(Ty::Num(*scalar)),
            Ty::Bits { unit, count } => Ok(Ty::Bits {
                unit: *unit,
                count: *count,
            }),
            Ty::Opaque { size, align } => Ok(Ty::Opaque {
                size: *size,
                align: *align,
            }),
            Ty::Str(length) => Ok(Ty::Str(copy_of(alloc, length)?)),
            Ty::Ptr {
                target,
                kind,
                reorder,
            } => Ok(Ty::Ptr {
                target: *target,
                kind: kind.copy(alloc)?,
                reorder: *reorder,
            }),
            Ty::Node { id, desc } => Ok(Ty::Node {
                id: *id,
                desc: copy_of(alloc, desc)?,
            }),
            Ty::Arr { n, elem } => Ok(Ty::Arr {
                n: *n,
                elem: Boxed::new(alloc, elem.get().copy(alloc)?)?,
            }),
            Ty::Tail { len, elem } => Ok(Ty::Tail {
                len: len.copy(alloc)?,
                elem: Boxed::new(alloc, elem.get().copy(alloc)?)?,
            }),
        }
    }
}
