// The edge of a pointer, by its type.
use crate::edges::Edge;
use crate::expressions::worth;
use crate::scopes::Around;
use gt_types::{Expr, Program, PtrKind, Target, Ty};
use gt_value::BlockKind;

/// The walks of blocks by their numbers: of n structures, of n pointers to them, of strings, and of what is not walked.
#[derive(Clone, Copy)]
pub struct Numbers {
    structures: u32,
}

impl Numbers {
    pub fn of(program: &Program) -> Numbers {
        Numbers {
            structures: program.structures.len().min(u32::MAX as usize) as u32,
        }
    }

    /// The walk of the blocks to which a pointer leads.
    pub fn of_target(self, target: Target) -> u32 {
        match target {
            Target::Node(id) => id.0,
            Target::Pointers(id) => self.structures.saturating_add(id.0),
            Target::Strings => self.structures.saturating_mul(2),
        }
    }

    /// The walk of the elements of a block.
    pub fn of_kind(self, kind: BlockKind) -> u32 {
        match kind {
            BlockKind::Nodes(id) => self.of_target(Target::Node(id)),
            BlockKind::Pointers(id) => self.of_target(Target::Pointers(id)),
            BlockKind::Strings => self.of_target(Target::Strings),
            BlockKind::Chars | BlockKind::Raw => self.bare(),
        }
    }

    /// The walk of characters and of bytes that are never scanned.
    pub fn bare(self) -> u32 {
        self.structures.saturating_mul(2).saturating_add(1)
    }
}

/// The edge of a pointer of a type that lies at a place and holds an address; None where no such pointer names a block.
pub fn edge_of(
    program: &Program,
    around: &Around<'_>,
    ty: &Ty,
    place: u64,
    target: u64,
) -> Option<Edge> {
    let numbers = Numbers::of(program);
    let (walk, count) = match ty {
        Ty::Str(_) => (numbers.bare(), 0),
        Ty::Ptr {
            target: None,
            kind: PtrKind::Atomic,
            ..
        } => (numbers.bare(), 0),
        Ty::Ptr {
            target: Some(target),
            kind: PtrKind::Plain,
            ..
        } => (numbers.of_target(*target), 1),
        Ty::Ptr {
            target: Some(target),
            kind: PtrKind::Length(len),
            ..
        } => (numbers.of_target(*target), length(program, around, len)?),
        _ => return None,
    };
    Some(Edge {
        place,
        target,
        walk,
        count,
    })
}

// A length where it has a value that is one.
fn length(program: &Program, around: &Around<'_>, len: &Expr) -> Option<u32> {
    u32::try_from(worth(program, len, around)?).ok()
}
