// Which structures are of a tail type.
ghost use Rattle.std.specs.Prelude.{◌≡◌, ◌<◌, ◌↔◌, IfOk, IsTrue, All, Any, is_some, length};
ghost use Rattle.std.specs.Bool.{Decides};
ghost use Rattle.gt_types.specs.declared.program.Program.{Program};
ghost use Rattle.gt_types.specs.Settled.{Settled};
ghost use Rattle.gt_types.specs.Tails.{IsTailType, elements_of, tail_of};
ghost use Rattle.gt_layout.specs.Progress.{IsWithinDepth, HoldsWithinDepth};
ghost use Rattle.gt_held.specs.Tails.{AreTailTypesOf, AreKnownTails, IsTailMember, IsTailAt};

use gt_types::{Field, MAX_DEPTH, Program, Structure, Ty, TypeId};
use std::alloc::{AllocError, Global};

/// Which structures of a program are of a tail type.
#[derive(Drop)]
pub struct TailTypes {
    tails: Vec<bool>,
}

// Whether a type is an array with a length.
fn has_length(ty: &Ty) -> bool
    ensures { result ≡ is_some (elements_of ty.now) }
{
    match ty {
        Ty::Tail { .. } => true,
        _ => false,
    }
}

// Whether the last of the fields is an array with a length.
fn ends_in_tail(fields: &[Field]) -> bool
    ensures { result ≡ is_some (tail_of fields.now) }
{
    match fields {
        [.., last] => has_length(&last.ty),
        [] => false,
    }
}

// Whether a structure is of a tail type. That is found out once, and then read.
#[cycle(tails)]
fn is_tail(program: &Program, place: usize, depth: usize, known: &mut Vec<Option<bool>>) -> bool
    requires settled { Settled program.now }
    requires inside { place < length program.now.structures }
    requires shallow { IsWithinDepth program.now place depth }
    requires known { AreKnownTails program.now known.old.items }
    ensures tail { Decides result (IsTailAt program.now place) }
    ensures known { AreKnownTails program.now known.new.items }
{
    if let Some(found) = known[place] {
        return found;
    }
    let structure = &program.structures.as_slice()[place];
    let fields = structure.fields.as_slice();
    let found = if structure.is_union {
        has_tail(program, fields, depth, known)
    } else {
        ends_in_tail(fields)
    };
    known[place] = Some(found);
    found
}

// Whether some member of a union is of a tail type.
#[cycle(tails)]
fn has_tail(
    program: &Program,
    fields: &[Field],
    depth: usize,
    known: &mut Vec<Option<bool>>,
) -> bool
    requires settled { Settled program.now }
    requires shallow { All (λ f. HoldsWithinDepth program.now f.ty depth) fields.now }
    requires known { AreKnownTails program.now known.old.items }
    ensures tail { Decides result (Any (IsTailMember program.now) fields.now) }
    ensures known { AreKnownTails program.now known.new.items }
{
    for field in fields {
        if is_tail_member(program, field, depth, known) {
            return true;
        }
    }
    false
}

// Whether a member of a union is of a tail type.
#[cycle(tails)]
fn is_tail_member(
    program: &Program,
    field: &Field,
    depth: usize,
    known: &mut Vec<Option<bool>>,
) -> bool
    requires settled { Settled program.now }
    requires shallow { HoldsWithinDepth program.now field.now.ty depth }
    requires known { AreKnownTails program.now known.old.items }
    ensures tail { Decides result (IsTailMember program.now field.now) }
    ensures known { AreKnownTails program.now known.new.items }
{
    match &field.ty {
        Ty::Node { id, .. } => is_tail(program, id.0 as usize, depth - 1, known),
        _ => false,
    }
}

// So many structures of which nothing is known yet.
fn empty_memo(alloc: Global, program: &Program) -> Result<Vec<Option<bool>>, AllocError>
    ensures known { IfOk result (λ known. AreKnownTails program.now known.items) }
{
    let mut known = Vec::new(alloc);
    for _ in 0..program.structures.len() {
        known.push(None)?;
    }
    Ok(known)
}

impl TailTypes {
    /// Which structures of a program are of a tail type. It looks at each field once. It fails only if memory runs out.
    pub fn of(alloc: Global, program: &Program) -> Result<TailTypes, AllocError>
        requires settled { Settled program.now }
        ensures types { IfOk result (AreTailTypesOf program.now) }
    {
        let mut known = empty_memo(alloc, program)?;
        let mut tails = Vec::new(alloc);
        for place in 0..program.structures.len() {
            tails.push(is_tail(program, place, MAX_DEPTH, &mut known))?;
        }
        Ok(TailTypes { tails })
    }

    /// For each structure, at its number, whether it is of a tail type.
    pub fn as_slice(&self) -> &[bool]
        ensures tails { result.now ≡ self.now.tails.items }
    {
        self.tails.as_slice()
    }

    /// Whether a structure is of a tail type.
    pub fn has(&self, node: TypeId) -> bool
        requires there { (program : Program) × AreTailTypesOf program self.now × (node.0 < length program.structures) }
        ensures tail { (program : Program) → AreTailTypesOf program self.now → node.0 < length program.structures → IsTrue result ↔ IsTailType program node }
    {
        self.tails[node.0 as usize]
    }
}
