// Which expressions name the structures around their own.
ghost use Rattle.std.specs.Prelude.{◌≡◌, ◌<◌, length, Any, IfOk};
ghost use Rattle.std.specs.Bool.{Decides};
ghost use Rattle.gt_types.specs.Settled.{Settled};
ghost use Rattle.gt_types.specs.declared.program.Program.{Program};
ghost use Rattle.gt_types.specs.Shapes.{count_of, innermost};
ghost use Rattle.gt_types.specs.Contains.{held_by};
ghost use Rattle.gt_types.specs.Paths.{IsInner, own_expressions};
ghost use Rattle.gt_tables.specs.Building.{Tell};
ghost use Rattle.gt_tables.specs.Sharing.{ReadsOutermost, NamesOutermost, desc_in, expressions_in};
ghost use Rattle.gt_tables.specs.Naming.{Names, MayName, HoldsReader, TellReaders};
ghost use Rattle.gt_layout.specs.Progress.{IsWithinDepth, HoldsWithinDepth};

use gt_types::{Base, Expr, Field, MAX_DEPTH, Program, PtrKind, Structure, Ty, TypeId};
use std::alloc::{AllocError, Global};

// Whether a path of an expression begins there.
pub fn names(e: &Expr, base: Base) -> bool
    ensures { Decides result (Names base e.now) }
{
    match e {
        Expr::Int(_) | Expr::Root(_) => false,
        Expr::Path { base: from, .. } => *from == base,
        Expr::One { a, .. } => names(a.get(), base),
        Expr::Two { a, b, .. } => names(a.get(), base) || names(b.get(), base),
        Expr::Cond { test, yes, no } => {
            names(test.get(), base) || names(yes.get(), base) || names(no.get(), base)
        }
    }
}

fn may_name(e: &Option<Expr>, base: Base) -> bool
    ensures { Decides result (MayName base e.now) }
{
    match e {
        Some(e) => names(e, base),
        None => false,
    }
}

// Whether the length in a type names it.
fn count_names(ty: &Ty, base: Base) -> bool
    ensures { Decides result (MayName base (count_of ty.now)) }
{
    match ty {
        Ty::Str(count) => may_name(count, base),
        Ty::Ptr {
            kind: PtrKind::Length(count),
            ..
        } => names(count, base),
        Ty::Tail { len, .. } => names(len, base),
        _ => false,
    }
}

// Whether the `desc` of a union that a type holds by value names it.
fn desc_names(ty: &Ty, base: Base) -> bool
    ensures { Decides result (MayName base (desc_in (innermost ty.now))) }
{
    match ty {
        Ty::Node { desc, .. } => may_name(desc, base),
        Ty::Arr { elem, .. } | Ty::Tail { elem, .. } => desc_names(elem.get(), base),
        _ => false,
    }
}

// Whether the length of a field names it.
fn counts_name(fields: &[Field], base: Base) -> bool
    ensures { Decides result (Any (λ f. MayName base (count_of f.ty)) fields.now) }
{
    fields.iter().any(|f| count_names(&f.ty, base))
}

// Whether the `desc` of a union that a field holds names it.
fn descs_name(fields: &[Field], base: Base) -> bool
    ensures { Decides result (Any (λ f. MayName base (desc_in (innermost f.ty))) fields.now) }
{
    fields.iter().any(|f| desc_names(&f.ty, base))
}

// Whether a structure's own expressions name it: the lengths of its fields, and its own `desc`.
fn own_names(structure: &Structure, base: Base) -> bool
    ensures { Decides result (Any (Names base) (own_expressions structure.now)) }
{
    may_name(&structure.desc, base) || counts_name(structure.fields.as_slice(), base)
}

// The structure that a type holds by value.
pub fn held_by(ty: &Ty) -> Option<TypeId>
    ensures { result ≡ held_by ty.now }
{
    match ty {
        Ty::Node { id, .. } => Some(*id),
        Ty::Arr { elem, .. } | Ty::Tail { elem, .. } => held_by(elem.get()),
        _ => None,
    }
}

// Of each structure, whether its own expressions name the structure that contains it.
pub fn inner_structures(alloc: Global, program: &Program) -> Result<Vec<bool>, AllocError>
    ensures inner { IfOk result (λ flags. Tell program.now flags.items (IsInner program.now)) }
{
    let mut inner = Vec::new(alloc);
    for structure in program.structures.as_slice() {
        inner.push(own_names(structure, Base::Outer))?;
    }
    Ok(inner)
}

// Whether an expression in a structure, apart from what it contains, names the outermost structure.
fn reads_itself(structure: &Structure) -> bool
    ensures { Decides result (Any NamesOutermost (expressions_in structure.now)) }
{
    own_names(structure, Base::Outermost)
        || descs_name(structure.fields.as_slice(), Base::Outermost)
}

// Whether an expression in a structure, or in what it contains, names the outermost structure.
#[cycle(readers)]
fn reads(program: &Program, place: usize, depth: usize, known: &mut Vec<Option<bool>>) -> bool
    requires settled { Settled program.now }
    requires inside { place < length program.now.structures }
    requires all { length known.old.items ≡ length program.now.structures }
    requires shallow { IsWithinDepth program.now place depth }
    requires told { TellReaders program.now known.old.items }
    ensures all { length known.new.items ≡ length known.old.items }
    ensures told { TellReaders program.now known.new.items }
    ensures reads { Decides result (ReadsOutermost program.now (record { 0 = place })) }
{
    if let Some(found) = known[place] {
        return found;
    }
    let structure = &program.structures.as_slice()[place];
    let mut found = reads_itself(structure);
    for field in structure.fields.as_slice() {
        let inside = held_reads(program, &field.ty, depth, known);
        found |= inside;
    }
    known[place] = Some(found);
    found
}

// Whether the structure that a field holds by value is such a one.
#[cycle(readers)]
fn held_reads(program: &Program, ty: &Ty, depth: usize, known: &mut Vec<Option<bool>>) -> bool
    requires settled { Settled program.now }
    requires all { length known.old.items ≡ length program.now.structures }
    requires shallow { HoldsWithinDepth program.now ty.now depth }
    requires told { TellReaders program.now known.old.items }
    ensures all { length known.new.items ≡ length known.old.items }
    ensures told { TellReaders program.now known.new.items }
    ensures reads { Decides result (HoldsReader program.now ty.now) }
{
    match held_by(ty) {
        None => false,
        Some(inner) => reads(program, inner.0 as usize, depth - 1, known),
    }
}

// So many structures of which nothing is known yet.
fn empty_memo(alloc: Global, structures: &[Structure]) -> Result<Vec<Option<bool>>, AllocError>
    ensures all { IfOk result (λ known. length known.items ≡ length structures.now) }
    ensures none { (program : Program) → IfOk result (λ known. TellReaders program known.items) }
{
    let mut known = Vec::new(alloc);
    for _ in structures {
        known.push(None)?;
    }
    Ok(known)
}

// Of each structure, whether it reads the outermost one.
pub fn readers(alloc: Global, program: &Program) -> Result<Vec<bool>, AllocError>
    requires { Settled program.now }
    ensures readers { IfOk result (λ flags. Tell program.now flags.items (ReadsOutermost program.now)) }
{
    let mut known = empty_memo(alloc, program.structures.as_slice())?;
    let mut all = Vec::new(alloc);
    for place in 0..program.structures.len() {
        all.push(reads(program, place, MAX_DEPTH, &mut known))?;
    }
    Ok(all)
}
