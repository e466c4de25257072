// Where paths may go in a union: to members of the common structure's type.
ghost use Rattle.std.specs.Prelude.{◌≡◌, true, false, Contains, IfOk};
ghost use Rattle.std.specs.Bool.{Decides};
ghost use Rattle.gt_types.specs.Paths.{MayStep};
ghost use Rattle.gt_types.specs.Unions.{may_be_active};
ghost use Rattle.gt_paths.specs.Marks.{ArePlain, AreRows, IsRow};
ghost use Rattle.gt_paths.specs.Numbers.{mark_at};
ghost use Rattle.gt_paths.specs.Starts.{IsStartOf, StartsNext, StartsToo, StartsWith};

use crate::starts::{begins_with, join};
use crate::structures::itself;
use gt_types::{Active, Field, List, Program, Structure, TypeId};
use std::alloc::{AllocError, Global};

// With what the members of a union begin that may be active.
#[derive(Clone, Copy)]
enum Start {
    /// With any structure: there are no such members.
    Free,
    /// With what this structure begins with.
    From(TypeId),
    /// With no structure.
    Apart,
}

fn may_be_active(active: Active) -> bool
    ensures { result ≡ may_be_active active }
{
    match active {
        Active::Tag(_) | Active::Other => true,
        Active::Always | Active::Never => false,
    }
}

fn starts_with(program: &Program, start: Start, node: TypeId) -> bool
    ensures { Decides result (StartsWith program.now start node) }
{
    match start {
        Start::Free => true,
        Start::From(from) => begins_with(program, from, node),
        Start::Apart => false,
    }
}

// The start of one more structure.
fn join_structure(program: &Program, start: Start, own: TypeId) -> Start
    ensures next { StartsToo program.now start own result }
{
    match start {
        Start::Free => Start::From(own),
        Start::Apart => Start::Apart,
        Start::From(from) => match join(program, from, own) {
            Some(meet) => Start::From(meet),
            None => Start::Apart,
        },
    }
}

// The start of one more member.
fn start_with(program: &Program, start: Start, f: &Field) -> Start
    ensures next { StartsNext program.now start f.now result }
{
    if !may_be_active(f.active) {
        return start;
    }
    match itself(&f.ty) {
        Some(own) => join_structure(program, start, own),
        None => Start::Apart,
    }
}

fn start_of(program: &Program, fields: &[Field]) -> Start
    ensures start { IsStartOf program.now fields.now result }
{
    let mut start = Start::Free;
    for f in fields {
        start = start_with(program, start, f);
    }
    start
}

fn is_marked(marks: &List<bool>, node: TypeId) -> bool
    ensures { result ≡ mark_at marks.now node.0 }
{
    match marks.get(node.0 as usize) {
        None => false,
        Some(mark) => *mark,
    }
}

// Whether a path may go to a member of a union.
fn may_step(program: &Program, plain: &List<bool>, start: Start, s: &Structure, f: &Field) -> bool
    requires plain { ArePlain program.now plain.now }
    requires start { IsStartOf program.now s.now.fields start }
    requires kind { s.now.is_union ≡ true }
    requires there { Contains s.now.fields f.now }
    ensures decides { Decides result (MayStep program.now s.now f.now) }
{
    match itself(&f.ty) {
        None => false,
        Some(node) => {
            if !is_marked(plain, node) {
                return false;
            }
            starts_with(program, start, node)
        }
    }
}

// Whether a path may go to each of the members of a union.
fn union_row(
    alloc: Global,
    program: &Program,
    plain: &List<bool>,
    s: &Structure,
) -> Result<List<bool>, AllocError>
    requires plain { ArePlain program.now plain.now }
    requires kind { s.now.is_union ≡ true }
    ensures row { IfOk result (IsRow program.now s.now) }
{
    let start = start_of(program, s.fields.as_slice());
    let mut row = Vec::new(alloc);
    for f in s.fields.as_slice() {
        row.push(may_step(program, plain, start, s, f))?;
    }
    Ok(List::of(row))
}

// A path may go to each field of a struct.
fn is_free(program: &Program, s: &Structure, f: &Field) -> bool
    requires kind { s.now.is_union ≡ false }
    requires there { Contains s.now.fields f.now }
    ensures decides { Decides result (MayStep program.now s.now f.now) }
{
    true
}

fn struct_row(alloc: Global, program: &Program, s: &Structure) -> Result<List<bool>, AllocError>
    requires kind { s.now.is_union ≡ false }
    ensures row { IfOk result (IsRow program.now s.now) }
{
    let mut row = Vec::new(alloc);
    for f in s.fields.as_slice() {
        row.push(is_free(program, s, f))?;
    }
    Ok(List::of(row))
}

fn row_of(
    alloc: Global,
    program: &Program,
    plain: &List<bool>,
    s: &Structure,
) -> Result<List<bool>, AllocError>
    requires plain { ArePlain program.now plain.now }
    ensures row { IfOk result (IsRow program.now s.now) }
{
    if s.is_union {
        union_row(alloc, program, plain, s)
    } else {
        struct_row(alloc, program, s)
    }
}

/// For each structure, whether a path may go to each of its fields. Its only error is out of memory.
pub fn step_rows(
    alloc: Global,
    program: &Program,
    plain: &List<bool>,
) -> Result<List<List<bool>>, AllocError>
    requires plain { ArePlain program.now plain.now }
    ensures rows { IfOk result (AreRows program.now) }
{
    let mut rows = Vec::new(alloc);
    for s in program.structures.as_slice() {
        rows.push(row_of(alloc, program, plain, s)?)?;
    }
    Ok(List::of(rows))
}
