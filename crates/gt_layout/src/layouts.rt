// The layout of a program.
ghost use Rattle.std.specs.Prelude.{◌≡◌, ◌<◌, ◌^◌, length, IfOk, IfErr, IsTrue, All};
ghost use Rattle.std.specs.Bool.{Decides};
ghost use Rattle.gt_types.specs.Settled.{Settled};
ghost use Rattle.gt_layout.specs.Storages.{storage_of};
ghost use Rattle.gt_layout.specs.Planes.{IsLaidOut, is_placeable};
ghost use Rattle.gt_layout.specs.Excess.{IsWithin, IsStop};
ghost use Rattle.gt_layout.specs.Excess.{IsFirst};
ghost use Rattle.gt_layout.specs.Progress.{IsLarge, IsLargeAt, IsStatics};

use crate::drafts::{Draft, finish};
use crate::extents::{extent, storage};
use crate::growths::growths_of;
use crate::order::lay_out_all;
use crate::planes::{LayoutStop, Layouts, MAX_SIZE, Plane};
use crate::tails::tail_of;
use gt_fields::FieldNames;
use gt_types::{List, Program, Root, Structure};
use gt_unions::Unions;
use std::alloc::{AllocError, Global};

// Whether a structure is too large without its tail elements, or one of them is.
fn is_too_large(structure: &Structure, plane: &Plane, known: &[Plane]) -> bool
    ensures { Decides result (IsLarge known.now structure.now plane.now) }
{
    plane.size > MAX_SIZE
        || match tail_of(structure.fields.as_slice()) {
            Some(elem) => extent(elem, known).size > MAX_SIZE,
            None => false,
        }
}

// The first structure that is too large.
fn first_too_large(program: &Program, known: &[Plane]) -> Option<u32>
    requires few { length program.now.structures < 2 ^ 32 }
    requires all { length known.now ≡ length program.now.structures }
    ensures { IsFirst (IsLargeAt program.now known.now) result }
{
    for (place, structure) in program.structures.as_slice().iter().enumerate() {
        if is_too_large(structure, &known[place], known) {
            return Some(place as u32);
        }
    }
    None
}

// The static record: its plane, or the first root that ends beyond the limit.
#[derive(Drop)]
enum Statics {
    Within(Plane),
    Beyond(u32),
}

fn lay_out_roots(alloc: Global, roots: &[Root], known: &[Plane]) -> Result<Statics, AllocError>
    requires few { length roots.now < 2 ^ 32 }
    requires placeable { All (λ r. IsTrue (is_placeable (storage_of known.now r.ty))) roots.now }
    ensures { IfOk result (IsStatics known.now roots.now) }
{
    let mut draft = Draft::new(alloc);
    for (place, root) in roots.iter().enumerate() {
        let field = storage(&root.ty, known);
        let begin = field.start(false, draft.end);
        draft.add(field, begin)?;
        if draft.end > 8 * MAX_SIZE as u64 {
            return Ok(Statics::Beyond(place as u32));
        }
    }
    Ok(Statics::Within(finish(alloc, draft)))
}

/// The layouts of all structures and of the static record, the names of all fields, the tables of all unions, and how each grows. It
/// stops exactly where a structure without its tail elements, one tail element of a structure, or the static record takes more than
/// [`MAX_SIZE`](crate::MAX_SIZE) bytes.
pub fn layout(alloc: Global, program: &Program) -> Result<Layouts, LayoutStop>
    requires { Settled program.now }
    ensures laid_out { IfOk result (IsLaidOut program.now) }
    ensures within { IfOk result (IsWithin program.now) }
    ensures stop { IfErr result (IsStop program.now) }
{
    let known = lay_out_all(alloc, program)?;
    let structure = first_too_large(program, known.as_slice());
    let statics = match lay_out_roots(alloc, program.roots.as_slice(), known.as_slice())? {
        Statics::Within(plane) => plane,
        Statics::Beyond(root) => {
            return Err(LayoutStop::TooLarge {
                structure,
                root: Some(root),
            });
        }
    };
    match structure {
        None => {
            let names = FieldNames::of(alloc, program.structures.as_slice())?;
            let unions = Unions::of(alloc, program)?;
            let growths = growths_of(alloc, program, known.as_slice())?;
            Ok(Layouts {
                structures: List::of(known),
                statics,
                names,
                unions,
                growths,
            })
        }
        Some(place) => Err(LayoutStop::TooLarge {
            structure: Some(place),
            root: None,
        }),
    }
}
