ghost use Rattle.std.specs.Prelude.{◌≤◌, length, IfOk, IfErr, ◌≡◌};
ghost use Rattle.gt_resolve.specs.Resolution.{Resolves, IsResolveStop};

use crate::drafting::draft_of;
use crate::first_fault::first_fault;
use gt_drafts::Draft;
use gt_items::Items;
use gt_scope::scope_of;
use gt_shapes::shapes_of;
use gt_types::Stop;
use std::alloc::Global;

/// What the headers declare, in the order of the files, with resolved types and raw options; or their first fault of
/// 11 Redefined, 12 Undefined, 13 ByValueCycle, 14 BadBound and 15 TooMany: the one at the earliest place over all files, and at
/// one place the one with the lowest number. The i-th of the files, from 1, is the file of a fault.
pub fn resolve(alloc: Global, files: &[Items]) -> Result<Draft, Stop>
    requires files { length files.now ≤ 64 }
    ensures draft { IfOk result (Resolves files.now) }
    ensures fault { IfErr result (IsResolveStop files.now) }
{
    let scope = scope_of(alloc, files)?;
    let draft = draft_of(alloc, files, &scope)?;
    let shapes = shapes_of(alloc, draft.structures.as_slice())?;
    match first_fault(alloc, &scope, &draft, &shapes)? {
        None => Ok(draft),
        Some(fault) => Err(Stop::At(fault)),
    }
}
