// The first fault that only the program tells.
ghost use Rattle.std.specs.Prelude.{IfOk};
ghost use Rattle.gt_markers.specs.Lookups.{IsLookupOf};
ghost use Rattle.gt_markers.specs.Sound.{IsSound};
ghost use Rattle.gt_declare.specs.Programs.{IsMadeOf};
ghost use Rattle.gt_rules.specs.Firsts.{IsFirstProgramFault};

use crate::caches::of_caches;
use crate::inner::declared_inner;
use crate::known::Known;
use crate::roots::of_roots;
use crate::structures::of_structures;
use gt_drafts::Draft;
use gt_markers::Lookup;
use gt_paths::PathIndex;
use gt_types::{Fault, Program};
use std::alloc::{AllocError, Global};

/// The first fault of a draft that only the program tells which it declares: at the earliest place, and of those at one place the lowest
/// number. `None` says that there is none. Its time is linear in the draft, but for what paths of options need: see [`gt_paths::PathChecks`]. It fails
/// only if memory runs out.
pub fn first_program_fault(
    alloc: Global,
    draft: &Draft,
    lookup: &Lookup,
    program: &Program,
) -> Result<Option<Fault>, AllocError>
    requires sound { IsSound draft.now }
    requires lookup { IsLookupOf draft.now lookup.now }
    requires made { IsMadeOf draft.now program.now }
    ensures first { IfOk result (IsFirstProgramFault draft.now program.now) }
{
    let inner = declared_inner(alloc, draft)?;
    let index = PathIndex::with_inner(alloc, program, inner)?;
    let known = Known {
        alloc,
        draft,
        lookup,
        program,
        index: &index,
    };
    let earliest = of_structures(None, known)?;
    let earliest = of_roots(earliest, known)?;
    Ok(of_caches(earliest, known))
}
