// The layouts of a program, or the fault 24 where it is too large.
ghost use Rattle.std.specs.Prelude.{◌≡◌, ◌≤◌, true, false, IfErr, IfOk, length};
ghost use Rattle.gt_types.specs.declared.faults.Fault.{Fault};
ghost use Rattle.gt_types.specs.Settled.{Settled};
ghost use Rattle.gt_layout.specs.Planes.{IsLaidOut};
ghost use Rattle.gt_layout.specs.Excess.{IsWithin};
ghost use Rattle.gt_resolve.specs.Placings.{faults_from};
ghost use Rattle.gt_headers.specs.Sizes.{IsSizeFault};
ghost use Rattle.gt_headers.specs.Stops.{IsSizeStop};

use gt_items::Items;
use gt_layout::{LayoutStop, Layouts, layout};
use gt_resolve::place;
use gt_types::{MAX_HEADERS, Program, Stop};
use std::alloc::Global;

/// The layouts of the program that these files declare, or the fault of its sizes.
pub fn lay_out(alloc: Global, files: &[Items], program: &Program) -> Result<Layouts, Stop>
    requires few { length files.now ≤ MAX_HEADERS }
    requires settled { Settled program.now }
    requires structures { length program.now.structures ≡ length (faults_from true 1 files.now) }
    requires roots { length program.now.roots ≡ length (faults_from false 1 files.now) }
    ensures laid_out { IfOk result (IsLaidOut program.now) }
    ensures within { IfOk result (IsWithin program.now) }
    ensures sized { IfOk result (λ layouts. (fault : Fault) → ¬ IsSizeFault files.now program.now fault) }
    ensures stopped { IfErr result (IsSizeStop files.now program.now) }
{
    match layout(alloc, program) {
        Ok(layouts) => Ok(layouts),
        Err(LayoutStop::Memory) => Err(Stop::Memory),
        Err(LayoutStop::TooLarge { structure, root }) => {
            Err(Stop::At(place(files, structure, root)))
        }
    }
}
