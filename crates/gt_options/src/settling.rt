// A draft is settled.
ghost use Rattle.std.specs.Prelude.{◌≡◌, Some, IfErr, IfOk};
ghost use Rattle.gt_markers.specs.Sound.{IsSound};
ghost use Rattle.gt_rules.specs.Faults.{Declares};
ghost use Rattle.gt_rules.specs.Parts.{IsFirstWith};
ghost use Rattle.gt_options.specs.Settlements.{IsOptionStop, IsSettlement};

use gt_declare::declare;
use gt_drafts::{Draft, with_fault};
use gt_markers::{Lookup, first_draft_fault};
use gt_rules::first_program_fault;
use gt_types::{Fault, Program, Stop};
use std::alloc::{AllocError, Global};

/// What a draft comes to.
#[derive(Debug, Drop)]
pub enum Settlement {
    /// The program that it declares.
    Program(Program),
    /// The first fault of its options.
    Fault(Fault),
}

// The earlier of two faults, where there are some.
fn earlier(first: Option<Fault>, second: Option<Fault>) -> Option<Fault>
    ensures first { IsFirstWith first (λ f. second ≡ Some f) result }
{
    match second {
        None => first,
        Some(fault) => with_fault(first, true, fault.number, fault.file, fault.at),
    }
}

// The program that a sound draft declares, or the first fault of its options. It fails only if memory runs out.
fn settlement_of(alloc: Global, draft: &Draft) -> Result<Settlement, AllocError>
    requires sound { IsSound draft.now }
    ensures settled { IfOk result (IsSettlement draft.now) }
{
    let lookup = Lookup::of(alloc, draft)?;
    let program = declare(alloc, draft, &lookup)?;
    let by_draft = first_draft_fault(alloc, draft, &lookup)?;
    let by_program = first_program_fault(alloc, draft, &lookup, &program)?;
    match earlier(by_draft, by_program) {
        None => Ok(Settlement::Program(program)),
        Some(fault) => Ok(Settlement::Fault(fault)),
    }
}

/// The program that a sound draft declares. It stops at the first fault of the options: that at the earliest place, and of those at one
/// place that with the lowest number; or where memory runs out.
pub fn settle(alloc: Global, draft: Draft) -> Result<Program, Stop>
    requires sound { IsSound draft }
    ensures declared { IfOk result (Declares draft) }
    ensures stopped { IfErr result (IsOptionStop draft) }
{
    match settlement_of(alloc, &draft)? {
        Settlement::Program(program) => Ok(program),
        Settlement::Fault(fault) => Err(Stop::At(fault)),
    }
}
