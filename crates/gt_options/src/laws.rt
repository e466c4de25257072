//! What follows from the words of the contracts. This call does nothing: its clauses are laws.
ghost use Rattle.std.specs.Prelude.{◌≡◌};
ghost use Rattle.gt_types.specs.declared.faults.Fault.{Fault};
ghost use Rattle.gt_types.specs.declared.program.Program.{Program};
ghost use Rattle.gt_drafts.specs.declared.draft.Draft.{Draft};
ghost use Rattle.gt_markers.specs.Sound.{IsSound};
ghost use Rattle.gt_rules.specs.Faults.{Declares, IsFirstFault};
ghost use Rattle.gt_options.specs.declared.settling.Settlement.{Settlement};
ghost use Rattle.gt_options.specs.Settlements.{IsSettlement};

/// A sound draft has one settlement, and never two: it does not declare a program and have a fault, nor declare two programs, nor have two
/// first faults; and it cannot be that it has none.
pub fn one_settlement()
    ensures one { (draft : Draft) → IsSound draft → ¬ ((settlement : Settlement) → ¬ IsSettlement draft settlement) }
    ensures not_two { (draft : Draft) (settlement other : Settlement) → IsSound draft → IsSettlement draft settlement → IsSettlement draft other → settlement ≡ other }
    ensures not_both { (draft : Draft) (program : Program) (fault : Fault) → IsSound draft → Declares draft program → IsFirstFault draft fault → ⊥ }
{}
