// Laws on what headers declare, for callers to cite. The functions do nothing.
ghost use Rattle.gt_types.specs.declared.program.Program.{Program};
ghost use Rattle.gt_types.specs.Settled.{Settled};
ghost use Rattle.gt_drafts.specs.declared.draft.Draft.{Draft};
ghost use Rattle.gt_markers.specs.Sound.{IsSound};
ghost use Rattle.gt_rules.specs.Faults.{Declares};
ghost use Rattle.gt_options.specs.declared.settling.Settlement.TheVariants as Settlement;
ghost use Rattle.gt_options.specs.Settlements.{IsSettlement};

/// A program that a sound draft declares is settled.
pub fn declared_is_settled()
    ensures settled { (draft : Draft) (program : Program) → IsSound draft → Declares draft program → Settled program }
{}

/// So is the program to which a sound draft comes.
pub fn settlement_is_settled()
    ensures settled { (draft : Draft) (program : Program) → IsSound draft → IsSettlement draft (Settlement.Program program) → Settled program }
{}
