//! What follows from the definitions. These calls do nothing: their clauses are laws.
ghost use Rattle.std.specs.Prelude.{◌≡◌, ◌≤◌, ℕ};
ghost use Rattle.gt_types.specs.declared.program.Program.{Program};
ghost use Rattle.gt_types.specs.Settled.{Settled};
ghost use Rattle.gt_tree.specs.Blocks.{Kind, Chars};
ghost use Rattle.gt_tree.specs.FixedLaws.{MayHold};
ghost use Rattle.gt_graph.specs.Objects.{Graph};
ghost use Rattle.gt_graph.specs.Good.{IsOfTails};
ghost use Rattle.gt_held.specs.Zeros.{HasZero};

/// Blocks that are not of structures of a tail type can be zero, whatever the program: a block of characters with one at least.
pub fn plain_zeros_are_there()
    ensures { (program : Program) (g : Graph) (kind : Kind) (count : ℕ) → Settled program → MayHold program kind → ¬ IsOfTails program kind → (kind ≡ Chars → 1 ≤ count)
        → HasZero program g kind count 0 }
{}
