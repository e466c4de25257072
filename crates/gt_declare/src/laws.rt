//! What follows from the words of the contracts. This call does nothing: its clause is a law.
ghost use Rattle.std.specs.Prelude.{◌≡◌};
ghost use Rattle.gt_types.specs.declared.program.Program.{Program};
ghost use Rattle.gt_drafts.specs.declared.draft.Draft.{Draft};
ghost use Rattle.gt_markers.specs.Sound.{IsSound};
ghost use Rattle.gt_declare.specs.Programs.{IsMadeOf, MakesOneProgram};

/// A sound draft makes one program, and never two.
pub fn one_program()
    ensures { (draft : Draft) → IsSound draft → MakesOneProgram draft }
{}
